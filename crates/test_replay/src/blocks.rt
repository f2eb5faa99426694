// The block that cases are read into: it holds so many bytes, and each case is a line of them, taken from the front.
ghost use Rattle.std.specs.Prelude.{◌≡◌, ◌≤◌, length};
ghost use Rattle.system.specs.Counts.{IsPrefixLen};

use std::io::Read;

const NEWLINE: u8 = b'\n';

// Reads behind the bytes that the block holds, and answers how many it holds then.
pub(crate) fn read_behind<R: Read>(input: &mut R, block: &mut [u8], have: usize) -> usize
    requires { have ≤ length block.old }
    ensures { (result ≤ length block.new) × (length block.new ≡ length block.old) }
{
    have + system::read_full(input, &mut block[have..])
}

// The place of the first newline among the bytes that the block holds, or their end.
pub(crate) fn line_end(block: &[u8], have: usize) -> usize
    requires { have ≤ length block.now }
    ensures { (result ≤ have) × (IsPrefixLen result block.now) }
{
    block[..have]
        .iter()
        .position(|b| *b == NEWLINE)
        .unwrap_or(have)
}

// Drops a line and its newline from the block's front, and answers how many bytes it holds then.
pub(crate) fn drop_line(block: &mut [u8], have: usize, end: usize) -> usize
    requires { (end ≤ have) × (have ≤ length block.old) }
    ensures { result ≤ length block.new }
{
    if end == have {
        return 0;
    }
    let rest = end + 1;
    block.copy_within(rest..have, 0);
    have - rest
}
