// Bytes written into a lent area: copying, moving and clearing, in the words of the contracts that cite it. Bytes are copied and moved by loops: the library's
// methods call `memmove`, and the archive for C needs `memcpy` and `memset` from outside and nothing else.
#![tactic(auto)]

ghost use Rattle.std.specs.Prelude.{◌≡◌, ◌++◌, ◌+◌, ◌≤◌, length, drop, replicate};
ghost use Rattle.std.proofs.Math.Seq.{paste};

// Copies a text to the front of an area; what is behind it stays.
pub fn copy_in(from: &[u8], to: &mut [u8])
    requires { length from.now ≤ length to.old }
    ensures { to.new ≡ from.now ++ drop (length from.now) to.old }
{
    for i in 0..from.len() {
        to[i] = from[i];
    }
}

// Moves the `count` bytes at `from` to `to`, up or down, as they were before; all other bytes stay. Down they go from the front on and up from the back on, so
// that each is read before it is written over.
pub fn shift(area: &mut [u8], from: usize, to: usize, count: usize)
    requires { (from + count ≤ length area.old) × (to + count ≤ length area.old) }
    ensures { area.new ≡ paste area.old to (drop from area.old) count }
{
    if to <= from {
        for i in 0..count {
            area[to + i] = area[from + i];
        }
    } else {
        for i in (0..count).rev() {
            area[to + i] = area[from + i];
        }
    }
}

// Sets every byte to zero.
pub fn fill_zero(area: &mut [u8])
    ensures { area.new ≡ replicate (length area.old) 0 }
{
    area.fill(0);
}
