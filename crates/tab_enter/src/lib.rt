// A line into a table: the record it says is entered at its place, or why it is none is told.
#![tactic(auto)]

ghost use Rattle.std.specs.Prelude.{◌≡◌, true, false, ◌≤◌, length, take};
ghost use Rattle.stages.specs.Numbers.{image_limit, paths_limit};
ghost use Rattle.stages.specs.Images.{held, held_texts};
ghost use Rattle.table.specs.Kinds.{in_twos};
ghost use Rattle.table.specs.Places.{Table};
ghost use Rattle.table_insert.specs.Added.{Column};
ghost use Rattle.tab_escape.specs.Escapes.{read_text};
ghost use Rattle.tab_enter.specs.Records.{alone, records_by, limit_by, TableBy};
ghost use Rattle.tab_enter.specs.Entries.{entry, pair_of, path_of, entry_of, fault_of_lem, entered, Enters};

use tab_escape::Fault;
use table::Kind;
use table_insert::AddError;
use text::numbers;

const EQUALS: u8 = b'=';

// Enters a record of two texts at its place, if its key is new and the image has room. Answers the length of the image with it.
fn enter(image: &mut [u8], used: usize, key: &[u8], value: &[u8]) -> Result<usize, Fault>
    requires used_le_image_limit { (used ≤ image_limit) × (image_limit ≤ length image.old) }
    requires table { Table (take used image.old) }
    ensures { Enters true (entered true (entry key.now value.now) (held (take used image.old)))
        image.old image.new result }
{
    if table_find::look_up(&image[..used], key).is_some() {
        return Err(Fault::Twice);
    }
    table_store::store(image, used, key, value, numbers::IMAGE_LIMIT).map_err(|_| Fault::TooLong)
}

// Enters the record of a line of variables or homes: a key, `=`, and the value's text.
fn enter_pair(
    kind: Kind,
    line: &[u8],
    image: &mut [u8],
    used: usize,
    work: &mut [u8],
) -> Result<usize, Fault>
    requires kind_value { in_twos kind ≡ true }
    requires used_le_image_limit { (used ≤ image_limit) × (image_limit ≤ length image.old) × (length line.now ≤ length work.old) }
    requires table { Table (take used image.old) }
    ensures { Enters true (entered true (pair_of kind line.now) (held (take used image.old))) image.old
        image.new result }
{
    let end = tab_escape::find(line, EQUALS);
    if line.len() <= end {
        return Err(Fault::NoEquals);
    }
    if !table::key_fits(kind, b"", &line[..end]) {
        return Err(Fault::NoKey);
    }
    let start = end + 1;
    let n = tab_escape::read_text(&line[start..], work)?;
    enter(image, used, &line[..end], &work[..n])
}

// Why a path is not entered.
fn fault_of(error: AddError) -> Fault
    ensures { result ≡ fault_of_lem error }
{
    match error {
        AddError::Twice => Fault::Twice,
        AddError::NoRoom => Fault::TooLong,
    }
}

// Enters the record of a line of paths: the path's text.
fn enter_path(line: &[u8], image: &mut [u8], used: usize, work: &mut [u8]) -> Result<usize, Fault>
    requires used_le_paths_limit { (used ≤ paths_limit) × (paths_limit ≤ length image.old) × (length line.now ≤ length work.old) }
    requires column { Column (take used image.old) }
    ensures { Enters false (entered false (path_of (read_text line.now)) (alone (held_texts (take used image.old))))
        image.old image.new result }
{
    let n = tab_escape::read_text(line, work)?;
    if n == 0 {
        return Err(Fault::NoKey);
    }
    table_insert::add(image, used, &work[..n], numbers::PATHS_LIMIT).map_err(fault_of)
}

// Enters the record of a line into the image that the first `used` bytes are. The bytes from the new image's end on stay; where the line is no record that can
// be entered, all bytes stay. Answers the length of the new image. Fields have no keys: no line is a record of them. The work area has room for the line.
pub fn enter_line(
    kind: Kind,
    line: &[u8],
    image: &mut [u8],
    used: usize,
    work: &mut [u8],
) -> Result<usize, Fault>
    requires used_bound { (used ≤ limit_by (in_twos kind)) × (limit_by (in_twos kind) ≤ length image.old) × (length line.now ≤ length work.old) }
    requires table_by { TableBy (in_twos kind) (take used image.old) }
    ensures { Enters (in_twos kind)
        (entered (in_twos kind) (entry_of kind line.now) (records_by (in_twos kind) (take used image.old))) image.old
        image.new result }
{
    match kind {
        Kind::Variables | Kind::Homes => enter_pair(kind, line, image, used, work),
        Kind::Paths => enter_path(line, image, used, work),
        Kind::Fields => Err(Fault::NoKey),
    }
}
