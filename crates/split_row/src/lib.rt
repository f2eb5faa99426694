// A row of units to fields, and what those become behind the output's used part. A row with nothing to divide it and no sign of patterns is one field, its
// own bytes. Any other row is cut at its break marks. The walk over a part is one pass of two nested loops: the outer one takes field by field, the inner
// one finds a field's end.
#![tactic(auto)]

ghost use Rattle.std.specs.Prelude.{◌≡◌, ◌≤◌, ◌*◌, length, take};
ghost use Rattle.stages.specs.Numbers.{image_limit, row_limit};
ghost use Rattle.stages.specs.Bytes.{text, blanks};
ghost use Rattle.stages.specs.Images.{lookup, held, held_texts};
ghost use Rattle.stages.specs.Split.{split, ifs_or, broken, split_parts, fields_of_row};
ghost use Rattle.stages.specs.Paths.{texts_of_fields};
ghost use Rattle.text.specs.Rows.{row_of};
ghost use Rattle.table.specs.Places.{Listed, Table};
ghost use Rattle.split_field.specs.Answers.{Says, Puts};
ghost use Rattle.split_row.specs.Quiet.{quiet_unit, quiet};

use split_field::WriteError;
use text::marks;

// Splits a part of a row into its fields and writes what they become. Each field is taken where it stands, since the walk never comes back to it. All fields
// are checked for a class before one that does not fit refuses the part, so the walk goes on behind it.
fn put_fields(
    row: &mut [u8],
    ifs: &[u8],
    paths: &[u8],
    out: &mut [u8],
    used: usize,
) -> Result<usize, WriteError>
    requires used_in_bounds { (used ≤ length out.old) × (length out.old ≤ image_limit) }
    requires listed { Listed paths.now × (length row.old ≤ 2 * row_limit) }
    ensures { Says (texts_of_fields (held_texts paths.now) (split ifs.now (row_of row.old))) used out.old
        out.new result }
{
    let top = split_delimiter::highest_of(ifs);
    let mut at = split_delimiter::skip_white(row, 0, ifs);
    let mut len = used;
    // No Result of a length: where a field had no room the later ones are still tried from `len` on.
    let mut full = false;
    while row.len() - at > 1 {
        let mut end = at;
        // Document 01 names the form: the inner walk leaves by break with the next place.
        let next = loop {
            if !split_delimiter::goes_on(row, end, ifs, top) {
                break split_delimiter::behind_field(row, end, ifs);
            }
            end += 2;
        };
        match split_field::put_field(&mut row[at..end], paths, out, len) {
            Ok(n) => len = n,
            Err(WriteError::BadClass) => return Err(WriteError::BadClass),
            Err(WriteError::NoRoom) => full = true,
        }
        at = next;
    }
    if full {
        Err(WriteError::NoRoom)
    } else {
        Ok(len)
    }
}

// Writes the fields of a row: "each part is split by itself". As with fields, a part that does not fit refuses the row only when the later ones have
// been checked for a class.
fn put_parts(
    row: &mut [u8],
    ifs: &[u8],
    paths: &[u8],
    out: &mut [u8],
    used: usize,
) -> Result<usize, WriteError>
    requires used_in_bounds { (used ≤ length out.old) × (length out.old ≤ image_limit) }
    requires listed { Listed paths.now × (length row.old ≤ 2 * row_limit) }
    ensures { Says (texts_of_fields (held_texts paths.now) (split_parts ifs.now (broken (row_of row.old)))) used
        out.old out.new result }
{
    let mut at: usize = 0;
    let mut to = used;
    // As `full` above.
    let mut short = false;
    while at + 1 < row.len() {
        let end = split_delimiter::part_end(row, at);
        let next = end + 2;
        let written = put_fields(&mut row[at..end], ifs, paths, out, to);
        match written {
            Ok(n) => to = n,
            Err(WriteError::BadClass) => return written,
            Err(WriteError::NoRoom) => short = true,
        }
        at = next;
    }
    if short {
        Err(WriteError::NoRoom)
    } else {
        Ok(to)
    }
}

// IFS as it stands in the variables, or what it means where it is unset.
fn ifs_of<'a>(vars: &'a [u8], unset: &'a [u8]) -> &'a [u8]
    requires table { Table vars.now }
    requires unset_value { unset.now ≡ blanks }
    ensures { result.now ≡ ifs_or (lookup (text "IFS") (held vars.now)) }
{
    match table_find::look_up_ifs(vars) {
        Some(value) => &vars[value.from..value.to],
        None => unset,
    }
}

// Is a unit nothing but its byte in every row, or N? A quoted one is, and a literal one that is no `*`, `?` or `[`.
#[tactic(auto, unfolding(crate::specs::Quiet::quiet_unit))]
fn is_quiet_unit(b: u8, mark: u8) -> bool
    ensures { result ≡ quiet_unit b mark }
{
    match mark {
        marks::LITERAL => !text::is_in(b, b"*?["),
        marks::EXPANDED | marks::BREAK => false,
        _ => true,
    }
}

// Is every unit of a row such a one?
fn is_quiet(row: &[u8]) -> bool
    ensures { result ≡ quiet row.now }
{
    let (units, _) = row.as_chunks::<2>();
    units.iter().all(|[b, mark]| is_quiet_unit(*b, *mark))
}

// Writes the fields of a word's row behind the first `used` bytes of the output, IFS being what it is in the variables now: "IFS as it stands after the
// word's own stores; unset means space, tab, newline". Nobody asks for IFS where the row is quiet. The row is spent.
pub fn put_word_fields(
    row: &mut [u8],
    vars: &[u8],
    vars_used: usize,
    paths: &[u8],
    out: &mut [u8],
    used: usize,
) -> Result<usize, WriteError>
    requires vars_used_in_bounds { (vars_used ≤ length vars.now) × Table (take vars_used vars.now) }
    requires used_in_bounds { (used ≤ length out.old) × (length out.old ≤ image_limit) }
    requires listed { Listed paths.now × (length row.old ≤ 2 * row_limit) }
    ensures { Puts (texts_of_fields (held_texts paths.now)
        (fields_of_row (held (take vars_used vars.now)) (row_of row.old))) used out.old out.new result }
{
    if row.len() > 1 && is_quiet(row) {
        return Ok(split_field::put_own(row, out, used)?);
    }
    let ifs = ifs_of(&vars[..vars_used], b" \t\n");
    put_parts(row, ifs, paths, out, used)
}
