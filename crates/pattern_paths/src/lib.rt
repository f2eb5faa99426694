// The walk over an image of paths: from a place on, the next path that a pattern matches. From the image's first record on, again and again
// from where the last one ended, it gives all matching paths in order.
#![tactic(auto)]

ghost use Rattle.std.specs.Prelude.{List};
ghost use Rattle.stages.specs.Pattern.{Element};
ghost use Rattle.pattern_cell.specs.Cells.{Shows, Shown, Trails};
ghost use Rattle.pattern_paths.specs.Chosen.{Walks, NextSays};

use table::Part;

// The first of the paths from a place on that the pattern's cells match: where it stands, and the search for those behind it goes on where it ends. No star
// stands in the cells from `last` on.
pub fn next_path(paths: &[u8], at: usize, cells: &[u16], sets: &[u64], last: usize) -> Option<Part>
    requires walks { Walks paths.now at }
    requires shown { Shown sets.now cells.now × Trails cells.now last }
    ensures { (es : List Element) → Shows sets.now cells.now es → NextSays es paths.now at result }
{
    let mut i = at;
    while let Ok(Some(end)) = table::text_at(paths, i) {
        let start = i + 2;
        if pattern_match::matches(cells, sets, &paths[start..end], true, last) {
            return Some(Part {
                from: start,
                to: end,
            });
        }
        i = end;
    }
    None
}
