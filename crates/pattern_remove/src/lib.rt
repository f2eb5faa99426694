// The four removals: what is left of a value where its shortest or longest matching suffix or prefix is dropped. The cuts of the value are tried one after
// the other, from its end or from its start; the first whose dropped part matches is taken. One walk over the pattern's segments, the cells between its stars,
// finds beforehand which cuts the stars leave; of these only the cells before the first star, or behind the last, are asked: pattern times value in all.
#![tactic(auto)]

ghost use Rattle.std.specs.Prelude.{◌≡◌, List, ◌+◌, ◌≤◌, leb, length, take, drop};
ghost use Rattle.stages.specs.Pattern.{Element};
ghost use Rattle.stages.specs.Syntax.{suffix, prefix};
ghost use Rattle.stages.specs.Removal.{removed, from_end, cut_at};
ghost use Rattle.text.specs.Cases.{side_of, reach_of};
ghost use Rattle.pattern_cell.specs.Cells.{Shows, Shown, Trails};
ghost use Rattle.pattern_remove.specs.Cuts.{CutsAt, matched_at};
ghost use Rattle.pattern_remove.specs.Bounds.{stands_at, Last, First, Shortest, starred, StarsAt, Bounds};

// What the pattern's stars leave of the cuts: all, if it has none; nothing; or those within the cut of the shortest part that it matches from its first star
// on, for suffixes, or up to its last, for prefixes. `first` is the place of the first star, `last` the one behind the last.
#[derive(Clone, Copy)]
enum Bound {
    Free,
    Nothing,
    Within {
        first: usize,
        last: usize,
        place: usize,
    },
}

// Whether so many bytes have room between two places.
fn has_room(from: usize, to: usize, count: usize) -> bool
    ensures { result ≡ leb (from + count) to }
{
    from <= to && count <= to - from
}

// Whether a segment matches the bytes from a place on.
fn stands_at(segment: &[u16], sets: &[u64], value: &[u8], at: usize) -> bool
    requires shown { Shown sets.now segment.now }
    requires trails { Trails segment.now 0 }
    requires segment_in_bounds { at + length segment.now ≤ length value.now }
    ensures { (x : List Element) → Shows sets.now segment.now x → result ≡ stands_at x value.now at }
{
    pattern_match::matches(segment, sets, &value[at..at + segment.len()], false, 0)
}

// The last place where a segment stands and ends at `top` or before.
fn last_place(segment: &[u16], sets: &[u64], value: &[u8], top: usize) -> Option<usize>
    requires shown { Shown sets.now segment.now }
    requires trails { Trails segment.now 0 }
    requires top_in_bounds { top ≤ length value.now }
    ensures { (x : List Element) → Shows sets.now segment.now x → Last x value.now top result }
{
    if top < segment.len() {
        return None;
    }
    for place in (0..top - segment.len() + 1).rev() {
        if stands_at(segment, sets, value, place) {
            return Some(place);
        }
    }
    None
}

// The first place from `low` on where a segment stands.
fn first_place(segment: &[u16], sets: &[u64], value: &[u8], low: usize) -> Option<usize>
    requires shown { Shown sets.now segment.now }
    requires trails { Trails segment.now 0 }
    ensures { (x : List Element) → Shows sets.now segment.now x → First x value.now low result }
{
    if value.len() < segment.len() {
        return None;
    }
    for at in low..value.len() - segment.len() + 1 {
        if stands_at(segment, sets, value, at) {
            return Some(at);
        }
    }
    None
}

// Where the shortest suffix begins that the pattern matches from its first star on: its segments from right to left, the last one at the
// value's end, each other at its last place before the one behind it.
fn shortest_suffix(
    value: &[u8],
    cells: &[u16],
    sets: &[u64],
    first: usize,
    last: usize,
) -> Option<usize>
    requires shown { Shown sets.now cells.now }
    requires stars_at { StarsAt cells.now first last }
    ensures { (p : List Element) → Shows sets.now cells.now p → Shortest suffix (drop first p) value.now result }
{
    let count = cells.len() - last;
    if value.len() < count {
        return None;
    }
    let mut top = value.len() - count;
    if !stands_at(&cells[last..], sets, value, top) {
        return None;
    }
    let mut star = last - 1;
    while first < star {
        let from = pattern_cell::last_star(&cells[..star]);
        top = last_place(&cells[from..star], sets, value, top)?;
        star = from - 1;
    }
    Some(top)
}

// Where the shortest prefix ends that the pattern matches up to its last star: its segments from left to right, the first one at the value's
// start, each other at its first place behind the one before it.
fn shortest_prefix(
    value: &[u8],
    cells: &[u16],
    sets: &[u64],
    first: usize,
    last: usize,
) -> Option<usize>
    requires shown { Shown sets.now cells.now }
    requires stars_at { StarsAt cells.now first last }
    ensures { (p : List Element) → Shows sets.now cells.now p → Shortest prefix (take last p) value.now result }
{
    if value.len() < first {
        return None;
    }
    if !stands_at(&cells[..first], sets, value, 0) {
        return None;
    }
    let mut low = first;
    let mut from = first + 1;
    while from < last {
        let count = pattern_cell::first_star(&cells[from..]);
        low = first_place(&cells[from..from + count], sets, value, low)? + count;
        from += count + 1;
    }
    Some(low)
}

// The one of the two that a removal asks for.
fn shortest(
    value: &[u8],
    cells: &[u16],
    sets: &[u64],
    suffix: bool,
    first: usize,
    last: usize,
) -> Option<usize>
    requires shown { Shown sets.now cells.now }
    requires stars_at { StarsAt cells.now first last }
    ensures { (p : List Element) → Shows sets.now cells.now p →
        Shortest (side_of suffix) (starred (side_of suffix) first last p) value.now result }
{
    if suffix {
        shortest_suffix(value, cells, sets, first, last)
    } else {
        shortest_prefix(value, cells, sets, first, last)
    }
}

// What the pattern's stars leave of the cuts.
fn bound_of(value: &[u8], cells: &[u16], sets: &[u64], suffix: bool) -> Bound
    requires { Shown sets.now cells.now }
    ensures { (p : List Element) → Shows sets.now cells.now p →
        Bounds (side_of suffix) cells.now p value.now result }
{
    let last = pattern_cell::last_star(cells);
    if last == 0 {
        return Bound::Free;
    }
    let first = pattern_cell::first_star(cells);
    match shortest(value, cells, sets, suffix, first, last) {
        None => Bound::Nothing,
        Some(place) => Bound::Within { first, last, place },
    }
}

// The part that a cut at k drops, the suffix from k on or the prefix up to k, matches a pattern without a star.
fn drops_plain(value: &[u8], cells: &[u16], sets: &[u64], suffix: bool, k: usize) -> bool
    requires shown { Shown sets.now cells.now }
    requires trails { Trails cells.now 0 }
    requires k_in_bounds { k ≤ length value.now }
    ensures { (p : List Element) → Shows sets.now cells.now p → result ≡ matched_at (side_of suffix) p value.now k }
{
    if suffix {
        return pattern_match::matches(cells, sets, &value[k..], false, 0);
    }
    pattern_match::matches(cells, sets, &value[..k], false, 0)
}

// The part that a cut at k drops matches. A suffix within the bound is handed over whole: its elements before the first star decide, so that it
// fails among them or is the one that is looked for. A prefix is asked only for the elements behind the last star.
fn drops_match(
    value: &[u8],
    cells: &[u16],
    sets: &[u64],
    suffix: bool,
    k: usize,
    bound: Bound,
) -> bool
    requires shown { Shown sets.now cells.now }
    requires k_in_bounds { k ≤ length value.now }
    requires bounds { (p : List Element) → Shows sets.now cells.now p → Bounds (side_of suffix) cells.now p value.now bound }
    ensures { (p : List Element) → Shows sets.now cells.now p → result ≡ matched_at (side_of suffix) p value.now k }
{
    match bound {
        Bound::Free => drops_plain(value, cells, sets, suffix, k),
        Bound::Nothing => false,
        Bound::Within { first, last, place } => {
            if suffix {
                return has_room(k, place, first)
                    && pattern_match::matches(cells, sets, &value[k..], false, last);
            }
            let count = cells.len() - last;
            has_room(place, k, count) && stands_at(&cells[last..], sets, value, k - count)
        }
    }
}

// The i-th cut that is tried of a value of n bytes.
fn cut_at(down: bool, n: usize, i: usize) -> usize
    requires { i ≤ n }
    ensures { result ≡ cut_at down n i }
{
    if down { n - i } else { i }
}

// The shortest suffix and the longest prefix are tried from the value's end.
fn from_end(suffix: bool, long: bool) -> bool
    ensures { result ≡ from_end (side_of suffix) (reach_of long) }
{
    suffix != long
}

// Where the value is cut: the first cut tried whose dropped part matches, else the one that drops nothing.
fn cut_place(
    value: &[u8],
    cells: &[u16],
    sets: &[u64],
    suffix: bool,
    down: bool,
    bound: Bound,
) -> usize
    requires shown { Shown sets.now cells.now }
    requires bounds { (p : List Element) → Shows sets.now cells.now p → Bounds (side_of suffix) cells.now p value.now bound }
    ensures { (p : List Element) → Shows sets.now cells.now p → CutsAt (side_of suffix) down p value.now result }
{
    let n = value.len();
    // There are n + 1 cuts.
    for i in 0..n + 1 {
        let k = cut_at(down, n, i);
        if drops_match(value, cells, sets, suffix, k, bound) {
            return k;
        }
    }
    if suffix { n } else { 0 }
}

// What a removal leaves: "a part of the stored value itself".
pub fn removed<'a>(
    value: &'a [u8],
    cells: &[u16],
    sets: &[u64],
    suffix: bool,
    long: bool,
) -> &'a [u8]
    requires { Shown sets.now cells.now }
    ensures { (es : List Element) → Shows sets.now cells.now es →
        result.now ≡ removed (side_of suffix) (reach_of long) es value.now }
{
    let down = from_end(suffix, long);
    let bound = bound_of(value, cells, sets, suffix);
    let k = cut_place(value, cells, sets, suffix, down, bound);
    if suffix { &value[..k] } else { &value[k..] }
}
