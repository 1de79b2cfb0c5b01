// The rows of a short list whose boxes stand ready, by marks. Each pair is written, and one that is not handed out is written over: no branch goes by
// what cannot be foreseen.
#![tactic(auto)]

ghost use Rattle.std.specs.Prelude.{◌+◌, ◌-◌, ◌*◌, ◌≤◌, ◌≡◌, length};
ghost use Rattle.short_lists.specs.Short.{ready_box, decide_by, ready, pair_outputs, try_row, short_fits, short_rows, ShortRowAsks};

use grid::Box;

// Whether there is room for the rows of a list: it has at most 64 lines, a mark and four floats for each, and no count comes near the greatest.
pub fn fits(list: usize, marks: usize, room: usize, hits: usize) -> bool
    ensures { result ≡ short_fits list marks room hits }
{
    if 64 < list {
        return false;
    }
    if marks < list {
        return false;
    }
    if room < list * 4 {
        return false;
    }
    hits <= 4611686018427387904
}

// Box u of a slice that has four floats for each.
fn box_in(room: &[f64], u: usize) -> Box
    requires { u * 4 + 4 ≤ length room.now }
    ensures { result ≡ ready_box room.now u }
{
    let k = u * 4;
    Box {
        min_x: room[k],
        min_y: room[k + 1],
        max_x: room[k + 2],
        max_y: room[k + 3],
    }
}

// Whether a pair is handed out, by whether the boxes overlap and by the bits that the marks of both lines have in common.
fn keeps(
    near: bool,
    common: u32,
    a: u32,
    b: u32,
    starts: &[u32],
    listing: &[u32],
    counts: &[u32],
) -> bool
    ensures { result ≡ decide_by near common a b starts.now listing.now counts.now }
{
    if common == 1 {
        if near {
            if by_line::first::met_before(a, b, starts, listing, counts) {
                return false;
            }
            return true;
        }
        return false;
    }
    near & (common == 0)
}

// Entry i of a list and each later one.
fn scan_row(
    i: usize,
    list: &[u32],
    marks: &[u32],
    room: &[f64],
    starts: &[u32],
    listing: &[u32],
    counts: &[u32],
    first: &mut [u32],
    second: &mut [u32],
    hits: usize,
) -> usize
    requires { ShortRowAsks (ready list.now marks.now room.now starts.now listing.now counts.now) i hits }
    ensures { let w = ready list.now marks.now room.now starts.now listing.now counts.now in
        pair_outputs first.new second.new result
        ≡ try_row w i (length list.now - (i + 1)) (i + 1) (pair_outputs first.old second.old hits) }
{
    let line = list[i];
    let bounds = box_in(room, i);
    let mark = marks[i];
    let mut hits = hits;
    let mut j = i + 1;
    while j < list.len() {
        let other = box_in(room, j);
        let near = bounds.overlaps_with(other);
        let common = mark & marks[j];
        let b = list[j];
        j = j + 1;
        lent::put_pair(first, second, hits, line, b);
        if keeps(near, common, line, b, starts, listing, counts) {
            hits = hits + 1;
        }
    }
    hits
}

// Each entry of a list with every later one; where there is no room nothing is done.
pub fn scan(
    list: &[u32],
    marks: &[u32],
    room: &[f64],
    starts: &[u32],
    listing: &[u32],
    counts: &[u32],
    first: &mut [u32],
    second: &mut [u32],
    hits: usize,
) -> usize
    ensures { let w = ready list.now marks.now room.now starts.now listing.now counts.now in
        pair_outputs first.new second.new result ≡ short_rows w (pair_outputs first.old second.old hits) }
{
    if fits(list.len(), marks.len(), room.len(), hits) {
        let mut hits = hits;
        for i in 0..list.len() {
            hits = scan_row(
                i, list, marks, room, starts, listing, counts, first, second, hits,
            );
        }
        return hits;
    }
    hits
}
