// A row of a visit is the tests that share their place and their first line. Of each test it is asked whether its pair is handed out.
ghost use Rattle.std.specs.Prelude.{◌≡◌, ◌-◌};
ghost use Rattle.grid.specs.Domain.{lines, count};
ghost use Rattle.seek.specs.Inside.{numbers};
ghost use Rattle.visit.specs.Inside.{LineAsks};
ghost use Rattle.visit.specs.Overlap.{overlap};
ghost use Rattle.first_tests.specs.InsideScan.{keep_at, PlaceAsks, RowHandedOut, ScanAsks};
ghost use Rattle.first_tests.specs.InsideMarked.{MarkedPair, MarkedRow};
ghost use Rattle.once.specs.Inside.{row_of, RowHeld};

use crate::boxes;
use grid::Box;

// The first line of a row, with its box, and 1 if the marks that the row goes by are sure, else 0.
#[derive(Clone, Copy)]
pub(crate) struct Row {
    pub first: u32,
    pub sure: u32,
    pub bounds: Box,
}

pub(crate) fn row_of(
    first: u32,
    sure: u32,
    start_x: &[f64],
    start_y: &[f64],
    end_x: &[f64],
    end_y: &[f64],
) -> Row
    requires { LineAsks (lines start_x.now start_y.now end_x.now end_y.now) first }
    ensures { result ≡ row_of (lines start_x.now start_y.now end_x.now end_y.now) first sure }
{
    let bounds = boxes::box_at(start_x, start_y, end_x, end_y, first);
    Row {
        first,
        sure,
        bounds,
    }
}

// Whether the pair of a test is handed out: the boxes overlap, and no cell that is behind lists both lines. If the marks of both lines have a bit above
// the lowest in common, one does; else the boxes are asked first.
fn keeps(
    row: Row,
    common: u32,
    b: u32,
    start_x: &[f64],
    start_y: &[f64],
    end_x: &[f64],
    end_y: &[f64],
    starts: &[u32],
    listing: &[u32],
    counts: &[u32],
) -> bool
    requires { let ls = lines start_x.now start_y.now end_x.now end_y.now in
        RowHeld ls row (MarkedPair (count ls) row.first b common row.sure starts.now listing.now counts.now) }
    ensures { let ls = lines start_x.now start_y.now end_x.now end_y.now in
        ((h : PlaceAsks (count ls) starts.now listing.now counts.now) → result ≡ keep_at (overlap ls) h.W h.c row.first b) }
{
    if 1 < common {
        return false;
    }
    let other = boxes::box_at(start_x, start_y, end_x, end_y, b);
    let bounds = row.bounds;
    if bounds.overlaps_with(other) {
        return by_line::first::is_first(common, row.sure, row.first, b, starts, listing, counts);
    }
    false
}

// The row with each line of a list, by marks.
pub(crate) fn scan_list(
    row: Row,
    mark: u32,
    list: &[u32],
    marks: &[u32],
    start_x: &[f64],
    start_y: &[f64],
    end_x: &[f64],
    end_y: &[f64],
    starts: &[u32],
    listing: &[u32],
    counts: &[u32],
    first: &mut [u32],
    second: &mut [u32],
    hits: usize,
) -> usize
    requires { let ls = lines start_x.now start_y.now end_x.now end_y.now in
        RowHeld ls row (MarkedRow (count ls) row.first mark row.sure list.now marks.now starts.now listing.now counts.now hits) }
    ensures { let ls = lines start_x.now start_y.now end_x.now end_y.now in
        RowHandedOut (overlap ls) (count ls) row.first starts.now listing.now counts.now list.now
        first.old second.old hits first.new second.new result }
{
    let mut hits = hits;
    let mut j = 0;
    while j < list.len() {
        let common = mark & marks[j];
        let b = list[j];
        j = j + 1;
        if keeps(
            row, common, b, start_x, start_y, end_x, end_y, starts, listing, counts,
        ) {
            lent::put_pair(first, second, hits, row.first, b);
            hits = hits + 1;
        }
    }
    hits
}

// The row with each line from k to before `stop`, each of which is looked up.
pub(crate) fn scan_lines(
    row: Row,
    k: u32,
    stop: u32,
    start_x: &[f64],
    start_y: &[f64],
    end_x: &[f64],
    end_y: &[f64],
    starts: &[u32],
    listing: &[u32],
    counts: &[u32],
    first: &mut [u32],
    second: &mut [u32],
    hits: usize,
) -> usize
    requires { let ls = lines start_x.now start_y.now end_x.now end_y.now in
        RowHeld ls row (ScanAsks (count ls) row.first (numbers (stop - k) k) starts.now listing.now counts.now hits) }
    ensures { let ls = lines start_x.now start_y.now end_x.now end_y.now in
        RowHandedOut (overlap ls) (count ls) row.first starts.now listing.now counts.now (numbers (stop - k) k)
        first.old second.old hits first.new second.new result }
{
    let mut hits = hits;
    let mut b = k;
    while b < stop {
        let line = b;
        b = b + 1;
        if keeps(
            row, 1, line, start_x, start_y, end_x, end_y, starts, listing, counts,
        ) {
            lent::put_pair(first, second, hits, row.first, line);
            hits = hits + 1;
        }
    }
    hits
}
