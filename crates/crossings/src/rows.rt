// A row of a visit is the tests that share their place and their first line. Of each test it is asked whether its pair is handed out.
ghost use Rattle.std.specs.Prelude.{◌≡◌, ◌-◌};
ghost use Rattle.samples.specs.Samples.{samples, sample_count};
ghost use Rattle.seek.specs.Inside.{numbers};
ghost use Rattle.samples.specs.Sharing.{shares};
ghost use Rattle.first_tests.specs.InsideScan.{keep_at, PlaceAsks, RowHandedOut, ScanAsks};
ghost use Rattle.first_tests.specs.InsideMarked.{MarkedPair, MarkedRow};
ghost use Rattle.crossings.specs.Inside.{row_of, RaisedHeld};

use samples::Raised;

// The first line of a row, raised, and 1 if the marks that the row goes by are sure, else 0.
#[derive(Clone, Copy)]
pub(crate) struct Row {
    pub first: u32,
    pub sure: u32,
    pub line: Raised,
}

pub(crate) fn row_of(
    first: u32,
    sure: u32,
    start_x: &[i32],
    start_y: &[i32],
    end_x: &[i32],
    end_y: &[i32],
) -> Row
    ensures { result ≡ row_of (samples start_x.now start_y.now end_x.now end_y.now) first sure }
{
    let line = samples::line_at(start_x, start_y, end_x, end_y, first as usize);
    Row { first, sure, line }
}

// Whether the pair of a test is handed out: the two lines share a point, and no cell that is behind lists both lines. If the marks of both lines have a
// bit above the lowest in common, one does; else it is asked first whether they share a point.
fn keeps(
    row: Row,
    common: u32,
    b: u32,
    start_x: &[i32],
    start_y: &[i32],
    end_x: &[i32],
    end_y: &[i32],
    starts: &[u32],
    listing: &[u32],
    counts: &[u32],
) -> bool
    requires { let ss = samples start_x.now start_y.now end_x.now end_y.now in
        RaisedHeld ss row (MarkedPair (sample_count ss) row.first b common row.sure starts.now listing.now counts.now) }
    ensures { let ss = samples start_x.now start_y.now end_x.now end_y.now in
        ((h : PlaceAsks (sample_count ss) starts.now listing.now counts.now) → result ≡ keep_at (shares ss) h.W h.c row.first b) }
{
    if 1 < common {
        return false;
    }
    let other = samples::line_at(start_x, start_y, end_x, end_y, b as usize);
    let line = row.line;
    if samples::share_point(line, other) {
        return by_line::first::is_first(common, row.sure, row.first, b, starts, listing, counts);
    }
    false
}

// The row with each line of a list, by marks.
pub(crate) fn scan_list(
    row: Row,
    mark: u32,
    list: &[u32],
    marks: &[u32],
    start_x: &[i32],
    start_y: &[i32],
    end_x: &[i32],
    end_y: &[i32],
    starts: &[u32],
    listing: &[u32],
    counts: &[u32],
    first: &mut [u32],
    second: &mut [u32],
    hits: usize,
) -> usize
    requires { let ss = samples start_x.now start_y.now end_x.now end_y.now in
        RaisedHeld ss row (MarkedRow (sample_count ss) row.first mark row.sure list.now marks.now starts.now listing.now counts.now hits) }
    ensures { let ss = samples start_x.now start_y.now end_x.now end_y.now in
        RowHandedOut (shares ss) (sample_count ss) row.first starts.now listing.now counts.now list.now
        first.old second.old hits first.new second.new result }
{
    let mut hits = hits;
    let mut j = 0;
    while j < list.len() {
        let common = mark & marks[j];
        let b = list[j];
        j = j + 1;
        if keeps(
            row, common, b, start_x, start_y, end_x, end_y, starts, listing, counts,
        ) {
            lent::put_pair(first, second, hits, row.first, b);
            hits = hits + 1;
        }
    }
    hits
}

// The row with each line from k to before `stop`, each of which is looked up.
pub(crate) fn scan_lines(
    row: Row,
    k: u32,
    stop: u32,
    start_x: &[i32],
    start_y: &[i32],
    end_x: &[i32],
    end_y: &[i32],
    starts: &[u32],
    listing: &[u32],
    counts: &[u32],
    first: &mut [u32],
    second: &mut [u32],
    hits: usize,
) -> usize
    requires { let ss = samples start_x.now start_y.now end_x.now end_y.now in
        RaisedHeld ss row (ScanAsks (sample_count ss) row.first (numbers (stop - k) k) starts.now listing.now counts.now hits) }
    ensures { let ss = samples start_x.now start_y.now end_x.now end_y.now in
        RowHandedOut (shares ss) (sample_count ss) row.first starts.now listing.now counts.now (numbers (stop - k) k)
        first.old second.old hits first.new second.new result }
{
    let mut hits = hits;
    let mut b = k;
    while b < stop {
        let line = b;
        b = b + 1;
        if keeps(
            row, 1, line, start_x, start_y, end_x, end_y, starts, listing, counts,
        ) {
            lent::put_pair(first, second, hits, row.first, line);
            hits = hits + 1;
        }
    }
    hits
}
