// The cells of a visit: the pairs of each list, and the cells that are behind.
ghost use Rattle.std.specs.Prelude.{◌+◌, ◌≡◌, length};
ghost use Rattle.samples.specs.Samples.{samples, sample_count};
ghost use Rattle.samples.specs.Sharing.{shares};
ghost use Rattle.tables.specs.Tables.{list_in};
ghost use Rattle.tables.specs.Lists.{lines_at};
ghost use Rattle.tables.specs.InsideFit.{CellIn};
ghost use Rattle.tables.specs.InsidePasses.{CanCount, Counted};
ghost use Rattle.first_tests.specs.InsideScan.{RowsAsk, RowsDone, CellsAsk, CellsDone};
ghost use Rattle.first_tests.specs.InsideMarked.{MarkedRows};

use crate::rows;

// The list of a cell: a part of the items.
fn list_of<'a>(offsets: &[u32], items: &'a [u32], cell: usize) -> &'a [u32]
    requires { CellIn offsets.now items.now cell }
    ensures { result.now ≡ list_in offsets.now items.now cell }
{
    let from = offsets[cell] as usize;
    let to = offsets[cell + 1] as usize;
    &items[from..to]
}

// One more for each line of a list.
fn count_list(list: &[u32], counts: &mut [u32])
    requires { CanCount counts.old list.now (length list.now) }
    ensures { let s = list.now in
        ((h : CanCount counts.old s (length s)) → Counted (lines_at h.W (h.i + 1)) counts.new) }
{
    for line in list {
        let line = *line as usize;
        counts[line] += 1;
    }
}

// Each entry of a list with every later one, by marks. Where these are not sure, a row goes by no mark.
fn scan_rows(
    sure: u32,
    list: &[u32],
    marks: &[u32],
    start_x: &[i32],
    start_y: &[i32],
    end_x: &[i32],
    end_y: &[i32],
    starts: &[u32],
    listing: &[u32],
    counts: &[u32],
    first: &mut [u32],
    second: &mut [u32],
    hits: usize,
) -> usize
    requires { let ss = samples start_x.now start_y.now end_x.now end_y.now in
        MarkedRows (sample_count ss) sure list.now marks.now starts.now listing.now counts.now hits }
    ensures { let ss = samples start_x.now start_y.now end_x.now end_y.now in
        RowsDone (shares ss) (sample_count ss) starts.now listing.now counts.now list.now
        first.old second.old hits first.new second.new result }
{
    let mut hits = hits;
    let mut i = 0;
    while i < list.len() {
        let row = rows::row_of(list[i], sure, start_x, start_y, end_x, end_y);
        let mark = marks[i] * sure;
        i = i + 1;
        hits = rows::scan_list(
            row,
            mark,
            &list[i..],
            &marks[i..],
            start_x,
            start_y,
            end_x,
            end_y,
            starts,
            listing,
            counts,
            first,
            second,
            hits,
        );
    }
    hits
}

// The list of a cell, by marks where there is room for them.
fn scan_cell(
    cell: u32,
    cols: u32,
    marks: &mut [u32],
    list: &[u32],
    start_x: &[i32],
    start_y: &[i32],
    end_x: &[i32],
    end_y: &[i32],
    starts: &[u32],
    listing: &[u32],
    counts: &[u32],
    first: &mut [u32],
    second: &mut [u32],
    hits: usize,
) -> usize
    requires { let ss = samples start_x.now start_y.now end_x.now end_y.now in
        RowsAsk (sample_count ss) list.now starts.now listing.now counts.now hits }
    ensures { let ss = samples start_x.now start_y.now end_x.now end_y.now in
        RowsDone (shares ss) (sample_count ss) starts.now listing.now counts.now list.now
        first.old second.old hits first.new second.new result }
{
    let sure = by_line::marks::mark_list(list, cell, cols, starts, listing, counts, marks);
    let seen = by_line::marks::marks_or_list(sure, list, marks);
    scan_rows(
        sure, list, seen, start_x, start_y, end_x, end_y, starts, listing, counts, first, second,
        hits,
    )
}

// From cell to cell.
pub(crate) fn scan_cells(
    cells: usize,
    cols: u32,
    offsets: &[u32],
    items: &[u32],
    start_x: &[i32],
    start_y: &[i32],
    end_x: &[i32],
    end_y: &[i32],
    starts: &[u32],
    listing: &[u32],
    counts: &mut [u32],
    first: &mut [u32],
    second: &mut [u32],
) -> usize
    requires { let ss = samples start_x.now start_y.now end_x.now end_y.now in
        CellsAsk (sample_count ss) cells offsets.now items.now starts.now listing.now counts.old }
    ensures { let ss = samples start_x.now start_y.now end_x.now end_y.now in
        CellsDone (shares ss) (sample_count ss) cells offsets.now items.now starts.now listing.now counts.new
        first.old second.old first.new second.new result }
{
    let mut marks = [0u32; 4096];
    let mut hits = 0;
    for cell in 0..cells {
        let list = list_of(offsets, items, cell);
        hits = scan_cell(
            cell as u32,
            cols,
            &mut marks,
            list,
            start_x,
            start_y,
            end_x,
            end_y,
            starts,
            listing,
            counts,
            first,
            second,
            hits,
        );
        count_list(list, counts);
    }
    hits
}
