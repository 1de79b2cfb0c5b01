// A row of a visit is the tests that share their place and their first line. The scan of a row makes them one after another; the runs go
// from row to row, until the outputs are full or no test is left.
ghost use Rattle.std.specs.Prelude.{◌≡◌, ◌<◌, ◌-◌, length, drop};
ghost use Rattle.grid.specs.Domain.{lines};
ghost use Rattle.seek.specs.Tests.{pair, with_each, place_of};
ghost use Rattle.visit.specs.Entries.{test_of};
ghost use Rattle.seek.specs.Inside.{numbers};
ghost use Rattle.visit.specs.Inside.{LineAsks, row_of, next_step, TestAsks, TestInAsks, TestBeforeAsks, ListAsks, InList, LinesAsk, InLines, PutIs, part, CellRowAsks, InCellRow, GlobalRowAsks, InGlobalRow, CellsAsk, CellsRan, GlobalsAsk, GlobalsRan};

use crate::{Test, boxes, cursor};
use grid::Box;
use seek::Place;

// The first line of a row, with its box.
#[derive(Clone, Copy)]
pub(crate) struct Row {
    pub place: Place,
    pub first: u32,
    pub bounds: Box,
}

#[derive(Clone, Copy)]
pub(crate) struct ListEnd {
    pub j: usize,
    pub hits: usize,
}

#[derive(Clone, Copy)]
pub(crate) struct LinesEnd {
    pub k: u32,
    pub hits: usize,
}

#[derive(Clone, Copy)]
pub(crate) struct Ran {
    pub tests: u64,
    pub hits: usize,
}

// The place of a cell, in row order.
fn place_of(cols: u32, cell: u32) -> Place
    requires { 0 < cols }
    ensures { result ≡ place_of cols cell }
{
    Place::Cell {
        row: cell / cols,
        col: cell % cols,
    }
}

pub(crate) fn row_of(
    place: Place,
    first: u32,
    start_x: &[f64],
    start_y: &[f64],
    end_x: &[f64],
    end_y: &[f64],
) -> Row
    requires { LineAsks (lines start_x.now start_y.now end_x.now end_y.now) first }
    ensures { result ≡ row_of (lines start_x.now start_y.now end_x.now end_y.now) place first }
{
    let bounds = boxes::box_at(start_x, start_y, end_x, end_y, first);
    Row {
        place,
        first,
        bounds,
    }
}

// The test of a row with one line more.
pub(crate) fn test_with(
    row: Row,
    second: u32,
    start_x: &[f64],
    start_y: &[f64],
    end_x: &[f64],
    end_y: &[f64],
) -> Test
    requires { TestAsks (lines start_x.now start_y.now end_x.now end_y.now) row second }
    ensures { result ≡ test_of (lines start_x.now start_y.now end_x.now end_y.now) (pair row.place row.first second) }
{
    let other = boxes::box_at(start_x, start_y, end_x, end_y, second);
    let bounds = row.bounds;
    let overlap = bounds.overlaps_with(other);
    let place = row.place;
    Test {
        place,
        first: row.first,
        second,
        overlap,
    }
}

// The test with entry j of a list, or the end mark.
fn test_in(
    list: &[u32],
    j: usize,
    row: Row,
    start_x: &[f64],
    start_y: &[f64],
    end_x: &[f64],
    end_y: &[f64],
) -> Option<Test>
    requires { TestInAsks (lines start_x.now start_y.now end_x.now end_y.now) row list.now }
    ensures { let ls = lines start_x.now start_y.now end_x.now end_y.now in
        result ≡ next_step ls (with_each row.place row.first (drop j list.now)) }
{
    if list.len() <= j {
        return None;
    }
    Some(test_with(row, list[j], start_x, start_y, end_x, end_y))
}

// The test with line k, or the end mark from `stop` on.
fn test_before(
    stop: u32,
    k: u32,
    row: Row,
    start_x: &[f64],
    start_y: &[f64],
    end_x: &[f64],
    end_y: &[f64],
) -> Option<Test>
    requires { TestBeforeAsks (lines start_x.now start_y.now end_x.now end_y.now) row stop }
    ensures { let ls = lines start_x.now start_y.now end_x.now end_y.now in
        result ≡ next_step ls (with_each row.place row.first (numbers (stop - k) k)) }
{
    if stop <= k {
        return None;
    }
    Some(test_with(row, k, start_x, start_y, end_x, end_y))
}

// The row of a list from its entry j on. Each pair is written; one that does not overlap is written over.
fn scan_list(
    list: &[u32],
    row: Row,
    mut j: usize,
    start_x: &[f64],
    start_y: &[f64],
    end_x: &[f64],
    end_y: &[f64],
    first: &mut [u32],
    second: &mut [u32],
    mut hits: usize,
) -> ListEnd
    requires { ListAsks (lines start_x.now start_y.now end_x.now end_y.now) row list.now j first.old second.old hits }
    ensures { let ls = lines start_x.now start_y.now end_x.now end_y.now in
        InList ls row list.now j first.old second.old hits first.new second.new result }
{
    while hits < first.len() {
        let Some(test) = test_in(list, j, row, start_x, start_y, end_x, end_y) else {
            break;
        };
        first[hits] = test.first;
        second[hits] = test.second;
        j = j + 1;
        if test.overlap {
            hits = hits + 1;
        }
    }
    ListEnd { j, hits }
}

// The row of a global from line k to before `stop`.
fn scan_lines(
    row: Row,
    mut k: u32,
    stop: u32,
    start_x: &[f64],
    start_y: &[f64],
    end_x: &[f64],
    end_y: &[f64],
    first: &mut [u32],
    second: &mut [u32],
    mut hits: usize,
) -> LinesEnd
    requires { LinesAsk (lines start_x.now start_y.now end_x.now end_y.now) row k stop first.old second.old hits }
    ensures { let ls = lines start_x.now start_y.now end_x.now end_y.now in
        InLines ls row k stop first.old second.old hits first.new second.new result }
{
    while hits < first.len() {
        let Some(test) = test_before(stop, k, row, start_x, start_y, end_x, end_y) else {
            break;
        };
        first[hits] = test.first;
        second[hits] = test.second;
        k = k + 1;
        if test.overlap {
            hits = hits + 1;
        }
    }
    LinesEnd { k, hits }
}

// The number of a row's place, beside each pair that it handed out. A slice that ends before is left alone: a batch without places lends an
// empty one.
fn put_places(places: &mut [u32], from: usize, to: usize, number: u32)
    ensures { PutIs places.old «from» to number places.new }
{
    if places.len() < to {
        return;
    }
    for i in from..to {
        places[i] = number;
    }
}

// The row of entry i of a cell's list, from its entry j on, with the number of the cell beside each pair that it hands out. The list is the items
// from `from` to before `to`, which are handed on as a part.
fn scan_cell_row(
    cols: u32,
    cell: usize,
    items: &[u32],
    from: usize,
    to: usize,
    i: usize,
    j: usize,
    start_x: &[f64],
    start_y: &[f64],
    end_x: &[f64],
    end_y: &[f64],
    first: &mut [u32],
    second: &mut [u32],
    places: &mut [u32],
    hits: usize,
) -> ListEnd
    requires { CellRowAsks (lines start_x.now start_y.now end_x.now end_y.now) cols cell items.now «from» to i j first.old second.old hits }
    ensures { let ls = lines start_x.now start_y.now end_x.now end_y.now in
        let fs = first.old in
        let ss = second.old in
        let ps = places.old in
        InCellRow ls cols cell (part items.now «from» to) i j fs ss ps hits first.new second.new places.new result }
{
    let list = &items[from..to];
    let number = cell as u32;
    let row = row_of(
        place_of(cols, number),
        list[i],
        start_x,
        start_y,
        end_x,
        end_y,
    );
    let end = scan_list(
        list, row, j, start_x, start_y, end_x, end_y, first, second, hits,
    );
    put_places(places, hits, end.hits, number);
    end
}

// The run of global p from line k to before `stop`, with the number of its place beside each pair that it hands out.
fn scan_global_row(
    cells: usize,
    globals: &[u32],
    p: usize,
    k: u32,
    stop: u32,
    start_x: &[f64],
    start_y: &[f64],
    end_x: &[f64],
    end_y: &[f64],
    first: &mut [u32],
    second: &mut [u32],
    places: &mut [u32],
    hits: usize,
) -> LinesEnd
    requires { GlobalRowAsks (lines start_x.now start_y.now end_x.now end_y.now) cells globals.now p k stop first.old second.old hits }
    ensures { let ls = lines start_x.now start_y.now end_x.now end_y.now in
        let fs = first.old in
        let ss = second.old in
        let ps = places.old in
        InGlobalRow ls cells globals.now p k stop fs ss ps hits first.new second.new places.new result }
{
    let row = row_of(Place::Global(p), globals[p], start_x, start_y, end_x, end_y);
    let end = scan_lines(
        row, k, stop, start_x, start_y, end_x, end_y, first, second, hits,
    );
    put_places(places, hits, end.hits, (cells + p) as u32);
    end
}

// From row to row through the cells.
pub(crate) fn run_cells(
    cols: u32,
    cells: usize,
    offsets: &[u32],
    items: &[u32],
    mut cell: usize,
    mut i: usize,
    mut j: usize,
    start_x: &[f64],
    start_y: &[f64],
    end_x: &[f64],
    end_y: &[f64],
    first: &mut [u32],
    second: &mut [u32],
    places: &mut [u32],
) -> Ran
    requires { CellsAsk (lines start_x.now start_y.now end_x.now end_y.now) cols cells offsets.now items.now cell i j first.old second.old }
    ensures { let ls = lines start_x.now start_y.now end_x.now end_y.now in
        let fs = first.old in
        let ss = second.old in
        let ps = places.old in
        CellsRan ls cols cells offsets.now items.now cell i j fs ss ps first.new second.new places.new result }
{
    let mut tests: u64 = 0;
    let mut hits: usize = 0;
    while hits < first.len() {
        let Some(next) = cursor::settle_cell(cells, offsets, items, cell, i, j) else {
            break;
        };
        let end = scan_cell_row(
            cols, next.cell, items, next.from, next.to, next.i, next.j, start_x, start_y, end_x,
            end_y, first, second, places, hits,
        );
        tests = tests + ((end.j - next.j) as u64);
        hits = end.hits;
        cell = next.cell;
        i = next.i;
        j = end.j;
    }
    Ran { tests, hits }
}

// From run to run through the globals.
pub(crate) fn run_globals(
    cells: usize,
    globals: &[u32],
    count: usize,
    mut p: usize,
    mut q: usize,
    mut k: u32,
    start_x: &[f64],
    start_y: &[f64],
    end_x: &[f64],
    end_y: &[f64],
    first: &mut [u32],
    second: &mut [u32],
    places: &mut [u32],
    mut hits: usize,
) -> Ran
    requires { GlobalsAsk (lines start_x.now start_y.now end_x.now end_y.now) cells count globals.now p q k first.old second.old hits }
    ensures { let ls = lines start_x.now start_y.now end_x.now end_y.now in
        let fs = first.old in
        let ss = second.old in
        let ps = places.old in
        GlobalsRan ls cells count globals.now p k fs ss ps hits first.new second.new places.new result }
{
    let n = start_x.len() as u32;
    let mut tests: u64 = 0;
    while hits < first.len() {
        let Some(next) = cursor::settle_global(n, count, globals, p, q, k) else {
            break;
        };
        let end = scan_global_row(
            cells, globals, next.p, next.k, next.stop, start_x, start_y, end_x, end_y, first,
            second, places, hits,
        );
        tests = tests + ((end.k - next.k) as u64);
        hits = end.hits;
        p = next.p;
        q = next.q;
        k = end.k;
    }
    Ran { tests, hits }
}
