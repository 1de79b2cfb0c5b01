// The cursor of a bookmark, after all checks of a visit: whole cells, whole rows, whole globals and runs of lines are passed by their counts, never test by test.
ghost use Rattle.std.specs.Prelude.{◌≡◌, ◌*◌, ◌<◌, Ok};
ghost use Rattle.tables.specs.Tables.{beside};
ghost use Rattle.grid.specs.Domain.{lines};
ghost use Rattle.seek.specs.Bookmarks.{visit_check, pair_at};
ghost use Rattle.seek.specs.Cursors.{FindIs};
ghost use Rattle.tables.specs.InsideFit.{CellsFit, GlobalsFit};
ghost use Rattle.seek.specs.Inside.{tri, CellSought, RowSought, GlobalSought, SoughtAsks, LineSought, SeekIs, PairAtAsks, pair_of};

use crate::{Cursor, PairAt, Place};
use grid::Grid;
use refusals::Refusal;
use slices::wide;

// Where it was found, and how many tests of it are to be passed still.
#[derive(Clone, Copy)]
struct Found {
    at: usize,
    left: u64,
}

#[derive(Clone, Copy)]
struct FoundLine {
    q: usize,
    k: u32,
}

// How many tests a list of k lines has.
fn triangle(k: u32) -> u64
    ensures { result ≡ tri k }
{
    let w = u64::from(k);
    (w * w - w) / 2
}

// The cells that are passed whole.
fn seek_cell(left: u64, cells: usize, offsets: &[u32], items: &[u32]) -> Found
    requires { CellsFit cells offsets.now items.now }
    ensures { CellSought cells offsets.now items.now left result.at result.left }
{
    let mut left = left;
    for cell in 0..cells {
        let t = triangle(offsets[cell + 1] - offsets[cell]);
        if left < t {
            return Found { at: cell, left };
        }
        left -= t;
    }
    Found { at: cells, left }
}

// The rows of a list of `len` lines that are passed whole.
fn seek_row(left: u64, len: u32) -> Found
    requires { left < tri len }
    ensures { RowSought len left result.at result.left }
{
    let mut left = left;
    for i in 0..len {
        let row = u64::from(len - i - 1);
        if left < row {
            return Found { at: wide(i), left };
        }
        left -= row;
    }
    Found {
        at: wide(len),
        left,
    }
}

// The globals that are passed whole.
fn seek_global(left: u64, lines: u32, count: usize, globals: &[u32]) -> Found
    requires { GlobalsFit lines count globals.now }
    ensures { GlobalSought lines count globals.now left result.at result.left }
{
    let mut left = left;
    let n = u64::from(lines);
    for p in 0..count {
        let row = n - (p as u64) - 1;
        if left < row {
            return Found { at: p, left };
        }
        left -= row;
    }
    Found { at: count, left }
}

// The lines of a global that are passed.
fn seek_line(left: u32, lines: u32, count: usize, globals: &[u32], p: usize) -> FoundLine
    requires { SoughtAsks lines count globals.now p left }
    ensures { LineSought lines count globals.now p left result.q result.k }
{
    let mut left = left;
    let mut k = 0u32;
    for q in 0..=p {
        let g = globals[q];
        if left < g - k {
            return FoundLine { q, k: k + left };
        }
        left = left - (g - k);
        k = g + 1;
    }
    FoundLine {
        q: p + 1,
        k: k + left,
    }
}

// The cursor at a bookmark, or that it lies beyond the end.
fn seek(
    bookmark: u64,
    start_x: &[f64],
    start_y: &[f64],
    end_x: &[f64],
    end_y: &[f64],
    grid: Grid,
    offsets: &[u32],
    items: &[u32],
    globals: &[u32],
    global_count: usize,
) -> Option<Cursor>
    requires { let ls = lines start_x.now start_y.now end_x.now end_y.now in
        let t = beside ls grid offsets.now items.now globals.now global_count in
        visit_check ls grid t ≡ (Ok tt) }
    ensures { let ls = lines start_x.now start_y.now end_x.now end_y.now in
        let t = beside ls grid offsets.now items.now globals.now global_count in
        SeekIs ls grid t bookmark result }
{
    let cells = wide(grid.rows) * wide(grid.cols);
    let found = seek_cell(bookmark, cells, offsets, items);
    let cell = found.at;
    if cell < cells {
        let row = seek_row(found.left, offsets[cell + 1] - offsets[cell]);
        let i = row.at;
        let j = i + 1 + (row.left as usize);
        return Some(Cursor {
            cell,
            i,
            j,
            p: 0,
            q: 0,
            k: 0,
        });
    }
    let n = start_x.len() as u32;
    let global = seek_global(found.left, n, global_count, globals);
    let p = global.at;
    if p < global_count {
        let line = seek_line(global.left as u32, n, global_count, globals, p);
        return Some(Cursor {
            cell: cells,
            i: 0,
            j: 1,
            p,
            q: line.q,
            k: line.k,
        });
    }
    if 0 < global.left {
        return None;
    }
    Some(Cursor {
        cell: cells,
        i: 0,
        j: 1,
        p: global_count,
        q: 0,
        k: 0,
    })
}

// Refusals 3, 2, 1, 8 and 10, in that order. The tables' check asks 2 again, of the number of lines that has passed it.
fn check_visit(
    start_x: &[f64],
    start_y: &[f64],
    end_x: &[f64],
    end_y: &[f64],
    grid: Grid,
    offsets: &[u32],
    items: &[u32],
    globals: &[u32],
    global_count: usize,
) -> Result<(), Refusal>
    ensures { let ls = lines start_x.now start_y.now end_x.now end_y.now in
        let t = beside ls grid offsets.now items.now globals.now global_count in
        result ≡ visit_check ls grid t }
{
    grid::checks::check_lines(start_x, start_y, end_x, end_y)?;
    tables::check_tables(grid, start_x.len(), offsets, items, globals, global_count)
}

// The cursor at a bookmark. Refusals 3, 2, 1, 8, 10, and 9 of the bookmark, in that order.
pub fn find(
    start_x: &[f64],
    start_y: &[f64],
    end_x: &[f64],
    end_y: &[f64],
    grid: Grid,
    offsets: &[u32],
    items: &[u32],
    globals: &[u32],
    global_count: usize,
    bookmark: u64,
) -> Result<Cursor, Refusal>
    ensures { let ls = lines start_x.now start_y.now end_x.now end_y.now in
        let t = beside ls grid offsets.now items.now globals.now global_count in
        FindIs ls grid t bookmark result }
{
    check_visit(
        start_x,
        start_y,
        end_x,
        end_y,
        grid,
        offsets,
        items,
        globals,
        global_count,
    )?;
    let sought = seek(
        bookmark,
        start_x,
        start_y,
        end_x,
        end_y,
        grid,
        offsets,
        items,
        globals,
        global_count,
    );
    let Some(cursor) = sought else {
        return Err(Refusal {
            number: 9,
            value: bookmark,
        });
    };
    Ok(cursor)
}

// The test that a cursor stands at, or the end mark.
fn pair_of(
    cursor: Cursor,
    grid: Grid,
    offsets: &[u32],
    items: &[u32],
    globals: &[u32],
    global_count: usize,
) -> Result<Option<PairAt>, Refusal>
    requires { PairAtAsks (grid.rows * grid.cols) offsets.now items.now globals.now global_count cursor }
    ensures { result ≡ pair_of (grid.rows * grid.cols) grid.cols offsets.now items.now globals.now global_count cursor }
{
    let cells = wide(grid.rows) * wide(grid.cols);
    let cell = cursor.cell;
    let p = cursor.p;
    if cell < cells {
        let from = wide(offsets[cell]);
        let i = from + cursor.i;
        let j = from + cursor.j;
        let n = cell as u32;
        let place = Place::Cell {
            row: n / grid.cols,
            col: n % grid.cols,
        };
        return Ok(Some(PairAt {
            place,
            first: items[i],
            second: items[j],
        }));
    }
    if p < global_count {
        let place = Place::Global(p);
        return Ok(Some(PairAt {
            place,
            first: globals[p],
            second: cursor.k,
        }));
    }
    Ok(None)
}

// The test at a bookmark, or the end mark at the total. Refusals as for `find`.
pub fn pair_at(
    start_x: &[f64],
    start_y: &[f64],
    end_x: &[f64],
    end_y: &[f64],
    grid: Grid,
    offsets: &[u32],
    items: &[u32],
    globals: &[u32],
    global_count: usize,
    bookmark: u64,
) -> Result<Option<PairAt>, Refusal>
    ensures { let ls = lines start_x.now start_y.now end_x.now end_y.now in
        let t = beside ls grid offsets.now items.now globals.now global_count in
        result ≡ pair_at ls grid t bookmark }
{
    check_visit(
        start_x,
        start_y,
        end_x,
        end_y,
        grid,
        offsets,
        items,
        globals,
        global_count,
    )?;
    let sought = seek(
        bookmark,
        start_x,
        start_y,
        end_x,
        end_y,
        grid,
        offsets,
        items,
        globals,
        global_count,
    );
    let Some(cursor) = sought else {
        return Err(Refusal {
            number: 9,
            value: bookmark,
        });
    };
    pair_of(cursor, grid, offsets, items, globals, global_count)
}
