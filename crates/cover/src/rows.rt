// The covering rule, row by row, on whole numbers below 2^64.
ghost use Rattle.std.specs.Prelude.{◌≡◌, ◌+◌, ◌-◌, ◌*◌, ◌<◌, ◌≤◌, min, max, length};
ghost use Rattle.cover.specs.Rule.{fine_cell, bottom_of, top_of, slope_of, aside_of, left_of, right_of, first_row, run, cells_between};
ghost use Rattle.cover.specs.Inside.{Small, Across, CoveredRow, ColumnsAre, RowRoom, Frame, Level, Rises, Front, Appended};

use crate::runs::put_run;
use crate::{Columns, Ends};

fn lesser(a: u64, b: u64) -> u64
    ensures { result ≡ min a b }
{
    if a < b {
        return a;
    }
    b
}

fn larger(a: u64, b: u64) -> u64
    ensures { result ≡ max a b }
{
    if a < b {
        return b;
    }
    a
}

// a - b, or 0 where b is larger.
fn less(a: u64, b: u64) -> u64
    ensures { result ≡ a - b }
{
    if a < b {
        return 0;
    }
    a - b
}

// The cell of a fine coordinate, of n cells.
fn cell(n: u64, fine: u64) -> u64
    requires { 0 < n }
    ensures { result ≡ fine_cell n fine }
{
    lesser(fine / 1048576, n - 1)
}

// The least height of the line in the row r, and the greatest in a row before the last.
fn bottom(e: Ends, r: u64) -> u64
    requires { r < 4096 }
    ensures { result ≡ bottom_of e r }
{
    larger(less(r * 1048576, 3), e.from_y)
}

fn top(e: Ends, last: u64, r: u64) -> u64
    requires before_last { r < last }
    requires few_rows { last < 4096 }
    ensures { result ≡ top_of e last r }
{
    lesser((r + 1) * 1048576 + 3, e.to_y)
}

// How far the line goes sideways for a unit of height, in 2^-32 of a unit.
fn slope(e: Ends) -> u64
    requires { Small e }
    ensures { result ≡ slope_of e }
{
    if e.from_y < e.to_y {
        return (less(e.to_x, e.from_x) + less(e.from_x, e.to_x)) * 4294967296 / (e.to_y - e.from_y);
    }
    0
}

// How far it has come sideways at the height y.
fn aside(e: Ends, s: u64, y: u64) -> u64
    requires { Across e s y }
    ensures { (result ≡ aside_of e y) × (result < 4294967296) }
{
    (y - e.from_y) * s / 4294967296
}

// The least and the greatest place of a row, of a line that has come `near` at its bottom and `far` at its top.
fn left(e: Ends, near: u64, far: u64) -> u64
    requires small { Small e }
    requires near_fits { near < 4294967296 }
    requires far_fits { far < 4294967296 }
    ensures { result ≡ left_of e near far }
{
    if e.to_x < e.from_x {
        return larger(less(e.from_x, far + 5), e.to_x);
    }
    larger(less(e.from_x + near, 3), e.from_x)
}

fn right(e: Ends, near: u64, far: u64) -> u64
    requires small { Small e }
    requires near_fits { near < 4294967296 }
    requires far_fits { far < 4294967296 }
    ensures { result ≡ right_of e near far }
{
    if e.to_x < e.from_x {
        return lesser(less(e.from_x + 3, near), e.from_x);
    }
    lesser(e.from_x + far + 5, e.to_x)
}

// The columns of a row r before the last, of a line with the slope s that crosses rows.
fn columns(e: Ends, s: u64, cols: u64, rows: u64, last: u64, r: u64) -> Columns
    requires covered { CoveredRow cols rows e s last r }
    requires before_last { r < last }
    ensures { ColumnsAre cols rows e r result.first result.last }
{
    let near = aside(e, s, bottom(e, r));
    let far = aside(e, s, top(e, last, r));
    let first = cell(cols, left(e, near, far));
    let to = cell(cols, right(e, near, far));
    Columns {
        first: first,
        last: to,
    }
}

// The columns of the first row: the line begins in it, so it has come no way at its bottom.
fn start_columns(e: Ends, s: u64, cols: u64, rows: u64, last: u64, r: u64) -> Columns
    requires covered { CoveredRow cols rows e s last r }
    requires at_first { r ≡ first_row rows e }
    ensures { ColumnsAre cols rows e r result.first result.last }
{
    let far = aside(e, s, top(e, last, r));
    if e.to_x < e.from_x {
        let to = cell(cols, left(e, 0, far));
        return Columns {
            first: to,
            last: cell(cols, e.from_x),
        };
    }
    let to = cell(cols, right(e, 0, far));
    Columns {
        first: cell(cols, e.from_x),
        last: to,
    }
}

// The columns of the last row: the line ends in it, so at its top it has come all the way.
fn end_columns(e: Ends, s: u64, cols: u64, rows: u64, r: u64) -> Columns
    requires { CoveredRow cols rows e s r r }
    ensures { ColumnsAre cols rows e r result.first result.last }
{
    let near = aside(e, s, bottom(e, r));
    if e.to_x < e.from_x {
        let from = cell(cols, right(e, near, 0));
        return Columns {
            first: cell(cols, e.to_x),
            last: from,
        };
    }
    let from = cell(cols, left(e, near, 0));
    Columns {
        first: from,
        last: cell(cols, e.to_x),
    }
}

// Writes the cells of the row r, at n.
fn put_row(scratch: &mut [u32], n: usize, cols: u64, r: u64, c: Columns) -> usize
    requires { RowRoom cols r c.first c.last n (length scratch.old) }
    ensures { Appended scratch.old scratch.new n result (run (c.last + 1 - c.first) (r * cols + c.first)) }
{
    put_run(scratch, n, r * cols + c.first, less(c.last + 1, c.first))
}

// A line whose ends are both in the row r.
fn level(scratch: &mut [u32], e: Ends, cols: u64, rows: u64, r: u64) -> usize
    requires { Level cols rows e r (length scratch.old) }
    ensures { Front (cells_between cols rows e) scratch.new result }
{
    let c = Columns {
        first: cell(cols, lesser(e.from_x, e.to_x)),
        last: cell(cols, larger(e.from_x, e.to_x)),
    };
    put_row(scratch, 0, cols, r, c)
}

// A line that crosses rows, from the row `first` to the row `last`. Most lines of many legs cross two, so these two are made by themselves.
fn climb(scratch: &mut [u32], e: Ends, cols: u64, rows: u64, first: u64, last: u64) -> usize
    requires { Rises cols rows e first last (length scratch.old) }
    ensures { Front (cells_between cols rows e) scratch.new result }
{
    let s = slope(e);
    let mut n = put_row(
        scratch,
        0,
        cols,
        first,
        start_columns(e, s, cols, rows, last, first),
    );
    for r in first + 1..last {
        n = put_row(scratch, n, cols, r, columns(e, s, cols, rows, last, r));
    }
    put_row(scratch, n, cols, last, end_columns(e, s, cols, rows, last))
}

// The cells that cover a line at the start of the scratch, increasing, none twice.
pub(crate) fn cells_between(scratch: &mut [u32], e: Ends, cols: u64, rows: u64) -> usize
    requires { Frame cols rows e (length scratch.old) }
    ensures { Front (cells_between cols rows e) scratch.new result }
{
    let first = cell(rows, e.from_y);
    let last = cell(rows, e.to_y);
    if first < last {
        return climb(scratch, e, cols, rows, first, last);
    }
    level(scratch, e, cols, rows, first)
}
