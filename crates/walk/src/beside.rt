// What a line on a boundary, and its endpoints, add beside the walked cells.
ghost use Rattle.std.specs.Prelude.{◌≡◌, true, ◌+◌, ◌*◌, ◌≤◌, ◌<◌, eqb, length, take};
ghost use mathlib.Core.List.{flat_map};
ghost use Rattle.slices.specs.Lists.{Below};
ghost use Rattle.grid.specs.declared.Side.TheVariants.{Off};
ghost use Rattle.grid.specs.Axes.{side_on};
ghost use Rattle.grid.proofs.Shapes.{Shape};
ghost use Rattle.cover.specs.Inside.{Appended};
ghost use Rattle.walk.specs.Neighbours.{neighbour_for, neighbour_on, along_on, low_col_of, up_col_of, low_row_of, up_row_of, column_of, row_of, beside_of, cell_of, endpoint_of};
ghost use Rattle.walk.specs.Segment.{pushes_of};
ghost use Rattle.walk.specs.Inside.{Covers, Complete, Within, AllWithin, lower_of, many_of, share, share_of, Clear};

use crate::{Mode, Neighbour};
use grid::{Axis, Grid, Segment, Side};
use numbers::order::magnitude;
use turns::Trod;

// Where the modes that walk by turns differ.
fn neighbour_for(mode: Mode, side: Side) -> Neighbour
    ensures { result ≡ neighbour_for mode side }
{
    match mode {
        Mode::Rust => match side {
            Side::Off => Neighbour::None,
            Side::Above => Neighbour::Lower,
            Side::Below => Neighbour::Lower,
        },
        Mode::Sided => match side {
            Side::Off => Neighbour::None,
            Side::Above => Neighbour::Lower,
            Side::Below => Neighbour::Upper,
        },
        Mode::Covering => Neighbour::None,
    }
}

// The neighbour that a coordinate adds on its axis.
fn neighbour(mode: Mode, axis: Axis, v: f64) -> Neighbour
    ensures { result ≡ neighbour_on mode axis v }
{
    neighbour_for(mode, axis.side(v))
}

// The neighbour that a whole line adds on the axis.
fn along(mode: Mode, axis: Axis, start: f64, end: f64) -> Neighbour
    ensures { result ≡ along_on mode axis start end }
{
    if end - start == 0.0 {
        return neighbour(mode, axis, start);
    }
    Neighbour::None
}

fn low_col(s: &mut [u32], n: usize, cols: u32, c: u32) -> usize
    requires room { n < length s.old }
    requires some_columns { 0 < cols }
    ensures { Appended s.old s.new n result (low_col_of cols c) }
{
    if c % cols == 0 {
        return n;
    }
    s[n] = c - 1;
    n + 1
}

fn up_col(s: &mut [u32], n: usize, cols: u32, c: u32) -> usize
    requires room { n < length s.old }
    requires inside { Within cols c }
    ensures { Appended s.old s.new n result (up_col_of cols c) }
{
    if c % cols + 1 < cols {
        s[n] = c + 1;
        return n + 1;
    }
    n
}

fn low_row(s: &mut [u32], n: usize, cols: u32, c: u32) -> usize
    requires { n < length s.old }
    ensures { Appended s.old s.new n result (low_row_of cols c) }
{
    if c < cols {
        return n;
    }
    s[n] = c - cols;
    n + 1
}

fn up_row(s: &mut [u32], n: usize, cols: u32, cells: u32, c: u32) -> usize
    requires room { n < length s.old }
    requires inside { Within cols c }
    ensures { Appended s.old s.new n result (up_row_of cols cells c) }
{
    let next = c + cols;
    if next < cells {
        s[n] = next;
        return n + 1;
    }
    n
}

// Pushes the neighbour of a cell in x.
fn column(s: &mut [u32], n: usize, x: Neighbour, cols: u32, c: u32) -> usize
    requires room { n + many_of x ≤ length s.old }
    requires inside { Within cols c }
    ensures { Appended s.old s.new n result (column_of x cols c) }
{
    match x {
        Neighbour::None => n,
        Neighbour::Lower => low_col(s, n, cols, c),
        Neighbour::Upper => up_col(s, n, cols, c),
    }
}

// Pushes the neighbour of a cell in y.
fn row(s: &mut [u32], n: usize, y: Neighbour, cols: u32, cells: u32, c: u32) -> usize
    requires room { n + many_of y ≤ length s.old }
    requires inside { Within cols c }
    ensures { Appended s.old s.new n result (row_of y cols cells c) }
{
    match y {
        Neighbour::None => n,
        Neighbour::Lower => low_row(s, n, cols, c),
        Neighbour::Upper => up_row(s, n, cols, cells, c),
    }
}

// Pushes the neighbours of a cell. Where one in x has been pushed, the corner is its neighbour in y.
fn beside(
    s: &mut [u32],
    n: usize,
    x: Neighbour,
    y: Neighbour,
    cols: u32,
    cells: u32,
    c: u32,
) -> usize
    requires room { n + share x y ≤ length s.old }
    requires inside { Within cols (c + 1) }
    ensures { Appended s.old s.new n result (beside_of x y cols cells c) }
{
    let a = column(s, n, x, cols, c);
    let b = row(s, a, y, cols, cells, c);
    if n < a {
        let next = s[n];
        return row(s, b, y, cols, cells, next);
    }
    b
}

// Pushes the neighbours of each of the first n.
fn besides(s: &mut [u32], n: usize, x: Neighbour, y: Neighbour, cols: u32, cells: u32) -> usize
    requires room { n + n * share x y ≤ length s.old }
    requires all_inside { AllWithin cols cells (take n s.old) }
    ensures { Appended s.old s.new n result (flat_map (beside_of x y cols cells) (take n s.old)) }
{
    let mut m = n;
    for i in 0..n {
        let c = s[i];
        m = beside(s, m, x, y, cols, cells, c);
    }
    m
}

// Pushes the neighbours in y of each of the first n.
fn rows(s: &mut [u32], n: usize, y: Neighbour, cols: u32, cells: u32) -> usize
    requires room { n + n * many_of y ≤ length s.old }
    requires all_inside { AllWithin cols cells (take n s.old) }
    ensures { Appended s.old s.new n result (flat_map (row_of y cols cells) (take n s.old)) }
{
    let mut m = n;
    for i in 0..n {
        let c = s[i];
        m = row(s, m, y, cols, cells, c);
    }
    m
}

fn lower(cols: u32, c: u32) -> u32
    requires { 0 < cols }
    ensures { result ≡ lower_of cols c }
{
    if c % cols == 0 {
        return c;
    }
    c - 1
}

// Writes the lower column of each of the first n beside it, from the last to the first: so a walk up or down a boundary stays in order.
fn spread(s: &mut [u32], n: usize, cols: u32) -> usize
    requires room { n + n ≤ length s.old }
    requires some_columns { 0 < cols }
    ensures { Covers s.old s.new n result n (flat_map (low_col_of cols) (take n s.old)) }
{
    for i in (0..n).rev() {
        let c = s[i];
        let k = i + i;
        s[k + 1] = c;
        s[k] = lower(cols, c);
    }
    n + n
}

// What the line adds to each of the first n. Mostly it adds on one axis, or on none.
fn added(s: &mut [u32], n: usize, x: Neighbour, y: Neighbour, cols: u32, cells: u32) -> usize
    requires room { n + n * share x y ≤ length s.old }
    requires all_inside { AllWithin cols cells (take n s.old) }
    ensures { Covers s.old s.new n result (n * share x y) (flat_map (beside_of x y cols cells) (take n s.old)) }
{
    match x {
        Neighbour::None => match y {
            Neighbour::None => n,
            _ => rows(s, n, y, cols, cells),
        },
        Neighbour::Lower => match y {
            Neighbour::None => spread(s, n, cols),
            _ => besides(s, n, x, y, cols, cells),
        },
        Neighbour::Upper => besides(s, n, x, y, cols, cells),
    }
}

fn nothing(x: Neighbour, y: Neighbour) -> bool
    ensures { result ≡ eqb (share x y) 0 }
{
    match x {
        Neighbour::None => match y {
            Neighbour::None => true,
            Neighbour::Lower => false,
            Neighbour::Upper => false,
        },
        Neighbour::Lower => false,
        Neighbour::Upper => false,
    }
}

// The number of the cell of a point.
fn cell(grid: Grid, x: f64, y: f64) -> u32
    requires shape { Shape grid.cols grid.rows }
    requires some_columns { 0 < grid.cols }
    ensures { result ≡ cell_of grid x y }
{
    grid.y_axis().index(y) * grid.cols + grid.x_axis().index(x)
}

// Pushes what an endpoint adds. Mostly that is nothing, and its cell is not asked for.
fn ended(s: &mut [u32], n: usize, mode: Mode, grid: Grid, x: f64, y: f64) -> usize
    requires room { n + 3 ≤ length s.old }
    requires shape { Shape grid.cols grid.rows }
    requires some_columns { 0 < grid.cols }
    ensures { Appended s.old s.new n result (endpoint_of mode grid x y) }
{
    let in_x = neighbour(mode, grid.x_axis(), x);
    let in_y = neighbour(mode, grid.y_axis(), y);
    if nothing(in_x, in_y) {
        return n;
    }
    beside(
        s,
        n,
        in_x,
        in_y,
        grid.cols,
        grid.rows * grid.cols,
        cell(grid, x, y),
    )
}

// Whether a coordinate lies between the boundaries i and i + 1, and off both. It is asked of the index that is known already.
// Branches, here and in `is_clear`: a test that fails spares the others, with their divisions.
fn is_between(axis: Axis, v: f64, i: u32) -> bool
    ensures { result ≡ true → side_on axis v ≡ Off }
{
    let at = axis.scaled(v);
    let low = i as f64;
    let high = low + 1.0;
    if low < at {
        if at < high {
            if 1e-12 < magnitude(at - low) {
                return 1e-12 < magnitude(at - high);
            }
            return false;
        }
        return false;
    }
    false
}

// Whether all four coordinates are off the boundaries, by the indices of the ends.
fn is_clear(grid: Grid, line: Segment, trod: Trod) -> bool
    ensures { result ≡ true → Clear grid line }
{
    let x = grid.x_axis();
    let y = grid.y_axis();
    if is_between(x, line.start_x, trod.start_col) {
        if is_between(y, line.start_y, trod.start_row) {
            if is_between(x, line.end_x, trod.end_col) {
                return is_between(y, line.end_y, trod.end_row);
            }
            return false;
        }
        return false;
    }
    false
}

// Pushes what the line and its endpoints add to the cells that were walked. Mostly that is nothing, which the indices of a walk show.
pub(crate) fn completed(s: &mut [u32], mode: Mode, grid: Grid, line: Segment, trod: Trod) -> usize
    requires shape { Shape grid.cols grid.rows }
    requires some_columns { 0 < grid.cols }
    requires room { trod.count + trod.count * share_of mode grid line + 6 ≤ length s.old }
    requires all_below { Below (grid.rows * grid.cols) (take trod.count s.old) }
    ensures { Complete s.new result (pushes_of mode grid line (take trod.count s.old)) }
{
    if is_clear(grid, line, trod) {
        return trod.count;
    }
    let x = along(mode, grid.x_axis(), line.start_x, line.end_x);
    let y = along(mode, grid.y_axis(), line.start_y, line.end_y);
    let a = added(s, trod.count, x, y, grid.cols, grid.rows * grid.cols);
    let b = ended(s, a, mode, grid, line.start_x, line.start_y);
    ended(s, b, mode, grid, line.end_x, line.end_y)
}
