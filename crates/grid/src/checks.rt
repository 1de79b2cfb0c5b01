// The checks of document 01's domain: each finds nothing, or the refusal that is due.
ghost use Rattle.std.specs.Prelude.{◌≡◌, false, true, ◌&&◌, leb, ltb, eqb, length, Ok};
ghost use Rattle.grid.specs.Domain.{coordinate, point, segment, lines, Alike, counts, shape, size_fits, sizes_fit, fit};
ghost use Rattle.grid.specs.Domain.{lengths_check, scratch_check, count_check, coordinates_check, coordinate_check, point_check, segment_check, grid_check};
ghost use Rattle.grid.specs.Domain.{cell_check, lines_check};

use crate::segments::segment_at;
use crate::{Grid, Segment};
use refusals::{Refusal, refuse_unless};

// The most lines of a call, and the least scratch.
pub const MOST_LINES: usize = 65536;

pub const LEAST_SCRATCH: usize = 16384;

// Finite, of magnitude at most 1e9.
fn is_coordinate(v: f64) -> bool
    ensures { result ≡ coordinate v }
{
    numbers::order::magnitude(v) <= 1e9
}

pub fn is_point(x: f64, y: f64) -> bool
    ensures { result ≡ point x y }
{
    is_coordinate(x) & is_coordinate(y)
}

fn is_segment(s: Segment) -> bool
    ensures { result ≡ segment s }
{
    is_point(s.start_x, s.start_y) & is_point(s.end_x, s.end_y)
}

fn is_count(n: u32) -> bool
    ensures { result ≡ counts n }
{
    (1 <= n) & (n <= 4004)
}

// The counts of a fit grid: both 0, or each 1 to 4,004 with product at most 1,002,001.
pub fn is_shape(cols: u32, rows: u32) -> bool
    ensures { result ≡ shape cols rows }
{
    ((cols == 0) & (rows == 0))
        | (is_count(cols) & (is_count(rows) & (rows as u64 * cols as u64 <= 1002001)))
}

// The smallest and the largest size of a cell on an axis of a fit grid.
fn is_cell_size(v: f64) -> bool
    ensures { result ≡ size_fits v }
{
    (0.25e-6 <= v) & (v <= 2e9)
}

fn are_cell_sizes(width: f64, height: f64) -> bool
    ensures { result ≡ sizes_fit width height }
{
    is_cell_size(width) & is_cell_size(height)
}

pub fn is_fit(grid: Grid) -> bool
    ensures { result ≡ fit grid }
{
    is_point(grid.min_x, grid.min_y)
        & (are_cell_sizes(grid.cell_width, grid.cell_height) & is_shape(grid.cols, grid.rows))
}

pub fn check_coordinate(v: f64) -> Result<(), Refusal>
    ensures { result ≡ coordinate_check v }
{
    refuse_unless(is_coordinate(v), 1, 0)
}

pub fn check_point(x: f64, y: f64) -> Result<(), Refusal>
    ensures { result ≡ point_check x y }
{
    refuse_unless(is_point(x, y), 1, 0)
}

pub fn check_segment(s: Segment) -> Result<(), Refusal>
    ensures { result ≡ segment_check s }
{
    refuse_unless(is_segment(s), 1, 0)
}

pub fn check_grid(grid: Grid) -> Result<(), Refusal>
    ensures { result ≡ grid_check grid }
{
    refuse_unless(is_fit(grid), 8, 0)
}

pub fn check_scratch(n: usize) -> Result<(), Refusal>
    ensures { result ≡ scratch_check n }
{
    refuse_unless(LEAST_SCRATCH <= n, 3, 0)
}

pub fn check_count(n: usize) -> Result<(), Refusal>
    ensures { result ≡ count_check n }
{
    refuse_unless(n <= MOST_LINES, 2, n as u64)
}

fn is_cell(grid: Grid, row: u32, col: u32) -> bool
    ensures { result ≡ (ltb row grid.rows && ltb col grid.cols) }
{
    (row < grid.rows) & (col < grid.cols)
}

pub fn check_cell(grid: Grid, row: u32, col: u32) -> Result<(), Refusal>
    ensures { result ≡ cell_check grid row col }
{
    refuse_unless(is_cell(grid, row, col), 9, row as u64)
}

fn all_are(n: usize, a: usize, b: usize, c: usize) -> bool
    ensures { result ≡ (eqb a n && (eqb b n && eqb c n)) }
{
    (a == n) & ((b == n) & (c == n))
}

// The coordinate slices have one length.
pub fn check_lengths(
    start_x: &[f64],
    start_y: &[f64],
    end_x: &[f64],
    end_y: &[f64],
) -> Result<(), Refusal>
    ensures { result ≡ lengths_check (lines start_x.now start_y.now end_x.now end_y.now) }
{
    refuse_unless(
        all_are(start_x.len(), start_y.len(), end_x.len(), end_y.len()),
        3,
        0,
    )
}

// Whether every coordinate obeys the rule. Every line is looked at and none is a branch, so that several are looked at at once.
fn all_obey(start_x: &[f64], start_y: &[f64], end_x: &[f64], end_y: &[f64]) -> bool
    requires { Alike (lines start_x.now start_y.now end_x.now end_y.now) }
    ensures { let ls = lines start_x.now start_y.now end_x.now end_y.now in (result ≡ true → (Ok tt) ≡ coordinates_check ls) }
{
    let mut all = true;
    for i in 0..start_x.len() {
        all = all
            & ((is_coordinate(start_x[i]) & is_coordinate(start_y[i]))
                & (is_coordinate(end_x[i]) & is_coordinate(end_y[i])));
    }
    all
}

// The first line with a coordinate that breaks the rule, sought where there is one. The slices have one length.
fn check_coordinates(
    start_x: &[f64],
    start_y: &[f64],
    end_x: &[f64],
    end_y: &[f64],
) -> Result<(), Refusal>
    requires { Alike (lines start_x.now start_y.now end_x.now end_y.now) }
    ensures { result ≡ coordinates_check (lines start_x.now start_y.now end_x.now end_y.now) }
{
    if all_obey(start_x, start_y, end_x, end_y) {
        return Ok(());
    }
    for i in 0..start_x.len() {
        if !is_segment(segment_at(start_x, start_y, end_x, end_y, i)) {
            return Err(Refusal {
                number: 1,
                value: i as u64,
            });
        }
    }
    Ok(())
}

// What every call that is lent lines checks first: 3, 2, 1.
pub fn check_lines(
    start_x: &[f64],
    start_y: &[f64],
    end_x: &[f64],
    end_y: &[f64],
) -> Result<(), Refusal>
    ensures { result ≡ lines_check (lines start_x.now start_y.now end_x.now end_y.now) }
{
    check_lengths(start_x, start_y, end_x, end_y)?;
    check_count(start_x.len())?;
    check_coordinates(start_x, start_y, end_x, end_y)
}
