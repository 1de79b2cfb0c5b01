// Which cell owns a point or a collinear overlap, by the Rust's tests in `process_cell_candidate` and `handle_collinear`, and the
// cell that owns a point, or those that own many.
#![tactic(auto)]

mod axis;
mod ends;
pub mod many;

ghost use Rattle.std.specs.Prelude.{◌≡◌, ◌&&◌};
ghost use Rattle.grid.specs.Axes.{x_axis, y_axis};
ghost use Rattle.own.specs.Own.{owns_point, holds_on, owns_overlap, point_on_grid_check, point_answer, overlap_answer};
ghost use Rattle.own.specs.Owner.{Searchable, seam_or_outside, owner_of, owner_answer};

use grid::Grid;
use refusals::Refusal;

// Whose a point is: a cell's, or nobody's, in a seam between cells or outside the grid.
#[derive(Clone, Copy)]
pub enum Owner {
    Cell { row: u32, col: u32 },
    Seam,
    Outside,
}

// 1, then 8.
fn check_place(grid: Grid, x: f64, y: f64) -> Result<(), Refusal>
    ensures { result ≡ point_on_grid_check grid x y }
{
    grid::checks::check_point(x, y)?;
    grid::checks::check_grid(grid)
}

fn owns_point(grid: Grid, row: u32, col: u32, x: f64, y: f64) -> bool
    ensures { result ≡ owns_point grid row col x y }
{
    if axis::owns(grid.x_axis(), col, x) {
        return axis::owns(grid.y_axis(), row, y);
    }
    false
}

// The axes of the cell hold the point.
fn holds_point(grid: Grid, row: u32, col: u32, x: f64, y: f64) -> bool
    ensures { result ≡ (holds_on (x_axis grid) col x && holds_on (y_axis grid) row y) }
{
    if axis::holds(grid.x_axis(), col, x) {
        return axis::holds(grid.y_axis(), row, y);
    }
    false
}

// The first end is snapped already.
fn owns_overlap(grid: Grid, row: u32, col: u32, x: f64, y: f64) -> bool
    ensures { result ≡ owns_overlap grid row col x y }
{
    if holds_point(grid, row, col, x, y) {
        return true;
    }
    if row == 0 {
        return col == 0;
    }
    false
}

// Whether a cell owns a point. Refuses by 1, 8, 9.
pub fn point_owned(grid: Grid, row: u32, col: u32, x: f64, y: f64) -> Result<bool, Refusal>
    ensures { result ≡ point_answer grid row col x y }
{
    check_place(grid, x, y)?;
    grid::checks::check_cell(grid, row, col)?;
    Ok(owns_point(grid, row, col, x, y))
}

// Whether a cell owns a collinear overlap whose first end is (x, y). Refuses by 1, 8, 12, 9.
pub fn overlap_owned(
    grid: Grid,
    row: u32,
    col: u32,
    x: f64,
    y: f64,
    size: f64,
    strategy: u32,
) -> Result<bool, Refusal>
    ensures { result ≡ overlap_answer grid row col x y size strategy }
{
    check_place(grid, x, y)?;
    let end = snap::snap_point(x, y, size, strategy)?;
    grid::checks::check_cell(grid, row, col)?;
    Ok(owns_overlap(grid, row, col, end.x, end.y))
}

// For a point that no cell owns.
fn seam_or_outside(grid: Grid, x: f64, y: f64) -> Owner
    ensures { result ≡ seam_or_outside grid x y }
{
    let across = ends::spanned(grid.x_axis(), x);
    let up = ends::spanned(grid.y_axis(), y);
    if across {
        if up {
            return Owner::Seam;
        }
    }
    Owner::Outside
}

// The first column that owns x, and the first row that owns y: ownership goes axis by axis, so theirs is the first cell.
pub(crate) fn first_cell(grid: Grid, x: f64, y: f64) -> Owner
    requires x_searchable { Searchable (x_axis grid) x }
    requires y_searchable { Searchable (y_axis grid) y }
    ensures { result ≡ owner_of grid x y }
{
    let across = axis::first(grid.x_axis(), x);
    let Some(col) = across else {
        return seam_or_outside(grid, x, y);
    };
    let along = axis::first(grid.y_axis(), y);
    let Some(row) = along else {
        return seam_or_outside(grid, x, y);
    };
    Owner::Cell { row, col }
}

// The first cell in row order that owns a point, or else a seam or outside. Refuses by 1, 8.
pub fn owner_of(grid: Grid, x: f64, y: f64) -> Result<Owner, Refusal>
    ensures { result ≡ owner_answer grid x y }
{
    check_place(grid, x, y)?;
    Ok(first_cell(grid, x, y))
}
