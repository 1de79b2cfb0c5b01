// The owners of many points in one call.
ghost use Rattle.std.specs.Prelude.{◌≡◌, ◌<◌, length};
ghost use Rattle.own.specs.Owner.{owner_of};
ghost use Rattle.own.specs.Many.{owner_number, owners_of, alike_check, points_check, OwnersAre};
ghost use Rattle.own.specs.Inside.{PointAskable, PointsChecked};

use crate::axis::{guessed, settled};
use crate::{Owner, first_cell};
use grid::Grid;
use refusals::{Refusal, refuse_unless};

// The numbers of the two answers that are no cell.
pub const SEAM: u32 = 4294967294;

pub const OUTSIDE: u32 = 4294967295;

// The number of an owner on so many columns.
fn numbered(cols: u32, owner: Owner) -> u32
    requires { owner_number cols owner < 4294967296 }
    ensures { result ≡ owner_number cols owner }
{
    match owner {
        Owner::Cell { row, col } => row * cols + col,
        Owner::Seam => SEAM,
        Owner::Outside => OUTSIDE,
    }
}

// The number of a point's owner, by a guess on each axis, or else by the search of a single call. So many columns and rows go into a unit
// of length: to multiply is quicker than to divide, and a guess need not be exact.
fn number_at(grid: Grid, columns: f64, rows: f64, x: f64, y: f64) -> u32
    requires { PointAskable grid x y }
    ensures { result ≡ owner_number grid.cols (owner_of grid x y) }
{
    let col = guessed((x - grid.min_x) * columns, grid.cols);
    let row = guessed((y - grid.min_y) * rows, grid.rows);
    if settled(grid.x_axis(), x, col) {
        if settled(grid.y_axis(), y, row) {
            return row * grid.cols + col;
        }
    }
    numbered(grid.cols, first_cell(grid, x, y))
}

// The three slices have one length.
fn check_alike(xs: usize, ys: usize, answers: usize) -> Result<(), Refusal>
    ensures { result ≡ alike_check xs ys answers }
{
    refuse_unless((ys == xs) & (answers == xs), 3, 0)
}

// The first point with a coordinate that breaks the rule. The slices have one length.
fn check_points(x: &[f64], y: &[f64]) -> Result<(), Refusal>
    requires { length y.now ≡ length x.now }
    ensures { result ≡ points_check x.now y.now }
{
    for i in 0..x.len() {
        if !grid::checks::is_point(x[i], y[i]) {
            return Err(Refusal {
                number: 1,
                value: i as u64,
            });
        }
    }
    Ok(())
}

// Writes the answer of each point. All checks are passed.
fn write_owners(grid: Grid, x: &[f64], y: &[f64], answers: &mut [u32])
    requires { PointsChecked grid x.now y.now answers.old }
    ensures { answers.new ≡ owners_of grid x.now y.now }
{
    let columns = 1.0 / grid.cell_width;
    let rows = 1.0 / grid.cell_height;
    for i in 0..x.len() {
        answers[i] = number_at(grid, columns, rows, x[i], y[i]);
    }
}

// The owner of each point (x[i], y[i]), by its number: a cell's, SEAM or OUTSIDE. Refuses by 3, 1 and 8, before it writes.
pub fn owners_of(grid: Grid, x: &[f64], y: &[f64], answers: &mut [u32]) -> Result<(), Refusal>
    ensures { OwnersAre grid x.now y.now answers.old result answers.new }
{
    check_alike(x.len(), y.len(), answers.len())?;
    check_points(x, y)?;
    grid::checks::check_grid(grid)?;
    write_owners(grid, x, y, answers);
    Ok(())
}
