// The ends of a line in fine units, 2^20 to a cell, and the guard: which ends can be brought into them.
// The guard's tests are branches: as one expression they were no faster.
ghost use Rattle.std.specs.Prelude.{◌≡◌, true};
ghost use Rattle.cover.specs.Fine.{units_on, fine_on, near_on};
ghost use Rattle.cover.specs.Covering.{end_passes, passes, fine_ends};

use crate::Ends;
use grid::{Axis, Grid, Segment};

fn units(axis: Axis, v: f64) -> f64
    ensures { result ≡ units_on axis v }
{
    (v - axis.low) / (axis.size / 1048576.0)
}

fn near(axis: Axis, v: f64) -> bool
    ensures { result ≡ near_on axis v }
{
    if axis.low <= v {
        return units(axis, v) < 4293918720.0;
    }
    false
}

// A quotient that passes the guard has 32 bits, so the cut is the clamped floor's, which has no shift by the exponent.
fn fine(axis: Axis, v: f64) -> u64
    requires { near_on axis v ≡ true }
    ensures { result ≡ fine_on axis v }
{
    numbers::floor::clamped_floor(units(axis, v), 4294967295) as u64
}

fn end_passes(grid: Grid, x: f64, y: f64) -> bool
    ensures { result ≡ end_passes grid x y }
{
    if near(grid.x_axis(), x) {
        return near(grid.y_axis(), y);
    }
    false
}

pub(crate) fn passes(grid: Grid, line: Segment) -> bool
    ensures { result ≡ passes grid line }
{
    if end_passes(grid, line.start_x, line.start_y) {
        return end_passes(grid, line.end_x, line.end_y);
    }
    false
}

pub(crate) fn ends_of(grid: Grid, line: Segment) -> Ends
    requires { passes grid line ≡ true }
    ensures { result ≡ fine_ends grid line }
{
    let start_x = fine(grid.x_axis(), line.start_x);
    let start_y = fine(grid.y_axis(), line.start_y);
    let end_x = fine(grid.x_axis(), line.end_x);
    let end_y = fine(grid.y_axis(), line.end_y);
    if end_y < start_y {
        return Ends {
            from_x: end_x,
            from_y: end_y,
            to_x: start_x,
            to_y: start_y,
        };
    }
    Ends {
        from_x: start_x,
        from_y: start_y,
        to_x: end_x,
        to_y: end_y,
    }
}
