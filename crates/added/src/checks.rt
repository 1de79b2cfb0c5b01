// The checks before anything is written: of the line, of the tables that are lent, and of the room in them.
ghost use Rattle.std.specs.Prelude.{◌≡◌, ◌&&◌, ◌+◌, ◌<◌, ◌^◌, leb, ltb};
ghost use Rattle.grid.specs.Domain.{fit};
ghost use Rattle.tables.specs.Tables.{tables};
ghost use Rattle.added.specs.Added.{inside_on, point_inside, line_inside, edge_check, below_check, cells_check, ask_check};
ghost use Rattle.added.specs.Inside.{space_by};

use grid::{Axis, Grid, Segment};
use refusals::{Refusal, refuse_unless};

// From the least coordinate of an axis to the greatest, both included.
fn is_on(axis: Axis, v: f64) -> bool
    ensures { result ≡ inside_on axis v }
{
    (axis.low <= v) & (v <= axis.low_edge(axis.count))
}

fn is_point_inside(grid: Grid, x: f64, y: f64) -> bool
    ensures { result ≡ point_inside grid x y }
{
    is_on(grid.x_axis(), x) & is_on(grid.y_axis(), y)
}

fn is_inside(grid: Grid, line: Segment) -> bool
    ensures { result ≡ line_inside grid line }
{
    is_point_inside(grid, line.start_x, line.start_y)
        & is_point_inside(grid, line.end_x, line.end_y)
}

// 14: an end of the line is off the grid.
pub(crate) fn check_edge(grid: Grid, line: Segment) -> Result<(), Refusal>
    ensures { result ≡ edge_check grid line }
{
    refuse_unless(is_inside(grid, line), 14, 0)
}

fn has_cells(grid: Grid) -> bool
    ensures { result ≡ (fit grid && ltb 0 grid.cols) }
{
    grid::checks::is_fit(grid) & (0 < grid.cols)
}

// 3, 2, 1, 8 and 10, in that order.
pub(crate) fn check_asked(
    grid: Grid,
    line: Segment,
    n: usize,
    offsets: &[u32],
    items: &[u32],
    globals: &[u32],
    global_count: usize,
    scratch: usize,
) -> Result<(), Refusal>
    ensures { result ≡ ask_check grid line (tables grid n offsets.now items.now globals.now global_count) scratch }
{
    grid::checks::check_scratch(scratch)?;
    refuse_unless(n < 65536, 2, n as u64)?;
    grid::checks::check_segment(line)?;
    refuse_unless(has_cells(grid), 8, 0)?;
    refuse_unless(
        tables::is_fit(grid, n, offsets, items, globals, global_count),
        10,
        0,
    )
}

// Whether so many items fit their slice, and their offsets 32 bits.
fn is_room(total: usize, items: usize) -> bool
    ensures { result ≡ (leb total items && leb total 4294967295) }
{
    (total <= items) & (total <= 4294967295)
}

// 5, then 6, by the numbers that there will be and the lengths of the slices.
pub(crate) fn check_room(
    total: usize,
    items: usize,
    found: usize,
    globals: usize,
) -> Result<(), Refusal>
    ensures { result ≡ space_by total items found globals }
{
    refuse_unless(is_room(total, items), 5, total as u64)?;
    refuse_unless(found <= globals, 6, found as u64)
}
