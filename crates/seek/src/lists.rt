// A list by its place: a part of the items or a part of the globals.
ghost use Rattle.std.specs.Prelude.{◌≡◌};
ghost use Rattle.tables.specs.Tables.{tables};
ghost use Rattle.seek.specs.Places.{place_check, list_check, part_at};

use crate::Place;
use grid::Grid;
use refusals::Refusal;
use slices::wide;

// Refusal 9, of a place beyond its end.
fn check_place(grid: Grid, global_count: usize, place: Place) -> Result<(), Refusal>
    ensures { result ≡ place_check grid global_count place }
{
    match place {
        Place::Cell { row, col } => grid::checks::check_cell(grid, row, col),
        Place::Global(p) => refusals::refuse_unless(p < global_count, 9, p as u64),
    }
}

// Refusals 2, 8, 10 and 9, in that order.
pub fn list_check(
    lines: usize,
    grid: Grid,
    offsets: &[u32],
    items: &[u32],
    globals: &[u32],
    global_count: usize,
    place: Place,
) -> Result<(), Refusal>
    ensures { result ≡ list_check grid (tables grid lines offsets.now items.now globals.now global_count) place }
{
    tables::check_tables(grid, lines, offsets, items, globals, global_count)?;
    check_place(grid, global_count, place)
}

// The list at a place. A refusal returns an empty part, and `list_check` says which.
pub fn list_at<'a>(
    lines: usize,
    grid: Grid,
    offsets: &[u32],
    items: &'a [u32],
    globals: &'a [u32],
    global_count: usize,
    place: Place,
) -> &'a [u32]
    ensures { result.now ≡ part_at grid (tables grid lines offsets.now items.now globals.now global_count) place }
{
    let check = list_check(lines, grid, offsets, items, globals, global_count, place);
    if let Err(_) = check {
        return &items[0..0];
    }
    match place {
        Place::Cell { row, col } => {
            let cell = wide(row) * wide(grid.cols) + wide(col);
            tables::list_of(offsets, items, cell)
        }
        Place::Global(p) => &globals[p..global_count],
    }
}
