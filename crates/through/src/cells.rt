// The run through the cells, of any lines, lists and outputs.
ghost use Rattle.std.specs.Prelude.{◌≡◌};
ghost use Rattle.grid.specs.Domain.{lines};
ghost use Rattle.through.specs.Runs.{outputs_lines_check, CellsMadeIs};
ghost use Rattle.through.specs.Inside.{GoAsks, GoneIs};

use crate::{CellsMade, rows};
use listed::settle;
use refusals::Refusal;
use slices::least;

// Refusals 3, of the outputs and of the lines, and 2.
pub fn check_lent(
    start_x: &[f64],
    start_y: &[f64],
    end_x: &[f64],
    end_y: &[f64],
    first: &[u32],
    second: &[u32],
) -> Result<(), Refusal>
    ensures { let ls = lines start_x.now start_y.now end_x.now end_y.now in
        result ≡ outputs_lines_check ls first.now second.now }
{
    refusals::refuse_unless(first.len() == second.len(), 3, 0)?;
    grid::checks::check_lengths(start_x, start_y, end_x, end_y)?;
    grid::checks::check_count(start_x.len())
}

// The run with room of its own for boxes and bytes, zero beyond its pairs, and where the first test that is left stands.
fn go(
    cols: u32,
    reach: usize,
    offsets: &[u32],
    items: &[u32],
    cell: usize,
    i: usize,
    j: usize,
    start_x: &[f64],
    start_y: &[f64],
    end_x: &[f64],
    end_y: &[f64],
    first: &mut [u32],
    second: &mut [u32],
) -> CellsMade
    requires { GoAsks (lines start_x.now start_y.now end_x.now end_y.now) reach first.old second.old }
    ensures { let ls = lines start_x.now start_y.now end_x.now end_y.now in
        GoneIs ls cols reach offsets.now items.now cell i j first.old second.old
        first.new second.new result }
{
    let mut room = [0.0; 2052];
    let mut marks = [0u8; 512];
    let ran = rows::run_cells(
        cols, reach, offsets, items, cell, i, j, start_x, start_y, end_x, end_y, &mut room,
        &mut marks, first, second,
    );
    slices::clear_from(first, ran.hits);
    slices::clear_from(second, ran.hits);
    let at = settle::cell_at(start_x.len(), reach, offsets, items, ran.cell, ran.i, ran.j);
    CellsMade {
        tests: ran.tests,
        overlaps: ran.hits,
        at,
    }
}

// The tests from entries i and j of the list of a cell on, of the first `reach` cells, until the outputs are full or none is left: the pairs
// that overlap, with zero beyond them. Nothing is done where `check_lent` refuses, or the cell is beyond.
pub fn run(
    cols: u32,
    reach: usize,
    offsets: &[u32],
    items: &[u32],
    cell: usize,
    i: usize,
    j: usize,
    start_x: &[f64],
    start_y: &[f64],
    end_x: &[f64],
    end_y: &[f64],
    first: &mut [u32],
    second: &mut [u32],
) -> CellsMade
    ensures { let ls = lines start_x.now start_y.now end_x.now end_y.now in
        CellsMadeIs ls cols reach offsets.now items.now cell i j first.old second.old
        first.new second.new result }
{
    let most = least(reach, 1002001);
    if most <= cell {
        return CellsMade {
            tests: 0,
            overlaps: 0,
            at: None,
        };
    }
    let check = check_lent(start_x, start_y, end_x, end_y, first, second);
    if let Err(_) = check {
        return CellsMade {
            tests: 0,
            overlaps: 0,
            at: None,
        };
    }
    go(
        cols, most, offsets, items, cell, i, j, start_x, start_y, end_x, end_y, first, second,
    )
}
