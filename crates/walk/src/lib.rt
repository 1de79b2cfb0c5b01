// The cells of a uniform grid that a segment visits: document 01, "The walk", and the Rust's `segment_cells`.
#![tactic(auto)]

mod beside;

ghost use Rattle.std.specs.Prelude.{◌≡◌, false, [], length};
ghost use Rattle.refusals.specs.Refusals.{gives, ◌then◌};
ghost use Rattle.grid.specs.Domain.{segment_by};
ghost use Rattle.cover.specs.Covering.{covering_of, everywhere, scratch_shape_check};
ghost use Rattle.walk.specs.Segment.{turns_of, turning, everywhere_in, entry_check, off_in, entry_of, reach_of, as_is_of, reached_of, Walked, Entered};

use beside::completed;
use cover::Covered;
use grid::{Grid, Segment};
use refusals::Refusal;

// Which cells a line visits. By turns, and beside a boundary those that the Rust adds, or by the side of the boundary that a value lies on; or those of the
// covering walk, so that two lines with a common exact point share a cell.
#[derive(Clone, Copy)]
pub enum Mode {
    Rust,
    Sided,
    Covering,
}

// Which neighbour of a cell is added on an axis.
#[derive(Clone, Copy)]
pub enum Neighbour {
    None,
    Lower,
    Upper,
}

// What a walk inside a larger call reaches: the number of cells, which stand in the lent scratch; or that the line is in every cell of a grid of more than
// 2,048. Their number is then the grid's, and they are not listed. As in `cover`, no `Option`: a `None` would have to say "every cell".
#[derive(Clone, Copy)]
pub enum Reached {
    Found(usize),
    Everywhere,
}

// Refusals 3, 1 and 8, of n entries of scratch.
fn check_entry(grid: Grid, line: Segment, n: usize) -> Result<(), Refusal>
    ensures { result ≡ entry_check n grid line }
{
    grid::checks::check_scratch(n)?;
    grid::checks::check_segment(line)?;
    grid::checks::check_grid(grid)
}

// A grid of 0 columns visits nothing, behind refusals 3 and 8.
fn none_reached(grid: Grid, n: usize) -> Result<Reached, Refusal>
    ensures { result ≡ reached_of false (scratch_shape_check n grid then gives []) }
{
    cover::check_room(grid, n)?;
    Ok(Reached::Found(0))
}

// The walk by turns, with the cells that its mode adds, on a grid as it is: refusals 3, and 8 by the counts of the grid alone, and 7. That there are columns is
// asked first: then no index asks for it again.
fn cells_by_turns(
    mode: Mode,
    grid: Grid,
    line: Segment,
    scratch: &mut [u32],
) -> Result<Reached, Refusal>
    ensures { let o = scratch_shape_check (length scratch.old) grid then turns_of mode grid line in
        Walked false o scratch.old result scratch.new }
{
    if grid.cols == 0 {
        return none_reached(grid, scratch.len());
    }
    let trod = turns::walk_by_turns(grid, line, scratch)?;
    let m = completed(scratch, mode, grid, line, trod);
    let count = ordering::order_and_keep(scratch, m);
    Ok(Reached::Found(count))
}

// The covering walk on a grid as it is, which makes the same checks itself.
fn cells_covered(grid: Grid, line: Segment, scratch: &mut [u32]) -> Result<Reached, Refusal>
    ensures { let o = scratch_shape_check (length scratch.old) grid then gives (covering_of grid line) in
        Walked (everywhere grid line) o scratch.old result scratch.new }
{
    let cells = cover::cover_segment(grid, line, scratch)?;
    match cells {
        Covered::Found(n) => Ok(Reached::Found(n)),
        Covered::Everywhere => Ok(Reached::Everywhere),
    }
}

// Whether a mode walks by turns.
fn is_turning(mode: Mode) -> bool
    ensures { result ≡ turning mode }
{
    match mode {
        Mode::Rust => true,
        Mode::Sided => true,
        Mode::Covering => false,
    }
}

// The walk between two points, on a grid as it is: by turns, or the covering walk. A larger call has checked the lines and the grid once, so that here no
// float is checked again: 3, and 8 by the counts alone, and 7. The ends are handed over as numbers, in registers: a segment that is written to memory number
// by number and read back in pairs makes a processor wait, for a sixth of a short walk.
pub fn cells_between(
    mode: Mode,
    grid: Grid,
    start_x: f64,
    start_y: f64,
    end_x: f64,
    end_y: f64,
    scratch: &mut [u32],
) -> Result<Reached, Refusal>
    ensures { let line = segment_by start_x start_y end_x end_y in
        let o = as_is_of mode (length scratch.old) grid line in
        Walked (everywhere_in mode grid line) o scratch.old result scratch.new }
{
    let line = Segment {
        start_x,
        start_y,
        end_x,
        end_y,
    };
    if is_turning(mode) {
        return cells_by_turns(mode, grid, line, scratch);
    }
    cells_covered(grid, line, scratch)
}

// The walk of one line inside a larger call: its cells, increasing, none twice, at the start of the scratch. What is beyond them there is not zeroed.
// Refusals 3, 1, 8 and 7.
pub fn segment_cells(
    mode: Mode,
    grid: Grid,
    line: Segment,
    scratch: &mut [u32],
) -> Result<Reached, Refusal>
    ensures { let o = reach_of mode (length scratch.old) grid line in
        Walked (everywhere_in mode grid line) o scratch.old result scratch.new }
{
    check_entry(grid, line, scratch.len())?;
    cells_between(
        mode,
        grid,
        line.start_x,
        line.start_y,
        line.end_x,
        line.end_y,
        scratch,
    )
}

// Whether an end of the line is off the grid of the covering walk.
fn is_off(mode: Mode, grid: Grid, line: Segment) -> bool
    ensures { result ≡ off_in mode grid line }
{
    if is_turning(mode) {
        return false;
    }
    cover::is_off(grid, line)
}

// The walk of one segment: the number of its cells, which stand at the start of the scratch, and zero beyond them. In the covering mode a line with an end off the grid is refused by 16.
pub fn cells_of_segment(
    mode: Mode,
    grid: Grid,
    line: Segment,
    scratch: &mut [u32],
) -> Result<usize, Refusal>
    ensures { Entered (entry_of mode (length scratch.old) grid line) scratch.old result scratch.new }
{
    check_entry(grid, line, scratch.len())?;
    if is_off(mode, grid, line) {
        return Err(Refusal {
            number: 16,
            value: 0,
        });
    }
    let reached = cells_between(
        mode,
        grid,
        line.start_x,
        line.start_y,
        line.end_x,
        line.end_y,
        scratch,
    )?;
    match reached {
        Reached::Found(n) => {
            slices::clear_from(scratch, n);
            Ok(n)
        },
        // a line that is everywhere is off the grid, and was refused above
        Reached::Everywhere => Err(Refusal {
            number: 16,
            value: 0,
        }),
    }
}
