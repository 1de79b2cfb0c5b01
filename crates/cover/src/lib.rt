// The covering walk: the cells of a segment such that two segments with a common exact point always share one. The cells come out increasing and none
// twice, no turn is counted, and no boundary rule is needed.
#![tactic(auto)]

mod fine;
mod rows;
mod runs;

ghost use Rattle.std.specs.Prelude.{◌≡◌, length};
ghost use Rattle.cover.specs.Covering.{off_grid, scratch_shape_check, CoverIs};

use fine::{ends_of, passes};
use grid::{Grid, Segment};
use refusals::{Refusal, refuse_unless};
use rows::cells_between;
use runs::put_run;

// The number of cells, which stand in the lent scratch; or that the line is in every cell of a grid of more than 2,048, since one of its ends is off the
// grid. Behind that, and behind a refusal, the scratch is as it was. It is no `Option`: a `None` would have to say "every cell".
#[derive(Clone, Copy)]
pub enum Covered {
    Found(usize),
    Everywhere,
}

// The ends of a line in fine units, the lower one first.
#[derive(Clone, Copy)]
pub struct Ends {
    pub from_x: u64,
    pub from_y: u64,
    pub to_x: u64,
    pub to_y: u64,
}

// The columns of a row that are covered: the first and the last.
#[derive(Clone, Copy)]
pub(crate) struct Columns {
    pub first: u64,
    pub last: u64,
}

// Whether an end of a segment does not pass the guard, on a grid that has cells: the segment is then in all of them.
pub fn is_off(grid: Grid, line: Segment) -> bool
    ensures { result ≡ off_grid grid line }
{
    if grid.cols == 0 {
        return false;
    }
    if passes(grid, line) {
        return false;
    }
    true
}

// Refusals 3 and 8, of n entries of scratch and the counts of a grid: few comparisons of whole numbers, which a walk makes for every line.
pub fn check_room(grid: Grid, n: usize) -> Result<(), Refusal>
    ensures { result ≡ scratch_shape_check n grid }
{
    grid::checks::check_scratch(n)?;
    refuse_unless(grid::checks::is_shape(grid.cols, grid.rows), 8, 0)
}

// The cells of a segment at the start of the scratch. What is beyond them there is not zeroed. The floats of the grid and of the segment are taken as they
// are: an end that is no number does not pass the guard.
pub fn cover_segment(grid: Grid, line: Segment, scratch: &mut [u32]) -> Result<Covered, Refusal>
    ensures { CoverIs grid line scratch.old result scratch.new }
{
    check_room(grid, scratch.len())?;
    if grid.cols == 0 {
        return Ok(Covered::Found(0));
    }
    if passes(grid, line) {
        let n = cells_between(
            scratch,
            ends_of(grid, line),
            grid.cols as u64,
            grid.rows as u64,
        );
        return Ok(Covered::Found(n));
    }
    let all = (grid.rows as u64) * (grid.cols as u64);
    if 2048 < all {
        return Ok(Covered::Everywhere);
    }
    let n = put_run(scratch, 0, 0, all);
    Ok(Covered::Found(n))
}
