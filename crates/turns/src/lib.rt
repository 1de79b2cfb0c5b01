// The walk of a segment by turns: document 01, "The walk", without what a boundary adds.
#![tactic(auto)]

mod moves;
mod pushes;

ghost use Rattle.turns.specs.Trails.{TrailIs};

use grid::{Grid, Segment};
use moves::{started, way_of};
use pushes::walked;
use refusals::Refusal;

// One axis of the line: what a move adds to the index, modulo 2^32, and to t_max; and the index of the end.
#[derive(Clone, Copy)]
pub(crate) struct Course {
    pub step: u32,
    pub t_delta: f64,
    pub end: u32,
}

// One axis of the state: the index, modulo 2^32, and t at the next boundary.
#[derive(Clone, Copy)]
pub(crate) struct Position {
    pub index: u32,
    pub t_max: f64,
}

#[derive(Clone, Copy)]
pub(crate) struct Way {
    pub x: Course,
    pub y: Course,
}

#[derive(Clone, Copy)]
pub(crate) struct Walk {
    pub x: Position,
    pub y: Position,
}

// On which axes a turn moves. On none, the walk stops.
#[derive(Clone, Copy)]
pub(crate) struct Turn {
    pub x: bool,
    pub y: bool,
}

// What a turn comes to: the state, and how many are pushed.
#[derive(Clone, Copy)]
pub(crate) struct Next {
    pub at: Walk,
    pub count: usize,
}

// What was walked: how many cells stand in the lent scratch, and where the ends of the line are.
#[derive(Clone, Copy)]
pub struct Trod {
    pub count: usize,
    pub start_col: u32,
    pub start_row: u32,
    pub end_col: u32,
    pub end_row: u32,
}

// The walk of a segment by turns, on a grid as it is: its cells at the start of the scratch, as they are pushed. Refusals 3, and 8 by the counts of the grid
// alone, and 7.
pub fn walk_by_turns(grid: Grid, line: Segment, scratch: &mut [u32]) -> Result<Trod, Refusal>
    ensures { TrailIs grid line scratch.old result scratch.new }
{
    cover::check_room(grid, scratch.len())?;
    let way = way_of(grid, line);
    let start = started(grid, line);
    let ran = walked(scratch, grid.cols, grid.rows, way, start);
    match ran {
        Some(n) => Ok(Trod {
            count: n,
            start_col: start.x.index,
            start_row: start.y.index,
            end_col: way.x.end,
            end_row: way.y.end,
        }),
        None => {
            slices::clear_from(scratch, 0);
            Err(Refusal {
                number: 7,
                value: 0,
            })
        },
    }
}
