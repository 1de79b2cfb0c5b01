// What a visit of standing tables will cost, beforehand: its number of tests, and the longest list of a cell. Both come from the offsets and
// the two counts, with no look at a line.
#![tactic(auto)]

ghost use Rattle.std.specs.Prelude.{◌≡◌, cond, ◌-◌, ◌*◌, leb};
ghost use Rattle.tables.specs.Tables.{tables};
ghost use Rattle.seek.specs.Inside.{tri};
ghost use Rattle.cost.specs.Cost.{cost_answer};
ghost use Rattle.cost.specs.Inside.{GapsAsk, CellsCost, CostAsks};

use grid::Grid;
use refusals::Refusal;

// The tests of a full visit, and the lines of the longest list.
#[derive(Clone, Copy)]
pub struct Cost {
    pub tests: u64,
    pub longest: u64,
}

fn wide(x: u32) -> u64
    ensures { result ≡ x }
{
    x as u64
}

fn greater(a: u64, b: u64) -> u64
    ensures { result ≡ cond (leb a b) b a }
{
    if a <= b {
        return b;
    }
    a
}

// How many tests a list of k lines has.
fn triangle(k: u32) -> u64
    ensures { result ≡ tri k }
{
    let w = wide(k);
    (w * w - w) / 2
}

// The lists of the cells.
fn of_cells(cells: usize, offsets: &[u32]) -> Cost
    requires { GapsAsk cells offsets.now }
    ensures { CellsCost cells offsets.now result }
{
    let mut tests: u64 = 0;
    let mut longest: u64 = 0;
    for cell in 0..cells {
        let k = offsets[cell + 1] - offsets[cell];
        tests = tests + triangle(k);
        longest = greater(longest, wide(k));
    }
    Cost { tests, longest }
}

// The global lines: each with every line but itself and the lower globals.
fn of_globals(lines: u32, globals: u32) -> u64
    requires { CostAsks lines globals }
    ensures { result ≡ globals * (lines - 1) - tri globals }
{
    if globals == 0 {
        return 0;
    }
    wide(globals) * wide(lines - 1) - triangle(globals)
}

// Refusals 2, 8 and 10, in that order; else the cost.
pub fn cost_of(
    lines: usize,
    grid: Grid,
    offsets: &[u32],
    items: &[u32],
    globals: &[u32],
    global_count: usize,
) -> Result<Cost, Refusal>
    ensures { result ≡ cost_answer grid (tables grid lines offsets.now items.now globals.now global_count) }
{
    tables::check_tables(grid, lines, offsets, items, globals, global_count)?;
    let cells = (grid.rows as usize) * (grid.cols as usize);
    let listed = of_cells(cells, offsets);
    let global = of_globals(lines as u32, global_count as u32);
    Ok(Cost {
        tests: listed.tests + global,
        longest: listed.longest,
    })
}
