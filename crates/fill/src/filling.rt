// From the lines and a grid to what is due, before any item is written.
ghost use Rattle.std.specs.Prelude.{length};
ghost use Rattle.grid.specs.Domain.{lines};
ghost use Rattle.fill.specs.Fill.{filling_of};
ghost use Rattle.fill.specs.Inside.{PlanIs};

use crate::offsets::running_sums;
use crate::passes::cell_count;
use crate::{Filled, count_lent};
use grid::Grid;
use refusals::Refusal;
use walk::Mode;

// What is due, with so much room for items and for globals: all is decided before an item is written. Where the tables are due, their numbers, and
// the offsets are running sums.
pub(crate) fn plan(
    mode: Mode,
    start_x: &[f64],
    start_y: &[f64],
    end_x: &[f64],
    end_y: &[f64],
    grid: Grid,
    most: u32,
    items: usize,
    globals: usize,
    offsets: &mut [u32],
    scratch: &mut [u32],
) -> Result<Filled, Refusal>
    ensures { let ls = lines start_x.now start_y.now end_x.now end_y.now in
        let o = offsets.old in
        let s = scratch.old in
        PlanIs mode grid ls items globals o s offsets.new scratch.new (filling_of mode grid ls most (length o) items globals (length s)) result }
{
    let found = count_lent(mode, start_x, start_y, end_x, end_y, grid, offsets, scratch)?;
    let n = cell_count(grid);
    let sums = running_sums(offsets, n, most);
    if sums.crowded {
        return Ok(Filled::Crowded);
    }
    let sum = sums.total as usize;
    if items < sum {
        return Err(Refusal {
            number: 5,
            value: sum as u64,
        });
    }
    if globals < found {
        return Err(Refusal {
            number: 6,
            value: found as u64,
        });
    }
    Ok(Filled::Tables {
        items: sum,
        globals: found,
    })
}
