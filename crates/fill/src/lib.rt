// Counting lines on a given grid, and filling the tables of a grid: what `count_cells` and the second half of `new_impl` of grid.rs do, in lent
// slices. How a grid is chosen is no matter here, and the
// mode of walk is handed on.
#![tactic(auto)]

mod filling;
mod lent;
mod offsets;
mod passes;

ghost use Rattle.std.specs.Prelude.{length};
ghost use Rattle.grid.specs.Domain.{lines};
ghost use Rattle.fill.specs.Fill.{count_of, CountIs, filling_of, FillIs};
ghost use Rattle.fill.specs.Inside.{CountLent};

use crate::filling::plan;
use crate::lent::{check, leave};
use crate::offsets::shift_back;
use crate::passes::{cell_count, count_lines, place_lines};
use grid::Grid;
use refusals::Refusal;
use walk::Mode;

// How many items and global lines the tables have; or that some cell would list more lines than it may, which a `None` would not say.
#[derive(Clone, Copy)]
pub enum Filled {
    Tables { items: usize, globals: usize },
    Crowded,
}

// The checks, and the count. A refusal is not cleared up after yet.
pub(crate) fn count_lent(
    mode: Mode,
    start_x: &[f64],
    start_y: &[f64],
    end_x: &[f64],
    end_y: &[f64],
    grid: Grid,
    offsets: &mut [u32],
    scratch: &mut [u32],
) -> Result<usize, Refusal>
    ensures { let ls = lines start_x.now start_y.now end_x.now end_y.now in
        CountLent mode grid ls offsets.old scratch.old result offsets.new scratch.new }
{
    check(
        start_x,
        start_y,
        end_x,
        end_y,
        grid,
        scratch.len(),
        offsets.len(),
    )?;
    slices::clear(offsets);
    count_lines(mode, start_x, start_y, end_x, end_y, grid, offsets, scratch)
}

// Counts the lines of each cell, and answers how many lines are global: those that visit more than 2,048 cells, which are counted in none.
pub fn count_on(
    mode: Mode,
    start_x: &[f64],
    start_y: &[f64],
    end_x: &[f64],
    end_y: &[f64],
    grid: Grid,
    counts: &mut [u32],
    scratch: &mut [u32],
) -> Result<usize, Refusal>
    ensures { let ls = lines start_x.now start_y.now end_x.now end_y.now in
        let a = count_of mode grid ls (length counts.old) (length scratch.old) in
        CountIs mode grid ls counts.old scratch.old result counts.new scratch.new a }
{
    let counted = count_lent(mode, start_x, start_y, end_x, end_y, grid, counts, scratch);
    if let Err(r) = counted {
        leave(r, counts);
        leave(r, scratch);
        return counted;
    }
    slices::clear(scratch);
    counted
}

// Fills the tables of a grid, unless some cell would list more than `most` lines. `offsets[c] .. offsets[c + 1]` is the range in the items of the
// lines that visit cell c; lines that visit more than 2,048 cells go to the globals instead. Each item below the total is written by the placing, so
// only those beyond it are cleared.
pub fn fill_on(
    mode: Mode,
    start_x: &[f64],
    start_y: &[f64],
    end_x: &[f64],
    end_y: &[f64],
    grid: Grid,
    most: u32,
    offsets: &mut [u32],
    items: &mut [u32],
    globals: &mut [u32],
    scratch: &mut [u32],
) -> Result<Filled, Refusal>
    ensures { let ls = lines start_x.now start_y.now end_x.now end_y.now in
        let o = offsets.old in
        let t = items.old in
        let gs = globals.old in
        let s = scratch.old in
        let f = filling_of mode grid ls most (length o) (length t) (length gs) (length s) in
        FillIs mode grid ls o t gs s result offsets.new items.new globals.new scratch.new f }
{
    let planned = plan(
        mode,
        start_x,
        start_y,
        end_x,
        end_y,
        grid,
        most,
        items.len(),
        globals.len(),
        offsets,
        scratch,
    );
    match planned {
        Ok(
            Filled::Tables {
                items: total,
                globals: _,
            },
        ) => {
            slices::clear_from(items, total);
            slices::clear(globals);
            place_lines(
                mode, start_x, start_y, end_x, end_y, grid, offsets, items, globals, scratch,
            );
            shift_back(offsets, cell_count(grid));
            slices::clear(scratch);
            planned
        },
        // nothing is kept of the count, as by refusal 4
        Ok(Filled::Crowded) => {
            slices::clear(offsets);
            slices::clear(items);
            slices::clear(globals);
            slices::clear(scratch);
            planned
        },
        Err(why) => {
            leave(why, offsets);
            leave(why, items);
            leave(why, globals);
            leave(why, scratch);
            planned
        },
    }
}
