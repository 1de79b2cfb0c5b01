// The build: the tables of lines on a grid that fits them. What `new_impl` of grid.rs does, in lent slices.
#![tactic(auto)]

mod choose;

ghost use Rattle.std.specs.Prelude.{length};
ghost use Rattle.grid.specs.Domain.{lines};
ghost use Rattle.build.specs.Build.{end_of, BuildIs};

use crate::choose::{build_none, build_some};
use grid::Grid;
use refusals::Refusal;
use sizing::Sizing;
use walk::Mode;

// What a build is asked for: how its cells are sized, and which cells a walk visits.
#[derive(Clone, Copy)]
pub struct Plan {
    pub sizing: Sizing,
    pub mode: Mode,
}

// The tables that stand after a build: their grid, and how many items and global lines there are.
#[derive(Clone, Copy)]
pub struct Standing {
    pub grid: Grid,
    pub items: usize,
    pub globals: usize,
}

// Bins the lines into a grid that fits them. `cell_offsets[c] .. cell_offsets[c + 1]` is the range in `cell_items` of the lines that visit cell c;
// lines that visit more than 2,048 cells go to `global_lines` instead. `fill` checks what is lent: sizes of lines that do not pass go nowhere.
pub fn build(
    start_x: &[f64],
    start_y: &[f64],
    end_x: &[f64],
    end_y: &[f64],
    plan: Plan,
    cell_offsets: &mut [u32],
    cell_items: &mut [u32],
    global_lines: &mut [u32],
    scratch: &mut [u32],
) -> Result<Standing, Refusal>
    ensures { let ls = lines start_x.now start_y.now end_x.now end_y.now in
        let o = cell_offsets.old in
        let t = cell_items.old in
        let gs = global_lines.old in
        let s = scratch.old in
        let e = end_of plan ls (length o) (length t) (length gs) (length s) in
        BuildIs plan.mode ls o t gs s result cell_offsets.new cell_items.new global_lines.new scratch.new e }
{
    if start_x.len() == 0 {
        return build_none(
            start_x,
            start_y,
            end_x,
            end_y,
            plan,
            cell_offsets,
            cell_items,
            global_lines,
            scratch,
        );
    }
    build_some(
        start_x,
        start_y,
        end_x,
        end_y,
        plan,
        cell_offsets,
        cell_items,
        global_lines,
        scratch,
    )
}
