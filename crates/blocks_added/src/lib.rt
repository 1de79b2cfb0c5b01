// One more line on standing tables that have a summary by blocks: the tables and the summary grow together. The line is one item more in the block of
// each cell that lists it, and a global line is in no block.
#![tactic(auto)]

mod raising;

ghost use Rattle.std.specs.Prelude.{◌≡◌, ◌&&◌, ltb, length};
ghost use Rattle.grid.specs.Domain.{fit};
ghost use Rattle.tables.specs.Tables.{tables};
ghost use Rattle.blocks_added.specs.Beside.{BesideIs};
ghost use Rattle.blocks_added.specs.Inside.{first_check};

use added::Added;
use grid::{Grid, Segment};
use refusals::{Refusal, refuse_unless};
use walk::Mode;

fn has_cells(grid: Grid) -> bool
    ensures { result ≡ (fit grid && ltb 0 grid.cols) }
{
    if grid::checks::is_fit(grid) {
        return 0 < grid.cols;
    }
    false
}

// 3, 2, 1 and 8, and 10 where the summary is not that of the offsets. Where the tables misfit, whatever this says of the summary, 10 is due.
fn check_first(
    grid: Grid,
    line: Segment,
    n: usize,
    offsets: &[u32],
    summary: &[u32],
    scratch: usize,
) -> Result<(), Refusal>
    ensures { result ≡ first_check grid line n offsets.now summary.now scratch }
{
    blocks::check_summary(grid, summary.len())?;
    grid::checks::check_scratch(scratch)?;
    refuse_unless(n < 65536, 2, n as u64)?;
    grid::checks::check_segment(line)?;
    refuse_unless(has_cells(grid), 8, 0)?;
    refuse_unless(blocks::owning::is_summary(grid, offsets, summary), 10, 0)
}

// Adds the line, numbered n, to the tables of n lines and to their summary. Refuses by 3, 2, 1, 8, 10, 14, 7, 5 and 6; of these 5, 6 and 7 leave the
// scratch zero, and none changes the tables or the summary. 10 is due too where the summary and the offsets disagree.
pub fn add_line(
    mode: Mode,
    grid: Grid,
    line: Segment,
    n: usize,
    offsets: &mut [u32],
    items: &mut [u32],
    globals: &mut [u32],
    global_count: usize,
    summary: &mut [u32],
    scratch: &mut [u32],
) -> Result<Added, Refusal>
    ensures { let t = tables grid n offsets.old items.old globals.old global_count in
        let kept = summary.old in
        let s = scratch.old in
        BesideIs mode grid line t kept s result offsets.new items.new globals.new summary.new scratch.new }
{
    check_first(grid, line, n, offsets, summary, scratch.len())?;
    let added = added::list_line(
        mode,
        grid,
        line,
        n,
        offsets,
        items,
        globals,
        global_count,
        scratch,
    )?;
    raising::raise(grid, &scratch[..added.cells], summary);
    slices::clear_from(summary, blocks::block_count(grid));
    slices::clear(scratch);
    Ok(added)
}
