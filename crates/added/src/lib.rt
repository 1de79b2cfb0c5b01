// One more line on standing tables, without a rebuild: its number goes to the end of the list of each cell that it visits, in place, or to the end of
// the globals. The grid stays.
#![tactic(auto)]

mod checks;
mod items;
mod offsets;
mod placing;

ghost use Rattle.std.specs.Prelude.{length};
ghost use Rattle.tables.specs.Tables.{tables};
ghost use Rattle.added.specs.Added.{AddIs, add_end, front, cleared};

use crate::checks::{check_asked, check_edge};
use crate::placing::place;
use grid::{Grid, Segment};
use refusals::Refusal;
use walk::Mode;

// How many cells list the line, which are none where it is global, and how many items and global lines the tables now have.
#[derive(Clone, Copy)]
pub struct Added {
    pub cells: usize,
    pub items: usize,
    pub globals: usize,
}

// In how many lists of cells, and of global lines, the line goes.
#[derive(Clone, Copy)]
pub(crate) struct Goes {
    pub cells: usize,
    pub globals: usize,
}

// Adds the line, and leaves the cells that list it at the front of the scratch, increasing, and zero beyond them: for a caller that keeps more than the
// tables by cell.
pub fn list_line(
    mode: Mode,
    grid: Grid,
    line: Segment,
    n: usize,
    offsets: &mut [u32],
    items: &mut [u32],
    globals: &mut [u32],
    global_count: usize,
    scratch: &mut [u32],
) -> Result<Added, Refusal>
    ensures { let t = tables grid n offsets.old items.old globals.old global_count in
        let s = scratch.old in
        AddIs t (add_end mode grid line t (length s)) s (front s) result offsets.new items.new globals.new scratch.new }
{
    check_asked(
        grid,
        line,
        n,
        offsets,
        items,
        globals,
        global_count,
        scratch.len(),
    )?;
    check_edge(grid, line)?;
    place(
        mode,
        grid,
        line,
        n,
        offsets,
        items,
        globals,
        global_count,
        scratch,
    )
}

// Adds the line, numbered n, to the tables of n lines. Refuses by 3, 2, 1, 8, 10, 14, 7, 5 and 6; of these 5, 6 and 7 leave the scratch zero, and none changes the
// tables.
pub fn add_line(
    mode: Mode,
    grid: Grid,
    line: Segment,
    n: usize,
    offsets: &mut [u32],
    items: &mut [u32],
    globals: &mut [u32],
    global_count: usize,
    scratch: &mut [u32],
) -> Result<Added, Refusal>
    ensures { let t = tables grid n offsets.old items.old globals.old global_count in
        let s = scratch.old in
        AddIs t (add_end mode grid line t (length s)) s (cleared s) result offsets.new items.new globals.new scratch.new }
{
    let added = list_line(
        mode,
        grid,
        line,
        n,
        offsets,
        items,
        globals,
        global_count,
        scratch,
    )?;
    slices::clear(scratch);
    Ok(added)
}
