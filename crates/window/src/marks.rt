// Marks of lines, 1 for each that is met.
ghost use Rattle.std.specs.Prelude.{◌≡◌, ◌-◌, ◌≤◌, true, length};
ghost use Rattle.slices.specs.Lists.{Below};
ghost use Rattle.grid.specs.Domain.{fit};
ghost use Rattle.tables.specs.Tables.{tables};
ghost use Rattle.tables.specs.Fit.{TablesFit};
ghost use Rattle.window.specs.Window.{listed};
ghost use Rattle.window.specs.Inside.{marked_with, marked_rows, Block, LinesMarked};

use grid::{Box, Grid};
use slices::wide;

// Marks the lines of a list.
pub(crate) fn mark_list(marks: &mut [u8], list: &[u32])
    requires { Below (length marks.old) list.now }
    ensures { marks.new ≡ marked_with list.now marks.old }
{
    for &line in list {
        marks[wide(line)] = 1;
    }
}

// Marks the lines in the lists of the columns from `first` to `last`, of the rows from `from` on that are below `below`. In each row they
// are one part of the items.
fn mark_rows(
    marks: &mut [u8],
    cols: usize,
    offsets: &[u32],
    items: &[u32],
    first: usize,
    last: usize,
    from: usize,
    below: usize,
)
    requires { Block cols offsets.now items.now first last below marks.old }
    ensures { marks.new ≡ marked_rows cols offsets.now items.now first last (below - from) from marks.old }
{
    for row in from..below {
        let at = row * cols;
        let low = wide(offsets[at + first]);
        let high = wide(offsets[at + last + 1]);
        mark_list(marks, &items[low..high]);
    }
}

// Marks the lines in the lists of the block, from the cell of the lower corner to that of the upper. A 0 by 0 grid has no block.
pub(crate) fn mark_block(
    marks: &mut [u8],
    grid: Grid,
    lines: usize,
    offsets: &[u32],
    items: &[u32],
    globals: &[u32],
    global_count: usize,
    window: Box,
)
    requires fit_grid { fit grid ≡ true }
    requires tables_fit { TablesFit (tables grid lines offsets.now items.now globals.now global_count) }
    requires lines_marked { lines ≤ length marks.old }
    ensures { let t = tables grid lines offsets.now items.now globals.now global_count in
        LinesMarked (listed grid t window) marks.old marks.new }
{
    if grid.cols == 0 {
        return;
    }
    let first = grid.x_axis().index(window.min_x);
    let last = grid.x_axis().index(window.max_x);
    let from = grid.y_axis().index(window.min_y);
    let to = grid.y_axis().index(window.max_y);
    if last < first {
        return;
    }
    mark_rows(
        marks,
        wide(grid.cols),
        offsets,
        items,
        wide(first),
        wide(last),
        wide(from),
        wide(to) + 1,
    );
}
