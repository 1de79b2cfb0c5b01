// The items of each block, added up row by row of cells. In a row the lists of a block stand side by side, so they come to one difference of two
// offsets.
ghost use Rattle.std.specs.Prelude.{◌+◌, ◌*◌};
ghost use Rattle.blocks.specs.Inside.{Fills, Told, BlockRow, BlocksFilled};

use crate::blocks_along;
use grid::Grid;
use slices::wide;

// Adds the cells of a row, whose first cell is `at`, to the blocks from `first` on.
fn add_row(offsets: &[u32], cols: usize, at: usize, first: usize, summary: &mut [u32])
    requires { BlockRow cols offsets.now at first summary.old }
    ensures { BlocksFilled cols offsets.now (at + cols) summary.old summary.new }
{
    let mut x = 0;
    let mut block = first;
    while x < cols {
        let next = x + 16;
        let to = slices::least(cols, next);
        let more = offsets[at + to] - offsets[at + x];
        summary[block] = summary[block] + more;
        x = to;
        block += 1;
    }
}

// Adds the cells of all rows to a summary of zeros.
pub(crate) fn add_rows(grid: Grid, offsets: &[u32], summary: &mut [u32])
    requires fills { Fills grid.cols grid.rows offsets.now summary.old }
    requires told { Told grid.cols offsets.now 0 summary.old }
    ensures { BlocksFilled grid.cols offsets.now (grid.rows * grid.cols) summary.old summary.new }
{
    let cols = wide(grid.cols);
    let rows = wide(grid.rows);
    let width = blocks_along(grid.cols);
    for row in 0..rows {
        add_row(offsets, cols, row * cols, row / 16 * width, summary);
    }
}
