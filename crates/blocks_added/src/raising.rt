// The blocks of the cells that list a line.
ghost use Rattle.std.specs.Prelude.{◌≡◌, ◌<◌};
ghost use Rattle.blocks.specs.Blocks.{block_of};
ghost use Rattle.blocks_added.specs.Inside.{RaiseAsks, Raised};

use grid::Grid;
use slices::wide;

fn block_of(cols: u32, cell: u32) -> usize
    requires { 0 < cols }
    ensures { result ≡ block_of cols cell }
{
    let row = wide(cell / cols / 16);
    row * blocks::blocks_along(cols) + wide(cell % cols / 16)
}

// Adds 1 to the block of each of the cells.
pub(crate) fn raise(grid: Grid, cells: &[u32], summary: &mut [u32])
    requires { RaiseAsks grid.cols cells.now summary.old }
    ensures { Raised grid.cols cells.now summary.old summary.new }
{
    for &cell in cells {
        let block = block_of(grid.cols, cell);
        summary[block] += 1;
    }
}
