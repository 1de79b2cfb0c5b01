// The numbers of a summary, added up over a rectangle of blocks, row by row of blocks. The sums are in 64 bits.
ghost use Rattle.std.specs.Prelude.{◌≡◌};
ghost use Rattle.blocks.specs.Blocks.{along};
ghost use Rattle.blocks.specs.Query.{items_in};
ghost use Rattle.blocks.specs.Inside.{BlocksAsk, BlockPartAsks, BlockPartIs};

use crate::{Block, blocks_along};
use grid::Grid;
use slices::wide;

fn number(n: u32) -> u64
    ensures { result ≡ n }
{
    n as u64
}

// Adds the numbers from `from` on that are below `below`, none where these are out of order.
fn add_part(summary: &[u32], from: usize, below: usize, so_far: u64) -> u64
    requires { BlockPartAsks summary.now from below so_far }
    ensures { BlockPartIs summary.now from below so_far result }
{
    let mut sum = so_far;
    for block in from..below {
        sum = sum + number(summary[block]);
    }
    sum
}

// Adds the rows of the rectangle, none where these are out of order. In a row its blocks stand side by side.
pub(crate) fn add_rectangle(grid: Grid, summary: &[u32], low: Block, high: Block) -> u64
    requires { BlocksAsk (along grid.cols) (along grid.rows) summary.now low high }
    ensures { result ≡ items_in grid summary.now low high }
{
    let width = blocks_along(grid.cols);
    let mut sum = 0;
    for row in wide(low.row)..=wide(high.row) {
        let at = row * width;
        sum = add_part(summary, at + wide(low.col), at + wide(high.col) + 1, sum);
    }
    sum
}
