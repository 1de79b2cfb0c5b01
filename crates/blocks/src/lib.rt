// Counts per block: a summary beside standing tables that has, for each block of 16 by 16 cells, the number of items in it. Blocks are numbered in
// row order, as cells are. `make` writes the summary, `items_in` adds its numbers over a rectangle of blocks, with no look at the tables,
// and `owning::is_summary` says whether one is that of some offsets.
#![tactic(auto)]

mod adding;
mod making;
pub mod owning;

ghost use Rattle.std.specs.Prelude.{◌≡◌, ◌&&◌, ltb, length};
ghost use Rattle.refusals.specs.Refusals.{and_then};
ghost use Rattle.grid.specs.Domain.{grid_check};
ghost use Rattle.tables.specs.Tables.{tables};
ghost use Rattle.tables.specs.Fit.{standing_check};
ghost use Rattle.blocks.specs.Blocks.{along, blocks, summary_check, MakeIs};
ghost use Rattle.blocks.specs.Query.{block_check, count_answer};

use grid::Grid;
use refusals::Refusal;
use slices::wide;

// A block by its row and its column of blocks.
#[derive(Clone, Copy)]
pub struct Block {
    pub row: u32,
    pub col: u32,
}

// How many blocks lie along n cells.
pub fn blocks_along(n: u32) -> usize
    ensures { result ≡ along n }
{
    (wide(n) + 15) / 16
}

// How many blocks a grid has, also one that is unfit: in 64 bits the product of any two counts fits.
pub fn block_count(grid: Grid) -> usize
    ensures { result ≡ blocks grid }
{
    blocks_along(grid.rows) * blocks_along(grid.cols)
}

// 3: a summary shorter than the blocks.
pub fn check_summary(grid: Grid, len: usize) -> Result<(), Refusal>
    ensures { result ≡ summary_check grid len }
{
    refusals::refuse_unless(block_count(grid) <= len, 3, 0)
}

// Refusals 3, 2, 8 and 10, in that order.
fn check_make(
    lines: usize,
    grid: Grid,
    offsets: &[u32],
    items: &[u32],
    globals: &[u32],
    global_count: usize,
    len: usize,
) -> Result<(), Refusal>
    ensures { let t = tables grid lines offsets.now items.now globals.now global_count in
        result ≡ and_then (summary_check grid len) (standing_check grid t) }
{
    check_summary(grid, len)?;
    tables::check_tables(grid, lines, offsets, items, globals, global_count)
}

// Writes the summary of standing tables: the number of items of each block, and zero beyond the blocks. Refuses by 3, 2, 8 and 10.
pub fn make(
    lines: usize,
    grid: Grid,
    offsets: &[u32],
    items: &[u32],
    globals: &[u32],
    global_count: usize,
    summary: &mut [u32],
) -> Result<usize, Refusal>
    ensures { let t = tables grid lines offsets.now items.now globals.now global_count in
        MakeIs grid t summary.old result summary.new }
{
    check_make(
        lines,
        grid,
        offsets,
        items,
        globals,
        global_count,
        summary.len(),
    )?;
    slices::clear(summary);
    making::add_rows(grid, offsets, summary);
    Ok(block_count(grid))
}

fn is_block(grid: Grid, block: Block) -> bool
    ensures { result ≡ (ltb block.row (along grid.rows) && ltb block.col (along grid.cols)) }
{
    (wide(block.row) < blocks_along(grid.rows)) & (wide(block.col) < blocks_along(grid.cols))
}

// 9: a block beyond the end, with its row of blocks.
fn check_block(grid: Grid, block: Block) -> Result<(), Refusal>
    ensures { result ≡ block_check grid block }
{
    refusals::refuse_unless(is_block(grid, block), 9, block.row as u64)
}

// Refusals 3, 8 and 9, in that order, and 9 of the lower corner first.
fn check_query(grid: Grid, len: usize, low: Block, high: Block) -> Result<(), Refusal>
    ensures { result ≡ and_then (summary_check grid len) (and_then (grid_check grid) (and_then (block_check grid low) (block_check grid high))) }
{
    check_summary(grid, len)?;
    grid::checks::check_grid(grid)?;
    check_block(grid, low)?;
    check_block(grid, high)
}

// The numbers of a rectangle of whole blocks added up, from its lower corner to its upper, both included. Corners out of order give 0. Any
// summary may be handed in: the sum fits 64 bits. Refuses by 3, 8 and 9.
pub fn items_in(grid: Grid, summary: &[u32], low: Block, high: Block) -> Result<u64, Refusal>
    ensures { result ≡ count_answer grid summary.now low high }
{
    check_query(grid, summary.len(), low, high)?;
    Ok(adding::add_rectangle(grid, summary, low, high))
}
