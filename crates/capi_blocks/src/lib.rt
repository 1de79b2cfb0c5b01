// The exported summary by blocks, and its query. They answer as all exported functions do: by document 01's number, with its values at the start of
// the lent `out`. Where `out` has no word, the number is 100; next, where a grid has fewer than six words, 101. Both change nothing.
#![tactic(auto)]

ghost use Rattle.std.specs.Prelude.{◌≡◌};
ghost use Rattle.grid.specs.Words.{grid_by};
ghost use Rattle.tables.specs.Tables.{tables};
ghost use Rattle.blocks.specs.Query.{count_answer};
ghost use Rattle.replies.specs.Replies.{Replies};
ghost use Rattle.replies.specs.Answers.{of_cells};
ghost use Rattle.capi.specs.Few.{unless_few};
ghost use Rattle.capi_blocks.specs.Lent.{block_by, of_count, MakeReplies};

use blocks::Block;
use capi::FEW;
use grid::words::{WORDS, grid_by};
use refusals::Refusal;
use replies::SHORT;

// Items are answered as cells are: how many, or the refusal.
fn counted(answer: Result<u64, Refusal>) -> Result<usize, Refusal>
    ensures { of_cells result ≡ of_count answer }
{
    match answer {
        Ok(n) => Ok(n as usize),
        Err(r) => Err(r),
    }
}

// Out: how many blocks there are. Their numbers of items stand in `summary`, and zero beyond them.
#[unsafe(no_mangle)]
pub extern "C" fn mt_block_counts(
    grid: &[u64],
    lines: usize,
    offsets: &[u32],
    items: &[u32],
    globals: &[u32],
    global_count: u64,
    summary: &mut [u32],
    out: &mut [u64],
) -> u32
    ensures { let w = grid.now in
        let g = grid_by w in
        let t = tables g lines offsets.now items.now globals.now global_count in
        MakeReplies w g t summary.old out.old result summary.new out.new }
{
    if out.len() < 1 {
        return SHORT;
    }
    if grid.len() < WORDS {
        return FEW;
    }
    replies::cells(
        blocks::make(
            lines,
            grid_by(grid),
            offsets,
            items,
            globals,
            global_count as usize,
            summary,
        ),
        out,
    )
}

// Out: the items of the blocks from the lower corner to the upper, both included.
#[unsafe(no_mangle)]
pub extern "C" fn mt_items_in_blocks(
    grid: &[u64],
    summary: &[u32],
    low_row: u32,
    low_col: u32,
    high_row: u32,
    high_col: u32,
    out: &mut [u64],
) -> u32
    ensures { let w = grid.now in
        let asked = count_answer (grid_by w) summary.now (block_by low_row low_col) (block_by high_row high_col) in
        Replies 1 (unless_few w (of_count asked)) out.old result out.new }
{
    if out.len() < 1 {
        return SHORT;
    }
    if grid.len() < WORDS {
        return FEW;
    }
    let low = Block {
        row: low_row,
        col: low_col,
    };
    let high = Block {
        row: high_row,
        col: high_col,
    };
    replies::cells(
        counted(blocks::items_in(grid_by(grid), summary, low, high)),
        out,
    )
}
