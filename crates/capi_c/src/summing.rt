// The summary by blocks, and its query.
ghost use Rattle.grid.specs.Words.{grid_by};
ghost use Rattle.tables.specs.Tables.{tables};
ghost use Rattle.blocks.specs.Query.{count_answer};
ghost use Rattle.replies.specs.Replies.{Replies};
ghost use Rattle.capi.specs.Few.{unless_few};
ghost use Rattle.capi_blocks.specs.Lent.{block_by, of_count, MakeReplies};

// Out: how many blocks there are. Their numbers of items stand in `summary`, and zero beyond them.
#[unsafe(no_mangle)]
pub extern "C" fn mt_block_counts(
    grid: &[u64],
    lines: usize,
    offsets: &[u32],
    items: &[u32],
    globals: &[u32],
    global_count: u64,
    summary: &mut [u32],
    out: &mut [u64],
) -> u32
    ensures { let w = grid.now in
        let g = grid_by w in
        let t = tables g lines offsets.now items.now globals.now global_count in
        MakeReplies w g t summary.old out.old result summary.new out.new }
{
    capi_blocks::mt_block_counts(
        grid,
        lines,
        offsets,
        items,
        globals,
        global_count,
        summary,
        out,
    )
}

// Out: the items of the blocks from the lower corner to the upper, both included.
#[unsafe(no_mangle)]
pub extern "C" fn mt_items_in_blocks(
    grid: &[u64],
    summary: &[u32],
    low_row: u32,
    low_col: u32,
    high_row: u32,
    high_col: u32,
    out: &mut [u64],
) -> u32
    ensures { let w = grid.now in
        let asked = count_answer (grid_by w) summary.now (block_by low_row low_col) (block_by high_row high_col) in
        Replies 1 (unless_few w (of_count asked)) out.old result out.new }
{
    capi_blocks::mt_items_in_blocks(grid, summary, low_row, low_col, high_row, high_col, out)
}
