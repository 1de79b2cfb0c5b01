// One more line on standing tables that have a summary by blocks.
ghost use Rattle.grid.specs.Domain.{segment_by};
ghost use Rattle.grid.specs.Words.{grid_by};
ghost use Rattle.tables.specs.Tables.{tables};
ghost use Rattle.capi_blocks_added.specs.Lent.{BesideReplies};

// Mode: 0 for the Rust's walk, 1 for the sided one, 2 for the covering one.
// Out: the number of items, the number of globals, the number of cells that list the line.
#[unsafe(no_mangle)]
pub extern "C" fn mt_add_line_blocks(
    grid: &[u64],
    mode: u32,
    start_x: f64,
    start_y: f64,
    end_x: f64,
    end_y: f64,
    lines: usize,
    offsets: &mut [u32],
    items: &mut [u32],
    globals: &mut [u32],
    global_count: u64,
    summary: &mut [u32],
    scratch: &mut [u32],
    out: &mut [u64],
) -> u32
    ensures { let w = grid.now in
        let line = segment_by start_x start_y end_x end_y in
        let t = tables (grid_by w) lines offsets.old items.old globals.old global_count in
        let k = summary.old in
        let s = scratch.old in
        BesideReplies w mode line t k s out.old result offsets.new items.new globals.new summary.new scratch.new out.new }
{
    capi_blocks_added::mt_add_line_blocks(
        grid,
        mode,
        start_x,
        start_y,
        end_x,
        end_y,
        lines,
        offsets,
        items,
        globals,
        global_count,
        summary,
        scratch,
        out,
    )
}
