// Lists by line of standing tables.
ghost use Rattle.grid.specs.Words.{grid_by};
ghost use Rattle.tables.specs.Tables.{tables};
ghost use Rattle.capi_pairs.specs.Lent.{ByLineReplies};

// Out: how many cells the lists have in all. Where the list of each line begins stands in starts, the lists in listing, and zero beyond.
#[unsafe(no_mangle)]
pub extern "C" fn mt_lists_by_line(
    grid: &[u64],
    lines: usize,
    offsets: &[u32],
    items: &[u32],
    globals: &[u32],
    global_count: u64,
    starts: &mut [u32],
    listing: &mut [u32],
    out: &mut [u64],
) -> u32
    ensures { let w = grid.now in
        let g = grid_by w in
        let t = tables g lines offsets.now items.now globals.now global_count in
        ByLineReplies w g t starts.old listing.old out.old result starts.new listing.new out.new }
{
    capi_pairs::listing::mt_lists_by_line(
        grid,
        lines,
        offsets,
        items,
        globals,
        global_count,
        starts,
        listing,
        out,
    )
}
