// Each overlapping pair once, at its first test.
ghost use Rattle.grid.specs.Words.{grid_by};
ghost use Rattle.grid.specs.Domain.{lines};
ghost use Rattle.tables.specs.Tables.{beside};
ghost use Rattle.once.specs.Once.{once_by};
ghost use Rattle.capi_pairs.specs.Lent.{OnceReplies};

// Out: how many pairs there are. They stand in first and second, with zero beyond; starts, listing and counts are scratch, and left zero.
#[unsafe(no_mangle)]
pub extern "C" fn mt_pairs_once(
    grid: &[u64],
    start_x: &[f64],
    start_y: &[f64],
    end_x: &[f64],
    end_y: &[f64],
    offsets: &[u32],
    items: &[u32],
    globals: &[u32],
    global_count: u64,
    first: &mut [u32],
    second: &mut [u32],
    starts: &mut [u32],
    listing: &mut [u32],
    counts: &mut [u32],
    out: &mut [u64],
) -> u32
    ensures { let ls = lines start_x.now start_y.now end_x.now end_y.now in
        let w = grid.now in
        let g = grid_by w in
        let t = beside ls g offsets.now items.now globals.now global_count in
        let end = once_by ls g t first.old second.old starts.old listing.old counts.old in
        OnceReplies w end first.old second.old starts.old listing.old counts.old out.old result
        first.new second.new starts.new listing.new counts.new out.new }
{
    capi_pairs::handing::mt_pairs_once(
        grid,
        start_x,
        start_y,
        end_x,
        end_y,
        offsets,
        items,
        globals,
        global_count,
        first,
        second,
        starts,
        listing,
        counts,
        out,
    )
}
