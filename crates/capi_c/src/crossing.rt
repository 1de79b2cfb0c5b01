// The list of crossings.
ghost use Rattle.grid.specs.Words.{grid_by};
ghost use Rattle.capi_pairs.specs.Lent.{OnceReplies};
ghost use Rattle.samples.specs.Samples.{samples};
ghost use Rattle.crossings.specs.Crossings.{beside_samples, crossings_by};

// Out: how many pairs share a point. They stand in first and second, with zero beyond; starts, listing and counts are scratch, and left zero.
#[unsafe(no_mangle)]
pub extern "C" fn mt_crossings(
    grid: &[u64],
    start_x: &[i32],
    start_y: &[i32],
    end_x: &[i32],
    end_y: &[i32],
    offsets: &[u32],
    items: &[u32],
    globals: &[u32],
    global_count: u64,
    first: &mut [u32],
    second: &mut [u32],
    starts: &mut [u32],
    listing: &mut [u32],
    counts: &mut [u32],
    out: &mut [u64],
) -> u32
    ensures { let ss = samples start_x.now start_y.now end_x.now end_y.now in
        let w = grid.now in
        let g = grid_by w in
        let t = beside_samples ss g offsets.now items.now globals.now global_count in
        let end = crossings_by ss g t first.old second.old starts.old listing.old counts.old in
        OnceReplies w end first.old second.old starts.old listing.old counts.old out.old result
        first.new second.new starts.new listing.new counts.new out.new }
{
    capi_crossings::mt_crossings(
        grid,
        start_x,
        start_y,
        end_x,
        end_y,
        offsets,
        items,
        globals,
        global_count,
        first,
        second,
        starts,
        listing,
        counts,
        out,
    )
}
