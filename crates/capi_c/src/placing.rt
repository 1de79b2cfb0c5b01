// The batch that says where each pair was tested.
ghost use Rattle.grid.specs.Domain.{lines};
ghost use Rattle.grid.specs.Words.{grid_by};
ghost use Rattle.tables.specs.Tables.{beside};
ghost use Rattle.capi_places.specs.Lent.{PlacesReplies};

// Out: the tests made, the overlaps, the new bookmark. The pairs that overlap stand in first and second, the number of each one's place in places, and zero
// beyond them.
#[unsafe(no_mangle)]
pub extern "C" fn mt_batch_places(
    grid: &[u64],
    start_x: &[f64],
    start_y: &[f64],
    end_x: &[f64],
    end_y: &[f64],
    offsets: &[u32],
    items: &[u32],
    globals: &[u32],
    global_count: u64,
    bookmark: u64,
    first: &mut [u32],
    second: &mut [u32],
    places: &mut [u32],
    out: &mut [u64],
) -> u32
    ensures { let ls = lines start_x.now start_y.now end_x.now end_y.now in
        let w = grid.now in
        let g = grid_by w in
        let t = beside ls g offsets.now items.now globals.now global_count in
        PlacesReplies w ls g t bookmark first.old second.old places.old out.old result
        first.new second.new places.new out.new }
{
    capi_places::mt_batch_places(
        grid,
        start_x,
        start_y,
        end_x,
        end_y,
        offsets,
        items,
        globals,
        global_count,
        bookmark,
        first,
        second,
        places,
        out,
    )
}
