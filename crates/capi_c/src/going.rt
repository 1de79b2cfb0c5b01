// Onward from a cursor, with no check of lines, grid and tables.
ghost use Rattle.grid.specs.Words.{grid_by};
ghost use Rattle.grid.specs.Domain.{lines};
ghost use Rattle.tables.specs.Tables.{beside};
ghost use Rattle.resume.specs.Cursors.{cursor};
ghost use Rattle.capi_resume.specs.Lent.{NextReplies};

// Out: the tests made, the overlaps among them, and the three words of the cursor of the tests that are left. The pairs stand in first and
// second, with zero beyond. What `mt_start` refuses by 1, 8, 9 and 10 is gone by as it is.
#[unsafe(no_mangle)]
pub extern "C" fn mt_next_unchecked(
    grid: &[u64],
    start_x: &[f64],
    start_y: &[f64],
    end_x: &[f64],
    end_y: &[f64],
    offsets: &[u32],
    items: &[u32],
    globals: &[u32],
    global_count: u64,
    place: u64,
    i: u64,
    j: u64,
    first: &mut [u32],
    second: &mut [u32],
    out: &mut [u64],
) -> u32
    ensures { let ls = lines start_x.now start_y.now end_x.now end_y.now in
        let w = grid.now in
        let g = grid_by w in
        let t = beside ls g offsets.now items.now globals.now global_count in
        NextReplies w ls t (cursor place i j) first.old second.old out.old result first.new second.new out.new }
{
    capi_resume::going::mt_next_unchecked(
        grid,
        start_x,
        start_y,
        end_x,
        end_y,
        offsets,
        items,
        globals,
        global_count,
        place,
        i,
        j,
        first,
        second,
        out,
    )
}
