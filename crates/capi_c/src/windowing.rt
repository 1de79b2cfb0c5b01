// The query of the lines in a window.
ghost use Rattle.grid.specs.Domain.{lines};
ghost use Rattle.grid.specs.Words.{grid_by};
ghost use Rattle.tables.specs.Tables.{beside};
ghost use Rattle.capi_window.specs.Lent.{corners, WindowReplies};

// Out: how many lines may enter the window, which goes from its lower corner to its upper. They stand in `found`, and zero beyond them.
#[unsafe(no_mangle)]
pub extern "C" fn mt_window(
    grid: &[u64],
    start_x: &[f64],
    start_y: &[f64],
    end_x: &[f64],
    end_y: &[f64],
    offsets: &[u32],
    items: &[u32],
    globals: &[u32],
    global_count: u64,
    low_x: f64,
    low_y: f64,
    high_x: f64,
    high_y: f64,
    found: &mut [u32],
    out: &mut [u64],
) -> u32
    ensures { let ls = lines start_x.now start_y.now end_x.now end_y.now in
        let w = grid.now in
        let g = grid_by w in
        let t = beside ls g offsets.now items.now globals.now global_count in
        WindowReplies w ls g t (corners low_x low_y high_x high_y) found.old out.old result found.new out.new }
{
    capi_window::mt_window(
        grid,
        start_x,
        start_y,
        end_x,
        end_y,
        offsets,
        items,
        globals,
        global_count,
        low_x,
        low_y,
        high_x,
        high_y,
        found,
        out,
    )
}
