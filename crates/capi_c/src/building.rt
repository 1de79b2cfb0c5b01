// The build.
ghost use Rattle.grid.specs.Domain.{lines};
ghost use Rattle.capi.specs.Lent.{BuildReplies};

// Sizing: 0 for the square one, 1 for the one by axis. Mode: 0 for the Rust's walk, 1 for the sided one, 2 for the covering one.
// Out: the bits of min_x, min_y, cell_width and cell_height, cols, rows, the number of items, the number of globals.
#[unsafe(no_mangle)]
pub extern "C" fn mt_build(
    start_x: &[f64],
    start_y: &[f64],
    end_x: &[f64],
    end_y: &[f64],
    sizing: u32,
    mode: u32,
    offsets: &mut [u32],
    items: &mut [u32],
    globals: &mut [u32],
    scratch: &mut [u32],
    out: &mut [u64],
) -> u32
    ensures { let ls = lines start_x.now start_y.now end_x.now end_y.now in
        let o = offsets.old in
        let t = items.old in
        let gs = globals.old in
        let s = scratch.old in
        BuildReplies sizing mode ls o t gs s out.old result offsets.new items.new globals.new scratch.new out.new }
{
    capi::building::mt_build(
        start_x, start_y, end_x, end_y, sizing, mode, offsets, items, globals, scratch, out,
    )
}
