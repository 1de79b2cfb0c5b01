// The cells of one segment.
ghost use Rattle.std.specs.Prelude.{length};
ghost use Rattle.grid.specs.Domain.{segment_by};
ghost use Rattle.walk.specs.Segment.{entry_of};
ghost use Rattle.grid.specs.Words.{grid_by};
ghost use Rattle.capi.specs.Unknown.{mode_by};
ghost use Rattle.capi.specs.Lent.{WalkReplies};

// Mode: 0 for the Rust's walk, 1 for the sided one, 2 for the covering one.
// Out: the number of cells. They stand at the start of the scratch, and zero beyond them.
#[unsafe(no_mangle)]
pub extern "C" fn mt_segment_cells(
    grid: &[u64],
    start_x: f64,
    start_y: f64,
    end_x: f64,
    end_y: f64,
    mode: u32,
    scratch: &mut [u32],
    out: &mut [u64],
) -> u32
    ensures { let w = grid.now in
        let s = scratch.old in
        let o = entry_of (mode_by mode) (length s) (grid_by w) (segment_by start_x start_y end_x end_y) in
        WalkReplies w mode o s out.old result scratch.new out.new }
{
    capi::walking::mt_segment_cells(grid, start_x, start_y, end_x, end_y, mode, scratch, out)
}
