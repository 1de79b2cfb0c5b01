// The grid that benches agree on.
ghost use Rattle.grid.specs.Domain.{segment_by};
ghost use Rattle.replies.specs.Replies.{Replies};
ghost use Rattle.capi.specs.Unknown.{sizing_by, unless_unknown};
ghost use Rattle.counts.specs.Agreed.{agreed_answer};
ghost use Rattle.capi_counts.specs.Answers.{of_grid_answer};

// The corners of the bounds in either order, and the number of lines. Sizing: 0 for the square one, 1 for the one by axis.
// Out: the bits of min_x, min_y, cell_width and cell_height, cols, rows.
#[unsafe(no_mangle)]
pub extern "C" fn mt_agreed_grid(
    start_x: f64,
    start_y: f64,
    end_x: f64,
    end_y: f64,
    lines: usize,
    sizing: u32,
    out: &mut [u64],
) -> u32
    ensures { let a = agreed_answer (sizing_by sizing) (segment_by start_x start_y end_x end_y) lines in
        Replies 6 (unless_unknown sizing (of_grid_answer a)) out.old result out.new }
{
    capi_counts::agreeing::mt_agreed_grid(start_x, start_y, end_x, end_y, lines, sizing, out)
}
