// The lines that are marked and overlap a window, in order.
ghost use Rattle.std.specs.Prelude.{◌≡◌, ◌<◌, ◌≤◌, length, set};
ghost use Rattle.grid.specs.Domain.{lines, count};
ghost use Rattle.window.specs.Window.{those};
ghost use Rattle.window.specs.Inside.{met, Askable, Wrote, WroteOne};

use grid::Box;
use grid::segments::segment_at;

// Most lines have no mark, so that is asked first.
fn is_met(
    start_x: &[f64],
    start_y: &[f64],
    end_x: &[f64],
    end_y: &[f64],
    window: Box,
    marks: &[u8],
    i: usize,
) -> bool
    requires { i < length marks.now }
    ensures { let ls = lines start_x.now start_y.now end_x.now end_y.now in result ≡ met ls window marks.now i }
{
    if marks[i] == 1 {
        let bounds = segment_at(start_x, start_y, end_x, end_y, i).bounding_box();
        return bounds.overlaps_with(window);
    }
    false
}

// Writes a line where there is room.
fn put(out: &mut [u32], n: usize, i: u32)
    ensures { out.new ≡ set out.old n i }
{
    if n < out.len() {
        out[n] = i;
    }
}

// One line, after n were found.
fn write_line(
    start_x: &[f64],
    start_y: &[f64],
    end_x: &[f64],
    end_y: &[f64],
    window: Box,
    marks: &[u8],
    out: &mut [u32],
    i: usize,
    n: usize,
) -> usize
    requires marked { i < length marks.now }
    requires few_lines { i < 65536 }
    requires within { n ≤ i }
    ensures { let ls = lines start_x.now start_y.now end_x.now end_y.now in
        WroteOne (met ls window marks.now i) i n out.old result out.new }
{
    if is_met(start_x, start_y, end_x, end_y, window, marks, i) {
        put(out, n, i as u32);
        return n + 1;
    }
    n
}

// Writes the lines that are marked and overlap the window, while there is room, and counts them all.
pub(crate) fn write_lines(
    start_x: &[f64],
    start_y: &[f64],
    end_x: &[f64],
    end_y: &[f64],
    window: Box,
    marks: &[u8],
    out: &mut [u32],
) -> usize
    requires { let ls = lines start_x.now start_y.now end_x.now end_y.now in Askable ls marks.now }
    ensures { let ls = lines start_x.now start_y.now end_x.now end_y.now in
        Wrote (those (met ls window marks.now) (count ls)) out.old result out.new }
{
    let mut n = 0;
    for i in 0..start_x.len() {
        n = write_line(start_x, start_y, end_x, end_y, window, marks, out, i, n);
    }
    n
}
