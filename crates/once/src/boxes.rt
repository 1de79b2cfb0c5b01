// The boxes of lines, and those of a short list, gathered once for all its rows. The lines were checked, so no coordinate is a NaN, and one
// comparison picks the lesser of two.
ghost use Rattle.std.specs.Prelude.{◌+◌, ◌*◌, ◌≤◌, ◌≡◌, cond, length};
ghost use Rattle.std.specs.Float.Ieee.{lt};
ghost use Rattle.grid.specs.Domain.{lines, segment_at};
ghost use Rattle.grid.specs.Boxes.{box_of};
ghost use Rattle.visit.specs.Inside.{LineAsks};
ghost use Rattle.once.specs.Inside.{LinesChecked, with_ready, BoxesAsk, Boxed};

use grid::Box;

fn lesser(a: f64, b: f64) -> f64
    ensures { result ≡ cond (lt b a) b a }
{
    if b < a {
        return b;
    }
    a
}

fn greater(a: f64, b: f64) -> f64
    ensures { result ≡ cond (lt a b) b a }
{
    if a < b {
        return b;
    }
    a
}

pub(crate) fn box_at(
    start_x: &[f64],
    start_y: &[f64],
    end_x: &[f64],
    end_y: &[f64],
    line: u32,
) -> Box
    requires { LineAsks (lines start_x.now start_y.now end_x.now end_y.now) line }
    ensures { let ls = lines start_x.now start_y.now end_x.now end_y.now in result ≡ box_of (segment_at ls line) }
{
    let i = line as usize;
    let x0 = start_x[i];
    let y0 = start_y[i];
    let x1 = end_x[i];
    let y1 = end_y[i];
    Box {
        min_x: lesser(x0, x1),
        min_y: lesser(y0, y1),
        max_x: greater(x0, x1),
        max_y: greater(y0, y1),
    }
}

// A box becomes box u of a slice that has four floats for each.
fn put_box(room: &mut [f64], u: usize, bounds: Box)
    requires { u * 4 + 4 ≤ length room.old }
    ensures { room.new ≡ with_ready room.old u bounds }
{
    let k = u * 4;
    room[k] = bounds.min_x;
    room[k + 1] = bounds.min_y;
    room[k + 2] = bounds.max_x;
    room[k + 3] = bounds.max_y;
}

// Box u becomes that of line list[u].
pub(crate) fn gather(
    list: &[u32],
    start_x: &[f64],
    start_y: &[f64],
    end_x: &[f64],
    end_y: &[f64],
    room: &mut [f64],
)
    requires { let ls = lines start_x.now start_y.now end_x.now end_y.now in LinesChecked ls (BoxesAsk ls list.now room.old) }
    ensures { let ls = lines start_x.now start_y.now end_x.now end_y.now in
        Boxed ls list.now (length list.now) room.new }
{
    for u in 0..list.len() {
        let bounds = box_at(start_x, start_y, end_x, end_y, list[u]);
        put_box(room, u, bounds);
    }
}
