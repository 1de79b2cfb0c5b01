// The boxes of lines. The lines were checked, so no coordinate is a NaN, and one comparison picks the lesser of two.
ghost use Rattle.std.specs.Prelude.{◌≡◌, cond, ◌<◌, length};
ghost use Rattle.std.specs.Float.Ieee.{lt};
ghost use Rattle.grid.specs.Domain.{lines, segment_at};
ghost use Rattle.grid.specs.Boxes.{box_of};
ghost use Rattle.visit.specs.Inside.{LineAsks};

use grid::Box;

fn lesser(a: f64, b: f64) -> f64
    ensures { result ≡ cond (lt b a) b a }
{
    if b < a {
        return b;
    }
    a
}

fn greater(a: f64, b: f64) -> f64
    ensures { result ≡ cond (lt a b) b a }
{
    if a < b {
        return b;
    }
    a
}

pub(crate) fn box_at(
    start_x: &[f64],
    start_y: &[f64],
    end_x: &[f64],
    end_y: &[f64],
    line: u32,
) -> Box
    requires { LineAsks (lines start_x.now start_y.now end_x.now end_y.now) line }
    ensures { let ls = lines start_x.now start_y.now end_x.now end_y.now in result ≡ box_of (segment_at ls line) }
{
    let i = line as usize;
    let x0 = start_x[i];
    let y0 = start_y[i];
    let x1 = end_x[i];
    let y1 = end_y[i];
    Box {
        min_x: lesser(x0, x1),
        min_y: lesser(y0, y1),
        max_x: greater(x0, x1),
        max_y: greater(y0, y1),
    }
}
