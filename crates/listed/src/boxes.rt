// The box of a line, for any coordinates; whether two overlap; and a box within all of a room.
ghost use Rattle.std.specs.Prelude.{◌≡◌, cond};
ghost use Rattle.std.specs.Float.Ieee.{lt};
ghost use Rattle.grid.specs.Domain.{segment_by};
ghost use Rattle.grid.specs.Boxes.{box_of, overlaps};
ghost use Rattle.listed.specs.Rooms.{BoxRoom, nowhere, within_all, inner_of};

use grid::Box;
use numbers::order::{greatest, least};

// The second, where the first is less or greater; else the first, so that a NaN stays if it is the first.
pub fn higher(a: f64, b: f64) -> f64
    ensures { result ≡ cond (lt a b) b a }
{
    if a < b {
        return b;
    }
    a
}

pub fn lower(a: f64, b: f64) -> f64
    ensures { result ≡ cond (lt b a) b a }
{
    if b < a {
        return b;
    }
    a
}

// The box of a line by its four coordinates. Where no start is a NaN, it is made without a branch that goes by which end is lesser.
pub fn box_of(x0: f64, y0: f64, x1: f64, y1: f64) -> Box
    ensures { result ≡ box_of (segment_by x0 y0 x1 y1) }
{
    let plain = Box {
        min_x: lower(x0, x1),
        min_y: lower(y0, y1),
        max_x: higher(x0, x1),
        max_y: higher(y0, y1),
    };
    if (x0 == x0) & (y0 == y0) {
        return plain;
    }
    Box {
        min_x: least(x0, x1),
        min_y: least(y0, y1),
        max_x: greatest(x0, x1),
        max_y: greatest(y0, y1),
    }
}

// Whether two boxes overlap, by the near ends and then by the far ones: each time both axes are asked at once.
pub fn meets(a: Box, b: Box) -> bool
    ensures { result ≡ overlaps a b }
{
    ((b.min_x <= a.max_x) & (b.min_y <= a.max_y)) & ((a.min_x <= b.max_x) & (a.min_y <= b.max_y))
}

// The box that no box overlaps: a NaN is neither below nor above a float.
fn none() -> Box
    ensures { result ≡ nowhere }
{
    let nan = 0.0 / 0.0;
    Box {
        min_x: nan,
        min_y: nan,
        max_x: nan,
        max_y: nan,
    }
}

// Whether no low end of the first boxes is above that of a box, and no high end below.
fn is_inner(inner: Box, many: usize, room: &[f64]) -> bool
    requires { BoxRoom many room.now }
    ensures { result ≡ within_all inner room.now many }
{
    let ax = inner.min_x;
    let ay = inner.min_y;
    let bx = inner.max_x;
    let by = inner.max_y;
    let mut all = true;
    for u in 0..many {
        all = all
            & ((room[u] <= ax)
                & ((bx <= room[1026 + u]) & ((room[513 + u] <= ay) & (by <= room[1539 + u]))));
    }
    all
}

// A box where what overlaps it overlaps each of the first boxes, by that of the ends: none where it is not one. Few are not asked, since
// the test would cost more than it saves.
pub fn inner_of(ends: Box, many: usize, room: &[f64]) -> Box
    ensures { result ≡ inner_of ends many room.now }
{
    if many < 8 {
        return none();
    }
    if 513 < many {
        return none();
    }
    if room.len() < 2052 {
        return none();
    }
    if is_inner(ends, many, room) {
        return ends;
    }
    none()
}
