// The boxes of a part of a list, gathered once for all rows that need them.
ghost use Rattle.std.specs.Prelude.{◌≡◌, ◌+◌, ◌*◌, ◌≤◌, length};
ghost use Rattle.grid.specs.Domain.{lines, segment_at};
ghost use Rattle.grid.specs.Boxes.{box_of};
ghost use Rattle.listed.specs.Rooms.{BoxRoom, box_in};
ghost use Rattle.through.specs.Inside.{with_box, flat_in, FlatAsks, FlatFilled, LineAsks, GatherAsks, Gathered, WindowAsks, ReadyIs};

use grid::Box;
use listed::boxes::{box_of, higher, inner_of, lower};

// The boxes of `held` entries of a list stand ready, from its entry `from` on.
#[derive(Clone, Copy)]
pub(crate) struct Window {
    pub from: usize,
    pub held: usize,
}

pub(crate) fn box_at(
    start_x: &[f64],
    start_y: &[f64],
    end_x: &[f64],
    end_y: &[f64],
    line: u32,
) -> Box
    requires { LineAsks (lines start_x.now start_y.now end_x.now end_y.now) line }
    ensures { let ls = lines start_x.now start_y.now end_x.now end_y.now in result ≡ box_of (segment_at ls line) }
{
    let i = line as usize;
    box_of(start_x[i], start_y[i], end_x[i], end_y[i])
}

// A room of boxes has 513 numbers for each of their four, one part after another: so a loop over boxes takes many at a time. Its entry u
// becomes a box.
fn put_box(room: &mut [f64], u: usize, bounds: Box)
    requires { BoxRoom (u + 1) room.old }
    ensures { room.new ≡ with_box room.old u bounds }
{
    room[u] = bounds.min_x;
    room[513 + u] = bounds.min_y;
    room[1026 + u] = bounds.max_x;
    room[1539 + u] = bounds.max_y;
}

// Entry u of the room becomes the box of line list[u], and entry 512 one where what overlaps it overlaps each of them: that of the greatest of
// the low ends and the least of the high ones, of which nothing is promised here, since a NaN among them is passed over.
fn gather(
    list: &[u32],
    start_x: &[f64],
    start_y: &[f64],
    end_x: &[f64],
    end_y: &[f64],
    room: &mut [f64],
)
    requires { GatherAsks (lines start_x.now start_y.now end_x.now end_y.now) list.now room.old }
    ensures { let ls = lines start_x.now start_y.now end_x.now end_y.now in
        Gathered ls list.now (length list.now) room.old
        room.new }
{
    let mut ax = 0.0 - 1.0 / 0.0;
    let mut ay = 0.0 - 1.0 / 0.0;
    let mut bx = 1.0 / 0.0;
    let mut by = 1.0 / 0.0;
    for u in 0..list.len() {
        let bounds = box_at(start_x, start_y, end_x, end_y, list[u]);
        ax = higher(ax, bounds.min_x);
        ay = higher(ay, bounds.min_y);
        bx = lower(bx, bounds.max_x);
        by = lower(by, bounds.max_y);
        put_box(room, u, bounds);
    }
    let ends = Box {
        min_x: ax,
        min_y: ay,
        max_x: bx,
        max_y: by,
    };
    let inner = inner_of(ends, list.len(), room);
    put_box(room, 512, inner);
}

// The boxes of a short list stand one after another, four numbers each: entry u of them becomes the box of line list[u].
pub(crate) fn gather_flat(
    list: &[u32],
    start_x: &[f64],
    start_y: &[f64],
    end_x: &[f64],
    end_y: &[f64],
    flat: &mut [f64],
)
    requires { FlatAsks (lines start_x.now start_y.now end_x.now end_y.now) list.now flat.old }
    ensures { let ls = lines start_x.now start_y.now end_x.now end_y.now in
        FlatFilled ls list.now (length list.now) flat.old flat.new }
{
    for u in 0..list.len() {
        let bounds = box_at(start_x, start_y, end_x, end_y, list[u]);
        let at = 4 * u;
        flat[at] = bounds.min_x;
        flat[at + 1] = bounds.min_y;
        flat[at + 2] = bounds.max_x;
        flat[at + 3] = bounds.max_y;
    }
}

// The box at an entry of them.
pub(crate) fn flat_at(flat: &[f64], u: usize) -> Box
    requires { 4 * u + 4 ≤ length flat.now }
    ensures { result ≡ flat_in flat.now u }
{
    let at = 4 * u;
    Box {
        min_x: flat[at],
        min_y: flat[at + 1],
        max_x: flat[at + 2],
        max_y: flat[at + 3],
    }
}

// The box where what overlaps it overlaps each of those that stand ready.
pub(crate) fn inner_in(room: &[f64]) -> Box
    requires { BoxRoom 513 room.now }
    ensures { result ≡ box_in room.now 512 }
{
    Box {
        min_x: room[512],
        min_y: room[1025],
        max_x: room[1538],
        max_y: room[2051],
    }
}

// The boxes that stand ready, where that of entry `at` is among them; else those from there on, as many as there is room for.
pub(crate) fn window_at(
    list: &[u32],
    at: usize,
    window: Window,
    start_x: &[f64],
    start_y: &[f64],
    end_x: &[f64],
    end_y: &[f64],
    room: &mut [f64],
) -> Window
    requires { WindowAsks (lines start_x.now start_y.now end_x.now end_y.now) list.now at window.from window.held room.old }
    ensures { let ls = lines start_x.now start_y.now end_x.now end_y.now in
        ReadyIs ls list.now at room.old room.new result }
{
    if window.from <= at {
        if at < window.from + window.held {
            return window;
        }
    }
    let many = slices::least(list.len() - at, 512);
    gather(&list[at..at + many], start_x, start_y, end_x, end_y, room);
    Window {
        from: at,
        held: many,
    }
}
