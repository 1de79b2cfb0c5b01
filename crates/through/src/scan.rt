// One line with each of a part of a list: first the answers as bytes, by a loop in which no turn waits for another, and then the pairs by the
// bytes.
ghost use Rattle.std.specs.Prelude.{◌≡◌, true, ◌≤◌, length};
ghost use Rattle.grid.specs.Domain.{lines};
ghost use Rattle.through.specs.Inside.{MarkAsks, BytesOf, Whole, AskAsks, Asked, RoomFor, PutAsks, PairsPut, PutWhole, ScanAsks, Scanned, FewAsks, answers_in};

use crate::boxes;
use grid::Box;
use listed::boxes::meets;
use listed::bytes::byte_of;

// Byte u becomes the answer of a box with that at entry at + u. None of the comparisons is a branch.
fn mark(bounds: Box, room: &[f64], at: usize, many: usize, marks: &mut [u8])
    requires { MarkAsks room.now at many marks.old }
    ensures { BytesOf bounds room.now at many marks.old marks.new }
{
    let ax = bounds.min_x;
    let ay = bounds.min_y;
    let bx = bounds.max_x;
    let by = bounds.max_y;
    for u in 0..many {
        let k = at + u;
        let hit = (room[k] <= bx)
            & ((ax <= room[1026 + k]) & ((room[513 + k] <= by) & (ay <= room[1539 + k])));
        marks[u] = byte_of(hit);
    }
}

// Whether each of the first bytes is 1. Few are not asked, since the test would cost more than it saves.
fn whole(many: usize, marks: &[u8]) -> bool
    requires { many ≤ length marks.now }
    ensures { result ≡ true → Whole many marks.now }
{
    if many <= 16 {
        return false;
    }
    let mut all = true;
    for u in 0..many {
        all = all & (marks[u] == 1);
    }
    all
}

// Whether a box overlaps each of the boxes from `at` on. One that overlaps the box within all of them does: then no other is asked. Else the
// bytes are the answers.
fn ask(bounds: Box, room: &[f64], at: usize, many: usize, marks: &mut [u8]) -> bool
    requires { AskAsks room.now at many marks.old }
    ensures { Asked bounds room.now at many marks.old marks.new result }
{
    let inner = boxes::inner_in(room);
    if bounds.overlaps_with(inner) {
        return true;
    }
    mark(bounds, room, at, many, marks);
    whole(many, marks)
}

// Each pair is written; one that does not overlap is written over.
fn put_some(
    line: u32,
    list: &[u32],
    marks: &[u8],
    first: &mut [u32],
    second: &mut [u32],
    hits: usize,
) -> usize
    requires { PutAsks list.now marks.now first.old second.old hits }
    ensures { PairsPut line list.now marks.now (length list.now) first.old second.old hits first.new second.new result }
{
    let mut hits = hits;
    for u in 0..list.len() {
        first[hits] = line;
        second[hits] = list[u];
        hits = hits + (marks[u] as usize);
    }
    hits
}

// Where all bytes are 1: one fill and one copy.
fn put_whole(line: u32, list: &[u32], first: &mut [u32], second: &mut [u32], hits: usize) -> usize
    requires { RoomFor list.now first.old second.old hits }
    ensures { PutWhole line list.now (length list.now) first.old second.old hits first.new second.new result }
{
    let mut hits = hits;
    for u in 0..list.len() {
        first[hits] = line;
        second[hits] = list[u];
        hits = hits + 1;
    }
    hits
}

// The pairs of a line, whose box is lent, with each of a short list. A byte for each answer would cost more than it saves.
pub(crate) fn scan_few(
    line: u32,
    bounds: Box,
    list: &[u32],
    flat: &[f64],
    at: usize,
    first: &mut [u32],
    second: &mut [u32],
    hits: usize,
) -> usize
    requires { FewAsks list.now flat.now at first.old second.old hits }
    ensures { let marks = answers_in bounds flat.now at (length list.now) in
        PairsPut line list.now marks (length list.now) first.old second.old hits first.new second.new result }
{
    let mut hits = hits;
    for u in 0..list.len() {
        let other = boxes::flat_at(flat, at + u);
        let hit = byte_of(meets(bounds, other)) as usize;
        first[hits] = line;
        second[hits] = list[u];
        hits = hits + hit;
    }
    hits
}

// The pairs of a line with each of a list, whose boxes stand ready from `at` on, and for which there is room.
pub(crate) fn scan(
    line: u32,
    list: &[u32],
    start_x: &[f64],
    start_y: &[f64],
    end_x: &[f64],
    end_y: &[f64],
    room: &[f64],
    at: usize,
    marks: &mut [u8],
    first: &mut [u32],
    second: &mut [u32],
    hits: usize,
) -> usize
    requires { let ls = lines start_x.now start_y.now end_x.now end_y.now in
        ScanAsks ls line list.now room.now at marks.old first.old second.old hits }
    ensures { let ls = lines start_x.now start_y.now end_x.now end_y.now in
        Scanned ls line list.now marks.old first.old second.old hits marks.new first.new second.new result }
{
    let bounds = boxes::box_at(start_x, start_y, end_x, end_y, line);
    if ask(bounds, room, at, list.len(), marks) {
        return put_whole(line, list, first, second, hits);
    }
    put_some(line, list, marks, first, second, hits)
}
