// From row to row through a list, and from list to list through the cells, until the outputs are full or no test is left.
ghost use Rattle.std.specs.Prelude.{◌≡◌, length};
ghost use Rattle.grid.specs.Domain.{lines};
ghost use Rattle.through.specs.Inside.{BriefAsks, SameScratch, PartAsks, PartIs, ListAsks, ListRanIs, CellsAsk, CellsRanIs};

use crate::boxes::Window;
use crate::{boxes, scan};
use listed::settle::RowAt;
use listed::{lists, settle};
use slices::least;

#[derive(Clone, Copy)]
pub(crate) struct ListRan {
    pub i: usize,
    pub j: usize,
    pub tests: u64,
    pub hits: usize,
}

#[derive(Clone, Copy)]
pub(crate) struct CellsRan {
    pub cell: usize,
    pub i: usize,
    pub j: usize,
    pub tests: u64,
    pub hits: usize,
}

// What a part of a row came to: its tests, the pairs in the outputs, and the boxes that stand ready.
#[derive(Clone, Copy)]
struct PartRan {
    many: usize,
    hits: usize,
    window: Window,
}

// Entry i of a list with those from j on, as many as stand ready and the outputs have room for.
fn scan_part(
    list: &[u32],
    i: usize,
    j: usize,
    window: Window,
    start_x: &[f64],
    start_y: &[f64],
    end_x: &[f64],
    end_y: &[f64],
    room: &mut [f64],
    marks: &mut [u8],
    first: &mut [u32],
    second: &mut [u32],
    hits: usize,
) -> PartRan
    requires { let ls = lines start_x.now start_y.now end_x.now end_y.now in
        PartAsks ls list.now i j window.from window.held room.old marks.old first.old second.old hits }
    ensures part { let ls = lines start_x.now start_y.now end_x.now end_y.now in
        PartIs ls list.now i j first.old second.old hits room.new first.new second.new result }
    ensures same_scratch { SameScratch room.old marks.old room.new marks.new }
{
    let window = boxes::window_at(list, j, window, start_x, start_y, end_x, end_y, room);
    let ready = window.from + window.held - j;
    let many = least(ready, first.len() - hits);
    let found = scan::scan(
        list[i],
        &list[j..j + many],
        start_x,
        start_y,
        end_x,
        end_y,
        room,
        j - window.from,
        marks,
        first,
        second,
        hits,
    );
    PartRan {
        many,
        hits: found,
        window,
    }
}

// All rows of a short list, with no part of a row and no window.
fn run_brief(
    list: &[u32],
    start_x: &[f64],
    start_y: &[f64],
    end_x: &[f64],
    end_y: &[f64],
    flat: &mut [f64],
    first: &mut [u32],
    second: &mut [u32],
    hits: usize,
) -> ListRan
    requires { BriefAsks (lines start_x.now start_y.now end_x.now end_y.now) list.now flat.old first.old second.old hits }
    ensures ran { let ls = lines start_x.now start_y.now end_x.now end_y.now in
        ListRanIs ls list.now 0 1 first.old second.old hits first.new second.new result }
    ensures same_length { length flat.new ≡ length flat.old }
{
    boxes::gather_flat(list, start_x, start_y, end_x, end_y, flat);
    let mut tests: u64 = 0;
    let mut hits = hits;
    for i in 0..list.len() {
        let bounds = boxes::flat_at(flat, i);
        let next = i + 1;
        tests = tests + ((list.len() - next) as u64);
        hits = scan::scan_few(
            list[i],
            bounds,
            &list[next..],
            flat,
            next,
            first,
            second,
            hits,
        );
    }
    ListRan {
        i: list.len(),
        j: list.len(),
        tests,
        hits,
    }
}

// A short list at once, any other row by row: a row is made in parts that there is room for.
fn run_list(
    list: &[u32],
    i: usize,
    j: usize,
    start_x: &[f64],
    start_y: &[f64],
    end_x: &[f64],
    end_y: &[f64],
    room: &mut [f64],
    marks: &mut [u8],
    first: &mut [u32],
    second: &mut [u32],
    hits: usize,
) -> ListRan
    requires { ListAsks (lines start_x.now start_y.now end_x.now end_y.now) list.now i j room.old marks.old first.old second.old hits }
    ensures ran { let ls = lines start_x.now start_y.now end_x.now end_y.now in
        ListRanIs ls list.now i j first.old second.old hits first.new second.new result }
    ensures same_scratch { SameScratch room.old marks.old room.new marks.new }
{
    if lists::is_brief(list.len(), i, j, first.len() - hits) {
        return run_brief(
            list, start_x, start_y, end_x, end_y, room, first, second, hits,
        );
    }
    let mut i = i;
    let mut j = j;
    let mut window = Window { from: 0, held: 0 };
    let mut tests: u64 = 0;
    let mut hits = hits;
    while hits < first.len() {
        let Some(RowAt { i: a, j: b }) = settle::row_at(list.len(), i, j) else {
            break;
        };
        let part = scan_part(
            list, a, b, window, start_x, start_y, end_x, end_y, room, marks, first, second, hits,
        );
        window = part.window;
        hits = part.hits;
        tests = tests + (part.many as u64);
        i = a;
        j = b + part.many;
    }
    ListRan { i, j, tests, hits }
}

// Each list is looked at once, before its first test.
pub(crate) fn run_cells(
    cols: u32,
    reach: usize,
    offsets: &[u32],
    items: &[u32],
    cell: usize,
    i: usize,
    j: usize,
    start_x: &[f64],
    start_y: &[f64],
    end_x: &[f64],
    end_y: &[f64],
    room: &mut [f64],
    marks: &mut [u8],
    first: &mut [u32],
    second: &mut [u32],
) -> CellsRan
    requires { CellsAsk (lines start_x.now start_y.now end_x.now end_y.now) cols reach offsets.now items.now cell i j room.old marks.old first.old second.old }
    ensures { let ls = lines start_x.now start_y.now end_x.now end_y.now in
        CellsRanIs ls cols reach offsets.now items.now cell i j first.old second.old first.new second.new result }
{
    let mut cell = cell;
    let mut i = i;
    let mut j = j;
    let mut tests: u64 = 0;
    let mut hits: usize = 0;
    while cell < reach {
        let list = lists::list_of(start_x.len(), offsets, items, cell);
        let ran = run_list(
            list, i, j, start_x, start_y, end_x, end_y, room, marks, first, second, hits,
        );
        tests = tests + ran.tests;
        hits = ran.hits;
        if first.len() <= hits {
            return CellsRan {
                cell,
                i: ran.i,
                j: ran.j,
                tests,
                hits,
            };
        }
        cell = lists::next_cell(reach, offsets, cell + 1);
        i = 0;
        j = 1;
    }
    CellsRan {
        cell,
        i,
        j,
        tests,
        hits,
    }
}
