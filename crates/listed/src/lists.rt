// Lists as they are.
ghost use Rattle.std.specs.Prelude.{◌≡◌};
ghost use Rattle.listed.specs.Lists.{list_by};
ghost use Rattle.listed.specs.Places.{is_brief, NextCell};

use slices::{least, less_one, wide};

// The list of a cell: empty where the offsets do not tell of it, it is no part of the items, or does not increase below the number of lines.
pub fn list_of<'a>(lines: usize, offsets: &[u32], items: &'a [u32], cell: usize) -> &'a [u32]
    ensures { result.now ≡ list_by lines offsets.now items.now cell }
{
    if less_one(offsets.len()) <= cell {
        return &items[0..0];
    }
    let from = wide(offsets[cell]);
    let to = wide(offsets[cell + 1]);
    if to < from {
        return &items[0..0];
    }
    if items.len() < to {
        return &items[0..0];
    }
    if tables::is_increasing(lines, &items[from..to]) {
        return &items[from..to];
    }
    &items[0..0]
}

// The first cell from a cell on that has two lines, by its offsets alone. A list of fewer has no test, so it is not looked at.
// Not inlined: its callers use more registers than there are, and in them each turn of the loop reads the offsets' address from the stack.
#[inline(never)]
pub fn next_cell(reach: usize, offsets: &[u32], cell: usize) -> usize
    ensures { NextCell reach offsets.now cell result }
{
    let last = least(reach, less_one(offsets.len()));
    for i in cell..last {
        if wide(offsets[i]) + 2 <= wide(offsets[i + 1]) {
            return i;
        }
    }
    cell.max(last)
}

// Whether a list is short and begun at its start, and there is room for all its pairs: the square of its length is more than they are.
pub fn is_brief(len: usize, i: usize, j: usize, room: usize) -> bool
    ensures { result ≡ is_brief len i j room }
{
    if i != 0 {
        return false;
    }
    if j != 1 {
        return false;
    }
    if 32 < len {
        return false;
    }
    len * len <= room
}
