// The first test at or after a place: in a list, and in the cells.
ghost use Rattle.std.specs.Prelude.{◌≡◌, cond, ℕ, suc, ◌-◌, ◌<◌, ltb};
ghost use Rattle.listed.specs.Lists.{list_by, cells_from};
ghost use Rattle.listed.specs.Places.{row_at, LeftAt};

use crate::{CellAt, lists};

// Two entries of a list.
#[derive(Clone, Copy)]
pub struct RowAt {
    pub i: usize,
    pub j: usize,
}

// The later entry that entry i is tested with next: j, but none before the one after i.
fn later(i: usize, j: usize, len: usize) -> usize
    requires { i < len }
    ensures { result ≡ cond (ltb i j) j (suc i) }
{
    if i < j {
        return j;
    }
    i + 1
}

// In a list of `len` entries, or that no test is left in it.
pub fn row_at(len: usize, i: usize, j: usize) -> Option<RowAt>
    ensures { result ≡ row_at len i j }
{
    if len <= i {
        return None;
    }
    let at = later(i, j, len);
    if at < len {
        return Some(RowAt { i, j: at });
    }
    if len - i <= 2 {
        return None;
    }
    Some(RowAt { i: i + 1, j: i + 2 })
}

// In the cells, or that none is left.
pub fn cell_at(
    lines: usize,
    reach: usize,
    offsets: &[u32],
    items: &[u32],
    cell: usize,
    i: usize,
    j: usize,
) -> Option<CellAt>
    ensures { let L = list_by lines offsets.now items.now in
        ((cols : ℕ) → LeftAt cols lines reach offsets.now items.now (cells_from cols L (reach - cell) cell i j) result) }
{
    let mut cell = cell;
    let mut i = i;
    let mut j = j;
    // Each step goes to the next cell that has two lines.
    while cell < reach {
        let list = lists::list_of(lines, offsets, items, cell);
        if let Some(RowAt { i: a, j: b }) = row_at(list.len(), i, j) {
            return Some(CellAt { cell, i: a, j: b });
        }
        cell = lists::next_cell(reach, offsets, cell + 1);
        i = 0;
        j = 1;
    }
    None
}
