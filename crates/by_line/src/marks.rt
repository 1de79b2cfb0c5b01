// Marks: which of a few cells near one place list a line and were visited, a bit for each, and one bit for all other cells. Two lines with a cell's
// bit in common met before, those with no bit in common did not, and one operation on two numbers tells. Most pairs that met before met in the cell
// before, or in one of those beside the cell one row back.
ghost use Rattle.std.specs.Prelude.{◌-◌, ◌≡◌, cond, eqb};
ghost use Rattle.by_line.specs.Marks.{bit_of, mark_of, MarksAre};

use crate::first;

// The bit of a cell: the highest for the cell `before`, the others for those after `low`, as far as there are bits, and the lowest for all other cells.
fn bit_of(cell: u32, before: u32, low: u32) -> u32
    ensures { result ≡ bit_of before low cell }
{
    if cell <= low {
        return 1;
    }
    if cell == before {
        return 2147483648;
    }
    let k = cell - low;
    if k < 31 {
        return 1u32 << k;
    }
    1
}

// The bits of the first cells of a line, as many as are counted for it, from the last back to `low`.
fn mark(line: u32, before: u32, low: u32, starts: &[u32], listing: &[u32], counts: &[u32]) -> u32
    ensures { result ≡ mark_of line before low starts.now listing.now counts.now }
{
    let cells = first::front(line, starts, listing, counts);
    let mut m = 0;
    for i in (0..cells.len()).rev() {
        let cell = cells[i];
        m = m | bit_of(cell, before, low);
        if cell <= low {
            return m;
        }
    }
    m
}

// So many before a number, and not below zero.
fn back(from: u32, by: u32) -> u32
    ensures { result ≡ from - by }
{
    if from < by {
        return 0;
    }
    from - by
}

// The mark of each line of a cell's list, and 1; where there is no room for all of them none, and 0. The marks tell of the cell before, and of those about
// the cell one row back.
pub fn mark_list(
    list: &[u32],
    cell: u32,
    cols: u32,
    starts: &[u32],
    listing: &[u32],
    counts: &[u32],
    marks: &mut [u32],
) -> u32
    ensures { MarksAre list.now (cell - 1) (cell - cols - 8) starts.now listing.now counts.now marks.old result marks.new }
{
    if marks.len() < list.len() {
        return 0;
    }
    let before = back(cell, 1);
    let low = back(back(cell, cols), 8);
    for j in 0..list.len() {
        marks[j] = mark(list[j], before, low, starts, listing, counts);
    }
    1
}

// The marks of a list, where they are sure. Else the list itself: a slice as long, of which nothing is asked.
pub fn marks_or_list<'a>(sure: u32, list: &'a [u32], marks: &'a [u32]) -> &'a [u32]
    ensures { result.now ≡ cond (eqb sure 0) list.now marks.now }
{
    if sure == 0 {
        return list;
    }
    marks
}
