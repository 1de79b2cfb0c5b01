// Whether a summary is that of some offsets. It is asked of any offsets, so that they never fall is asked first.
ghost use Rattle.std.specs.Prelude.{◌≡◌, suc, ◌<◌, ◌≤◌, leb, eqb, length, get_or};
ghost use Rattle.tables.specs.Fit.{every};
ghost use Rattle.blocks.specs.Blocks.{rising, summary_of};

use crate::block_count;
use crate::making::add_rows;
use grid::Grid;
use slices::wide;

fn never_fall(offsets: &[u32], cells: usize) -> bool
    requires { cells < length offsets.now }
    ensures { let o = offsets.now in result ≡ every cells (λ c. leb (get_or o c 0) (get_or o (suc c) 0)) }
{
    for c in 0..cells {
        if offsets[c + 1] < offsets[c] {
            return false;
        }
    }
    true
}

// The product of the two counts fits 64 bits.
fn is_rising(grid: Grid, offsets: &[u32]) -> bool
    ensures { result ≡ rising grid offsets.now }
{
    let cells = wide(grid.rows) * wide(grid.cols);
    if offsets.len() <= cells {
        return false;
    }
    never_fall(offsets, cells)
}

fn are_same(numbers: &[u32], summary: &[u32], n: usize) -> bool
    requires { (n ≤ length numbers.now) × (n ≤ length summary.now) }
    ensures { result ≡ every n (λ b. eqb (get_or summary.now b 0) (get_or numbers.now b 0)) }
{
    for b in 0..n {
        if summary[b] != numbers[b] {
            return false;
        }
    }
    true
}

// A fit grid has at most 4,148 blocks.
pub fn is_summary(grid: Grid, offsets: &[u32], summary: &[u32]) -> bool
    ensures { result ≡ summary_of grid offsets.now summary.now }
{
    if !grid::checks::is_fit(grid) {
        return false;
    }
    if !is_rising(grid, offsets) {
        return false;
    }
    let blocks = block_count(grid);
    if summary.len() < blocks {
        return false;
    }
    let mut numbers = [0u32; 4148];
    add_rows(grid, offsets, &mut numbers);
    are_same(&numbers, summary, blocks)
}
