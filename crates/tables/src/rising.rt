// The lists of all cells: whether each strictly increases below the number of lines. The items of a block of cells are looked at in one run, and then
// those where its lists begin, which are still at hand: so all come from memory once, and no branch goes by a list.
ghost use Rattle.std.specs.Prelude.{◌≡◌, cond, ℕ, suc, ◌<◌, ◌^◌, length, get_or, leb, ltb};
ghost use Rattle.tables.specs.Tables.{list_in};
ghost use Rattle.tables.specs.Fit.{increases, every};
ghost use Rattle.tables.specs.Inside.{begin_of, begin_by, one_at_least, LaidOut, BreaksTo, BreaksMore, BeginsTo, BeginsMore};

use slices::{least, less_one};

fn one_if(b: bool) -> u32
    ensures { result ≡ cond b 1 0 }
{
    if b {
        return 1;
    }
    0
}

// Whether no offset of the cells is below the one before it.
pub(crate) fn never_fall(cells: usize, offsets: &[u32]) -> bool
    requires { cells < length offsets.now }
    ensures { let o = offsets.now in result ≡ every cells (λ c. leb (get_or o c 0) (get_or o (suc c) 0)) }
{
    let mut all = true;
    for c in 0..cells {
        all = all & (offsets[c] <= offsets[c + 1]);
    }
    all
}

// How many of the first `to` entries break a list, where `many` of the first `from` do: the first of all, and each that is not above the one before it, or
// above the most.
fn count_breaks(most: u32, items: &[u32], from: usize, to: usize, many: u32) -> u32
    requires { BreaksMore most items.now many «from» to }
    ensures { BreaksTo most items.now result to }
{
    let mut many = many;
    for k in from..to {
        many = many + one_if((items[k] <= items[k - 1]) | (most < items[k]));
    }
    many
}

fn begin_of(from: u32, to: u32) -> usize
    ensures { result ≡ begin_of from to }
{
    if from < to {
        return from as usize;
    }
    0
}

// 1 where the list between two offsets begins with a break whose entry is at most the most, else 0.
fn begins(from: u32, to: u32, most: u32, items: &[u32]) -> u32
    requires { begin_of from to < length items.now }
    ensures { result ≡ begin_by most items.now from to }
{
    let at = begin_of(from, to);
    let before = less_one(at);
    one_if((from < to) & ((items[at] <= items[before]) & (items[at] <= most)))
}

// How many of the first `to` lists begin so, where `many` of the first `from` do.
fn count_begins(
    cells: usize,
    most: u32,
    offsets: &[u32],
    items: &[u32],
    from: usize,
    to: usize,
    many: usize,
) -> usize
    requires { BeginsMore most cells offsets.now items.now many «from» to }
    ensures { BeginsTo most cells offsets.now items.now result to }
{
    let mut many = many;
    for c in from..to {
        let one = begins(offsets[c], offsets[c + 1], most, items);
        many = many + (one as usize);
    }
    many
}

fn one_at_least(n: u32) -> usize
    ensures { result ≡ one_at_least n }
{
    if n == 0 {
        return 1;
    }
    n as usize
}

fn least_32(n: usize) -> u32
    ensures { result ≡ cond (ltb n 4294967295) n 4294967295 }
{
    if n < 4294967295 {
        return n as u32;
    }
    4294967295
}

// Each list strictly increases below the number of lines.
pub(crate) fn lists_rise(cells: usize, lines: usize, offsets: &[u32], items: &[u32]) -> bool
    requires { LaidOut cells offsets.now items.now }
    ensures { let o = offsets.now in let xs = items.now in result ≡ every cells (λ c. increases 0 lines (list_in o xs c)) }
{
    if items.len() == 0 {
        return true;
    }
    if lines == 0 {
        return false;
    }
    let most = least_32(lines - 1);
    let mut breaks: u32 = 1;
    let mut begins: usize = 0;
    let mut cell = 0;
    let mut k = 1;
    while cell < cells {
        let next = cell + least(cells - cell, 256);
        let to = one_at_least(offsets[next]);
        breaks = count_breaks(most, items, k, to, breaks);
        begins = count_begins(cells, most, offsets, items, cell, next, begins);
        cell = next;
        k = to;
    }
    (breaks as usize) == begins
}
