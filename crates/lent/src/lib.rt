// What a visit that hands out each pair once is lent: two outputs, and scratch for the lists by line and for the counts. The check of what is lent, the
// beginning, a pair in the outputs, and what the visit leaves.
#![tactic(auto)]

ghost use Rattle.std.specs.Prelude.{◌≡◌, set};
ghost use Rattle.tables.specs.Tables.{tables};
ghost use Rattle.lent.specs.Lent.{rooms_check, Begun, EndIs};

use grid::Grid;
use refusals::Refusal;

// Refusal 3, by lengths: the outputs differ, the lists by line have too little room, or there is no count for each line.
fn check_lent(
    lines: usize,
    items: usize,
    first: usize,
    second: usize,
    starts: usize,
    listing: usize,
    counts: usize,
) -> Result<(), Refusal>
    ensures { result ≡ rooms_check lines items first second starts listing counts }
{
    if first != second {
        return refusals::refuse_unless(false, 3, 0);
    }
    if starts <= lines {
        return refusals::refuse_unless(false, 3, 0);
    }
    if listing < items {
        return refusals::refuse_unless(false, 3, 0);
    }
    refusals::refuse_unless(lines <= counts, 3, 0)
}

// The lists by line of tables beside so many lines, and counts that are zero. Refusal 3, of what is lent; then that of a check of the lines; then 2, 8 and
// 10 of the tables. A refusal changes nothing.
pub fn begin(
    checked: Result<(), Refusal>,
    lines: usize,
    grid: Grid,
    offsets: &[u32],
    items: &[u32],
    globals: &[u32],
    global_count: usize,
    first: usize,
    second: usize,
    starts: &mut [u32],
    listing: &mut [u32],
    counts: &mut [u32],
) -> Result<(), Refusal>
    ensures { let t = tables grid lines offsets.now items.now globals.now global_count in
        Begun checked grid t first second starts.old listing.old counts.old result starts.new listing.new counts.new }
{
    check_lent(
        lines,
        items.len(),
        first,
        second,
        starts.len(),
        listing.len(),
        counts.len(),
    )?;
    checked?;
    by_line::lists_by_line(
        lines,
        grid,
        offsets,
        items,
        globals,
        global_count,
        starts,
        listing,
    )?;
    slices::clear(counts);
    Ok(())
}

// Writes an entry; one beyond the end is not written.
fn put(s: &mut [u32], at: usize, v: u32)
    ensures { s.new ≡ set s.old at v }
{
    if s.len() <= at {
        return;
    }
    s[at] = v;
}

// Writes a pair to both outputs; what is beyond the end of one is not written.
pub fn put_pair(first: &mut [u32], second: &mut [u32], at: usize, a: u32, b: u32)
    ensures { (first.new ≡ set first.old at a) × (second.new ≡ set second.old at b) }
{
    put(first, at, a);
    put(second, at, b);
}

// So many pairs stand in the outputs, or would: answers their number. Clears the scratch, and the outputs beyond the pairs; where they have no room, throughout, by 5.
pub fn finish(
    hits: usize,
    first: &mut [u32],
    second: &mut [u32],
    starts: &mut [u32],
    listing: &mut [u32],
    counts: &mut [u32],
) -> Result<u64, Refusal>
    ensures { EndIs hits first.old second.old starts.old listing.old counts.old result
        first.new second.new starts.new listing.new counts.new }
{
    slices::clear(starts);
    slices::clear(listing);
    slices::clear(counts);
    if first.len() < hits {
        slices::clear(first);
        slices::clear(second);
        return Err(Refusal {
            number: 5,
            value: hits as u64,
        });
    }
    slices::clear_from(first, hits);
    slices::clear_from(second, hits);
    Ok(hits as u64)
}
