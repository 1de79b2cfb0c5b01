// Lists by line: for each line the cells that list it, increasing. They are made from standing tables into lent slices, as tables are made
// from walks: counts, running sums, one pass that places, and a shift back.
#![tactic(auto)]

ghost use Rattle.std.specs.Prelude.{◌≡◌};
ghost use Rattle.tables.specs.Tables.{tables};
ghost use Rattle.by_line.specs.ByLine.{lists_room_check, ByLineIs};
ghost use Rattle.by_line.specs.Inside.{MakeAsks, Made};

use grid::Grid;
use refusals::Refusal;

pub mod first;
pub mod marks;
mod passes;
mod sums;

// Refusal 3: an entry of the starts for each line and one more, and as many entries as there are items.
fn check_room(lines: usize, items: usize, starts: usize, listing: usize) -> Result<(), Refusal>
    ensures { result ≡ lists_room_check lines items starts listing }
{
    if starts <= lines {
        return refusals::refuse_unless(false, 3, 0);
    }
    refusals::refuse_unless(items <= listing, 3, 0)
}

// The lists by line of tables that fit.
fn make(
    cells: usize,
    lines: usize,
    offsets: &[u32],
    items: &[u32],
    starts: &mut [u32],
    listing: &mut [u32],
)
    requires { MakeAsks cells lines offsets.now items.now starts.old listing.old }
    ensures { Made cells lines offsets.now items.now starts.old listing.old starts.new listing.new }
{
    slices::clear(starts);
    passes::count_all(cells, lines, offsets, items, starts);
    sums::running_sums(starts, lines);
    slices::clear(listing);
    passes::place_all(cells, lines, offsets, items, starts, listing);
    sums::shift_back(starts, lines);
}

// Refusals 3, 2, 8 and 10, in that order; else the lists, with zero beyond, and how many cells they have in all.
pub fn lists_by_line(
    lines: usize,
    grid: Grid,
    offsets: &[u32],
    items: &[u32],
    globals: &[u32],
    global_count: usize,
    starts: &mut [u32],
    listing: &mut [u32],
) -> Result<u64, Refusal>
    ensures { let t = tables grid lines offsets.now items.now globals.now global_count in
        ByLineIs grid t starts.old listing.old result starts.new listing.new }
{
    check_room(lines, items.len(), starts.len(), listing.len())?;
    tables::check_tables(grid, lines, offsets, items, globals, global_count)?;
    let cells = (grid.rows as usize) * (grid.cols as usize);
    let total = offsets[cells];
    make(cells, lines, offsets, items, starts, listing);
    Ok(total as u64)
}
