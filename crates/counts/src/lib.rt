// Counting on several benches: each counts its own lines on one agreed grid, in one agreed mode of walk, and the count tables are added. Beside it the
// agreed grid itself, and the tables of lines on it.
#![tactic(auto)]

pub mod adding;
pub mod agreed;

ghost use Rattle.std.specs.Prelude.{◌≤◌, ◌<◌, ◌^◌, ◌≡◌, length, get_or};
ghost use Rattle.grid.specs.Domain.{lines};
ghost use Rattle.tables.specs.Lists.{sum};
ghost use Rattle.fill.specs.OnGrid.{grid_cells};
ghost use Rattle.fill.specs.Fill.{count_of};
ghost use Rattle.counts.specs.OnGrid.{CountingIs, tabled_by, tables_of, TablesAre};

use fill::Filled;
use grid::Grid;
use refusals::Refusal;
use slices::wide;
use walk::Mode;

// The sum of all counts, and how many lines are global, which are counted in no cell.
#[derive(Clone, Copy)]
pub struct Counted {
    pub listed: usize,
    pub globals: usize,
}

// How many items and global lines the tables have.
#[derive(Clone, Copy)]
pub struct Tabled {
    pub items: usize,
    pub globals: usize,
}

fn cell_count(grid: Grid) -> usize
    ensures { result ≡ grid_cells grid }
{
    (grid.rows as usize) * (grid.cols as usize)
}

// The sum of the first `cells` counts.
fn sum_of(counts: &[u32], cells: usize) -> usize
    requires { (cells ≤ length counts.now) × (sum (λ k. get_or counts.now k 0) cells < 2 ^ 32) }
    ensures { result ≡ sum (λ k. get_or counts.now k 0) cells }
{
    let mut total: usize = 0;
    for c in 0..cells {
        total += wide(counts[c]);
    }
    total
}

// Counts the lines of each cell of a grid: `counts[c]` is how many lines cell c lists, and zero from the number of cells on. A line that visits more
// than 2,048 cells is global, and counted in none.
pub fn count(
    start_x: &[f64],
    start_y: &[f64],
    end_x: &[f64],
    end_y: &[f64],
    grid: Grid,
    mode: Mode,
    counts: &mut [u32],
    scratch: &mut [u32],
) -> Result<Counted, Refusal>
    ensures { let ls = lines start_x.now start_y.now end_x.now end_y.now in
        let o = counts.old in
        let s = scratch.old in
        CountingIs mode grid ls o s result counts.new scratch.new (count_of mode grid ls (length o) (length s)) }
{
    let globals = fill::count_on(mode, start_x, start_y, end_x, end_y, grid, counts, scratch)?;
    let listed = sum_of(counts, cell_count(grid));
    Ok(Counted { listed, globals })
}

// At most 65,536 lines are filled in, so no cell is crowded.
fn tabled_by(filled: Result<Filled, Refusal>) -> Result<Tabled, Refusal>
    ensures { result ≡ tabled_by filled }
{
    match filled {
        Ok(Filled::Tables { items, globals }) => Ok(Tabled { items, globals }),
        Ok(Filled::Crowded) => Err(Refusal {
            number: 8,
            value: 0,
        }),
        Err(r) => Err(r),
    }
}

// The tables of lines on a grid that was agreed on, as a build leaves them on a grid that it chose. However many lines a cell lists, the grid stays.
pub fn tables_on(
    start_x: &[f64],
    start_y: &[f64],
    end_x: &[f64],
    end_y: &[f64],
    grid: Grid,
    mode: Mode,
    offsets: &mut [u32],
    items: &mut [u32],
    globals: &mut [u32],
    scratch: &mut [u32],
) -> Result<Tabled, Refusal>
    ensures { let ls = lines start_x.now start_y.now end_x.now end_y.now in
        let o = offsets.old in
        let t = items.old in
        let gs = globals.old in
        let s = scratch.old in
        let a = tables_of mode grid ls (length o) (length t) (length gs) (length s) in
        TablesAre mode grid ls o t gs s result offsets.new items.new globals.new scratch.new a }
{
    let filled = fill::fill_on(
        mode, start_x, start_y, end_x, end_y, grid, 65536, offsets, items, globals, scratch,
    );
    tabled_by(filled)
}
