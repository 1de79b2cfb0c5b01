// The exported query of the lines in a window. It answers as all exported functions do: by document 01's number, with its values at the start
// of the lent `out`. Where `out` has no word, the number is 100; next, where a grid has fewer than six words, 101. Both change nothing.
#![tactic(auto)]

ghost use Rattle.grid.specs.Domain.{lines};
ghost use Rattle.grid.specs.Words.{grid_by};
ghost use Rattle.tables.specs.Tables.{beside};
ghost use Rattle.capi_window.specs.Lent.{corners, WindowReplies};

use grid::Box;
use grid::words::{WORDS, grid_by};
use refusals::Refusal;
use replies::SHORT;

// The number of a function that is handed too few words to say a grid.
const FEW: u32 = 101;

// Out: how many lines may enter the window, which goes from its lower corner to its upper. They stand in `found`, and zero beyond them.
#[unsafe(no_mangle)]
pub extern "C" fn mt_window(
    grid: &[u64],
    start_x: &[f64],
    start_y: &[f64],
    end_x: &[f64],
    end_y: &[f64],
    offsets: &[u32],
    items: &[u32],
    globals: &[u32],
    global_count: u64,
    low_x: f64,
    low_y: f64,
    high_x: f64,
    high_y: f64,
    found: &mut [u32],
    out: &mut [u64],
) -> u32
    ensures { let ls = lines start_x.now start_y.now end_x.now end_y.now in
        let w = grid.now in
        let g = grid_by w in
        let t = beside ls g offsets.now items.now globals.now global_count in
        WindowReplies w ls g t (corners low_x low_y high_x high_y) found.old out.old result found.new out.new }
{
    if out.len() < 1 {
        return SHORT;
    }
    if grid.len() < WORDS {
        return FEW;
    }
    let window = Box {
        min_x: low_x,
        min_y: low_y,
        max_x: high_x,
        max_y: high_y,
    };
    replies::cells(
        window::lines_in(
            start_x,
            start_y,
            end_x,
            end_y,
            grid_by(grid),
            offsets,
            items,
            globals,
            global_count as usize,
            window,
            found,
        ),
        out,
    )
}
