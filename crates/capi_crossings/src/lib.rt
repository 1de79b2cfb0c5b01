// The exported list of crossings. It answers as all exported functions do: by a document's number, with its values at the start of the lent `out`.
// Where `out` has no word, the number is 100; next, where a grid has fewer than six words, 101. Both change nothing.
#![tactic(auto)]

ghost use Rattle.std.specs.Prelude.{◌≡◌};
ghost use Rattle.grid.specs.Words.{grid_by};
ghost use Rattle.replies.specs.Answers.{of_cells};
ghost use Rattle.capi_pairs.specs.Answers.{of_once};
ghost use Rattle.capi_pairs.specs.Lent.{OnceReplies};
ghost use Rattle.samples.specs.Samples.{samples};
ghost use Rattle.crossings.specs.Crossings.{beside_samples, crossings_by};

use grid::words::{WORDS, grid_by};
use refusals::Refusal;
use replies::SHORT;

// The number of a function that is handed too few words to say a grid.
const FEW: u32 = 101;

// Pairs are answered as cells are: how many, or the refusal.
fn counted(answer: Result<u64, Refusal>) -> Result<usize, Refusal>
    ensures { of_cells result ≡ of_once answer }
{
    match answer {
        Ok(n) => Ok(n as usize),
        Err(r) => Err(r),
    }
}

// Out: how many pairs share a point. They stand in first and second, with zero beyond; starts, listing and counts are scratch, and left zero.
#[unsafe(no_mangle)]
pub extern "C" fn mt_crossings(
    grid: &[u64],
    start_x: &[i32],
    start_y: &[i32],
    end_x: &[i32],
    end_y: &[i32],
    offsets: &[u32],
    items: &[u32],
    globals: &[u32],
    global_count: u64,
    first: &mut [u32],
    second: &mut [u32],
    starts: &mut [u32],
    listing: &mut [u32],
    counts: &mut [u32],
    out: &mut [u64],
) -> u32
    ensures { let ss = samples start_x.now start_y.now end_x.now end_y.now in
        let w = grid.now in
        let g = grid_by w in
        let t = beside_samples ss g offsets.now items.now globals.now global_count in
        let end = crossings_by ss g t first.old second.old starts.old listing.old counts.old in
        OnceReplies w end first.old second.old starts.old listing.old counts.old out.old result
        first.new second.new starts.new listing.new counts.new out.new }
{
    if out.len() < 1 {
        return SHORT;
    }
    if grid.len() < WORDS {
        return FEW;
    }
    replies::cells(
        counted(crossings::list_crossings(
            start_x,
            start_y,
            end_x,
            end_y,
            grid_by(grid),
            offsets,
            items,
            globals,
            global_count as usize,
            first,
            second,
            starts,
            listing,
            counts,
        )),
        out,
    )
}
