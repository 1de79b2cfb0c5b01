// The exported function of one more line on standing tables. It answers as all exported functions do: by document 01's number, with its values at the start of the
// lent `out`. Where `out` has not three words, the number is 100; next, where a grid has fewer than six words, 101; then, where a number names no mode of
// walk, 103. These change nothing.
#![tactic(auto)]

ghost use Rattle.std.specs.Prelude.{◌≤◌, length};
ghost use Rattle.grid.specs.Domain.{segment_by};
ghost use Rattle.grid.specs.Words.{grid_by};
ghost use Rattle.tables.specs.Tables.{tables};
ghost use Rattle.replies.specs.Replies.{Replies};
ghost use Rattle.capi_added.specs.Lent.{of_added, AddedReplies};

use added::Added;
use capi::FEW;
use capi::naming::{LAST_MODE, NO_MODE, mode_by};
use grid::Segment;
use grid::words::{WORDS, grid_by};
use refusals::Refusal;
use replies::SHORT;

// The new numbers of items and of globals, and how many cells list the line; or the refusal.
fn added_line(answer: Result<Added, Refusal>, out: &mut [u64]) -> u32
    requires { 3 ≤ length out.old }
    ensures { Replies 3 (of_added answer) out.old result out.new }
{
    match answer {
        Ok(
            Added {
                cells,
                items,
                globals,
            },
        ) => {
            out[0] = items as u64;
            out[1] = globals as u64;
            out[2] = cells as u64;
            0
        },
        Err(r) => {
            out[0] = r.value;
            r.number
        },
    }
}

// Mode: 0 for the Rust's walk, 1 for the sided one, 2 for the covering one.
// Out: the number of items, the number of globals, the number of cells that list the line.
#[unsafe(no_mangle)]
pub extern "C" fn mt_add_line(
    grid: &[u64],
    mode: u32,
    start_x: f64,
    start_y: f64,
    end_x: f64,
    end_y: f64,
    lines: usize,
    offsets: &mut [u32],
    items: &mut [u32],
    globals: &mut [u32],
    global_count: u64,
    scratch: &mut [u32],
    out: &mut [u64],
) -> u32
    ensures { let w = grid.now in
        let line = segment_by start_x start_y end_x end_y in
        let t = tables (grid_by w) lines offsets.old items.old globals.old global_count in
        let s = scratch.old in
        AddedReplies w mode line t s out.old result offsets.new items.new globals.new scratch.new out.new }
{
    if out.len() < 3 {
        return SHORT;
    }
    if grid.len() < WORDS {
        return FEW;
    }
    if LAST_MODE < mode {
        return NO_MODE;
    }
    let line = Segment {
        start_x,
        start_y,
        end_x,
        end_y,
    };
    let answer = added::add_line(
        mode_by(mode),
        grid_by(grid),
        line,
        lines,
        offsets,
        items,
        globals,
        global_count as usize,
        scratch,
    );
    added_line(answer, out)
}
