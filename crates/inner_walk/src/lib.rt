// The walk of one line by the function that a build calls, in the Rust's mode and in the covering mode, and the ordering of its cells, for whoever times or
// compares them. They are no part of the library.
#![tactic(auto)]

ghost use Rattle.std.specs.Prelude.{◌≡◌, length, set};
ghost use Rattle.grid.specs.Domain.{segment_by};
ghost use Rattle.slices.specs.Slices.{sorted};
ghost use Rattle.walk.specs.declared.Mode.TheVariants.{Rust, Covering};
ghost use Rattle.inner_walk.specs.Replies.{grid_by_sizes, reach_number, reach_value, InnerReplies};

use grid::Grid;
use refusals::Refusal;
use walk::{Mode, Reached};

// Writes the first entry, where there is one.
fn put(value: u64, out: &mut [u64])
    ensures { out.new ≡ set out.old 0 value }
{
    if out.len() == 0 {
        return;
    }
    out[0] = value;
}

// Puts the entries in order. Answers 0.
#[unsafe(no_mangle)]
pub extern "C" fn mt_inner_order(entries: &mut [u32]) -> u32
    ensures { (result ≡ 0) × (entries.new ≡ sorted entries.old) }
{
    ordering::order(entries);
    0
}

// The answer of a walk in numbers: 0, the refusal's number, or 16 where the line is everywhere. Out: the number of cells, the refusal's value, or 0.
fn answer(r: Result<Reached, Refusal>, out: &mut [u64]) -> u32
    ensures { (result ≡ reach_number r) × (out.new ≡ set out.old 0 (reach_value r)) }
{
    match r {
        Ok(Reached::Found(n)) => {
            put(n as u64, out);
            0
        },
        Ok(Reached::Everywhere) => {
            put(0, out);
            16
        },
        Err(why) => {
            put(why.value, out);
            why.number
        },
    }
}

// The grid of its sizes, which are its minima and the width and the height of its cells, and of its counts. A build has it as a value, so no words are
// read. The sizes are looked at once, and not one by one: so they are copied in pairs, as the walk reads them.
fn grid_of(sizes: &[f64], cols: u32, rows: u32) -> Grid
    ensures { result ≡ grid_by_sizes sizes.now cols rows }
{
    if sizes.len() < 4 {
        return Grid {
            min_x: 0.0,
            min_y: 0.0,
            cell_width: 0.0,
            cell_height: 0.0,
            cols,
            rows,
        };
    }
    Grid {
        min_x: sizes[0],
        min_y: sizes[1],
        cell_width: sizes[2],
        cell_height: sizes[3],
        cols,
        rows,
    }
}

// The Rust's walk. The grid is said by its sizes and its counts. The cells stand at the start of the scratch; what is beyond them there is open.
#[unsafe(no_mangle)]
pub extern "C" fn mt_inner_walk(
    sizes: &[f64],
    cols: u32,
    rows: u32,
    start_x: f64,
    start_y: f64,
    end_x: f64,
    end_y: f64,
    scratch: &mut [u32],
    out: &mut [u64],
) -> u32
    ensures { let g = grid_by_sizes sizes.now cols rows in
        let line = segment_by start_x start_y end_x end_y in
        InnerReplies Rust g line scratch.old out.old result scratch.new out.new }
{
    let r = walk::cells_between(
        Mode::Rust,
        grid_of(sizes, cols, rows),
        start_x,
        start_y,
        end_x,
        end_y,
        scratch,
    );
    answer(r, out)
}

// The covering walk, in the same words.
#[unsafe(no_mangle)]
pub extern "C" fn mt_inner_cover(
    sizes: &[f64],
    cols: u32,
    rows: u32,
    start_x: f64,
    start_y: f64,
    end_x: f64,
    end_y: f64,
    scratch: &mut [u32],
    out: &mut [u64],
) -> u32
    ensures { let g = grid_by_sizes sizes.now cols rows in
        let line = segment_by start_x start_y end_x end_y in
        InnerReplies Covering g line scratch.old out.old result scratch.new out.new }
{
    let r = walk::cells_between(
        Mode::Covering,
        grid_of(sizes, cols, rows),
        start_x,
        start_y,
        end_x,
        end_y,
        scratch,
    );
    answer(r, out)
}
