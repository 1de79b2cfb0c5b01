// The walk of one line, and the ordering of its cells.
ghost use Rattle.std.specs.Prelude.{◌≡◌};
ghost use Rattle.grid.specs.Domain.{segment_by};
ghost use Rattle.slices.specs.Slices.{sorted};
ghost use Rattle.walk.specs.declared.Mode.TheVariants.{Rust, Covering};
ghost use Rattle.inner_walk.specs.Replies.{grid_by_sizes, InnerReplies};

// Puts the entries in order. Answers 0.
#[unsafe(no_mangle)]
pub extern "C" fn mt_inner_order(entries: &mut [u32]) -> u32
    ensures { (result ≡ 0) × (entries.new ≡ sorted entries.old) }
{
    inner_walk::mt_inner_order(entries)
}

// The Rust's walk. The grid is said by its sizes and its counts. The cells stand at the start of the scratch; what is beyond them there is open.
#[unsafe(no_mangle)]
pub extern "C" fn mt_inner_walk(
    sizes: &[f64],
    cols: u32,
    rows: u32,
    start_x: f64,
    start_y: f64,
    end_x: f64,
    end_y: f64,
    scratch: &mut [u32],
    out: &mut [u64],
) -> u32
    ensures { let g = grid_by_sizes sizes.now cols rows in
        let line = segment_by start_x start_y end_x end_y in
        InnerReplies Rust g line scratch.old out.old result scratch.new out.new }
{
    inner_walk::mt_inner_walk(
        sizes, cols, rows, start_x, start_y, end_x, end_y, scratch, out,
    )
}

// The covering walk, in the same words.
#[unsafe(no_mangle)]
pub extern "C" fn mt_inner_cover(
    sizes: &[f64],
    cols: u32,
    rows: u32,
    start_x: f64,
    start_y: f64,
    end_x: f64,
    end_y: f64,
    scratch: &mut [u32],
    out: &mut [u64],
) -> u32
    ensures { let g = grid_by_sizes sizes.now cols rows in
        let line = segment_by start_x start_y end_x end_y in
        InnerReplies Covering g line scratch.old out.old result scratch.new out.new }
{
    inner_walk::mt_inner_cover(
        sizes, cols, rows, start_x, start_y, end_x, end_y, scratch, out,
    )
}
