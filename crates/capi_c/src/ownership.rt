// Ownership of points and overlaps by one cell, the owner of a point and those of many.
ghost use Rattle.own.specs.Own.{point_answer, overlap_answer};
ghost use Rattle.own.specs.Owner.{owner_answer};
ghost use Rattle.grid.specs.Words.{grid_by};
ghost use Rattle.replies.specs.Replies.{Replies};
ghost use Rattle.replies.specs.Answers.{of_owned, of_owner_answer};
ghost use Rattle.capi.specs.Few.{unless_few};
ghost use Rattle.capi.specs.Lent.{OwnersReplies};

// Out: 1 where the cell owns the point, else 0.
#[unsafe(no_mangle)]
pub extern "C" fn mt_point_owned(
    grid: &[u64],
    row: u32,
    col: u32,
    x: f64,
    y: f64,
    out: &mut [u64],
) -> u32
    ensures { let w = grid.now in
        Replies 1 (unless_few w (of_owned (point_answer (grid_by w) row col x y))) out.old result out.new }
{
    capi::ownership::mt_point_owned(grid, row, col, x, y, out)
}

// Out: 1 where the cell owns the overlap, else 0.
#[unsafe(no_mangle)]
pub extern "C" fn mt_overlap_owned(
    grid: &[u64],
    row: u32,
    col: u32,
    x: f64,
    y: f64,
    size: f64,
    strategy: u32,
    out: &mut [u64],
) -> u32
    ensures { let w = grid.now in
        Replies 1 (unless_few w (of_owned (overlap_answer (grid_by w) row col x y size strategy))) out.old result out.new }
{
    capi::ownership::mt_overlap_owned(grid, row, col, x, y, size, strategy, out)
}

// Out: 1, row, column; 2, 0, 0 in a seam; or 0, 0, 0 outside the grid.
#[unsafe(no_mangle)]
pub extern "C" fn mt_owner(grid: &[u64], x: f64, y: f64, out: &mut [u64]) -> u32
    ensures { let w = grid.now in
        Replies 3 (unless_few w (of_owner_answer (owner_answer (grid_by w) x y))) out.old result out.new }
{
    capi::ownership::mt_owner(grid, x, y, out)
}

// The answers: for each point the number of its cell, 4294967294 in a seam, 4294967295 outside the grid. Out: nothing, though a word is needed.
#[unsafe(no_mangle)]
pub extern "C" fn mt_owners(
    grid: &[u64],
    x: &[f64],
    y: &[f64],
    answers: &mut [u32],
    out: &mut [u64],
) -> u32
    ensures { let w = grid.now in
        OwnersReplies w (grid_by w) x.now y.now answers.old out.old result answers.new out.new }
{
    capi::ownership::mt_owners(grid, x, y, answers, out)
}
