// The check of standing tables.
ghost use Rattle.tables.specs.Tables.{tables};
ghost use Rattle.tables.specs.Fit.{standing_check};
ghost use Rattle.grid.specs.Words.{grid_by};
ghost use Rattle.replies.specs.Replies.{Replies};
ghost use Rattle.replies.specs.Answers.{of_check};
ghost use Rattle.capi.specs.Few.{unless_few};

// Out: nothing where the tables pass, on a grid that is fit, for a number of lines that is allowed.
#[unsafe(no_mangle)]
pub extern "C" fn mt_check_tables(
    grid: &[u64],
    lines: usize,
    offsets: &[u32],
    items: &[u32],
    globals: &[u32],
    global_count: u64,
    out: &mut [u64],
) -> u32
    ensures { let w = grid.now in
        let g = grid_by w in
        let t = tables g lines offsets.now items.now globals.now global_count in
        Replies 1 (unless_few w (of_check (standing_check g t))) out.old result out.new }
{
    capi::standing::mt_check_tables(grid, lines, offsets, items, globals, global_count, out)
}
