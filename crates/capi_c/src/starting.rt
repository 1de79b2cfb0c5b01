// Where a visit starts, after all checks of a batch.
ghost use Rattle.grid.specs.Words.{grid_by};
ghost use Rattle.grid.specs.Domain.{lines};
ghost use Rattle.tables.specs.Tables.{beside};
ghost use Rattle.resume.specs.Answers.{start_answer};
ghost use Rattle.replies.specs.Replies.{Replies};
ghost use Rattle.capi.specs.Few.{unless_few};
ghost use Rattle.capi_resume.specs.Answers.{of_start};

// Out: the three words of the cursor of a bookmark.
#[unsafe(no_mangle)]
pub extern "C" fn mt_start(
    grid: &[u64],
    start_x: &[f64],
    start_y: &[f64],
    end_x: &[f64],
    end_y: &[f64],
    offsets: &[u32],
    items: &[u32],
    globals: &[u32],
    global_count: u64,
    bookmark: u64,
    out: &mut [u64],
) -> u32
    ensures { let ls = lines start_x.now start_y.now end_x.now end_y.now in
        let w = grid.now in
        let g = grid_by w in
        let t = beside ls g offsets.now items.now globals.now global_count in
        Replies 3 (unless_few w (of_start (start_answer ls g t bookmark))) out.old result out.new }
{
    capi_resume::starting::mt_start(
        grid,
        start_x,
        start_y,
        end_x,
        end_y,
        offsets,
        items,
        globals,
        global_count,
        bookmark,
        out,
    )
}
