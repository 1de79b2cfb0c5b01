// What a visit of standing tables will cost.
ghost use Rattle.grid.specs.Words.{grid_by};
ghost use Rattle.tables.specs.Tables.{tables};
ghost use Rattle.cost.specs.Cost.{cost_answer};
ghost use Rattle.replies.specs.Replies.{Replies};
ghost use Rattle.capi.specs.Few.{unless_few};
ghost use Rattle.capi_pairs.specs.Answers.{of_cost};

// Out: the tests of a full visit, and the lines of the longest list.
#[unsafe(no_mangle)]
pub extern "C" fn mt_visit_cost(
    grid: &[u64],
    lines: usize,
    offsets: &[u32],
    items: &[u32],
    globals: &[u32],
    global_count: u64,
    out: &mut [u64],
) -> u32
    ensures { let w = grid.now in
        let g = grid_by w in
        let t = tables g lines offsets.now items.now globals.now global_count in
        Replies 2 (unless_few w (of_cost (cost_answer g t))) out.old result out.new }
{
    capi_pairs::costing::mt_visit_cost(grid, lines, offsets, items, globals, global_count, out)
}
