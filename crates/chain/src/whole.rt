// A full visit, in batches.
ghost use Rattle.std.specs.Prelude.{◌≡◌};
ghost use Rattle.grid.specs.Domain.{lines};
ghost use Rattle.tables.specs.Tables.{beside};
ghost use Rattle.chain.specs.Inside.{batch_from, full_visit};

use crate::Visited;
use grid::Grid;
use refusals::Refusal;
use visit::Tally;

// One batch. What it hands out is not wanted here.
fn batch_from(
    start_x: &[f64],
    start_y: &[f64],
    end_x: &[f64],
    end_y: &[f64],
    grid: Grid,
    offsets: &[u32],
    items: &[u32],
    globals: &[u32],
    global_count: usize,
    bookmark: u64,
) -> Result<Tally, Refusal>
    ensures { let ls = lines start_x.now start_y.now end_x.now end_y.now in
        let t = beside ls grid offsets.now items.now globals.now global_count in
        result ≡ batch_from ls grid t bookmark }
{
    let mut first = [0u32; 1024];
    let mut second = [0u32; 1024];
    visit::visits::batch(
        start_x,
        start_y,
        end_x,
        end_y,
        grid,
        offsets,
        items,
        globals,
        global_count,
        bookmark,
        &mut first,
        &mut second,
    )
}

// Batch after batch, until one makes no test.
pub(crate) fn visit(
    start_x: &[f64],
    start_y: &[f64],
    end_x: &[f64],
    end_y: &[f64],
    grid: Grid,
    offsets: &[u32],
    items: &[u32],
    globals: &[u32],
    global_count: usize,
) -> Result<Visited, Refusal>
    ensures { let ls = lines start_x.now start_y.now end_x.now end_y.now in
        let t = beside ls grid offsets.now items.now globals.now global_count in
        result ≡ full_visit ls grid t }
{
    let mut tests = 0;
    let mut overlaps = 0;
    loop {
        let t = batch_from(
            start_x,
            start_y,
            end_x,
            end_y,
            grid,
            offsets,
            items,
            globals,
            global_count,
            tests,
        )?;
        if t.tests == 0 {
            return Ok(Visited { tests, overlaps });
        }
        tests = t.bookmark;
        overlaps += t.overlaps;
    }
}
