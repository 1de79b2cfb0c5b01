// What the program prints for the bytes that it reads: one LineString in well-known binary, whose consecutive points are lines.
#![tactic(auto)]

ghost use Rattle.std.specs.Prelude.{◌≡◌, ◌≤◌, length, take};
ghost use Rattle.grid.specs.Domain.{lines};
ghost use Rattle.tables.specs.Tables.{beside};
ghost use Rattle.report.specs.Pages.{page, Puts, Prints};
ghost use Rattle.chain.specs.Printed.{printed_tables, printed_lines, chain_of, printed};

use build::Plan;
use grid::Grid;
use refusals::Refusal;

mod show;
mod whole;

// A full visit: all tests, and those of them that overlap.
#[derive(Clone, Copy)]
struct Visited {
    tests: u64,
    overlaps: u64,
}

// The report of standing tables, with the counts of a full visit.
fn put_tables(
    start_x: &[f64],
    start_y: &[f64],
    end_x: &[f64],
    end_y: &[f64],
    grid: Grid,
    item_count: usize,
    offsets: &[u32],
    items: &[u32],
    globals: &[u32],
    global_count: usize,
    out: &mut [u8],
) -> usize
    ensures { let ls = lines start_x.now start_y.now end_x.now end_y.now in
        let t = beside ls grid offsets.now items.now globals.now global_count in
        Puts (printed_tables ls grid t item_count) (page out.old 0) (page out.new result) }
{
    let visited = whole::visit(
        start_x,
        start_y,
        end_x,
        end_y,
        grid,
        offsets,
        items,
        globals,
        global_count,
    );
    match visited {
        Err(r) => report::refused_line(r.number, out, 0),
        Ok(Visited { tests, overlaps }) => show::put_report(
            grid,
            start_x.len(),
            offsets,
            items,
            globals,
            global_count,
            item_count,
            tests,
            overlaps,
            out,
            0,
        ),
    }
}

// The report of lines: their build in document 01's buffers, and what it leaves.
fn put_lines(
    start_x: &[f64],
    start_y: &[f64],
    end_x: &[f64],
    end_y: &[f64],
    plan: Plan,
    out: &mut [u8],
) -> usize
    ensures { let ls = lines start_x.now start_y.now end_x.now end_y.now in
        Puts (printed_lines plan ls) (page out.old 0) (page out.new result) }
{
    let mut offsets = [0u32; 4096];
    let mut items = [0u32; 4096];
    let mut globals = [0u32; 64];
    let mut scratch = [0u32; 16384];
    let built = build::build(
        start_x,
        start_y,
        end_x,
        end_y,
        plan,
        &mut offsets,
        &mut items,
        &mut globals,
        &mut scratch,
    );
    match built {
        Err(r) => report::refused_line(r.number, out, 0),
        Ok(s) => put_tables(
            start_x, start_y, end_x, end_y, s.grid, s.items, &offsets, &items, &globals, s.globals,
            out,
        ),
    }
}

// The report of a chain of n points, the first of two slices. Consecutive points make lines.
fn put_points(x: &[f64], y: &[f64], n: usize, plan: Plan, out: &mut [u8]) -> usize
    requires { (1 ≤ n) × (n ≤ length x.now) × (n ≤ length y.now) }
    ensures { Puts (printed_lines plan (chain_of (take n x.now) (take n y.now))) (page out.old 0) (page out.new result) }
{
    let last = n - 1;
    put_lines(&x[..last], &y[..last], &x[1..n], &y[1..n], plan, out)
}

// The report of the chain that stands in bytes.
fn put_chain(bytes: &[u8], plan: Plan, out: &mut [u8]) -> usize
    ensures { Puts (printed plan bytes.now) (page out.old 0) (page out.new result) }
{
    let mut x = [0.0f64; 1024];
    let mut y = [0.0f64; 1024];
    let read = wkb::read_line_string(bytes, &mut x, &mut y);
    match read {
        Err(r) => report::refused_line(r.number, out, 0),
        Ok(n) => put_points(&x, &y, n, plan, out),
    }
}

// Writes what the program of a plan prints for the bytes of its input, as far as there is room, and zero beyond; answers where it ends.
pub fn print_chain(bytes: &[u8], plan: Plan, out: &mut [u8]) -> usize
    ensures { Prints (printed plan bytes.now) out.old out.new result }
{
    let end = put_chain(bytes, plan, out);
    report::clear(&mut out[end..]);
    end
}
