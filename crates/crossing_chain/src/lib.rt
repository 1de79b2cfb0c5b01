// What the program of crossings prints for the bytes that it reads: one LineString of samples in well-known binary, whose consecutive points are
// lines. It builds in a plan and lists the crossings.
#![tactic(auto)]

ghost use Rattle.std.specs.Prelude.{◌≡◌, ◌≤◌, length, take};
ghost use Rattle.grid.specs.Domain.{lines};
ghost use Rattle.samples.specs.Samples.{samples};
ghost use Rattle.crossings.specs.Crossings.{beside_samples};
ghost use Rattle.report.specs.Pages.{page, Puts, Prints};
ghost use Rattle.chain.specs.Printed.{chain_of};
ghost use Rattle.crossing_chain.specs.Printed.{crossings_of_tables, printed_samples, crossings_of_lines, crossings_printed};
ghost use Rattle.crossing_chain.specs.Inside.{LengthsHeld};

use build::Plan;
use grid::Grid;

mod show;
mod whole;

// The crossings of samples on standing tables, with room for 4,096 pairs.
fn put_tables(
    start_x: &[i32],
    start_y: &[i32],
    end_x: &[i32],
    end_y: &[i32],
    grid: Grid,
    offsets: &[u32],
    items: &[u32],
    globals: &[u32],
    global_count: usize,
    out: &mut [u8],
) -> usize
    ensures { let ss = samples start_x.now start_y.now end_x.now end_y.now in
        let t = beside_samples ss grid offsets.now items.now globals.now global_count in
        Puts (crossings_of_tables ss grid t) (page out.old 0) (page out.new result) }
{
    let mut first = [0u32; 4096];
    let mut second = [0u32; 4096];
    let mut starts = [0u32; 1024];
    let mut listing = [0u32; 4096];
    let mut counts = [0u32; 1024];
    let listed = crossings::list_crossings(
        start_x,
        start_y,
        end_x,
        end_y,
        grid,
        offsets,
        items,
        globals,
        global_count,
        &mut first,
        &mut second,
        &mut starts,
        &mut listing,
        &mut counts,
    );
    match listed {
        Err(r) => report::refused_line(r.number, out, 0),
        Ok(n) => show::put_crossings(n, &first, &second, out),
    }
}

// The crossings of samples: the checks of the samples, a build of the lines in document 01's buffers, and what is listed on its tables.
fn put_samples(
    start_x: &[f64],
    start_y: &[f64],
    end_x: &[f64],
    end_y: &[f64],
    whole_start_x: &[i32],
    whole_start_y: &[i32],
    whole_end_x: &[i32],
    whole_end_y: &[i32],
    plan: Plan,
    out: &mut [u8],
) -> usize
    ensures { let ls = lines start_x.now start_y.now end_x.now end_y.now in
        let ss = samples whole_start_x.now whole_start_y.now whole_end_x.now whole_end_y.now in
        Puts (printed_samples plan ss ls) (page out.old 0) (page out.new result) }
{
    let sampled = samples::checks::check_sample_lines(
        whole_start_x,
        whole_start_y,
        whole_end_x,
        whole_end_y,
    );
    if let Err(r) = sampled {
        return report::refused_line(r.number, out, 0);
    }
    let mut offsets = [0u32; 4096];
    let mut items = [0u32; 4096];
    let mut globals = [0u32; 64];
    let mut scratch = [0u32; 16384];
    let built = build::build(
        start_x,
        start_y,
        end_x,
        end_y,
        plan,
        &mut offsets,
        &mut items,
        &mut globals,
        &mut scratch,
    );
    match built {
        Err(r) => report::refused_line(r.number, out, 0),
        Ok(s) => put_tables(
            whole_start_x,
            whole_start_y,
            whole_end_x,
            whole_end_y,
            s.grid,
            &offsets,
            &items,
            &globals,
            s.globals,
            out,
        ),
    }
}

// The crossings of at most 1,024 lines, whose coordinates are made whole numbers.
fn put_lines(
    start_x: &[f64],
    start_y: &[f64],
    end_x: &[f64],
    end_y: &[f64],
    plan: Plan,
    out: &mut [u8],
) -> usize
    requires { LengthsHeld start_x.now start_y.now end_x.now end_y.now }
    ensures { let ls = lines start_x.now start_y.now end_x.now end_y.now in
        Puts (crossings_of_lines plan ls) (page out.old 0) (page out.new result) }
{
    let n = start_x.len();
    let mut whole_start_x = [0i32; 1024];
    let mut whole_start_y = [0i32; 1024];
    let mut whole_end_x = [0i32; 1024];
    let mut whole_end_y = [0i32; 1024];
    whole::wholes_of(start_x, &mut whole_start_x);
    whole::wholes_of(start_y, &mut whole_start_y);
    whole::wholes_of(end_x, &mut whole_end_x);
    whole::wholes_of(end_y, &mut whole_end_y);
    put_samples(
        start_x,
        start_y,
        end_x,
        end_y,
        &whole_start_x[..n],
        &whole_start_y[..n],
        &whole_end_x[..n],
        &whole_end_y[..n],
        plan,
        out,
    )
}

// The crossings of a chain of n points, the first of two slices. Consecutive points make lines.
fn put_points(x: &[f64], y: &[f64], n: usize, plan: Plan, out: &mut [u8]) -> usize
    requires { (1 ≤ n) × (n ≤ 1024) × (n ≤ length x.now) × (n ≤ length y.now) }
    ensures { Puts (crossings_of_lines plan (chain_of (take n x.now) (take n y.now))) (page out.old 0) (page out.new result) }
{
    let last = n - 1;
    put_lines(&x[..last], &y[..last], &x[1..n], &y[1..n], plan, out)
}

// The crossings of the chain that stands in bytes.
fn put_chain(bytes: &[u8], plan: Plan, out: &mut [u8]) -> usize
    ensures { Puts (crossings_printed plan bytes.now) (page out.old 0) (page out.new result) }
{
    let mut x = [0.0f64; 1024];
    let mut y = [0.0f64; 1024];
    let read = wkb::read_line_string(bytes, &mut x, &mut y);
    match read {
        Err(r) => report::refused_line(r.number, out, 0),
        Ok(n) => put_points(&x, &y, n, plan, out),
    }
}

// Writes what the program of crossings prints in a plan for the bytes of its input, as far as there is room, and zero beyond; answers where it ends.
pub fn print_crossings(bytes: &[u8], plan: Plan, out: &mut [u8]) -> usize
    ensures { Prints (crossings_printed plan bytes.now) out.old out.new result }
{
    let end = put_chain(bytes, plan, out);
    report::clear(&mut out[end..]);
    end
}
