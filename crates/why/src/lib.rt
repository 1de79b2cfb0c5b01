// Why the program refuses the bytes that it reads: the refusal with its value, which the report leaves out.
#![tactic(auto)]

ghost use Rattle.std.specs.Prelude.{◌≡◌, ◌≤◌, length, take};
ghost use Rattle.grid.specs.Domain.{lines};
ghost use Rattle.chain.specs.Printed.{chain_of};
ghost use Rattle.why.specs.Why.{of_lines, refusal_of};

use build::Plan;
use refusals::Refusal;

// The refusal of a build of lines in document 01's buffers; number and value 0 where it has none.
fn of_lines(start_x: &[f64], start_y: &[f64], end_x: &[f64], end_y: &[f64], plan: Plan) -> Refusal
    ensures { let ls = lines start_x.now start_y.now end_x.now end_y.now in
        result ≡ of_lines plan ls }
{
    let mut offsets = [0u32; 4096];
    let mut items = [0u32; 4096];
    let mut globals = [0u32; 64];
    let mut scratch = [0u32; 16384];
    let built = build::build(
        start_x,
        start_y,
        end_x,
        end_y,
        plan,
        &mut offsets,
        &mut items,
        &mut globals,
        &mut scratch,
    );
    match built {
        Err(r) => r,
        Ok(_) => Refusal {
            number: 0,
            value: 0,
        },
    }
}

// The same of a chain of n points, the first of two slices.
fn of_points(x: &[f64], y: &[f64], n: usize, plan: Plan) -> Refusal
    requires { (1 ≤ n) × (n ≤ length x.now) × (n ≤ length y.now) }
    ensures { result ≡ of_lines plan (chain_of (take n x.now) (take n y.now)) }
{
    let last = n - 1;
    of_lines(&x[..last], &y[..last], &x[1..n], &y[1..n], plan)
}

// The refusal that the program of a plan prints for the bytes of its input, with its value; number and value 0 where neither the reader nor the build refuses.
pub fn refusal_of(bytes: &[u8], plan: Plan) -> Refusal
    ensures { result ≡ refusal_of plan bytes.now }
{
    let mut x = [0.0f64; 1024];
    let mut y = [0.0f64; 1024];
    let read = wkb::read_line_string(bytes, &mut x, &mut y);
    match read {
        Err(r) => r,
        Ok(n) => of_points(&x, &y, n, plan),
    }
}
