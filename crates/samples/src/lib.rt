// Lines of samples: whole numbers of magnitude at most 2^29, as the bench logger delivers them. A sample is raised by 2^29, which spares all
// signs. Two lines of raised samples are decided exactly in 64 bits: whether they share a point.
#![tactic(auto)]

pub mod checks;
mod sides;

ghost use Rattle.std.specs.Prelude.{◌≡◌};
ghost use Rattle.samples.specs.Samples.{samples, raised, raised_in, raised_at};
ghost use Rattle.samples.specs.Sharing.{sharing};

// A line of raised samples. What is no sample is 2^32 - 1 in it.
#[derive(Clone, Copy)]
pub struct Raised {
    pub start_x: u32,
    pub start_y: u32,
    pub end_x: u32,
    pub end_y: u32,
}

// A sample, raised by 2^29; 2^32 - 1 for a number that is none.
fn raise(v: i32) -> u32
    ensures { result ≡ raised v }
{
    if v < -536870912 {
        return 4294967295;
    }
    if 536870912 < v {
        return 4294967295;
    }
    (v + 536870912) as u32
}

// The sample at an index, raised; 0 beyond the end.
fn entry(s: &[i32], i: usize) -> u32
    ensures { result ≡ raised_in s.now i }
{
    if i < s.len() {
        return raise(s[i]);
    }
    536870912
}

// Line i of four slices, raised.
pub fn line_at(start_x: &[i32], start_y: &[i32], end_x: &[i32], end_y: &[i32], i: usize) -> Raised
    ensures { let ss = samples start_x.now start_y.now end_x.now end_y.now in result ≡ raised_at ss i }
{
    Raised {
        start_x: entry(start_x, i),
        start_y: entry(start_y, i),
        end_x: entry(end_x, i),
        end_y: entry(end_y, i),
    }
}

// Whether two lines of samples share a point: their boxes overlap, and neither line has both ends of the other strictly on one side. The boxes
// part most lines, so they come first. The answer is no where a number is no sample.
pub fn share_point(a: Raised, b: Raised) -> bool
    ensures { result ≡ sharing a b }
{
    if !sides::boxes_overlap(a, b) {
        return false;
    }
    if !checks::is_sampled(a) {
        return false;
    }
    if !checks::is_sampled(b) {
        return false;
    }
    if sides::both_aside(a, b) {
        return false;
    }
    !sides::both_aside(b, a)
}
