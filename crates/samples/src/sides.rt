// On which side of a line the ends of another lie, and the boxes of two lines.
ghost use Rattle.std.specs.Prelude.{◌≡◌, true, min, max, ◌≤◌};
ghost use Rattle.samples.specs.Samples.{sampled};
ghost use Rattle.samples.specs.Sharing.{left_sum, right_sum, Product, aside, boxes_overlap};

use crate::Raised;

fn lesser(a: u32, b: u32) -> u32
    ensures { result ≡ min a b }
{
    if a < b {
        return a;
    }
    b
}

fn greater(a: u32, b: u32) -> u32
    ensures { result ≡ max a b }
{
    if a < b {
        return b;
    }
    a
}

// Four comparisons, each made, so that none is a branch.
pub(crate) fn boxes_overlap(a: Raised, b: Raised) -> bool
    ensures { result ≡ boxes_overlap a b }
{
    let a_low_x = lesser(a.start_x, a.end_x);
    let a_high_x = greater(a.start_x, a.end_x);
    let a_low_y = lesser(a.start_y, a.end_y);
    let a_high_y = greater(a.start_y, a.end_y);
    let b_low_x = lesser(b.start_x, b.end_x);
    let b_high_x = greater(b.start_x, b.end_x);
    let b_low_y = lesser(b.start_y, b.end_y);
    let b_high_y = greater(b.start_y, b.end_y);
    (b_low_x <= a_high_x)
        & ((a_low_x <= b_high_x) & ((b_low_y <= a_high_y) & (a_low_y <= b_high_y)))
}

// A product of two raised samples, which is at most 2^60.
fn product(a: u32, b: u32) -> u64
    requires a_small { a ≤ 1073741824 }
    requires b_small { b ≤ 1073741824 }
    ensures { Product a b result }
{
    (a as u64) * (b as u64)
}

// The two sums whose order says on which side of a line the point (x, y) lies. Each is at most 3 x 2^60.
fn left_sum(a: Raised, x: u32, y: u32) -> u64
    requires a_sampled { sampled a ≡ true }
    requires x_small { x ≤ 1073741824 }
    requires y_small { y ≤ 1073741824 }
    ensures { result ≡ left_sum a x y }
{
    product(a.end_x, y) + product(a.start_x, a.end_y) + product(x, a.start_y)
}

fn right_sum(a: Raised, x: u32, y: u32) -> u64
    requires a_sampled { sampled a ≡ true }
    requires x_small { x ≤ 1073741824 }
    requires y_small { y ≤ 1073741824 }
    ensures { result ≡ right_sum a x y }
{
    product(a.end_x, a.start_y) + product(a.start_x, y) + product(x, a.end_y)
}

// Whether both ends of b lie strictly on one side of a.
pub(crate) fn both_aside(a: Raised, b: Raised) -> bool
    requires a_sampled { sampled a ≡ true }
    requires b_sampled { sampled b ≡ true }
    ensures { result ≡ aside a b }
{
    let l1 = left_sum(a, b.start_x, b.start_y);
    let r1 = right_sum(a, b.start_x, b.start_y);
    let l2 = left_sum(a, b.end_x, b.end_y);
    let r2 = right_sum(a, b.end_x, b.end_y);
    ((r1 < l1) & (r2 < l2)) | ((l1 < r1) & (l2 < r2))
}
