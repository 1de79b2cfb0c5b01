// Chains held as points with member lengths: the points of all members stand one after another in x and y, as bit patterns, and `lengths` says
// how many each member has. Written as a MultiLineString, and turned into the lines of a build.
#![tactic(auto)]

mod bytes;
pub mod lines;
pub mod write;

ghost use Rattle.std.specs.Prelude.{◌≡◌, ◌&&◌, ◌<◌, length, leb, eqb};
ghost use Rattle.members.specs.Held.{is_length, all_lengths, sum_of, held_check};
ghost use Rattle.members.specs.Writing.{fit_check};

use refusals::Refusal;
use slices::wide;

// A member has 1 to 1,024 points.
fn is_length(n: u32) -> bool
    ensures { result ≡ is_length n }
{
    (1 <= n) & (n <= 1024)
}

// Each length is one that a member may have, and they add up to the points.
fn add_up(lengths: &[u32], points: usize) -> bool
    requires { length lengths.now < 4294967296 }
    ensures { result ≡ (all_lengths lengths.now && eqb (sum_of lengths.now) points) }
{
    let mut sum = 0;
    for &n in lengths {
        if !is_length(n) {
            return false;
        }
        sum += wide(n);
    }
    sum == points
}

// x and y have one length, members are at most 2^32 - 1, and their lengths are right.
fn is_held(x: usize, y: usize, lengths: &[u32]) -> bool
    ensures { let ns = lengths.now in
        result ≡ (eqb x y && (leb (length ns) 4294967295 && (all_lengths ns && eqb (sum_of ns) x))) }
{
    if x != y {
        return false;
    }
    if lengths.len() > 4294967295 {
        return false;
    }
    add_up(lengths, x)
}

// 3: points and lengths that do not go together.
pub fn check_held(x: usize, y: usize, lengths: &[u32]) -> Result<(), Refusal>
    ensures { result ≡ held_check x y lengths.now }
{
    refusals::refuse_unless(is_held(x, y, lengths), 3, 0)
}

// 5: room for fewer than n.
fn check_fit(room: usize, n: usize) -> Result<(), Refusal>
    ensures { result ≡ fit_check room n }
{
    refusals::refuse_unless(n <= room, 5, n as u64)
}
