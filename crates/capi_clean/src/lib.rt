// The exported cleaning of chains. It answers as all exported functions do: by document 01's number, with its values at the start of the lent
// `out`. Where `out` has fewer words than a success writes the number is 100, and nothing changes.
#![tactic(auto)]

ghost use Rattle.std.specs.Prelude.{[], ◌∷◌, ◌≤◌, length};
ghost use Rattle.replies.specs.Replies.{success, Replies};
ghost use Rattle.clean.specs.Calls.{outputs};
ghost use Rattle.capi_clean.specs.Lent.{of_cleaned, CleanReplies};

use clean::Cleaned;
use refusals::Refusal;
use replies::SHORT;

// Two numbers.
fn counts(points: usize, members: usize, out: &mut [u64]) -> u32
    requires { 2 ≤ length out.old }
    ensures { Replies 2 (success (points ∷ members ∷ [])) out.old result out.new }
{
    out[0] = points as u64;
    out[1] = members as u64;
    0
}

// The number of points and of pieces that are kept.
fn kept(answer: Result<Cleaned, Refusal>, out: &mut [u64]) -> u32
    requires { 2 ≤ length out.old }
    ensures { Replies 2 (of_cleaned answer) out.old result out.new }
{
    match answer {
        Ok(Cleaned { points, members }) => counts(points, members, out),
        Err(r) => replies::checked(Err(r), out),
    }
}

// Out: the number of points and the number of pieces that are kept.
#[unsafe(no_mangle)]
pub extern "C" fn mt_clean(
    x: &[u64],
    y: &[u64],
    lengths: &[u32],
    kept_x: &mut [u64],
    kept_y: &mut [u64],
    kept_lengths: &mut [u32],
    reasons: &mut [u32],
    out: &mut [u64],
) -> u32
    ensures { let l = lengths.now in
        let o = outputs kept_x.old kept_y.old kept_lengths.old reasons.old in
        let o' = outputs kept_x.new kept_y.new kept_lengths.new reasons.new in
        CleanReplies x.now y.now l o out.old result o' out.new }
{
    if out.len() < 2 {
        return SHORT;
    }
    let answer = clean::clean(x, y, lengths, kept_x, kept_y, kept_lengths, reasons);
    kept(answer, out)
}
