// Values stored at the start of an `out` that has room for them, and the number that is returned.
ghost use Rattle.std.specs.Prelude.{[], ◌∷◌, ◌≤◌, length};
ghost use Rattle.replies.specs.Replies.{success, refusing};
ghost use Rattle.replies.specs.Inside.{Handed};
ghost use Rattle.capi_pairs.specs.Answers.{of_cost, of_by_line, of_once};

use cost::Cost;
use refusals::Refusal;

fn refused(why: Refusal, out: &mut [u64]) -> u32
    requires { 1 ≤ length out.old }
    ensures { Handed (refusing why) out.old result out.new }
{
    out[0] = why.value;
    why.number
}

fn one(a: u64, out: &mut [u64]) -> u32
    requires { 1 ≤ length out.old }
    ensures { Handed (success (a ∷ [])) out.old result out.new }
{
    out[0] = a;
    0
}

fn two(a: u64, b: u64, out: &mut [u64]) -> u32
    requires { 2 ≤ length out.old }
    ensures { Handed (success (a ∷ b ∷ [])) out.old result out.new }
{
    out[0] = a;
    out[1] = b;
    0
}

pub(crate) fn cost(answer: Result<Cost, Refusal>, out: &mut [u64]) -> u32
    requires { 2 ≤ length out.old }
    ensures { Handed (of_cost answer) out.old result out.new }
{
    match answer {
        Ok(c) => two(c.tests, c.longest, out),
        Err(r) => refused(r, out),
    }
}

pub(crate) fn by_line(answer: Result<u64, Refusal>, out: &mut [u64]) -> u32
    requires { 1 ≤ length out.old }
    ensures { Handed (of_by_line answer) out.old result out.new }
{
    match answer {
        Ok(n) => one(n, out),
        Err(r) => refused(r, out),
    }
}

pub(crate) fn pairs_once(answer: Result<u64, Refusal>, out: &mut [u64]) -> u32
    requires { 1 ≤ length out.old }
    ensures { Handed (of_once answer) out.old result out.new }
{
    match answer {
        Ok(n) => one(n, out),
        Err(r) => refused(r, out),
    }
}
