// Values stored at the start of an `out` that has room for them, and the number that is returned.
ghost use Rattle.std.specs.Prelude.{[], ◌∷◌, ◌≤◌, length};
ghost use Rattle.replies.specs.Replies.{success, refusing};
ghost use Rattle.replies.specs.Inside.{Handed};
ghost use Rattle.capi_resume.specs.Answers.{of_start, of_next};

use refusals::Refusal;
use resume::{Cursor, Went};

fn refused(why: Refusal, out: &mut [u64]) -> u32
    requires { 1 ≤ length out.old }
    ensures { Handed (refusing why) out.old result out.new }
{
    out[0] = why.value;
    why.number
}

fn three(a: u64, b: u64, c: u64, out: &mut [u64]) -> u32
    requires { 3 ≤ length out.old }
    ensures { Handed (success (a ∷ b ∷ c ∷ [])) out.old result out.new }
{
    out[0] = a;
    out[1] = b;
    out[2] = c;
    0
}

fn five(a: u64, b: u64, c: u64, d: u64, e: u64, out: &mut [u64]) -> u32
    requires { 5 ≤ length out.old }
    ensures { Handed (success (a ∷ b ∷ c ∷ d ∷ e ∷ [])) out.old result out.new }
{
    out[0] = a;
    out[1] = b;
    out[2] = c;
    out[3] = d;
    out[4] = e;
    0
}

pub(crate) fn started(answer: Result<Cursor, Refusal>, out: &mut [u64]) -> u32
    requires { 3 ≤ length out.old }
    ensures { Handed (of_start answer) out.old result out.new }
{
    match answer {
        Ok(c) => three(c.place as u64, c.i as u64, c.j as u64, out),
        Err(r) => refused(r, out),
    }
}

pub(crate) fn went(answer: Result<Went, Refusal>, out: &mut [u64]) -> u32
    requires { 5 ≤ length out.old }
    ensures { Handed (of_next answer) out.old result out.new }
{
    match answer {
        Ok(w) => five(
            w.tests,
            w.overlaps,
            w.cursor.place as u64,
            w.cursor.i as u64,
            w.cursor.j as u64,
            out,
        ),
        Err(r) => refused(r, out),
    }
}
