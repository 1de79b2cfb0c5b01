// The answers of the entries in numbers: 0 and the words of the result, or the number of a refusal and its value.
ghost use Rattle.std.specs.Prelude.{◌≤◌, [], ◌∷◌, length};
ghost use Rattle.replies.specs.Replies.{success, Replies};
ghost use Rattle.capi_members.specs.Answers.{of_multi_read, of_written, of_lined};

use refusals::Refusal;
use wkb::MultiRead;

// One number.
fn count(n: usize, out: &mut [u64]) -> u32
    requires { 1 ≤ length out.old }
    ensures { Replies 1 (success (n ∷ [])) out.old result out.new }
{
    out[0] = n as u64;
    0
}

// Two numbers.
fn counts(m: usize, n: usize, out: &mut [u64]) -> u32
    requires { 2 ≤ length out.old }
    ensures { Replies 2 (success (m ∷ n ∷ [])) out.old result out.new }
{
    out[0] = m as u64;
    out[1] = n as u64;
    0
}

// The number of points and the number of members.
pub(crate) fn multi_read(answer: Result<MultiRead, Refusal>, out: &mut [u64]) -> u32
    requires { 2 ≤ length out.old }
    ensures { Replies 2 (of_multi_read answer) out.old result out.new }
{
    match answer {
        Ok(MultiRead { points, members }) => counts(points, members, out),
        Err(r) => replies::checked(Err(r), out),
    }
}

// The number of bytes.
pub(crate) fn written(answer: Result<usize, Refusal>, out: &mut [u64]) -> u32
    requires { 1 ≤ length out.old }
    ensures { Replies 1 (of_written answer) out.old result out.new }
{
    match answer {
        Ok(n) => count(n, out),
        Err(r) => replies::checked(Err(r), out),
    }
}

// The number of lines.
pub(crate) fn lined(answer: Result<usize, Refusal>, out: &mut [u64]) -> u32
    requires { 1 ≤ length out.old }
    ensures { Replies 1 (of_lined answer) out.old result out.new }
{
    match answer {
        Ok(n) => count(n, out),
        Err(r) => replies::checked(Err(r), out),
    }
}
