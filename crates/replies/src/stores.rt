// Values stored at the start of an `out` that has room for them, and the number that is returned: that of a success or of a refusal.
ghost use Rattle.std.specs.Prelude.{[], ◌∷◌, ◌≤◌, length};
ghost use Rattle.replies.specs.Replies.{success, refusing};
ghost use Rattle.replies.specs.Inside.{Handed};

use refusals::Refusal;

pub(crate) fn refused(why: Refusal, out: &mut [u64]) -> u32
    requires { 1 ≤ length out.old }
    ensures { Handed (refusing why) out.old result out.new }
{
    out[0] = why.value;
    why.number
}

pub(crate) fn one(a: u64, out: &mut [u64]) -> u32
    requires { 1 ≤ length out.old }
    ensures { Handed (success (a ∷ [])) out.old result out.new }
{
    out[0] = a;
    0
}

pub(crate) fn two(a: u64, b: u64, out: &mut [u64]) -> u32
    requires { 2 ≤ length out.old }
    ensures { Handed (success (a ∷ b ∷ [])) out.old result out.new }
{
    out[0] = a;
    out[1] = b;
    0
}

pub(crate) fn three(a: u64, b: u64, c: u64, out: &mut [u64]) -> u32
    requires { 3 ≤ length out.old }
    ensures { Handed (success (a ∷ b ∷ c ∷ [])) out.old result out.new }
{
    out[0] = a;
    out[1] = b;
    out[2] = c;
    0
}

pub(crate) fn six(a: u64, b: u64, c: u64, d: u64, e: u64, f: u64, out: &mut [u64]) -> u32
    requires { 6 ≤ length out.old }
    ensures { Handed (success (a ∷ b ∷ c ∷ d ∷ e ∷ f ∷ [])) out.old result out.new }
{
    out[0] = a;
    out[1] = b;
    out[2] = c;
    out[3] = d;
    out[4] = e;
    out[5] = f;
    0
}

pub(crate) fn eight(
    a: u64,
    b: u64,
    c: u64,
    d: u64,
    e: u64,
    f: u64,
    g: u64,
    h: u64,
    out: &mut [u64],
) -> u32
    requires { 8 ≤ length out.old }
    ensures { Handed (success (a ∷ b ∷ c ∷ d ∷ e ∷ f ∷ g ∷ h ∷ [])) out.old result out.new }
{
    out[0] = a;
    out[1] = b;
    out[2] = c;
    out[3] = d;
    out[4] = e;
    out[5] = f;
    out[6] = g;
    out[7] = h;
    0
}
