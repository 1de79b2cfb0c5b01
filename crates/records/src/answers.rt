// Words, written as far as there is room for them. Each function answers how many words there are by then, those that have no room too, so that
// an answer that is longer than the recorded one is not cut to it; 2^64 - 1 where there are more.
ghost use Rattle.std.specs.Prelude.{◌≡◌, [], ◌∷◌, ◌≤◌, length, take};
ghost use Rattle.records.specs.Answers.{PutWords, listed_of, lent_words};

const MOST: usize = 18446744073709551615;

pub fn word(out: &mut [u64], at: usize, v: u64) -> usize
    ensures { PutWords at (v ∷ []) out.old result out.new }
{
    if at < out.len() {
        out[at] = v;
        return at + 1;
    }
    if at == MOST {
        return MOST;
    }
    at + 1
}

pub fn words(out: &mut [u64], at: usize, s: &[u64]) -> usize
    ensures { PutWords at s.now out.old result out.new }
{
    let mut to = at;
    for &value in s {
        to = word(out, to, value);
    }
    to
}

// How an answer begins: the number that is returned, and the words of `out`.
pub fn reply(answer: &mut [u64], number: u32, out: &[u64]) -> usize
    ensures { PutWords 0 (number ∷ out.now) answer.old result answer.new }
{
    let to = word(answer, 0, number as u64);
    words(answer, to, out)
}

// How many entries a slice has up to the last that is not zero.
fn listed(s: &[u32]) -> usize
    ensures { (take result s.now ≡ listed_of s.now) × (result ≤ length s.now) }
{
    for i in (0..s.len()).rev() {
        if s[i] != 0 {
            return i + 1;
        }
    }
    0
}

// A slice that was lent: the number of its entries up to the last that is not zero, and those entries.
pub fn written(answer: &mut [u64], at: usize, s: &[u32]) -> usize
    ensures { PutWords at (lent_words s.now) answer.old result answer.new }
{
    let n = listed(s);
    let mut to = word(answer, at, n as u64);
    for &value in &s[..n] {
        to = word(answer, to, value as u64);
    }
    to
}
