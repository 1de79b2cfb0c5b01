// What stands in the words of a question: numbers first, and then slices, each by the number of its entries and the entries. What a question
// does not have is read as 0, and a slice ends at the latest where the question does.
ghost use Rattle.std.specs.Prelude.{◌≡◌, map, ◌≤◌, length, get_or};
ghost use Rattle.records.specs.Questions.{float_by, short_by, short_at, float_at, slice_end, slice_place, words_in, beside_slice, first_words};

use numbers::bits::from_bits;
use slices::least;

// The number at a place.
pub fn number(q: &[u64], at: usize) -> u64
    ensures { result ≡ get_or q.now at 0 }
{
    if at < q.len() {
        return q[at];
    }
    0
}

pub fn short(q: &[u64], at: usize) -> u32
    ensures { result ≡ short_at q.now at }
{
    (number(q, at) % 4294967296) as u32
}

pub fn float(q: &[u64], at: usize) -> f64
    ensures { result ≡ float_at q.now at }
{
    from_bits(number(q, at))
}

// How many entries of a slice are lent.
pub fn lent(q: &[u64], at: usize) -> usize
    ensures { result ≡ get_or q.now at 0 }
{
    number(q, at) as usize
}

// The words of a question, as floats and as numbers of 32 bits, and 0 beyond the last: slices of these are parts of them.
pub fn all_floats(q: &[u64]) -> [f64; 16384]
    ensures { result ≡ map float_by (first_words 16384 q.now) }
{
    let mut out = [0.0; 16384];
    for i in 0..16384 {
        out[i] = float(q, i);
    }
    out
}

pub fn all_shorts(q: &[u64]) -> [u32; 16384]
    ensures { result ≡ map short_by (first_words 16384 q.now) }
{
    let mut out = [0; 16384];
    for i in 0..16384 {
        out[i] = short(q, i);
    }
    out
}

// Where the slice at a place ends.
fn end(q: &[u64], at: usize) -> usize
    ensures { (result ≡ slice_end q.now at) × (result ≤ length q.now) }
{
    if q.len() <= at {
        return q.len();
    }
    let n = q[at] as usize;
    let room = q.len() - at - 1;
    if room < n {
        return q.len();
    }
    at + 1 + n
}

// Where slice k is, from 0 on, in a question with so many numbers.
fn place(q: &[u64], numbers: usize, k: usize) -> usize
    ensures { result ≡ slice_place q.now numbers k }
{
    let mut at = numbers;
    for _i in 0..k {
        at = end(q, at);
    }
    at
}

// The entries of slice k: words; and floats and numbers of 32 bits, where all words stand as such beside the question.
pub fn words(q: &[u64], numbers: usize, k: usize) -> &[u64]
    ensures { result.now ≡ words_in q.now numbers k }
{
    let at = place(q, numbers, k);
    let to = end(q, at);
    if at < to {
        return &q[at + 1..to];
    }
    &q[..0]
}

pub fn floats<'a>(q: &[u64], numbers: usize, k: usize, all: &'a [f64]) -> &'a [f64]
    ensures { result.now ≡ beside_slice q.now numbers k all.now }
{
    let at = place(q, numbers, k);
    let to = least(end(q, at), all.len());
    if at < to {
        return &all[at + 1..to];
    }
    &all[..0]
}

pub fn shorts<'a>(q: &[u64], numbers: usize, k: usize, all: &'a [u32]) -> &'a [u32]
    ensures { result.now ≡ beside_slice q.now numbers k all.now }
{
    let at = place(q, numbers, k);
    let to = least(end(q, at), all.len());
    if at < to {
        return &all[at + 1..to];
    }
    &all[..0]
}
