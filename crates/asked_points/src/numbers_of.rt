// Kind 1: the number functions.
ghost use Rattle.std.specs.Prelude.{◌≡◌};
ghost use Rattle.records.specs.Answers.{PutWords};
ghost use Rattle.asked_points.specs.Asked.{number_by, number_words};

use numbers::bits::{from_bits, to_bits};
use records::{answers, questions};

// What a function from 1 to 8 answers, as 64 bits: the bit pattern of a float, or a whole number.
fn number_of(function: u64, v: f64, other: u64) -> u64
    ensures { result ≡ number_by function v other }
{
    if function == 1 {
        return to_bits(capi::number::mt_least(v, from_bits(other)));
    }
    if function == 2 {
        return to_bits(capi::number::mt_greatest(v, from_bits(other)));
    }
    if function == 3 {
        return to_bits(capi::number::mt_magnitude(v));
    }
    if function == 4 {
        return to_bits(capi::number::mt_floor(v));
    }
    if function == 5 {
        return capi::number::mt_clamped_floor(v, (other % 4294967296) as u32) as u64;
    }
    if function == 6 {
        return capi::number::mt_ceiling(v);
    }
    if function == 7 {
        return to_bits(capi::number::mt_round_half_away(v));
    }
    to_bits(capi::number::mt_square_root(v))
}

pub(crate) fn number(q: &[u64], answer: &mut [u64]) -> usize
    ensures { PutWords 0 (number_words q.now) answer.old result answer.new }
{
    let function = questions::number(q, 0);
    if function < 1 {
        return 0;
    }
    if 8 < function {
        return 0;
    }
    let found = number_of(function, questions::float(q, 1), questions::number(q, 2));
    answers::word(answer, 0, found)
}
