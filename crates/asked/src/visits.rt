// Kinds 4 and 5: a batch of tests, and one test by its bookmark, on tables that stand in the question.
ghost use Rattle.std.specs.Prelude.{◌≡◌, map, ◌≤◌, length, get_or, drop};
ghost use Rattle.records.specs.Questions.{float_by, short_by, first_words};
ghost use Rattle.records.specs.Answers.{PutWords};
ghost use Rattle.asked.specs.Asked.{WordsAnswered, read_tables, BatchedWith, BatchAnswer, test_words};

use records::{answers, questions};

// A batch in lent outputs. All words of the question are at hand as floats, and as numbers of 32 bits.
fn batched(
    q: &[u64],
    floats: &[f64],
    shorts: &[u32],
    first: &mut [u32],
    second: &mut [u32],
    answer: &mut [u64],
) -> usize
    requires { (length q.now ≤ 16384) × (floats.now ≡ map float_by (first_words 16384 q.now)) × (shorts.now ≡ map short_by (first_words 16384 q.now)) }
    ensures { let q₀ = q.now in
        WordsAnswered (read_tables (get_or q₀ 0 0) (drop 4 q₀) (λ w ls t. BatchedWith w ls t (get_or q₀ 1 0) first.old second.old)) answer.old result answer.new }
{
    let mut out = [0u64; 3];
    let number = capi::visiting::mt_batch(
        questions::words(q, 4, 0),
        questions::floats(q, 4, 1, floats),
        questions::floats(q, 4, 2, floats),
        questions::floats(q, 4, 3, floats),
        questions::floats(q, 4, 4, floats),
        questions::shorts(q, 4, 5, shorts),
        questions::shorts(q, 4, 6, shorts),
        questions::shorts(q, 4, 7, shorts),
        questions::number(q, 0),
        questions::number(q, 1),
        first,
        second,
        &mut out,
    );
    let replied = answers::reply(answer, number, &out);
    let first_to = answers::written(answer, replied, first);
    answers::written(answer, first_to, second)
}

pub(crate) fn batch(q: &[u64], answer: &mut [u64]) -> usize
    requires { length q.now ≤ 16384 }
    ensures { WordsAnswered (BatchAnswer q.now) answer.old result answer.new }
{
    let first_lent = questions::lent(q, 2);
    if 4096 < first_lent {
        return 0;
    }
    let second_lent = questions::lent(q, 3);
    if 4096 < second_lent {
        return 0;
    }
    let floats = questions::all_floats(q);
    let shorts = questions::all_shorts(q);
    let mut first = [0u32; 4096];
    let mut second = [0u32; 4096];
    batched(
        q,
        &floats,
        &shorts,
        &mut first[..first_lent],
        &mut second[..second_lent],
        answer,
    )
}

// One test, with the question's words at hand in the same way.
fn tested(q: &[u64], floats: &[f64], shorts: &[u32], answer: &mut [u64]) -> usize
    requires { (length q.now ≤ 16384) × (floats.now ≡ map float_by (first_words 16384 q.now)) × (shorts.now ≡ map short_by (first_words 16384 q.now)) }
    ensures { PutWords 0 (test_words q.now) answer.old result answer.new }
{
    let mut out = [0u64; 6];
    let number = capi::visiting::mt_test_at(
        questions::words(q, 2, 0),
        questions::floats(q, 2, 1, floats),
        questions::floats(q, 2, 2, floats),
        questions::floats(q, 2, 3, floats),
        questions::floats(q, 2, 4, floats),
        questions::shorts(q, 2, 5, shorts),
        questions::shorts(q, 2, 6, shorts),
        questions::shorts(q, 2, 7, shorts),
        questions::number(q, 0),
        questions::number(q, 1),
        &mut out,
    );
    answers::reply(answer, number, &out)
}

pub(crate) fn test(q: &[u64], answer: &mut [u64]) -> usize
    requires { length q.now ≤ 16384 }
    ensures { PutWords 0 (test_words q.now) answer.old result answer.new }
{
    let floats = questions::all_floats(q);
    let shorts = questions::all_shorts(q);
    tested(q, &floats, &shorts, answer)
}
