// Kinds 6 to 10: ownership and snapping of one point.
ghost use Rattle.records.specs.Answers.{PutWords};
ghost use Rattle.asked_points.specs.Asked.{point_owned_words, overlap_owned_words, owner_words, snap_words, strategies_words};

use records::{answers, questions};

pub(crate) fn point_owned(q: &[u64], answer: &mut [u64]) -> usize
    ensures { PutWords 0 (point_owned_words q.now) answer.old result answer.new }
{
    let mut out = [0u64; 1];
    let number = capi::ownership::mt_point_owned(
        questions::words(q, 4, 0),
        questions::short(q, 0),
        questions::short(q, 1),
        questions::float(q, 2),
        questions::float(q, 3),
        &mut out,
    );
    answers::reply(answer, number, &out)
}

pub(crate) fn overlap_owned(q: &[u64], answer: &mut [u64]) -> usize
    ensures { PutWords 0 (overlap_owned_words q.now) answer.old result answer.new }
{
    let mut out = [0u64; 1];
    let number = capi::ownership::mt_overlap_owned(
        questions::words(q, 6, 0),
        questions::short(q, 0),
        questions::short(q, 1),
        questions::float(q, 2),
        questions::float(q, 3),
        questions::float(q, 4),
        questions::short(q, 5),
        &mut out,
    );
    answers::reply(answer, number, &out)
}

pub(crate) fn owner(q: &[u64], answer: &mut [u64]) -> usize
    ensures { PutWords 0 (owner_words q.now) answer.old result answer.new }
{
    let mut out = [0u64; 3];
    let number = capi::ownership::mt_owner(
        questions::words(q, 2, 0),
        questions::float(q, 0),
        questions::float(q, 1),
        &mut out,
    );
    answers::reply(answer, number, &out)
}

pub(crate) fn snap(q: &[u64], answer: &mut [u64]) -> usize
    ensures { PutWords 0 (snap_words q.now) answer.old result answer.new }
{
    let mut out = [0u64; 2];
    let number = capi::snapping::mt_snap(
        questions::float(q, 0),
        questions::float(q, 1),
        questions::float(q, 2),
        questions::short(q, 3),
        &mut out,
    );
    answers::reply(answer, number, &out)
}

pub(crate) fn strategies(q: &[u64], answer: &mut [u64]) -> usize
    ensures { PutWords 0 (strategies_words q.now) answer.old result answer.new }
{
    let mut out = [0u64; 1];
    let number = capi::snapping::mt_strategies_agree(
        questions::float(q, 0),
        questions::float(q, 1),
        &mut out,
    );
    answers::reply(answer, number, &out)
}
