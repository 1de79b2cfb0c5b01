// The questions of recorded answers about numbers and single points, asked of the exported functions.
#![tactic(auto)]

mod numbers_of;
mod points;

ghost use Rattle.records.specs.Answers.{PutWords};
ghost use Rattle.asked_points.specs.Asked.{words_for};

// Asks the exported function of a kind, and writes the words of its answer; answers how many there are, 0 where the kind is none of these.
pub fn ask(kind: u64, question: &[u64], answer: &mut [u64]) -> usize
    ensures { PutWords 0 (words_for kind question.now) answer.old result answer.new }
{
    if kind == 1 {
        return numbers_of::number(question, answer);
    }
    if kind == 6 {
        return points::point_owned(question, answer);
    }
    if kind == 7 {
        return points::overlap_owned(question, answer);
    }
    if kind == 8 {
        return points::owner(question, answer);
    }
    if kind == 9 {
        return points::snap(question, answer);
    }
    if kind == 10 {
        return points::strategies(question, answer);
    }
    0
}
