// The questions of recorded answers, asked of the exported functions: those that have slices here, the others by `asked_points`.
#![tactic(auto)]

mod lines;
mod owners;
mod visits;

ghost use Rattle.asked.specs.Asked.{WordsAnswered, AnswersFor};

// Asks the exported function of a kind, and writes the words of its answer; answers how many there are, 0 where there is no such kind, or no room for
// the question or for what is lent.
pub fn ask(kind: u64, question: &[u64], answer: &mut [u64]) -> usize
    ensures { WordsAnswered (AnswersFor kind question.now) answer.old result answer.new }
{
    if 16384 < question.len() {
        return 0;
    }
    if kind == 2 {
        return lines::walk(question, answer);
    }
    if kind == 3 {
        return lines::build(question, answer);
    }
    if kind == 4 {
        return visits::batch(question, answer);
    }
    if kind == 5 {
        return visits::test(question, answer);
    }
    if kind == 11 {
        return owners::owners(question, answer);
    }
    asked_points::ask(kind, question, answer)
}
