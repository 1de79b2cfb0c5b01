// The records of a file whose recorded answers are the exported functions' own, by their kind.
#![tactic(auto)]

ghost use Rattle.std.specs.Prelude.{◌≡◌, cond, ◌≤◌, length};
ghost use Rattle.records.specs.Files.{records_of};
ghost use Rattle.agreed.specs.Agreed.{Agrees, Tallied, AgreeTo};
ghost use Rattle.agreed.specs.Inside.{Tells};

use records::{files, words};

// How many records agree, and how many words they have.
#[derive(Clone, Copy)]
pub struct Tally {
    pub records: usize,
    pub words: usize,
}

// Whether a record is of the kind that is wanted, and its words are those that are answered. The function that asks is handed no recorded answer.
fn counts(wanted: u64, kind: u64, question: &[u64], answer: &[u64], room: &mut [u64]) -> bool
    requires { length room.old ≡ 32768 }
    ensures { Tells result ((kind ≡ wanted) × Agrees (record { kind = kind; question = question.now; answer = answer.now })) × (length room.new ≡ 32768) }
{
    if kind != wanted {
        return false;
    }
    let n = asked::ask(kind, question, room);
    if n == 0 {
        return false;
    }
    if n != answer.len() {
        return false;
    }
    words::same_to(answer, room) == n
}

fn if_so(b: bool, n: usize) -> usize
    ensures { result ≡ cond b n 0 }
{
    if b {
        return n;
    }
    0
}

// The records of a kind that agree, of those that stand whole in w, from the first on.
pub fn agreeing(w: &[u64], wanted: u64) -> Tally
    ensures { Tallied wanted w.now result × (result.words ≤ length w.now) }
{
    let mut room = [0u64; 32768];
    let mut records = 0;
    let mut words = 0;
    let mut at = 0;
    while at < w.len() {
        let size = files::size_at(w, at);
        if size == 0 {
            return Tally { records, words };
        }
        let from = at + 3;
        let mid = from + w[at + 1] as usize;
        let to = at + size;
        let counted = counts(wanted, w[at], &w[from..mid], &w[mid..to], &mut room);
        records += if_so(counted, 1);
        words += if_so(counted, size);
        at = to;
    }
    Tally { records, words }
}

// Where the first record begins that does not agree, of those that stand whole in w, from the first on; where they end, if all agree.
pub fn agree_to(w: &[u64]) -> usize
    ensures { AgreeTo (records_of w.now) result }
{
    let mut room = [0u64; 32768];
    let mut at = 0;
    while at < w.len() {
        let size = files::size_at(w, at);
        if size == 0 {
            return at;
        }
        let from = at + 3;
        let mid = from + w[at + 1] as usize;
        let to = at + size;
        if !counts(w[at], w[at], &w[from..mid], &w[mid..to], &mut room) {
            return at;
        }
        at = to;
    }
    at
}
