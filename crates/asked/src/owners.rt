// Kind 11: the owners of many points.
ghost use Rattle.std.specs.Prelude.{◌≡◌, map, ◌≤◌, length};
ghost use Rattle.records.specs.Questions.{float_by, words_in, floats_in, first_words};
ghost use Rattle.asked.specs.Asked.{WordsAnswered, OwnersWith, OwnersAnswer};

use records::{answers, questions};

// The owners, in lent answers. All words of the question are at hand as floats.
fn told(q: &[u64], floats: &[f64], owners: &mut [u32], answer: &mut [u64]) -> usize
    requires { (length q.now ≤ 16384) × (floats.now ≡ map float_by (first_words 16384 q.now)) }
    ensures { let q₀ = q.now in
        WordsAnswered (OwnersWith (words_in q₀ 1 0) (floats_in q₀ 1 1) (floats_in q₀ 1 2) owners.old) answer.old result answer.new }
{
    let mut out = [0u64; 1];
    let number = capi::ownership::mt_owners(
        questions::words(q, 1, 0),
        questions::floats(q, 1, 1, floats),
        questions::floats(q, 1, 2, floats),
        owners,
        &mut out,
    );
    let to = answers::reply(answer, number, &out);
    answers::written(answer, to, owners)
}

pub(crate) fn owners(q: &[u64], answer: &mut [u64]) -> usize
    requires { length q.now ≤ 16384 }
    ensures { WordsAnswered (OwnersAnswer q.now) answer.old result answer.new }
{
    let lent = questions::lent(q, 0);
    if 4096 < lent {
        return 0;
    }
    let floats = questions::all_floats(q);
    let mut lent_owners = [0u32; 4096];
    told(q, &floats, &mut lent_owners[..lent], answer)
}
