// Kinds 2 and 3: the walk of a segment, and a build.
ghost use Rattle.std.specs.Prelude.{◌≡◌, map, ◌≤◌, length};
ghost use Rattle.grid.specs.Domain.{lines};
ghost use Rattle.records.specs.Questions.{float_by, short_at, float_at, words_in, floats_in, first_words};
ghost use Rattle.asked.specs.Asked.{WordsAnswered, WalkedWith, WalkAnswer, BuiltWith, BuildAnswer};

use records::{answers, questions};

// Records are of the Rust's walk.
const RUST: u32 = 0;

// A walk in lent scratch.
fn walked(q: &[u64], scratch: &mut [u32], answer: &mut [u64]) -> usize
    ensures { let q₀ = q.now in
        WordsAnswered (WalkedWith (float_at q₀ 0) (float_at q₀ 1) (float_at q₀ 2) (float_at q₀ 3) (words_in q₀ 5 0) scratch.old) answer.old result answer.new }
{
    let mut out = [0u64; 1];
    let number = capi::walking::mt_segment_cells(
        questions::words(q, 5, 0),
        questions::float(q, 0),
        questions::float(q, 1),
        questions::float(q, 2),
        questions::float(q, 3),
        RUST,
        scratch,
        &mut out,
    );
    let to = answers::reply(answer, number, &out);
    answers::written(answer, to, scratch)
}

pub(crate) fn walk(q: &[u64], answer: &mut [u64]) -> usize
    ensures { WordsAnswered (WalkAnswer q.now) answer.old result answer.new }
{
    let lent = questions::lent(q, 4);
    if 16384 < lent {
        return 0;
    }
    let mut scratch = [0u32; 16384];
    walked(q, &mut scratch[..lent], answer)
}

// A build in lent slices. All words of the question are at hand as floats.
fn built(
    q: &[u64],
    floats: &[f64],
    offsets: &mut [u32],
    items: &mut [u32],
    globals: &mut [u32],
    scratch: &mut [u32],
    answer: &mut [u64],
) -> usize
    requires { (length q.now ≤ 16384) × (floats.now ≡ map float_by (first_words 16384 q.now)) }
    ensures { let q₀ = q.now in
        let ls = lines (floats_in q₀ 5 0) (floats_in q₀ 5 1) (floats_in q₀ 5 2) (floats_in q₀ 5 3) in
        WordsAnswered (BuiltWith (short_at q₀ 0) ls offsets.old items.old globals.old scratch.old) answer.old result answer.new }
{
    let mut out = [0u64; 8];
    let number = capi::building::mt_build(
        questions::floats(q, 5, 0, floats),
        questions::floats(q, 5, 1, floats),
        questions::floats(q, 5, 2, floats),
        questions::floats(q, 5, 3, floats),
        questions::short(q, 0),
        RUST,
        offsets,
        items,
        globals,
        scratch,
        &mut out,
    );
    let replied = answers::reply(answer, number, &out);
    let offsets_to = answers::written(answer, replied, offsets);
    let items_to = answers::written(answer, offsets_to, items);
    let globals_to = answers::written(answer, items_to, globals);
    answers::written(answer, globals_to, scratch)
}

pub(crate) fn build(q: &[u64], answer: &mut [u64]) -> usize
    requires { length q.now ≤ 16384 }
    ensures { WordsAnswered (BuildAnswer q.now) answer.old result answer.new }
{
    let offsets_lent = questions::lent(q, 1);
    if 4096 < offsets_lent {
        return 0;
    }
    let items_lent = questions::lent(q, 2);
    if 8192 < items_lent {
        return 0;
    }
    let globals_lent = questions::lent(q, 3);
    if 64 < globals_lent {
        return 0;
    }
    let scratch_lent = questions::lent(q, 4);
    if 16384 < scratch_lent {
        return 0;
    }
    let floats = questions::all_floats(q);
    let mut offsets = [0u32; 4096];
    let mut items = [0u32; 8192];
    let mut globals = [0u32; 64];
    let mut scratch = [0u32; 16384];
    built(
        q,
        &floats,
        &mut offsets[..offsets_lent],
        &mut items[..items_lent],
        &mut globals[..globals_lent],
        &mut scratch[..scratch_lent],
        answer,
    )
}
