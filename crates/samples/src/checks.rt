// The checks of lines of samples: 3, 2, and 15 in the place of 1.
ghost use Rattle.std.specs.Prelude.{◌≡◌};
ghost use Rattle.samples.specs.Samples.{samples, sampled, sample_lengths_check, samples_check, sample_lines_check};

use crate::{Raised, line_at};
use refusals::{Refusal, refuse_unless};

// Whether the four numbers of a line are raised samples.
pub(crate) fn is_sampled(a: Raised) -> bool
    ensures { result ≡ sampled a }
{
    (a.start_x <= 1073741824)
        & ((a.start_y <= 1073741824) & ((a.end_x <= 1073741824) & (a.end_y <= 1073741824)))
}

// The slices have one length.
fn check_lengths(
    start_x: &[i32],
    start_y: &[i32],
    end_x: &[i32],
    end_y: &[i32],
) -> Result<(), Refusal>
    ensures { result ≡ sample_lengths_check (samples start_x.now start_y.now end_x.now end_y.now) }
{
    let n = start_x.len();
    let same = (start_y.len() == n) & ((end_x.len() == n) & (end_y.len() == n));
    refuse_unless(same, 3, 0)
}

// The first line with a number that is no sample. The slices have one length.
fn check_samples(
    start_x: &[i32],
    start_y: &[i32],
    end_x: &[i32],
    end_y: &[i32],
) -> Result<(), Refusal>
    ensures { result ≡ samples_check (samples start_x.now start_y.now end_x.now end_y.now) }
{
    for i in 0..start_x.len() {
        if !is_sampled(line_at(start_x, start_y, end_x, end_y, i)) {
            return Err(Refusal {
                number: 15,
                value: i as u64,
            });
        }
    }
    Ok(())
}

// What a call that is lent lines of samples checks first: 3, 2, 15.
pub fn check_sample_lines(
    start_x: &[i32],
    start_y: &[i32],
    end_x: &[i32],
    end_y: &[i32],
) -> Result<(), Refusal>
    ensures { result ≡ sample_lines_check (samples start_x.now start_y.now end_x.now end_y.now) }
{
    check_lengths(start_x, start_y, end_x, end_y)?;
    grid::checks::check_count(start_x.len())?;
    check_samples(start_x, start_y, end_x, end_y)
}
