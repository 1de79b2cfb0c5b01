// Snapping of a point, and whether the two strategies agree.
ghost use Rattle.snap.specs.Snap.{snap_answer};
ghost use Rattle.snap.specs.Strategies.{agreement_answer};
ghost use Rattle.replies.specs.Replies.{Replies};
ghost use Rattle.replies.specs.Answers.{of_snap, of_agreement};

// Out: the bits of x and y.
#[unsafe(no_mangle)]
pub extern "C" fn mt_snap(x: f64, y: f64, size: f64, strategy: u32, out: &mut [u64]) -> u32
    ensures { Replies 2 (of_snap (snap_answer x y size strategy)) out.old result out.new }
{
    capi::snapping::mt_snap(x, y, size, strategy, out)
}

// Out: 1 where Grid and GeosCompat give the coordinate the same bits, else 0.
#[unsafe(no_mangle)]
pub extern "C" fn mt_strategies_agree(v: f64, size: f64, out: &mut [u64]) -> u32
    ensures { Replies 1 (of_agreement (agreement_answer v size)) out.old result out.new }
{
    capi::snapping::mt_strategies_agree(v, size, out)
}
