// The cleaning of chains.
ghost use Rattle.clean.specs.Calls.{outputs};
ghost use Rattle.capi_clean.specs.Lent.{CleanReplies};

// Out: the number of points and the number of pieces that are kept.
#[unsafe(no_mangle)]
pub extern "C" fn mt_clean(
    x: &[u64],
    y: &[u64],
    lengths: &[u32],
    kept_x: &mut [u64],
    kept_y: &mut [u64],
    kept_lengths: &mut [u32],
    reasons: &mut [u32],
    out: &mut [u64],
) -> u32
    ensures { let l = lengths.now in
        let o = outputs kept_x.old kept_y.old kept_lengths.old reasons.old in
        let o' = outputs kept_x.new kept_y.new kept_lengths.new reasons.new in
        CleanReplies x.now y.now l o out.old result o' out.new }
{
    capi_clean::mt_clean(x, y, lengths, kept_x, kept_y, kept_lengths, reasons, out)
}
