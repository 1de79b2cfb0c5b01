// The writer of a MultiLineString, little-endian throughout.
ghost use Rattle.std.specs.Prelude.{◌≡◌};
ghost use Rattle.members.specs.Writing.{WrittenAs};

use crate::{bytes, check_fit, check_held};
use refusals::Refusal;

// Writes the members as one MultiLineString, and zero beyond it. The answer is how many bytes it wrote. Refusal 5 leaves zero throughout, and every
// other changes nothing.
pub fn write_multi_line_string(
    x: &[u64],
    y: &[u64],
    lengths: &[u32],
    bytes: &mut [u8],
) -> Result<usize, Refusal>
    ensures { WrittenAs x.now y.now lengths.now bytes.old result bytes.new }
{
    check_held(x.len(), y.len(), lengths)?;
    let members = lengths.len();
    grid::checks::check_count(x.len() - members)?;
    let need = 9 + 9 * members + 16 * x.len();
    let room = check_fit(bytes.len(), need);
    if let Err(r) = room {
        bytes::clear_bytes(bytes, 0);
        return Err(r);
    }
    bytes::put_multi(x, y, lengths, bytes);
    bytes::clear_bytes(bytes, need);
    Ok(need)
}
