// The whole of an input, read into a buffer.
#![tactic(auto)]

ghost use Rattle.std.specs.Prelude.{take};
ghost use Rattle.std.specs.Io.KnownBytes.{Consumes};
ghost use Rattle.input.specs.Whole.{IsPrefixLen, Within, Brings};

use std::io::Read;

// Reads until the bytes are full or the input ends: answers how many bytes came, or `None` where a read failed.
pub fn read_input<R: Read>(reader: &mut R, bytes: &mut [u8]) -> Option<usize>
    ensures within { Within result bytes.new }
    ensures brings { Brings (R.remaining reader.old) (R.remaining reader.new) result bytes.new }
{
    let mut done = 0;
    while done < bytes.len() {
        match reader.read(&mut bytes[done..]) {
            Ok(0) => return Some(done),
            Ok(n) => done += n,
            Err(_) => return None,
        }
    }
    Some(done)
}

// The same, where a read that fails ends the input: answers how many bytes came before.
pub fn read_full<R: Read>(reader: &mut R, bytes: &mut [u8]) -> usize
    ensures within { IsPrefixLen result bytes.new }
    ensures brings { Consumes (R.remaining reader.old) (R.remaining reader.new) (take result bytes.new) }
{
    let mut done = 0;
    while done < bytes.len() {
        match reader.read(&mut bytes[done..]) {
            Ok(0) => return done,
            Ok(n) => done += n,
            Err(_) => return done,
        }
    }
    done
}
