// A LineString made a MultiLineString of one member, so that both are read as one.
ghost use Rattle.std.specs.Prelude.{◌≡◌, ◌+◌, ◌≤◌, length};
ghost use Rattle.wkb.specs.Inside.{PutIn};
ghost use Rattle.clean_bytes.specs.Inside.{Widened};

// Bytes, from the place `at` on.
fn put_bytes(from: &[u8], s: &mut [u8], at: usize)
    requires { at + length from.now ≤ length s.old }
    ensures { PutIn at from.now s.old s.new }
{
    s[at..at + from.len()].copy_from_slice(from);
}

// The bytes of the input, with the head of a MultiLineString of one member before them where they are a LineString. Answers how many they are.
pub(crate) fn widen(bytes: &[u8], s: &mut [u8]) -> usize
    requires { length bytes.now + 9 ≤ length s.old }
    ensures { Widened bytes.now result s.new }
{
    let mut x = [0.0f64; 1024];
    let mut y = [0.0f64; 1024];
    let read = wkb::read_line_string(bytes, &mut x, &mut y);
    match read {
        Ok(_) => {
            put_bytes(b"\x01\x05\x00\x00\x00\x01\x00\x00\x00", s, 0);
            put_bytes(bytes, s, 9);
            9 + bytes.len()
        },
        Err(_) => {
            put_bytes(bytes, s, 0);
            bytes.len()
        },
    }
}
