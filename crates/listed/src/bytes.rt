// Answers as bytes.
ghost use Rattle.std.specs.Prelude.{◌≡◌};
ghost use Rattle.listed.specs.Bytes.{byte_of};

pub fn byte_of(b: bool) -> u8
    ensures { result ≡ byte_of b }
{
    if b {
        return 1;
    }
    0
}
