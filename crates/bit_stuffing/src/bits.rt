// Bits that are gathered to a number, the low one first.
ghost use Rattle.std.specs.Prelude.{◌≡◌, ◌+◌, ◌*◌, ◌/◌, ◌<◌, ◌^◌, [], ◌∷◌, ◌++◌};
ghost use Rattle.frame_check.specs.Bits.{low_bits};

/// A number of so many bits with one more bit above them.
pub(crate) fn with_bit(part: u8, held: u8, bit: bool) -> u8
    requires held { held < 8 }
    requires part { part < 2 ^ held }
    ensures bits { low_bits (held + 1) result ≡ low_bits held part ++ bit ∷ [] }
    ensures small { result < 2 ^ (held + 1) }
{
    part + (u8::from(bit) << held)
}

/// The low bits of a part, so many, and those of an octet, or four, above them.
pub(crate) fn joined(part: u8, held: u8, more: u8) -> u16
    requires held { held < 8 }
    requires part { part < 2 ^ held }
    ensures value { result ≡ part + more * 2 ^ held }
    ensures bound { result / 256 < 2 ^ held }
{
    u16::from(part) + (u16::from(more) << held)
}
