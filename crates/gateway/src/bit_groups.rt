// Bits with an octet each, of which the lowest bit counts, as numbers that have the first one lowest.
ghost use Rattle.std.specs.Prelude.{◌≡◌, ◌+◌, ◌<◌, ◌≤◌, ◌++◌, length};
ghost use Rattle.frame_check.specs.Bits.{low_bits, octet_bits};
ghost use Rattle.gateway.specs.Given.{heard};

/// The number of four bits from this place on.
pub(crate) fn four_at(bits: &[u8], at: usize) -> u8
    requires { at + 4 ≤ length bits.now }
    ensures bits { heard (at + 4) bits.now ≡ heard at bits.now ++ low_bits 4 result }
    ensures bound { result < 16 }
{
    bits[at] % 2 + 2 * (bits[at + 1] % 2) + 4 * (bits[at + 2] % 2) + 8 * (bits[at + 3] % 2)
}

/// The number of two bits from this place on.
pub(crate) fn two_at(bits: &[u8], at: usize) -> u8
    requires { at + 2 ≤ length bits.now }
    ensures bits { heard (at + 2) bits.now ≡ heard at bits.now ++ low_bits 2 result }
    ensures bound { result < 4 }
{
    bits[at] % 2 + 2 * (bits[at + 1] % 2)
}

/// The octet of eight bits from this place on.
pub(crate) fn octet_at(bits: &[u8], at: usize) -> u8
    requires { at + 8 ≤ length bits.now }
    ensures { heard (at + 8) bits.now ≡ heard at bits.now ++ octet_bits result }
{
    four_at(bits, at) + 16 * four_at(bits, at + 4)
}
