// The characters of the patterns, as the latest bits of a stream.
ghost use Rattle.std.specs.Prelude.{◌≡◌, ◌<◌};
ghost use Rattle.std.specs.Prelude.{reverse};
ghost use Rattle.frame_check.specs.Bits.{low_bits};
ghost use Rattle.detection.specs.Patterns.{first, second};

use crate::Seen;

/// The first character of a pattern, its last bit lowest.
pub(crate) fn first(seen: Seen) -> u128
    ensures bits { low_bits 9 result ≡ reverse (first seen) }
    ensures start { result < 256 }
{
    match seen {
        Seen::Odp => 0b0_1000_1000,
        Seen::Adp => 0b0_1010_0010,
    }
}

/// The second one.
pub(crate) fn second(seen: Seen) -> u128
    ensures bits { low_bits 9 result ≡ reverse (second seen) }
    ensures start { result < 256 }
{
    match seen {
        Seen::Odp => 0b0_1000_1001,
        Seen::Adp => 0b0_1100_0010,
    }
}
