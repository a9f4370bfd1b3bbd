// Bits become octets.
ghost use Rattle.std.specs.Prelude.{◌≡◌, ◌<◌, ◌≤◌, ◌+◌, ◌*◌, ◌^◌, ◌++◌, [], ℕ, Bool, List, length, option_to_list};
ghost use Rattle.frame_check.specs.Bits.{low_bits};
ghost use Rattle.signal_commands.specs.Decoding.Octets.{AreFew, bits_in, OctetsJoined};

use std::marker::Model;

/// Some bits in order.
#[derive(Clone, Copy)]
pub(crate) struct Bits {
    /// How many they are.
    pub count: u8,
    /// The number whose low bits they are, the first one lowest.
    pub number: u8,
}

/// The number of some bits with others above them.
fn joined(low: Bits, high: Bits) -> u16
    requires count { low.count < 8 }
    requires low { low.number < 2 ^ low.count }
    requires few { AreFew 8 high }
    ensures bits { bits_in low ++ bits_in high ≡ low_bits (low.count + high.count) result }
    ensures small { result < 2 ^ (low.count + high.count) }
{
    u16::from(low.number) + (u16::from(high.number) << low.count)
}

/// Puts octets together of bits, the first ones lowest.
#[derive(Drop)]
pub(crate) struct OctetJoiner {
    /// The bits of an octet whose others are not there yet.
    waiting: Bits,
}

impl Model for OctetJoiner {
    ghost use Rattle.std.specs.Prelude.{◌<◌, ◌^◌};
    ghost use Rattle.signal_commands.specs.declared.decode.octet_joiner.Bits.{Bits};

    ghost Value = { Bits };

    ghost view = { λ j. j.waiting };

    ghost invariant = { λ j. (j.waiting.count < 8) × (j.waiting.number < 2 ^ j.waiting.count) };
}

impl OctetJoiner {
    /// Before the first bit.
    pub fn new() -> OctetJoiner
        ensures { OctetsJoined result [] [] }
    {
        OctetJoiner {
            waiting: Bits {
                count: 0,
                number: 0,
            },
        }
    }

    /// How many bits wait for the others of their octet.
    pub fn waiting(&self) -> u8
        ensures value { result ≡ self.now.count }
        ensures few { result < 8 }
    {
        self.waiting.count
    }

    /// The octet that is whole with these bits, if one is.
    pub fn push(&mut self, bits: Bits) -> Option<u8>
        requires { AreFew 8 bits }
        ensures joined { (before : List Bool) (octets : List ℕ) → OctetsJoined self.old before octets
            → OctetsJoined self.new (before ++ bits_in bits) (octets ++ option_to_list result) }
        ensures count { 8 * length (option_to_list result) + self.new.count ≡ self.old.count + bits.count }
    {
        let number = joined(self.waiting, bits);
        let count = self.waiting.count + bits.count;
        if count < 8 {
            self.waiting = Bits {
                count,
                number: number as u8,
            };
            return None;
        }
        self.waiting = Bits {
            count: count - 8,
            number: (number / 256) as u8,
        };
        Some((number % 256) as u8)
    }
}
