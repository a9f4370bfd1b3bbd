// The descrambler.
ghost use Rattle.std.specs.Prelude.{◌≡◌, ◌<◌, ◌≤◌, List, Bool, [], ◌∷◌, ◌++◌};
ghost use Rattle.frame_check.specs.Bits.{low_bits, octet_bits};
ghost use Rattle.scramblers.specs.Machines.{DescramblerStands};

use crate::register::{
    DEGREE, bit_before, four_before, octet_before, shifted, shifted_by_four, shifted_by_octet,
    with_octet,
};
use std::marker::Model;

/// The inverse of the [`Scrambler`](crate::Scrambler) with the same TAP. It keeps the latest bits of the line,
/// so a wrong bit is forgotten after 23 more.
#[derive(Drop)]
pub struct Descrambler<const TAP: usize> {
    /// The latest 32 bits on the line, the last one highest. 23 of them count.
    register: u32,
}

impl<const TAP: usize> Model for Descrambler<TAP> {
    ghost use Rattle.std.specs.Prelude.{ℕ, ◌≤◌};

    ghost Value = { ℕ };

    ghost view = { λ s. s.register };

    ghost invariant = { λ s. (1 ≤ TAP) × (TAP ≤ 22) };
}

impl<const TAP: usize> Descrambler<TAP> {
    /// A descrambler before the line's first bit, with a register of zeros.
    pub fn new() -> Descrambler<TAP>
        requires low { 1 ≤ TAP }
        requires high { TAP ≤ 22 }
        ensures { DescramblerStands TAP result [] [] }
    {
        Descrambler { register: 0 }
    }

    /// The output's next bit, for the line's next bit.
    pub fn push(&mut self, bit: bool) -> bool
        ensures { (line output : List Bool) → DescramblerStands TAP self.old line output
            → DescramblerStands TAP self.new (line ++ bit ∷ []) (output ++ result ∷ []) }
    {
        let read = bit ^ bit_before(self.register, TAP) ^ bit_before(self.register, DEGREE);
        self.register = shifted(self.register, bit);
        read
    }

    /// The output's next four bits, for the line's next four: the first one is lowest.
    pub fn push_four(&mut self, four: u8) -> u8
        requires far { 4 ≤ TAP }
        requires four { four < 16 }
        ensures stands { (line output : List Bool) → DescramblerStands TAP self.old line output
            → DescramblerStands TAP self.new (line ++ low_bits 4 four) (output ++ low_bits 4 result) }
        ensures bound { result < 16 }
    {
        let read = four ^ four_before(self.register, TAP) ^ four_before(self.register, DEGREE);
        self.register = shifted_by_four(self.register, four);
        read
    }

    /// The output's next eight bits, for the line's next eight: the first one is lowest.
    pub fn push_octet(&mut self, octet: u8) -> u8
        ensures { (line output : List Bool) → DescramblerStands TAP self.old line output
            → DescramblerStands TAP self.new (line ++ octet_bits octet) (output ++ octet_bits result) }
    {
        let line = with_octet(self.register, octet);
        self.register = shifted_by_octet(line);
        octet ^ octet_before(line, TAP) ^ octet_before(line, DEGREE)
    }
}
