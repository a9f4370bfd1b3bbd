// The scrambler.
ghost use Rattle.std.specs.Prelude.{◌≡◌, ◌<◌, ◌≤◌, List, Bool, [], ◌∷◌, ◌++◌};
ghost use Rattle.frame_check.specs.Bits.{low_bits};
ghost use Rattle.scramblers.specs.Machines.{ScramblerStands};

use crate::register::{DEGREE, bit_before, four_before, shifted, shifted_by_four};
use std::marker::Model;

/// A scrambler with the generating polynomial 1 + x^-TAP + x^-23. It keeps the latest bits of the line.
#[derive(Drop)]
pub struct Scrambler<const TAP: usize> {
    /// The latest 32 bits on the line, the last one highest. 23 of them count.
    register: u32,
}

impl<const TAP: usize> Model for Scrambler<TAP> {
    ghost use Rattle.std.specs.Prelude.{ℕ, ◌≤◌};

    ghost Value = { ℕ };

    ghost view = { λ s. s.register };

    ghost invariant = { λ s. (1 ≤ TAP) × (TAP ≤ 22) };
}

impl<const TAP: usize> Scrambler<TAP> {
    /// A scrambler whose line begins, with a register of zeros.
    pub fn new() -> Scrambler<TAP>
        requires low { 1 ≤ TAP }
        requires high { TAP ≤ 22 }
        ensures { ScramblerStands TAP result [] [] }
    {
        Scrambler { register: 0 }
    }

    /// The line's next bit, for the input's next bit.
    pub fn push(&mut self, bit: bool) -> bool
        ensures { (input line : List Bool) → ScramblerStands TAP self.old input line
            → ScramblerStands TAP self.new (input ++ bit ∷ []) (line ++ result ∷ []) }
    {
        let sent = bit ^ bit_before(self.register, TAP) ^ bit_before(self.register, DEGREE);
        self.register = shifted(self.register, sent);
        sent
    }

    /// The line's next four bits, for the input's next four: the first one is lowest.
    pub fn push_four(&mut self, four: u8) -> u8
        requires far { 4 ≤ TAP }
        requires four { four < 16 }
        ensures stands { (input line : List Bool) → ScramblerStands TAP self.old input line
            → ScramblerStands TAP self.new (input ++ low_bits 4 four) (line ++ low_bits 4 result) }
        ensures bound { result < 16 }
    {
        let sent = four ^ four_before(self.register, TAP) ^ four_before(self.register, DEGREE);
        self.register = shifted_by_four(self.register, sent);
        sent
    }
}
