// The scrambler and the descrambler of either mode.
ghost use Rattle.std.specs.Prelude.{◌≡◌, ◌<◌, Bool, List, [], ◌∷◌, ◌++◌};
ghost use Rattle.frame_check.specs.Bits.{low_bits, octet_bits};
ghost use Rattle.scramblers.specs.declared.mode.Mode.{Mode};
ghost use Rattle.line_coding.specs.Modes.{ScramblesAs, DescramblesAs};

use scramblers::{ANSWER_TAP, CALL_TAP, Descrambler, Mode, Scrambler};

/// Two bits as a number, the first one lowest.
fn two_of(first: bool, second: bool) -> u8
    ensures bits { low_bits 2 result ≡ first ∷ second ∷ [] }
    ensures bound { result < 4 }
{
    u8::from(first) + 2 * u8::from(second)
}

/// A scrambler with the tap of a mode.
#[derive(Drop)]
pub enum ModeScrambler {
    /// The originator sends.
    Call(Scrambler<CALL_TAP>),
    /// The answerer sends.
    Answer(Scrambler<ANSWER_TAP>),
}

impl ModeScrambler {
    /// A scrambler before its first bit.
    pub fn new(mode: Mode) -> ModeScrambler
        ensures { ScramblesAs mode result [] [] }
    {
        match mode {
            Mode::Call => ModeScrambler::Call(Scrambler::new()),
            Mode::Answer => ModeScrambler::Answer(Scrambler::new()),
        }
    }

    /// The line's next bit, for the input's next one.
    pub fn push(&mut self, bit: bool) -> bool
        ensures { (mode : Mode) (input line : List Bool) → ScramblesAs mode self.old input line
            → ScramblesAs mode self.new (input ++ bit ∷ []) (line ++ result ∷ []) }
    {
        match self {
            ModeScrambler::Call(scrambler) => scrambler.push(bit),
            ModeScrambler::Answer(scrambler) => scrambler.push(bit),
        }
    }

    /// The line's next two bits, for the input's next two: in a number the first one is lowest.
    pub fn push_two(&mut self, two: u8) -> u8
        requires { two < 4 }
        ensures stands { (mode : Mode) (input line : List Bool) → ScramblesAs mode self.old input line
            → ScramblesAs mode self.new (input ++ low_bits 2 two) (line ++ low_bits 2 result) }
        ensures bound { result < 4 }
    {
        let first = self.push(two % 2 == 1);
        let second = self.push(two / 2 == 1);
        two_of(first, second)
    }

    /// The line's next four bits, for the input's next four.
    pub fn push_four(&mut self, four: u8) -> u8
        requires { four < 16 }
        ensures stands { (mode : Mode) (input line : List Bool) → ScramblesAs mode self.old input line
            → ScramblesAs mode self.new (input ++ low_bits 4 four) (line ++ low_bits 4 result) }
        ensures bound { result < 16 }
    {
        match self {
            ModeScrambler::Call(scrambler) => scrambler.push_four(four),
            ModeScrambler::Answer(scrambler) => scrambler.push_four(four),
        }
    }
}

/// A descrambler with the tap of a mode.
#[derive(Drop)]
pub enum ModeDescrambler {
    /// The originator sent.
    Call(Descrambler<CALL_TAP>),
    /// The answerer sent.
    Answer(Descrambler<ANSWER_TAP>),
}

impl ModeDescrambler {
    /// A descrambler before the line's first bit.
    pub fn new(mode: Mode) -> ModeDescrambler
        ensures { DescramblesAs mode result [] [] }
    {
        match mode {
            Mode::Call => ModeDescrambler::Call(Descrambler::new()),
            Mode::Answer => ModeDescrambler::Answer(Descrambler::new()),
        }
    }

    /// The output's next bit, for the line's next one.
    pub fn push(&mut self, bit: bool) -> bool
        ensures { (mode : Mode) (line output : List Bool) → DescramblesAs mode self.old line output
            → DescramblesAs mode self.new (line ++ bit ∷ []) (output ++ result ∷ []) }
    {
        match self {
            ModeDescrambler::Call(descrambler) => descrambler.push(bit),
            ModeDescrambler::Answer(descrambler) => descrambler.push(bit),
        }
    }

    /// The output's next two bits, for the line's next two: in a number the first one is lowest.
    pub fn push_two(&mut self, two: u8) -> u8
        requires { two < 4 }
        ensures stands { (mode : Mode) (line output : List Bool) → DescramblesAs mode self.old line output
            → DescramblesAs mode self.new (line ++ low_bits 2 two) (output ++ low_bits 2 result) }
        ensures bound { result < 4 }
    {
        let first = self.push(two % 2 == 1);
        let second = self.push(two / 2 == 1);
        two_of(first, second)
    }

    /// The output's next four bits, for the line's next four.
    pub fn push_four(&mut self, four: u8) -> u8
        requires { four < 16 }
        ensures stands { (mode : Mode) (line output : List Bool) → DescramblesAs mode self.old line output
            → DescramblesAs mode self.new (line ++ low_bits 4 four) (output ++ low_bits 4 result) }
        ensures bound { result < 16 }
    {
        match self {
            ModeDescrambler::Call(descrambler) => descrambler.push_four(four),
            ModeDescrambler::Answer(descrambler) => descrambler.push_four(four),
        }
    }

    /// The output's next eight bits, for the line's next eight.
    pub fn push_octet(&mut self, octet: u8) -> u8
        ensures { (mode : Mode) (line output : List Bool) → DescramblesAs mode self.old line output
            → DescramblesAs mode self.new (line ++ octet_bits octet) (output ++ octet_bits result) }
    {
        match self {
            ModeDescrambler::Call(descrambler) => descrambler.push_octet(octet),
            ModeDescrambler::Answer(descrambler) => descrambler.push_octet(octet),
        }
    }
}
