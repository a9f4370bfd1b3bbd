// The other end's breaks.
ghost use Rattle.std.specs.Prelude.{◌≡◌, ◌<◌, IsSome, IfSome};
ghost use Rattle.break_signals.specs.Words.{number_of};

use crate::word::BreakWord;
use std::marker::Model;

/// The other end's breaks, each given once.
#[derive(Drop)]
pub struct BreakReceiver {
    /// The number of the next break that is given, 0 or 1.
    expected: u8,
    /// The BRKACK that is due.
    ack: Option<BreakWord>,
}

impl Model for BreakReceiver {
    ghost use Rattle.break_signals.specs.Keeping.{Answering};

    ghost Value = { Answering };

    ghost view = { λ r. record { expected = r.expected; ack = r.ack } };

    ghost use Rattle.std.specs.Prelude.{◌<◌, IfSome};
    ghost use Rattle.break_signals.specs.Words.{number_of};

    ghost invariant = { λ r. (r.expected < 2) × IfSome r.ack (λ word. number_of word < 2) };
}

impl BreakReceiver {
    ghost use Rattle.break_signals.specs.Breaks.{TheirBreaks, none_heard, gives, after_break, after_ack};
    ghost use Rattle.break_signals.specs.Keeping.{StandsTheirs};

    /// A receiver that expects the break of number 0.
    pub fn new() -> BreakReceiver
        ensures { StandsTheirs result none_heard }
    {
        BreakReceiver {
            expected: 0,
            ack: None,
        }
    }

    /// A BRK was heard. Gives its length where its number is the one expected; its BRKACK is due in any case.
    pub fn take(&mut self, number: u8, length: u8) -> Option<u8>
        requires { number < 2 }
        ensures gives { (b : TheirBreaks) → StandsTheirs self.old b → result ≡ gives number length b }
        ensures stands { (b : TheirBreaks) → StandsTheirs self.old b → StandsTheirs self.new (after_break number length b) }
    {
        self.ack = Some(BreakWord::Ack { number, length });
        if number != self.expected {
            return None;
        }
        self.expected = 1 - number;
        Some(length)
    }

    /// The BRKACK that is due.
    pub fn due(&self) -> Option<BreakWord>
        ensures value { result ≡ self.now.ack }
        ensures number { IfSome result (λ word. number_of word < 2) }
        ensures due { (b : TheirBreaks) → StandsTheirs self.now b → result ≡ b.ack }
    {
        self.ack
    }

    /// The BRKACK was sent.
    pub fn sent(&mut self)
        requires { IsSome self.old.ack }
        ensures { (b : TheirBreaks) → StandsTheirs self.old b → StandsTheirs self.new (after_ack b) }
    {
        self.ack = None;
    }
}
