// An end's own breaks.
ghost use Rattle.std.specs.Prelude.{◌≡◌, ◌<◌, ◌^◌, ◌+◌, min, true, IsSome, IfSome, OnErr, MatchResult, Some, None};
ghost use Rattle.break_signals.specs.Words.{number_of};

use crate::word::BreakWord;
use shared_terms::is_expired;
use std::marker::Model;

/// After a break was answered no other one is taken for so many turns.
const REST: u64 = 8;

/// All tries of a break are spent.
#[derive(Clone, Copy, PartialEq, Eq)]
pub struct Spent0;

/// A break that waits for its answer.
#[derive(Clone, Copy)]
struct Waiting {
    /// In units of 10 ms.
    units: u8,
    /// Whether its BRK is to be sent.
    due: bool,
    /// The turn in which its timer was set.
    set: u64,
    /// How often its timer has expired; stands still at its last value.
    count: u16,
}

impl Waiting {
    /// The waiting break once its timer has expired in this turn.
    fn again(self, turn: u64) -> Waiting
        ensures { result ≡ record { units = self.units; due = true; set = turn; count = min (self.count + 1) 65535 } }
    {
        Waiting {
            due: true,
            set: turn,
            count: self.count.saturating_add(1),
            ..self
        }
    }
}

/// An end's own breaks: one at a time waits for its answer.
#[derive(Drop)]
pub struct BreakSender {
    /// The number of the break that waits, or else of the next one: 0 or 1.
    number: u8,
    /// The break that isn't acknowledged yet.
    waiting: Option<Waiting>,
    /// The first turn in which another break may be asked for.
    rest: u64,
}

impl Model for BreakSender {
    ghost use Rattle.break_signals.specs.Keeping.{Asking};

    ghost Value = { Asking };

    ghost use Rattle.break_signals.specs.Keeping.{IsEarly};
    ghost use Rattle.std.specs.Prelude.{◌<◌};

    ghost view = { λ s. record { number = s.number; waiting = s.waiting; rest = s.rest } };

    ghost invariant = { λ s. (s.number < 2) × IsEarly s.waiting };
}

impl BreakSender {
    ghost use Rattle.break_signals.specs.Breaks.{OwnBreaks, no_breaks, waits, takes_break, after_ask, ticked, own_due, after_brk, after_answer};
    ghost use Rattle.break_signals.specs.Keeping.{StandsOwn, due_by, Ticks};

    /// A sender of breaks of which none waits.
    pub fn new() -> BreakSender
        ensures { StandsOwn result no_breaks }
    {
        BreakSender {
            number: 0,
            waiting: None,
            rest: 0,
        }
    }

    /// Asks for a break of this length, in units of 10 ms. False where one waits, or the rest after the last one isn't over.
    pub fn ask(&mut self, turn: u64, length: u8) -> bool
        requires { turn < 2 ^ 40 }
        ensures answer { (b : OwnBreaks) → StandsOwn self.old b → result ≡ takes_break turn b }
        ensures stands { (b : OwnBreaks) → StandsOwn self.old b → StandsOwn self.new (after_ask turn length b) }
    {
        if self.waiting.is_some() || turn < self.rest {
            return false;
        }
        self.waiting = Some(Waiting {
            units: length,
            due: true,
            set: turn,
            count: 0,
        });
        true
    }

    /// The end speaks in this turn: where the timer of the break that waits expires, its BRK is due again.
    pub fn tick(&mut self, turn: u64, period: u32, tries: u8) -> Result<(), Spent0>
        requires { turn < 2 ^ 40 }
        ensures answer { (b : OwnBreaks) → StandsOwn self.old b
            → MatchResult result (λ _. Ticks self.new (ticked turn period tries b)) (λ _. ticked turn period tries b ≡ None) }
        ensures unchanged { OnErr result (self.new ≡ self.old) }
    {
        match self.waiting {
            Some(waiting) if is_expired(waiting.set, period, turn) => {
                if waiting.count == u16::from(tries) {
                    return Err(Spent0);
                }
                self.waiting = Some(waiting.again(turn));
                Ok(())
            }
            _ => Ok(()),
        }
    }

    /// The BRK that is due.
    pub fn due(&self) -> Option<BreakWord>
        ensures value { result ≡ due_by self.now }
        ensures number { IfSome result (λ word. number_of word < 2) }
        ensures due { (b : OwnBreaks) → StandsOwn self.now b → result ≡ own_due b }
    {
        match self.waiting {
            Some(waiting) if waiting.due => Some(BreakWord::Brk {
                number: self.number,
                length: waiting.units,
            }),
            _ => None,
        }
    }

    /// The BRK was sent.
    pub fn sent(&mut self)
        requires { IsSome (due_by self.old) }
        ensures { (b : OwnBreaks) → StandsOwn self.old b → StandsOwn self.new (after_brk b) }
    {
        if let Some(waiting) = self.waiting {
            self.waiting = Some(Waiting {
                due: false,
                ..waiting
            });
        }
    }

    /// A BRKACK of this number was heard in this turn.
    pub fn answered(&mut self, turn: u64, number: u8)
        requires { turn < 2 ^ 40 }
        ensures { (b : OwnBreaks) → StandsOwn self.old b → StandsOwn self.new (after_answer turn number b) }
    {
        if self.waiting.is_some() && number == self.number {
            self.waiting = None;
            self.number = 1 - number;
            self.rest = turn + REST;
        }
    }

    /// Whether a break waits for its answer.
    pub fn waiting(&self) -> bool
        ensures { (b : OwnBreaks) → StandsOwn self.now b → result ≡ waits b }
    {
        self.waiting.is_some()
    }
}
