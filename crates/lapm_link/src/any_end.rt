// An end in any of its states.
ghost use Rattle.lapm_frames.specs.Sendable.{IsSendable};
ghost use Rattle.std.specs.Prelude.{◌≡◌, ◌+◌, ◌≤◌, ◌<◌, ◌^◌, ℕ, List, length, Some, None, IfOk, IsSomeAnd, is_some, OnErr};
ghost use Rattle.std.specs.Bool.{OnFalse, OnTrue};
ghost use Rattle.frame_check.specs.declared.sizes.TheConstants.{INFO};
ghost use Rattle.link_account.specs.Account.{Account, wants, piece_size, after_offer, delivers, after_delivery, is_done, takes_own, after_break_asked, break_waits, given_break, after_given, after_busy, check_of};
ghost use Rattle.link_account.specs.Hear.{hear};
ghost use Rattle.link_account.specs.Speak.{speak};
ghost use Rattle.lapm_link.specs.Stands.{StandsFor, Hears, Speaks, TakesNothing, phase_of, taken_of, undelivered_of, waiting_of, wanted_of, piece_of, room_of};
ghost use Rattle.link_account.specs.Numbers.{IsNumbered};

use crate::{
    Arrives, Broken, Closed, Connected, Detecting, Establishing, Negotiating, Phase, Releasing,
    Sent,
};
use frame_check::{Check, Info};

/// An end in any of its states. The calls besides `hear` and `speak` read and change a Connected end alone.
pub enum AnyEnd {
    /// Looks for the other end.
    Detecting(Detecting),
    /// Agrees on terms.
    Negotiating(Negotiating),
    /// Sets the link up.
    Establishing(Establishing),
    /// The link is up.
    Connected(Connected),
    /// Takes it down.
    Releasing(Releasing),
    /// The link is over.
    Closed(Closed),
}

impl Drop for AnyEnd {
    // for the prover: so it is dropped by a call, and its fields are not dropped anew wherever one is.
    fn drop(self) {
        match self {
            AnyEnd::Detecting(_) => {}
            AnyEnd::Negotiating(_) => {}
            AnyEnd::Establishing(_) => {}
            AnyEnd::Connected(_) => {}
            AnyEnd::Releasing(_) => {}
            AnyEnd::Closed(_) => {}
        }
    }
}

impl AnyEnd {
    /// What the end becomes by what it hears in this turn. All that it took before is to be delivered and given first.
    pub fn hear<A: Arrives>(self, turn: u64, arrived: &A) -> Result<AnyEnd, Broken>
        requires turn { turn < 2 ^ 40 }
        requires numbers { IsNumbered (A.arrival arrived.now) }
        requires counted { taken_of self < 2 ^ 56 }
        requires delivered { undelivered_of self ≡ 0 }
        requires given { waiting_of self ≡ None }
        ensures hears { (a : Account) → StandsFor self a → Hears (hear turn (A.arrival arrived.now) a) a result }
        ensures counted { IfOk result (λ end. taken_of end ≤ taken_of self + 128) }
    {
        match self {
            AnyEnd::Detecting(end) => end.hear(turn, arrived),
            AnyEnd::Negotiating(end) => end.hear(turn, arrived),
            AnyEnd::Establishing(end) => end.hear(turn, arrived),
            AnyEnd::Connected(end) => end.hear(turn, arrived),
            AnyEnd::Releasing(end) => end.hear(turn, arrived),
            AnyEnd::Closed(end) => end.hear(turn, arrived),
        }
    }

    /// What the end sends in this turn, and then is. `release` tells a Connected originator to take the link down. After an `Err`
    /// `sent` is as it was.
    pub fn speak(self, turn: u64, release: bool, sent: &mut Sent) -> Result<AnyEnd, Broken>
        requires { turn < 2 ^ 40 }
        ensures speaks { (a : Account) → StandsFor self a → Speaks (speak turn release a) a sent.old sent.new result }
        ensures takes_nothing { IfOk result (TakesNothing self) }
        ensures sendable { IfOk result (λ _. IsSendable sent.new) }
        ensures unchanged { OnErr result (sent.new ≡ sent.old) }
    {
        match self {
            AnyEnd::Detecting(end) => end.speak(turn, release, sent),
            AnyEnd::Negotiating(end) => end.speak(turn, release, sent),
            AnyEnd::Establishing(end) => end.speak(turn, release, sent),
            AnyEnd::Connected(end) => end.speak(turn, release, sent),
            AnyEnd::Releasing(end) => end.speak(turn, release, sent),
            AnyEnd::Closed(end) => end.speak(turn, release, sent),
        }
    }

    /// The state that it holds.
    pub fn phase(&self) -> Phase
        ensures value { result ≡ phase_of self.now }
        ensures account { (a : Account) → StandsFor self.now a → result ≡ a.phase }
    {
        match self {
            AnyEnd::Detecting(_) => Phase::Detecting,
            AnyEnd::Negotiating(_) => Phase::Negotiating,
            AnyEnd::Establishing(_) => Phase::Establishing,
            AnyEnd::Connected(_) => Phase::Connected,
            AnyEnd::Releasing(_) => Phase::Releasing,
            AnyEnd::Closed(_) => Phase::Closed,
        }
    }

    /// The check of the frames with numbers that it sends and hears. It changes once terms are agreed, and then stays.
    pub fn check(&self) -> Check
        ensures { (a : Account) → StandsFor self.now a → result ≡ check_of a }
    {
        let has_long = match self {
            AnyEnd::Detecting(_) => false,
            AnyEnd::Negotiating(end) => end.has_long_check(),
            AnyEnd::Establishing(end) => end.agreed.terms.check32,
            AnyEnd::Connected(end) => end.terms.check32,
            AnyEnd::Releasing(end) => end.terms.check32,
            AnyEnd::Closed(end) => end.terms.check32,
        };
        if has_long {
            Check::ThirtyTwo
        } else {
            Check::Sixteen
        }
    }

    /// The number of the next segment to read.
    pub fn wants(&self) -> Option<u64>
        ensures value { result ≡ wanted_of self.now }
        ensures account { (a : Account) → StandsFor self.now a → result ≡ wants a }
    {
        match self {
            AnyEnd::Connected(end) => end.sender.wants(),
            _ => None,
        }
    }

    /// The agreed length of the segments that this end sends, in octets; 0 where it isn't Connected.
    pub fn piece(&self) -> u16
        ensures value { result ≡ piece_of self.now }
        ensures account { (a : Account) → StandsFor self.now a → result ≡ piece_size a }
        ensures few { result ≤ INFO }
    {
        match self {
            AnyEnd::Connected(end) => end.sender.size(),
            _ => 0,
        }
    }

    /// Takes the next piece of the file. A shorter one ends the file, and an empty one ends it without a segment.
    pub fn offer(&mut self, piece: &[u8])
        requires wanted { IsSomeAnd (wanted_of self.old) (λ number. number < 2 ^ 56) }
        requires short { length piece.now ≤ piece_of self.old }
        ensures account { (a : Account) → StandsFor self.old a → StandsFor self.new (after_offer piece.now a) }
        ensures takes_nothing { TakesNothing self.old self.new }
        ensures fewer { room_of self.new < room_of self.old }
    {
        if let AnyEnd::Connected(end) = self {
            end.sender.offer(piece);
        }
    }

    /// Copies the next segment in order into `out`, in place of what that held. False where none is left.
    pub fn deliver(&mut self, out: &mut Info) -> bool
        ensures answer { (a : Account) → StandsFor self.old a → result ≡ is_some (delivers a) }
        ensures segment { (a : Account) (segment : List ℕ) → StandsFor self.old a → delivers a ≡ Some segment → out.new ≡ segment }
        ensures account { (a : Account) → StandsFor self.old a → StandsFor self.new (after_delivery a) }
        ensures unchanged { OnFalse result (out.new ≡ out.old) }
        ensures delivered { OnFalse result (undelivered_of self.new ≡ 0) }
        ensures fewer { OnTrue result (undelivered_of self.new < undelivered_of self.old) }
        ensures takes_nothing { TakesNothing self.old self.new }
    {
        match self {
            AnyEnd::Connected(end) => end.receiver.deliver(out),
            _ => false,
        }
    }

    /// Whether the file has ended and every segment is acknowledged.
    pub fn whole(&self) -> bool
        ensures { (a : Account) → StandsFor self.now a → result ≡ is_done a }
    {
        match self {
            AnyEnd::Connected(end) => end.sender.whole(),
            _ => false,
        }
    }

    /// Asks for a break of this length, in units of 10 ms. False where one waits, or the rest after the last one isn't over.
    pub fn ask_break(&mut self, turn: u64, length: u8) -> bool
        requires { turn < 2 ^ 40 }
        ensures answer { (a : Account) → StandsFor self.old a → result ≡ takes_own turn a }
        ensures account { (a : Account) → StandsFor self.old a → StandsFor self.new (after_break_asked turn length a) }
        ensures takes_nothing { TakesNothing self.old self.new }
    {
        match self {
            AnyEnd::Connected(end) => end.breaks.own.ask(turn, length),
            _ => false,
        }
    }

    /// Whether a break waits for its answer.
    pub fn break_waiting(&self) -> bool
        ensures { (a : Account) → StandsFor self.now a → result ≡ break_waits a }
    {
        match self {
            AnyEnd::Connected(end) => end.breaks.own.waiting(),
            _ => false,
        }
    }

    /// The length of the other end's break that waits to be given, in units of 10 ms. None waits then.
    pub fn given_break(&mut self) -> Option<u8>
        ensures value { result ≡ waiting_of self.old }
        ensures answer { (a : Account) → StandsFor self.old a → result ≡ given_break a }
        ensures account { (a : Account) → StandsFor self.old a → StandsFor self.new (after_given a) }
        ensures given { waiting_of self.new ≡ None }
        ensures takes_nothing { TakesNothing self.old self.new }
    {
        match self {
            AnyEnd::Connected(end) => end.breaks.given.take(),
            _ => None,
        }
    }

    /// Whether the end's user asks for a pause from now on. It is told to the other end as soon as there is a place for it.
    pub fn set_busy(&mut self, busy: bool)
        ensures account { (a : Account) → StandsFor self.old a → StandsFor self.new (after_busy busy a) }
        ensures takes_nothing { TakesNothing self.old self.new }
        ensures given { waiting_of self.new ≡ waiting_of self.old }
    {
        if let AnyEnd::Connected(end) = self {
            end.owes.busy = busy;
        }
    }
}
