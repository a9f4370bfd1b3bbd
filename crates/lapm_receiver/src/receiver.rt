// The order of the other end's segments.
ghost use Rattle.std.specs.Prelude.{◌≡◌, ◌≤◌, ◌<◌, ◌^◌, ◌%◌, ◌+◌, ◌↔◌, ℕ, List, length, drop, true, false, nat_lt, IfOk, IsTrue, IsSome, Some, is_some};
ghost use Rattle.std.specs.Bool.{OnFalse};
ghost use Rattle.std.specs.Option.{option_map};

use crate::slots::Slots;
use crate::took::Took;
use frame_check::Info;
use shared_terms::NoMemory;
use std::alloc::Global;
use std::marker::Model;

/// The segments that an end takes, by ITU-T V.42: those in order until they are delivered, and those that came before their
/// turn.
#[derive(Drop)]
pub struct Receiver {
    /// What has come and isn't delivered; the next number in order is V(R).
    slots: Slots,
    /// In segments [k]; 0 before it has begun.
    window: u8,
    /// Whether later segments are kept, and missing ones asked for one by one.
    srej: bool,
    /// The numbers below this one that are missing were asked for.
    asked_below: u64,
    /// Whether a REJ is due.
    rej: bool,
    /// Whether a REJ was due since the last segment that came in order.
    gapped: bool,
    /// Whether an acknowledgement is owed.
    owed: bool,
}

impl Model for Receiver {
    ghost use Rattle.std.specs.Prelude.{◌≤◌};
    ghost use Rattle.lapm_receiver.specs.Taking.{Taking};

    ghost Value = { Taking };

    ghost view = { λ r. record { room = r.slots.room; window = r.window; srej = r.srej; taken = r.slots.taken; ready = r.slots.ready; held = r.slots.held; asked_below = r.asked_below; rej = r.rej; gapped = r.gapped; owed = r.owed } };

    ghost invariant = { λ r. (r.window ≤ r.slots.room) × (r.slots.room ≤ 127) };
}

impl Receiver {
    ghost use Rattle.lapm_receiver.specs.Incoming.{Incoming, not_begun, begun, kind_at, kind_of, with_segment, after_kind, after_take, next_delivered, after_delivered, undelivered, next_expected, asks, after_asked, after_told};
    ghost use Rattle.lapm_receiver.specs.Taking.{StandsIn, SameTerms, SameSegments, asked_by};

    /// A receiver that isn't begun, with room for so many segments. It takes all its memory here.
    pub fn new(alloc: Global, room: u8) -> Result<Receiver, NoMemory>
        requires some { 1 ≤ room }
        requires few { room ≤ 127 }
        ensures stands { IfOk result (λ receiver. StandsIn receiver not_begun) }
        ensures room { IfOk result (λ receiver. receiver.room ≡ room) }
    {
        let slots = Slots::new(alloc, room)?;
        Ok(Receiver {
            slots,
            window: 0,
            srej: false,
            asked_below: 0,
            rej: false,
            gapped: false,
            owed: false,
        })
    }

    /// Begins with the agreed window. `srej` is whether single segments may be asked for.
    pub fn begin(&mut self, window: u8, srej: bool)
        requires not_begun { self.old.window ≡ 0 }
        requires window_low { 1 ≤ window }
        requires window_high { window ≤ self.old.room }
        requires window_srej { IsTrue srej → window ≤ 64 }
        ensures stands { StandsIn self.new (begun window srej) }
        ensures room { self.new.room ≡ self.old.room }
    {
        self.slots.restart();
        self.window = window;
        self.srej = srej;
        self.asked_below = 0;
        self.rej = false;
        self.gapped = false;
        self.owed = false;
    }

    /// Takes the next segment.
    fn take_next(&mut self, info: &Info)
        requires begun { 1 ≤ self.old.window }
        requires few { self.old.taken < 2 ^ 56 }
        requires delivered { length self.old.ready ≡ 0 }
        ensures stands { (i : Incoming) → StandsIn self.old i → StandsIn self.new (with_segment info.now i) }
        ensures terms { SameTerms self.old self.new }
        ensures count { self.new.taken ≡ self.old.taken + length self.new.ready }
        ensures few_ready { length self.new.ready ≤ 127 }
    {
        self.slots.take(info);
        self.gapped = false;
        self.owed = true;
    }

    /// Takes a segment that is so far ahead of the next one, within the window.
    fn take_early(&mut self, ahead: u8, info: &Info) -> Took
        requires low { 1 ≤ ahead }
        requires high { ahead < self.old.window }
        requires srej { self.old.srej ≡ true }
        requires delivered { length self.old.ready ≡ 0 }
        ensures kind { (i : Incoming) → StandsIn self.old i → result ≡ kind_at i ahead }
        ensures stands { (i : Incoming) → StandsIn self.old i → StandsIn self.new (after_kind result ahead info.now i) }
        ensures terms { SameTerms self.old self.new }
        ensures same { self.new.taken ≡ self.old.taken }
        ensures ready { length self.new.ready ≡ 0 }
    {
        if self.slots.is_held(ahead) {
            self.owed = true;
            return Took::Repeat;
        }
        self.slots.keep(ahead, info);
        Took::Kept
    }

    /// Takes a segment of number `ns` modulo 128.
    pub fn take(&mut self, ns: u8, info: &Info) -> Took
        requires begun { 1 ≤ self.old.window }
        requires number { ns < 128 }
        requires few { self.old.taken < 2 ^ 56 }
        requires delivered { length self.old.ready ≡ 0 }
        ensures kind { (i : Incoming) → StandsIn self.old i → result ≡ kind_of ns i }
        ensures stands { (i : Incoming) → StandsIn self.old i → StandsIn self.new (after_take ns info.now i) }
        ensures terms { SameTerms self.old self.new }
        ensures count { self.new.taken ≡ self.old.taken + length self.new.ready }
        ensures few_ready { length self.new.ready ≤ 127 }
    {
        let ahead = (ns + 128 - self.nr()) % 128;
        if ahead == 0 {
            self.take_next(info);
            Took::InOrder
        } else if ahead >= self.window {
            self.owed = true;
            Took::Repeat
        } else if self.srej {
            self.take_early(ahead, info)
        } else {
            self.rej = self.rej || !self.gapped;
            self.gapped = true;
            Took::Gap
        }
    }

    /// Copies the next segment in order into `out`, in place of what that held. False where none is left.
    pub fn deliver(&mut self, out: &mut Info) -> bool
        ensures left { result ≡ nat_lt 0 (length self.old.ready) }
        ensures answer { (i : Incoming) → StandsIn self.old i → result ≡ is_some (next_delivered i) }
        ensures segment { (i : Incoming) (segment : List ℕ) → StandsIn self.old i
            → next_delivered i ≡ Some segment → out.new ≡ segment }
        ensures stands { (i : Incoming) → StandsIn self.old i → StandsIn self.new (after_delivered i) }
        ensures unchanged { OnFalse result (self.new ≡ self.old) }
        ensures out_unchanged { OnFalse result (out.new ≡ out.old) }
        ensures value { self.new ≡ record self.old { ready = drop 1 self.old.ready } }
        ensures empty { OnFalse result (length self.new.ready ≡ 0) }
    {
        self.slots.deliver(out)
    }

    /// How many segments are taken in order and not delivered.
    pub fn undelivered(&self) -> usize
        ensures value { result ≡ length self.now.ready }
        ensures undelivered { (i : Incoming) → StandsIn self.now i → result ≡ undelivered i }
    {
        self.slots.ready()
    }

    /// The number of segments taken in order so far.
    pub fn taken(&self) -> u64
        ensures value { result ≡ self.now.taken }
        ensures taken { (i : Incoming) → StandsIn self.now i → result ≡ next_expected i }
    {
        self.slots.taken()
    }

    /// The next number expected, modulo 128.
    pub fn nr(&self) -> u8
        ensures value { result ≡ self.now.taken % 128 }
        ensures nr { (i : Incoming) → StandsIn self.now i → result ≡ next_expected i % 128 }
    {
        (self.slots.taken() % 128) as u8
    }

    /// The number to ask for.
    fn due(&self) -> Option<u64>
        ensures value { result ≡ asked_by self.now }
        ensures asks { (i : Incoming) → StandsIn self.now i → result ≡ asks i }
    {
        if self.srej {
            self.slots.first_missing(self.asked_below)
        } else if self.rej {
            Some(self.slots.taken())
        } else {
            None
        }
    }

    /// The number to ask for by REJ or SREJ, modulo 128, where one is due.
    pub fn ask(&self) -> Option<u8>
        ensures value { result ≡ option_map (λ n. n % 128) (asked_by self.now) }
        ensures due { IsSome result ↔ IsSome (asked_by self.now) }
        ensures asks { (i : Incoming) → StandsIn self.now i → result ≡ option_map (λ n. n % 128) (asks i) }
    {
        let number = self.due()?;
        Some((number % 128) as u8)
    }

    /// Notes that the missing number was asked for.
    pub fn asked(&mut self)
        requires { IsSome (asked_by self.old) }
        ensures stands { (i : Incoming) (n : ℕ) → StandsIn self.old i → asks i ≡ Some n → StandsIn self.new (after_asked n i) }
        ensures terms { SameTerms self.old self.new }
        ensures segments { SameSegments self.old self.new }
    {
        if self.srej {
            if let Some(number) = self.slots.first_missing(self.asked_below) {
                self.asked_below = number + 1;
            }
        } else {
            self.rej = false;
        }
    }

    /// Whether an acknowledgement is owed.
    pub fn owed(&self) -> bool
        ensures { (i : Incoming) → StandsIn self.now i → result ≡ i.owed }
    {
        self.owed
    }

    /// A frame with the next number expected was sent.
    pub fn told(&mut self)
        ensures stands { (i : Incoming) → StandsIn self.old i → StandsIn self.new (after_told i) }
        ensures value { self.new ≡ record self.old { owed = false } }
    {
        self.owed = false;
    }
}
