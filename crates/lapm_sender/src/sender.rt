// The window of an end's own segments.
ghost use Rattle.std.specs.Prelude.{◌≡◌, ◌≤◌, ◌<◌, ◌^◌, length, IfOk, OnErr, IfNone, IfSome, IsSomeAnd, MatchResult, MatchOption, is_some, [], ◌+◌, ◌-◌, ◌%◌, max, nat_lt, slice_index_or};
ghost use Rattle.frame_check.specs.declared.sizes.TheConstants.{INFO};

use crate::faults::{BadAck, Spent};
use crate::numbers::{meant_by, modulo};
use crate::segments::Segments;
use frame_check::Info;
use shared_terms::NoMemory;
use std::alloc::Global;
use std::marker::Model;

/// The segments that an end sends, from the oldest that isn't acknowledged on, by ITU-T V.42. Each is kept until the other
/// end has acknowledged it.
#[derive(Drop)]
pub struct Sender {
    /// The segments that were offered and aren't acknowledged.
    segments: Segments,
    /// In segments [k]; 0 before it has begun.
    window: u8,
    /// The most octets of a segment [N401].
    size: u16,
    /// How often it asks in vain [N400].
    tries: u8,
    /// Whether the file was offered to its end.
    ended: bool,
    /// One more than the highest number sent, or 0 [V(S)].
    high: u64,
    /// The next number in order that goes, at least the front.
    from: u64,
    /// How often the timer has expired since it last got on.
    count: u8,
    /// Whether the answer to a poll is awaited.
    awaited: bool,
    /// Whether the other end counts as busy: then nothing is sent.
    paused: bool,
}

impl Model for Sender {
    ghost use Rattle.std.specs.Prelude.{length};
    ghost use Rattle.lapm_sender.specs.Sending.{Sending, IsSending};

    ghost Value = { Sending };

    ghost view = { λ s. record { room = s.segments.room; window = s.window; size = s.size; tries = s.tries; kept = s.segments.kept; ended = s.ended; front = s.segments.front; high = s.high; from = s.from; chosen = s.segments.chosen; count = s.count; awaited = s.awaited; paused = s.paused } };

    ghost invariant = { λ s. IsSending s.segments.front (length s.segments.kept) s.segments.room s.window s.size s.tries s.high s.from s.count };
}

impl Sender {
    ghost use Rattle.lapm_sender.specs.Outgoing.{Outgoing, not_begun, begun, wanted, with_piece, next_number, advanced, acknowledged, rejected, replied, paused_at, resumed, selected, expired, is_whole, is_outstanding};
    ghost use Rattle.std.specs.Option.{option_map};
    ghost use Rattle.lapm_sender.specs.Sending.{StandsOut, wanted_by, room_by, GivesNext, Advances, Follows, RefusesAck, SpendsAll, SameTerms};

    /// A sender that isn't begun, with room for so many segments. It takes all its memory here.
    pub fn new(alloc: Global, room: u8) -> Result<Sender, NoMemory>
        requires some { 1 ≤ room }
        requires few { room ≤ 127 }
        ensures stands { IfOk result (λ sender. StandsOut sender not_begun) }
        ensures room { IfOk result (λ sender. sender.room ≡ room) }
    {
        let segments = Segments::new(alloc, room)?;
        Ok(Sender {
            segments,
            window: 0,
            size: 0,
            tries: 0,
            ended: false,
            high: 0,
            from: 0,
            count: 0,
            awaited: false,
            paused: false,
        })
    }

    /// Begins with the agreed window, length of a segment in octets, and number of tries. `polled` is whether a poll is
    /// awaited at once.
    pub fn begin(&mut self, window: u8, piece: u16, tries: u8, polled: bool)
        requires not_begun { self.old.window ≡ 0 }
        requires window_low { 1 ≤ window }
        requires window_high { window ≤ self.old.room }
        requires piece_low { 1 ≤ piece }
        requires piece_high { piece ≤ INFO }
        requires tries_low { 1 ≤ tries }
        requires tries_high { tries ≤ 20 }
        ensures stands { StandsOut self.new (begun window piece tries polled) }
        ensures room { self.new.room ≡ self.old.room }
    {
        self.segments.restart();
        self.window = window;
        self.size = piece;
        self.tries = tries;
        self.ended = false;
        self.high = 0;
        self.from = 0;
        self.count = 0;
        self.awaited = polled;
        self.paused = false;
    }

    /// The number of the next segment to read, where there is room in the window and the file hasn't ended.
    pub fn wants(&self) -> Option<u64>
        ensures value { result ≡ wanted_by self.now }
        ensures wanted { (o : Outgoing) → StandsOut self.now o → result ≡ wanted o }
    {
        let next = self.segments.end();
        if !self.ended && next < self.segments.front() + u64::from(self.window) {
            Some(next)
        } else {
            None
        }
    }

    /// The agreed length of a segment, in octets; 0 before it is begun.
    pub fn size(&self) -> u16
        ensures value { result ≡ self.now.size }
        ensures few { result ≤ INFO }
    {
        self.size
    }

    /// Takes the next segment of the file. One that isn't full ends the file; an empty one is no segment.
    pub fn offer(&mut self, piece: &[u8])
        requires wanted { IsSomeAnd (wanted_by self.old) (λ number. number < 2 ^ 56) }
        requires short { length piece.now ≤ self.old.size }
        ensures stands { (o : Outgoing) → StandsOut self.old o → StandsOut self.new (with_piece piece.now o) }
        ensures terms { SameTerms self.old self.new }
        ensures fewer { room_by self.new < room_by self.old }
    {
        match piece {
            [] => self.ended = true,
            _ => {
                self.ended = piece.len() < usize::from(self.size);
                self.segments.push(piece);
            }
        }
    }

    /// Whether a segment may be sent now.
    pub fn ready(&self) -> bool
        ensures { (o : Outgoing) → StandsOut self.now o → result ≡ is_some (next_number o) }
    {
        !self.awaited
            && !self.paused
            && (self.segments.least_chosen().is_some() || self.from < self.segments.end())
    }

    /// Copies a segment into `out`, and gives its number modulo 128. It has then been sent.
    fn send(&mut self, number: u64, out: &mut Info) -> u8
        requires low { self.old.front ≤ number }
        requires high { number < self.old.front + length self.old.kept }
        ensures number { result ≡ number % 128 }
        ensures segment { out.new ≡ slice_index_or self.old.kept (number - self.old.front) [] }
        ensures sent { self.new ≡ record self.old { high = max self.old.high (number + 1) } }
    {
        self.segments.copy(number, out);
        self.high = self.high.max(number + 1);
        modulo(number)
    }

    /// Copies the segment that is to be sent now into `out`, in place of what that held, and gives its number modulo 128.
    pub fn next(&mut self, out: &mut Info) -> Option<u8>
        ensures next { (o : Outgoing) → StandsOut self.old o
            → MatchOption result (next_number o ≡ None) (GivesNext self.new out.new o) }
        ensures unchanged { IfNone result (self.new ≡ self.old) }
        ensures out_unchanged { IfNone result (out.new ≡ out.old) }
        ensures seven_bits { IfSome result (λ ns. ns < 128) }
        ensures terms { SameTerms self.old self.new }
    {
        if self.awaited || self.paused {
            return None;
        }
        match self.segments.least_chosen() {
            Some(number) => {
                let ns = self.send(number, out);
                self.segments.drop_least();
                Some(ns)
            }
            None if self.from < self.segments.end() => {
                let ns = self.send(self.from, out);
                self.from += 1;
                Some(ns)
            }
            None => None,
        }
    }

    /// All segments before this number are acknowledged. True where the front advances.
    fn advance(&mut self, number: u64) -> bool
        requires low { self.old.front ≤ number }
        requires high { number ≤ self.old.high }
        ensures stands { (o : Outgoing) → StandsOut self.old o → StandsOut self.new (advanced o number) }
        ensures advances { result ≡ nat_lt self.old.front number }
        ensures terms { SameTerms self.old self.new }
    {
        let advances = self.segments.front() < number;
        self.segments.advance(number);
        self.from = self.from.max(number);
        if advances {
            self.count = 0;
        }
        advances
    }

    fn bad_ack(&self, nr: u8) -> BadAck
        ensures { result ≡ record { nr = nr; va = self.now.front % 128; high = self.now.high % 128 } }
    {
        BadAck {
            nr,
            va: modulo(self.segments.front()),
            high: modulo(self.high),
        }
    }

    /// Takes the acknowledgement of all segments before number `nr` modulo 128. True where the front advanced.
    pub fn acked(&mut self, nr: u8) -> Result<bool, BadAck>
        ensures answer { (o : Outgoing) → StandsOut self.old o
            → MatchResult result (Advances self.new o (acknowledged nr o)) (RefusesAck nr o (acknowledged nr o)) }
        ensures unchanged { OnErr result (self.new ≡ self.old) }
        ensures terms { SameTerms self.old self.new }
    {
        match meant_by(self.segments.front(), self.high, nr) {
            Some(number) => Ok(self.advance(number)),
            None => Err(self.bad_ack(nr)),
        }
    }

    /// Takes an acknowledgement by REJ: sending goes on from its number.
    pub fn rejected(&mut self, nr: u8) -> Result<bool, BadAck>
        ensures answer { (o : Outgoing) → StandsOut self.old o
            → MatchResult result (Advances self.new o (rejected nr o)) (RefusesAck nr o (rejected nr o)) }
        ensures unchanged { OnErr result (self.new ≡ self.old) }
        ensures terms { SameTerms self.old self.new }
    {
        let advances = self.acked(nr)?;
        self.from = self.segments.front();
        Ok(advances)
    }

    /// Number `nr` modulo 128 alone is to be sent again. It acknowledges nothing.
    pub fn selected(&mut self, nr: u8) -> Result<(), BadAck>
        ensures answer { (o : Outgoing) → StandsOut self.old o
            → MatchResult result (λ _. Follows self.new (selected nr o)) (RefusesAck nr o (selected nr o)) }
        ensures unchanged { OnErr result (self.new ≡ self.old) }
        ensures terms { SameTerms self.old self.new }
    {
        if self.outstanding() {
            if let Some(number) = meant_by(self.segments.front(), self.high - 1, nr) {
                self.segments.choose(number);
                return Ok(());
            }
        }
        Err(self.bad_ack(nr))
    }

    /// A period has passed without an answer: one more try, and a poll is awaited.
    pub fn expire(&mut self) -> Result<(), Spent>
        requires { 1 ≤ self.old.window }
        ensures answer { (o : Outgoing) → StandsOut self.old o
            → MatchResult result (λ _. Follows self.new (expired o)) (SpendsAll o (expired o)) }
        ensures unchanged { OnErr result (self.new ≡ self.old) }
        ensures terms { SameTerms self.old self.new }
    {
        if self.count == self.tries {
            return Err(Spent {
                segment: self.segments.front(),
            });
        }
        self.count += 1;
        self.awaited = true;
        Ok(())
    }

    /// Takes the answer to a poll: as `rejected`, and no poll is awaited any more.
    pub fn replied(&mut self, nr: u8) -> Result<bool, BadAck>
        ensures answer { (o : Outgoing) → StandsOut self.old o
            → MatchResult result (Advances self.new o (replied nr o)) (RefusesAck nr o (replied nr o)) }
        ensures unchanged { OnErr result (self.new ≡ self.old) }
        ensures terms { SameTerms self.old self.new }
    {
        let advances = self.rejected(nr)?;
        self.segments.choose_none();
        self.awaited = false;
        if !self.outstanding() && !self.paused {
            self.count = 0;
        }
        Ok(advances)
    }

    /// The other end is busy: as `acked`, the retry count is 0, and nothing is sent until [`resumed`](Sender::resumed).
    pub fn paused(&mut self, nr: u8) -> Result<bool, BadAck>
        requires { nr < 128 }
        ensures answer { (o : Outgoing) → StandsOut self.old o
            → MatchResult result (Advances self.new o (option_map paused_at (acknowledged nr o))) (RefusesAck nr o (option_map paused_at (acknowledged nr o))) }
        ensures unchanged { OnErr result (self.new ≡ self.old) }
        ensures terms { SameTerms self.old self.new }
    {
        let advances = self.acked(nr)?;
        self.pause();
        Ok(advances)
    }

    /// Pauses without an acknowledgement, behind an answer to a poll that asks for it.
    pub fn pause(&mut self)
        ensures stands { (o : Outgoing) → StandsOut self.old o → StandsOut self.new (paused_at o) }
        ensures terms { SameTerms self.old self.new }
    {
        self.paused = true;
        self.count = 0;
    }

    /// The other end is no longer busy. Where it was, and neither a segment is outstanding nor a poll awaited, the retry count is 0.
    pub fn resumed(&mut self)
        ensures stands { (o : Outgoing) → StandsOut self.old o → StandsOut self.new (resumed o) }
        ensures terms { SameTerms self.old self.new }
    {
        if self.paused {
            self.paused = false;
            if !self.outstanding() && !self.awaited {
                self.count = 0;
            }
        }
    }

    /// Whether the other end counts as busy.
    pub fn is_paused(&self) -> bool
        ensures { (o : Outgoing) → StandsOut self.now o → result ≡ o.paused }
    {
        self.paused
    }

    /// The number of segments that are acknowledged.
    pub fn front(&self) -> u64
        ensures value { result ≡ self.now.front }
        ensures front { (o : Outgoing) → StandsOut self.now o → result ≡ o.front }
    {
        self.segments.front()
    }

    /// Whether the file has ended and every segment is acknowledged.
    pub fn whole(&self) -> bool
        ensures { (o : Outgoing) → StandsOut self.now o → result ≡ is_whole o }
    {
        self.ended && self.segments.front() == self.segments.end()
    }

    /// Whether a segment was sent that isn't acknowledged.
    pub fn outstanding(&self) -> bool
        ensures value { result ≡ nat_lt self.now.front self.now.high }
        ensures outstanding { (o : Outgoing) → StandsOut self.now o → result ≡ is_outstanding o }
    {
        self.segments.front() < self.high
    }

    /// Whether a poll is awaited.
    pub fn awaiting(&self) -> bool
        ensures { (o : Outgoing) → StandsOut self.now o → result ≡ o.awaited }
    {
        self.awaited
    }
}
