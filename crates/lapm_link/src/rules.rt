// What a Connected end becomes by what it hears: one function a rule.
ghost use Rattle.std.specs.Prelude.{◌≡◌, ◌≢◌, ◌&&◌, Bool, ℕ, ◌+◌, ◌<◌, ◌≤◌, ◌^◌, length, IfOk, nat_lt, if◌then◌else◌, Option, None, Result, MatchResult};
ghost use Rattle.std.specs.Option.{option_map};
ghost use Rattle.lapm_sender.specs.Outgoing.{Outgoing, replied, resumed};
ghost use Rattle.lapm_sender.specs.Sending.{StandsOut, Advances, RefusesAck};
ghost use Rattle.lapm_link.specs.Taking.{taken_as, readied};
ghost use Rattle.break_signals.specs.Words.{word_in};

use crate::answer::without_adp;
use crate::connected::Connected;
use crate::number::{Meaning, Readiness, heard};
use crate::{AnyEnd, Arrives, Broken, Closed, LentArrived, LinkFault};
use break_signals::{BreakWord, read_break};
use frame_check::Info;
use lapm_frames::Frame;
use lapm_sender::BadAck;
use link_account::Answer;
use shared_terms::Role;

/// What the end breaks by, where an acknowledgement is of no number that was sent.
fn bad_ack(bad: BadAck) -> LinkFault
    ensures { result ≡ LinkFault.BadAck bad.nr bad.va bad.high }
{
    LinkFault::BadAck {
        nr: bad.nr,
        va: bad.va,
        high: bad.high,
    }
}

/// What a sender waits for.
#[derive(Clone, Copy)]
struct Waits {
    /// The answer to a poll.
    awaiting: bool,
    /// The end of the other one's pause.
    paused: bool,
}

// The number of a frame.
impl Connected {
    ghost use Rattle.link_account.specs.Account.{Account};
    ghost use Rattle.link_account.specs.Hear.{timer_after, on_number};
    ghost use Rattle.lapm_link.specs.Stands.{AreWaits, Links, LinksBeside, Becomes, SameTaken};

    /// What the sender waits for.
    fn waits(&self) -> Waits
        ensures { (a : Account) → Links self.now a → AreWaits result a.outgoing }
    {
        Waits {
            awaiting: self.sender.awaiting(),
            paused: self.sender.is_paused(),
        }
    }

    /// The sender's timer behind an N(R), by what it waited for before and whether the front advanced.
    fn timer_after(&self, turn: u64, before: Waits, advanced: bool) -> Option<u64>
        ensures { (old new : Outgoing) → StandsOut self.now.sender new → AreWaits before old → advanced ≡ nat_lt old.front new.front
            → result ≡ timer_after turn old new self.now.wait.timer }
    {
        let awaiting = self.sender.awaiting();
        let paused = self.sender.is_paused();
        let waits = self.sender.outstanding() || (awaiting || paused);
        let ended = (before.awaiting && !awaiting) || (before.paused && !paused);
        if ended && !waits {
            return None;
        }
        if !advanced {
            return self.wait.timer;
        }
        if waits { Some(turn) } else { None }
    }

    /// The sender has taken the number of an I frame or of a supervisory frame, or refused it.
    fn count(
        &mut self,
        turn: u64,
        before: Waits,
        taken: Result<bool, BadAck>,
    ) -> Result<(), LinkFault>
        ensures becomes { (a : Account) (after : Option Outgoing) (nr : ℕ)
            → LinksBeside self.old.setup self.old.terms self.old.receiver self.old.breaks self.old.owes self.old.wait self.old.numbered self.old.special a
            → AreWaits before a.outgoing
            → MatchResult taken (Advances self.old.sender a.outgoing after) (RefusesAck nr a.outgoing after)
            → Becomes (on_number turn nr after a) self.new result }
        ensures same { SameTaken self.old self.new }
    {
        match taken {
            Ok(advanced) => {
                self.wait.timer = self.timer_after(turn, before, advanced);
                self.numbered = true;
                Ok(())
            }
            Err(bad) => Err(bad_ack(bad)),
        }
    }

    /// The number of a frame, by what it means, and what the frame says of the other end.
    fn on_number(
        &mut self,
        turn: u64,
        nr: u8,
        meaning: Meaning,
        readiness: Readiness,
    ) -> Result<(), LinkFault>
        requires { nr < 128 }
        ensures becomes { (a : Account) → Links self.old a
            → Becomes (on_number turn nr (readied readiness (taken_as meaning nr a.outgoing)) a) self.new result }
        ensures same { SameTaken self.old self.new }
    {
        let before = self.waits();
        let taken = heard(&mut self.sender, nr, meaning, readiness);
        self.count(turn, before, taken)
    }
}

// The rules, one a kind of frame.
impl Connected {
    ghost use Rattle.link_account.specs.declared.answer.Answer.{Answer};
    ghost use Rattle.link_account.specs.Account.{Account};
    ghost use Rattle.link_account.specs.Hear.{on_number, ends_wait, then_in, hurrying, replying, on_i, on_rnr, on_srej, on_sabme, on_disc, on_word, peer_reset};
    ghost use Rattle.lapm_link.specs.Stands.{Links, StandsFor, Hears, Becomes, SameTaken, taken_of};

    fn on_i(&mut self, turn: u64, ns: u8, nr: u8, pf: bool, info: &Info) -> Result<(), LinkFault>
        requires ns { ns < 128 }
        requires nr { nr < 128 }
        requires counted { self.old.receiver.taken < 2 ^ 56 }
        requires delivered { length self.old.receiver.ready ≡ 0 }
        ensures becomes { (a : Account) → Links self.old a → Becomes (on_i turn ns nr pf info.now a) self.new result }
        ensures setup { self.new.setup ≡ self.old.setup }
        ensures terms { self.new.terms ≡ self.old.terms }
        ensures counted { self.new.receiver.taken ≤ self.old.receiver.taken + 128 }
    {
        self.on_number(turn, nr, Meaning::Acknowledges, Readiness::Unsaid)?;
        let _ = self.receiver.take(ns, info);
        self.owes.reply = self.owes.reply || pf;
        Ok(())
    }

    /// Whether a frame is the answer to the poll that is awaited.
    fn ends_wait(&self, command: bool, pf: bool) -> bool
        ensures { (a : Account) → Links self.now a → result ≡ ends_wait command pf a }
    {
        self.sender.awaiting() && pf && !command
    }

    fn on_rnr(&mut self, turn: u64, command: bool, nr: u8, pf: bool) -> Result<(), LinkFault>
        requires { nr < 128 }
        ensures becomes { (a : Account) → Links self.old a → Becomes (on_rnr turn command nr pf a) self.new result }
        ensures same { SameTaken self.old self.new }
    {
        let ends = self.ends_wait(command, pf);
        let meaning = if ends {
            Meaning::Replies
        } else {
            Meaning::Acknowledges
        };
        self.on_number(turn, nr, meaning, Readiness::Busy)?;
        self.owes.reply = self.owes.reply || command && pf;
        self.wait.timer = Some(turn);
        Ok(())
    }

    /// RR or REJ: the other end counts as busy no more.
    fn on_ready(
        &mut self,
        turn: u64,
        command: bool,
        nr: u8,
        pf: bool,
        otherwise: Meaning,
    ) -> Result<(), LinkFault>
        requires { nr < 128 }
        ensures becomes { (a : Account) → Links self.old a
            → Becomes (then_in (λ b. hurrying (ends_wait command pf a) (replying (command && pf) b))
            (on_number turn nr (option_map resumed (if ends_wait command pf a then replied nr a.outgoing else taken_as otherwise nr a.outgoing)) a)) self.new result }
        ensures same { SameTaken self.old self.new }
    {
        let ends = self.ends_wait(command, pf);
        let meaning = if ends { Meaning::Replies } else { otherwise };
        self.on_number(turn, nr, meaning, Readiness::Ready)?;
        self.owes.reply = self.owes.reply || command && pf;
        self.wait.urgent = self.wait.urgent || ends;
        Ok(())
    }

    /// The other end begins anew.
    fn peer_reset(&self) -> LinkFault
        ensures { (a : Account) → Links self.now a → result ≡ peer_reset a }
    {
        LinkFault::PeerReset {
            va: self.sender.front(),
            vr: self.receiver.taken(),
        }
    }

    /// An answerer that has heard no number yet owes a UA, and resets nothing.
    fn on_sabme(&mut self, pf: bool) -> Result<(), LinkFault>
        ensures becomes { (a : Account) → Links self.old a → Becomes (on_sabme pf a) self.new result }
        ensures same { SameTaken self.old self.new }
    {
        if self.numbered || self.setup.role.is_originator() {
            return Err(self.peer_reset());
        }
        self.owes.answer = Some(Answer::Ua { pf });
        Ok(())
    }

    fn on_disc(self, pf: bool) -> Result<AnyEnd, Broken>
        ensures hears { (a : Account) → Links self a → Hears (on_disc a.setup.role pf a) a result }
        ensures counted { IfOk result (λ end. taken_of end ≡ 0) }
    {
        match self.setup.role {
            Role::Originator => Err(Broken::new(LinkFault::PeerRefused, self.setup, self.terms)),
            Role::Answerer => Ok(AnyEnd::Closed(Closed {
                setup: self.setup,
                answer: Some(Answer::Ua { pf }),
                terms: self.terms,
            })),
        }
    }

    /// A break, or a break's answer. What is refused is ignored.
    fn on_word(&mut self, turn: u64, info: &Info)
        requires turn { turn < 2 ^ 40 }
        requires given { self.old.breaks.given ≡ None }
        ensures links { (a : Account) → Links self.old a → Links self.new (on_word turn (word_in info.now) a) }
        ensures setup { self.new.setup ≡ self.old.setup }
        ensures terms { self.new.terms ≡ self.old.terms }
        ensures counted { self.new.receiver.taken ≡ self.old.receiver.taken }
    {
        match read_break(info.as_slice()) {
            Ok(BreakWord::Brk { number, length }) => {
                self.breaks.given = self.breaks.their.take(number, length);
            }
            Ok(BreakWord::Ack { number, .. }) => self.breaks.own.answered(turn, number),
            Err(_) => {}
        }
    }
}

// What the end then is.
impl Connected {
    ghost use Rattle.link_account.specs.Account.{Account};
    ghost use Rattle.link_account.specs.Hear.{on_connected, hear};
    ghost use Rattle.shared_terms.specs.declared.fault.LinkFault.{LinkFault};
    ghost use Rattle.lapm_frames.specs.declared.frame.Frame.{Frame};
    ghost use Rattle.lapm_link.specs.Stands.{Links, StandsFor, Hears, Becomes, taken_of, undelivered_of, waiting_of};
    ghost use Rattle.link_account.specs.Numbers.{HasNumbers, IsNumbered};

    /// The end as a rule left it, or closed.
    fn after(self, heard: Result<(), LinkFault>) -> Result<AnyEnd, Broken>
        ensures hears { (a : Account) (becomes : Result Account LinkFault) → Becomes becomes self heard → self.setup ≡ a.setup → self.terms ≡ a.terms
            → Hears becomes a result }
        ensures counted { IfOk result (λ end. taken_of end ≤ self.receiver.taken) }
    {
        match heard {
            Ok(()) => Ok(AnyEnd::Connected(self)),
            Err(fault) => Err(Broken::new(fault, self.setup, self.terms)),
        }
    }

    /// A frame that is no DISC.
    fn on_other(&mut self, turn: u64, frame: &Frame) -> Result<(), LinkFault>
        requires turn { turn < 2 ^ 40 }
        requires numbers { HasNumbers frame.now }
        requires counted { self.old.receiver.taken < 2 ^ 56 }
        requires delivered { length self.old.receiver.ready ≡ 0 }
        requires given { self.old.breaks.given ≡ None }
        requires other { (pf : Bool) → frame.now ≢ Frame.Disc pf }
        ensures becomes { (a : Account) → Links self.old a → Becomes (on_connected frame.now turn a) self.new result }
        ensures setup { self.new.setup ≡ self.old.setup }
        ensures terms { self.new.terms ≡ self.old.terms }
        ensures counted { self.new.receiver.taken ≤ self.old.receiver.taken + 128 }
    {
        match frame {
            Frame::I { ns, nr, pf, info } => self.on_i(turn, *ns, *nr, *pf, info),
            Frame::Rr { command, nr, pf } => {
                self.on_ready(turn, *command, *nr, *pf, Meaning::Acknowledges)
            }
            Frame::Rnr { command, nr, pf } => self.on_rnr(turn, *command, *nr, *pf),
            // As RR, and sending goes on from its number.
            Frame::Rej { command, nr, pf } => {
                self.on_ready(turn, *command, *nr, *pf, Meaning::Rejects)
            }
            Frame::Srej { nr, .. } => {
                self.on_number(turn, *nr, Meaning::Selects, Readiness::Unsaid)
            }
            Frame::Sabme { pf } => self.on_sabme(*pf),
            Frame::Dm { .. } => Err(LinkFault::PeerRefused),
            Frame::Frmr { .. } => Err(self.peer_reset()),
            Frame::Ui { info, .. } => {
                self.on_word(turn, info);
                Ok(())
            }
            _ => Ok(()),
        }
    }

    fn on_frame(self, turn: u64, frame: &Frame) -> Result<AnyEnd, Broken>
        requires turn { turn < 2 ^ 40 }
        requires numbers { HasNumbers frame.now }
        requires counted { self.receiver.taken < 2 ^ 56 }
        requires delivered { length self.receiver.ready ≡ 0 }
        requires given { self.breaks.given ≡ None }
        ensures hears { (a : Account) → Links self a → Hears (on_connected frame.now turn a) a result }
        ensures counted { IfOk result (λ end. taken_of end ≤ self.receiver.taken + 128) }
    {
        if let Frame::Disc { pf } = frame {
            return self.on_disc(*pf);
        }
        let mut end = self;
        let heard = end.on_other(turn, frame);
        end.after(heard)
    }

    /// What the end becomes by what it hears in this turn. It breaks where an N(R) is of no number that was sent, and where the other
    /// end begins anew or refuses.
    pub fn hear<A: Arrives>(self, turn: u64, arrived: &A) -> Result<AnyEnd, Broken>
        requires turn { turn < 2 ^ 40 }
        requires numbers { IsNumbered (A.arrival arrived.now) }
        requires counted { taken_of (AnyEnd.Connected self) < 2 ^ 56 }
        requires delivered { undelivered_of (AnyEnd.Connected self) ≡ 0 }
        requires given { waiting_of (AnyEnd.Connected self) ≡ None }
        ensures hears { (a : Account) → StandsFor (AnyEnd.Connected self) a → Hears (hear turn (A.arrival arrived.now) a) a result }
        ensures counted { IfOk result (λ end. taken_of end ≤ taken_of (AnyEnd.Connected self) + 128) }
    {
        match arrived.lent() {
            LentArrived::Nothing => {
                let mut end = self;
                end.owes.answer = without_adp(end.owes.answer);
                Ok(AnyEnd::Connected(end))
            }
            LentArrived::Pattern(_) => Ok(AnyEnd::Connected(self)),
            LentArrived::Frame(frame) => self.on_frame(turn, frame),
        }
    }
}
