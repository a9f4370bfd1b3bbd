// What a Connected end sends: the timers, and one function a step.
ghost use Rattle.std.specs.Prelude.{◌≡◌, ◌<◌, ◌^◌, true, false, IfOk, IfSome, OnErr};
ghost use Rattle.lapm_frames.specs.declared.frame.Frame.{Frame};
ghost use Rattle.break_signals.specs.Words.{number_of, spelled};
ghost use Rattle.lapm_frames.specs.Sendable.{IsSendable};
ghost use Rattle.lapm_frames.specs.declared.sent.Sent.{Sent};
ghost use Rattle.lapm_receiver.specs.Incoming.{asks};
ghost use Rattle.link_account.specs.Speak.{ready_frame};

use crate::answer::slot_of;
use crate::attempt::Attempt;
use crate::carried::carried;
use crate::connected::Connected;
use crate::releasing::Releasing;
use crate::timer::{spent, started};
use crate::{AnyEnd, Broken, LinkFault, Sent};
use break_signals::{BreakWord, write_break};
use frame_check::Info;
use lapm_frames::Frame;
use shared_terms::is_expired;

/// A break's word as it is sent.
fn word_slot(word: &BreakWord) -> Sent
    requires { number_of word.now < 2 }
    ensures sent { result ≡ Sent.Frame (Frame.Ui true false (spelled word.now)) }
    ensures sendable { IsSendable result }
{
    let mut info = Info::new();
    write_break(word, &mut info);
    Sent::Frame(Frame::Ui {
        command: true,
        pf: false,
        info: carried(info),
    })
}

/// RR, or RNR where the end is busy.
fn ready_frame(busy: bool, command: bool, nr: u8, pf: bool) -> Frame
    ensures { result ≡ ready_frame busy command nr pf }
{
    if busy {
        Frame::Rnr { command, nr, pf }
    } else {
        Frame::Rr { command, nr, pf }
    }
}

// The timers.
impl Connected {
    ghost use Rattle.link_account.specs.Account.{Account};
    ghost use Rattle.link_account.specs.Speak.{timer_expires, on_timer, on_break_timer};
    ghost use Rattle.lapm_link.specs.Stands.{Links, Becomes, SameTaken};

    fn timer_expires(&self, turn: u64) -> bool
        ensures { (a : Account) → Links self.now a → result ≡ timer_expires turn a a.wait.timer }
    {
        match self.wait.timer {
            None => false,
            Some(set) => is_expired(set, self.setup.period, turn),
        }
    }

    /// Where the sender's timer expires, the end polls.
    fn on_timer(&mut self, turn: u64) -> Result<(), LinkFault>
        ensures becomes { (a : Account) → Links self.old a → Becomes (on_timer turn a) self.new result }
        ensures same { SameTaken self.old self.new }
    {
        if !self.timer_expires(turn) {
            return Ok(());
        }
        match self.sender.expire() {
            Ok(()) => {
                self.wait.poll = true;
                self.wait.timer = Some(turn);
                Ok(())
            }
            Err(all) => Err(spent(all.segment, turn, &self.setup)),
        }
    }

    /// Where the timer of the break that waits expires, that goes again.
    fn on_break_timer(&mut self, turn: u64) -> Result<(), LinkFault>
        requires { turn < 2 ^ 40 }
        ensures becomes { (a : Account) → Links self.old a → Becomes (on_break_timer turn a) self.new result }
        ensures same { SameTaken self.old self.new }
    {
        match self
            .breaks
            .own
            .tick(turn, self.setup.period, self.setup.tries)
        {
            Ok(()) => Ok(()),
            Err(_) => Err(spent(self.sender.front(), turn, &self.setup)),
        }
    }
}

// The steps.
impl Connected {
    ghost use Rattle.link_account.specs.Account.{Account};
    ghost use Rattle.link_account.specs.Speak.{tells, has_news, says_asking, else_says, step1, step2, step3, step4, step5, step6, step7, step8, step9, steps};
    ghost use Rattle.lapm_link.specs.Stands.{Links, Gives, SaysLinked, SameTaken};

    /// An answer that is due.
    fn say_answer(&mut self) -> Option<Sent>
        ensures gives { (a : Account) → Links self.old a → Gives (step1 a) a self.new result }
        ensures same { SameTaken self.old self.new }
        ensures sendable { IfSome result IsSendable }
    {
        match self.owes.answer {
            None => None,
            Some(answer) => {
                self.owes.answer = None;
                Some(slot_of(answer, &self.setup))
            }
        }
    }

    /// RR, or RNR where the end is busy, with the next number expected, which acknowledges all before it.
    fn say_ready(&mut self, command: bool, pf: bool) -> Sent
        ensures says { (a : Account) → Links self.old a → SaysLinked (tells command pf a) self.new result }
        ensures same { SameTaken self.old self.new }
        ensures sendable { IsSendable result }
    {
        let nr = self.receiver.nr();
        self.receiver.told();
        self.owes.busy_told = self.owes.busy;
        Sent::Frame(ready_frame(self.owes.busy, command, nr, pf))
    }

    /// The reply to a poll.
    fn say_reply(&mut self) -> Option<Sent>
        ensures gives { (a : Account) → Links self.old a → Gives (step2 a) a self.new result }
        ensures same { SameTaken self.old self.new }
        ensures sendable { IfSome result IsSendable }
    {
        if !self.owes.reply {
            return None;
        }
        self.owes.reply = false;
        Some(self.say_ready(false, true))
    }

    /// A poll.
    fn say_poll(&mut self) -> Option<Sent>
        ensures gives { (a : Account) → Links self.old a → Gives (step3 a) a self.new result }
        ensures same { SameTaken self.old self.new }
        ensures sendable { IfSome result IsSendable }
    {
        if !self.wait.poll {
            return None;
        }
        self.wait.poll = false;
        Some(self.say_ready(true, true))
    }

    /// The first I frame behind the answer to a poll.
    fn say_urgent(&mut self, turn: u64) -> Option<Sent>
        ensures gives { (a : Account) → Links self.old a → Gives (step4 turn a) a self.new result }
        ensures same { SameTaken self.old self.new }
        ensures sendable { IfSome result IsSendable }
    {
        if !self.wait.urgent {
            return None;
        }
        self.say_segment(turn)
    }

    /// The answer to a break, else an own one.
    fn say_break(&mut self, special: bool) -> Option<Sent>
        ensures gives { (a : Account) → Links self.old a → Gives (step5 special a) a self.new result }
        ensures same { SameTaken self.old self.new }
        ensures sendable { IfSome result IsSendable }
    {
        if special {
            return None;
        }
        if let Some(word) = self.breaks.their.due() {
            self.breaks.their.sent();
            self.special = true;
            return Some(word_slot(&word));
        }
        if let Some(word) = self.breaks.own.due() {
            self.breaks.own.sent();
            self.special = true;
            return Some(word_slot(&word));
        }
        None
    }

    /// Whether the other end is to be told that this one became busy, or no longer is. An answerer tells once it has heard a number.
    fn has_news(&self) -> bool
        ensures { (a : Account) → Links self.now a → result ≡ has_news a }
    {
        self.owes.busy != self.owes.busy_told && (self.setup.role.is_originator() || self.numbered)
    }

    /// What the other end is to be told, else a REJ or an SREJ where the end isn't busy.
    fn say_news(&mut self, special: bool) -> Option<Sent>
        ensures gives { (a : Account) → Links self.old a → Gives (step6 special a) a self.new result }
        ensures same { SameTaken self.old self.new }
        ensures sendable { IfSome result IsSendable }
    {
        if self.has_news() {
            return Some(self.say_ready(false, false));
        }
        if self.owes.busy {
            return None;
        }
        self.say_asking(special)
    }

    /// A REJ, or an SREJ.
    fn say_asking(&mut self, special: bool) -> Option<Sent>
        ensures gives { (a : Account) → Links self.old a → Gives (says_asking a.incoming.srej special (asks a.incoming) a) a self.new result }
        ensures same { SameTaken self.old self.new }
        ensures sendable { IfSome result IsSendable }
    {
        let nr = self.receiver.ask()?;
        if !self.terms.srej {
            self.receiver.asked();
            self.receiver.told();
            self.owes.busy_told = false;
            return Some(Sent::Frame(Frame::Rej {
                command: false,
                nr,
                pf: false,
            }));
        }
        if special {
            return None;
        }
        self.receiver.asked();
        self.special = true;
        Some(Sent::Frame(Frame::Srej {
            command: false,
            nr,
            pf: false,
        }))
    }

    /// An I frame. An answerer sends none before it has heard a number.
    fn say_segment(&mut self, turn: u64) -> Option<Sent>
        ensures gives { (a : Account) → Links self.old a → Gives (step7 turn a) a self.new result }
        ensures same { SameTaken self.old self.new }
        ensures sendable { IfSome result IsSendable }
    {
        if !self.setup.role.is_originator() && !self.numbered {
            return None;
        }
        let mut info = Info::new();
        let ns = self.sender.next(&mut info)?;
        let nr = self.receiver.nr();
        self.receiver.told();
        self.wait.urgent = false;
        self.wait.timer = started(self.wait.timer, turn);
        Some(Sent::Frame(Frame::I {
            ns,
            nr,
            pf: false,
            info: carried(info),
        }))
    }

    /// The acknowledgement that is owed.
    fn say_acknowledgement(&mut self) -> Option<Sent>
        ensures gives { (a : Account) → Links self.old a → Gives (step8 a) a self.new result }
        ensures same { SameTaken self.old self.new }
        ensures sendable { IfSome result IsSendable }
    {
        if !self.receiver.owed() {
            return None;
        }
        Some(self.say_ready(false, false))
    }

    /// The first step that gives something, else flags.
    fn first_step(&mut self, turn: u64, special: bool) -> Sent
        ensures says { (a : Account) → Links self.old a → SaysLinked (steps turn special a) self.new result }
        ensures same { SameTaken self.old self.new }
        ensures sendable { IsSendable result }
    {
        if let Some(sent) = self.say_answer() {
            return sent;
        }
        if let Some(sent) = self.say_reply() {
            return sent;
        }
        if let Some(sent) = self.say_poll() {
            return sent;
        }
        if let Some(sent) = self.say_urgent(turn) {
            return sent;
        }
        self.later_step(turn, special)
    }

    /// The first that gives something of the steps behind an urgent segment, else flags.
    fn later_step(&mut self, turn: u64, special: bool) -> Sent
        ensures says { (a : Account) → Links self.old a
            → SaysLinked (else_says (step5 special a) (else_says (step6 special a) (else_says (step7 turn a) (else_says (step8 a) (step9 a))))) self.new result }
        ensures same { SameTaken self.old self.new }
        ensures sendable { IsSendable result }
    {
        if let Some(sent) = self.say_break(special) {
            return sent;
        }
        if let Some(sent) = self.say_news(special) {
            return sent;
        }
        if let Some(sent) = self.say_segment(turn) {
            return sent;
        }
        if let Some(sent) = self.say_acknowledgement() {
            return sent;
        }
        Sent::Flags
    }
}

// The whole of a speaking.
impl Connected {
    ghost use Rattle.link_account.specs.declared.phase.Phase.{Phase};
    ghost use Rattle.link_account.specs.Account.{Account};
    ghost use Rattle.link_account.specs.Hear.{trying};
    ghost use Rattle.link_account.specs.Speak.{speak_linked, speak};
    ghost use Rattle.lapm_link.specs.Stands.{Links, StandsFor, Speaks, SpeaksLinked, SameTaken, TakesNothing};

    /// The timers first, and then a step.
    fn say(&mut self, turn: u64) -> Result<Sent, LinkFault>
        requires { turn < 2 ^ 40 }
        ensures speaks { (a : Account) → Links self.old a → SpeaksLinked (speak_linked turn a) self.new result }
        ensures same { SameTaken self.old self.new }
        ensures sendable { IfOk result IsSendable }
    {
        let special = self.special;
        self.on_timer(turn)?;
        self.on_break_timer(turn)?;
        self.special = false;
        Ok(self.first_step(turn, special))
    }

    /// The link is taken down from this turn on.
    fn release(self, turn: u64) -> Releasing
        ensures { (a : Account) → Links self a → StandsFor (AnyEnd.Releasing result) (trying Phase.Releasing turn a) }
    {
        Releasing {
            setup: self.setup,
            answer: self.owes.answer,
            terms: self.terms,
            front: self.sender.front(),
            attempt: Attempt::new(turn, &self.setup),
        }
    }

    /// What the end sends in this turn, and then is. An originator that is told to release begins to take the link down. The end breaks
    /// once all tries of a poll or of a break are spent.
    pub fn speak(self, turn: u64, release: bool, sent: &mut Sent) -> Result<AnyEnd, Broken>
        requires { turn < 2 ^ 40 }
        ensures speaks { (a : Account) → StandsFor (AnyEnd.Connected self) a → Speaks (speak turn release a) a sent.old sent.new result }
        ensures takes_nothing { IfOk result (TakesNothing (AnyEnd.Connected self)) }
        ensures sendable { IfOk result (λ _. IsSendable sent.new) }
        ensures unchanged { OnErr result (sent.new ≡ sent.old) }
    {
        if release && self.setup.role.is_originator() {
            return self.release(turn).speak(turn, release, sent);
        }
        let mut end = self;
        match end.say(turn) {
            Ok(said) => {
                *sent = said;
                Ok(AnyEnd::Connected(end))
            }
            Err(fault) => Err(Broken::new(fault, end.setup, end.terms)),
        }
    }
}
