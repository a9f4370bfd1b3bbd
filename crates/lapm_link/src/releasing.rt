// An originator that takes the link down.
ghost use Rattle.lapm_frames.specs.Sendable.{IsSendable};
ghost use Rattle.std.specs.Prelude.{◌≡◌, ◌<◌, ◌^◌, IfOk, OnErr};
ghost use Rattle.lapm_link.specs.Fits.{IsSetUp};

use crate::answer::without_adp;
use crate::attempt::Attempt;
use crate::{AnyEnd, Arrives, Broken, Closed, LentArrived, Sent, Setup};
use lapm_frames::Frame;
use link_account::Answer;
use xid_params::Terms;

/// An originator that sends its DISC until it is answered.
#[derive(Drop)]
pub struct Releasing {
    /// The setup that the end was made with.
    pub(crate) setup: Setup,
    /// The answer that it owes.
    pub(crate) answer: Option<Answer>,
    /// The terms that were agreed on.
    pub(crate) terms: Terms,
    /// How many segments were acknowledged.
    pub(crate) front: u64,
    /// The tries of the end's DISC.
    pub(crate) attempt: Attempt,
    ghost set_up: { IsSetUp setup },
}

impl Releasing {
    ghost use Rattle.link_account.specs.Account.{Account};
    ghost use Rattle.link_account.specs.Hear.{on_releasing, hear};
    ghost use Rattle.link_account.specs.Speak.{speak, speak_releasing};
    ghost use Rattle.lapm_link.specs.Stands.{StandsFor, Hears, Speaks, TakesNothing, taken_of};
    ghost use Rattle.link_account.specs.Numbers.{IsNumbered};

    fn on_frame(self, frame: &Frame) -> AnyEnd
        ensures hears { (a : Account) → StandsFor (AnyEnd.Releasing self) a → Hears (on_releasing frame.now a) a (Ok result) }
        ensures counted { taken_of result ≡ 0 }
    {
        match frame {
            Frame::Ua { pf: true } | Frame::Dm { pf: true } => AnyEnd::Closed(Closed {
                setup: self.setup,
                answer: self.answer,
                terms: self.terms,
            }),
            _ => AnyEnd::Releasing(self),
        }
    }

    /// What the end becomes by what it hears in this turn.
    pub fn hear<A: Arrives>(self, turn: u64, arrived: &A) -> Result<AnyEnd, Broken>
        requires turn { turn < 2 ^ 40 }
        requires numbers { IsNumbered (A.arrival arrived.now) }
        ensures hears { (a : Account) → StandsFor (AnyEnd.Releasing self) a → Hears (hear turn (A.arrival arrived.now) a) a result }
        ensures counted { IfOk result (λ end. taken_of end ≡ 0) }
    {
        let _ = turn;
        match arrived.lent() {
            LentArrived::Nothing => {
                let mut end = self;
                end.answer = without_adp(end.answer);
                Ok(AnyEnd::Releasing(end))
            }
            LentArrived::Pattern(_) => Ok(AnyEnd::Releasing(self)),
            LentArrived::Frame(frame) => Ok(self.on_frame(frame)),
        }
    }

    /// What the end sends in this turn, and then is. It breaks once all its tries are spent.
    pub fn speak(self, turn: u64, release: bool, sent: &mut Sent) -> Result<AnyEnd, Broken>
        requires { turn < 2 ^ 40 }
        ensures speaks { (a : Account) → StandsFor (AnyEnd.Releasing self) a → Speaks (speak turn release a) a sent.old sent.new result }
        ensures takes_nothing { IfOk result (TakesNothing (AnyEnd.Releasing self)) }
        ensures sendable { IfOk result (λ _. IsSendable sent.new) }
        ensures unchanged { OnErr result (sent.new ≡ sent.old) }
    {
        let _ = release;
        let mut end = self;
        let setup = end.setup;
        let terms = end.terms;
        let front = end.front;
        let frame = Frame::Disc { pf: true };
        match end.attempt.speak(turn, &setup, front, frame) {
            Ok(said) => {
                *sent = said;
                Ok(AnyEnd::Releasing(end))
            }
            Err(fault) => Err(Broken::new(fault, setup, terms)),
        }
    }
}
