// An originator that sets the link up.
ghost use Rattle.lapm_frames.specs.Sendable.{IsSendable};
ghost use Rattle.std.specs.Prelude.{◌≡◌, ◌<◌, ◌^◌, IfOk, OnErr};

use crate::attempt::Attempt;
use crate::unlinked::Agreed;
use crate::{AnyEnd, Arrives, Broken, LentArrived, LinkFault, Sent};
use lapm_frames::Frame;

/// An originator that sends its SABME until it is answered.
#[derive(Drop)]
pub struct Establishing {
    /// With the terms of both offers.
    pub(crate) agreed: Agreed,
    /// The tries of the end's SABME.
    pub(crate) attempt: Attempt,
}

impl Establishing {
    ghost use Rattle.link_account.specs.declared.phase.Phase.{Phase};
    ghost use Rattle.link_account.specs.Account.{Account};
    ghost use Rattle.link_account.specs.Hear.{on_establishing, hear, trying};
    ghost use Rattle.link_account.specs.Speak.{speak};
    ghost use Rattle.lapm_link.specs.Stands.{IsUnlinked, StandsFor, Hears, Speaks, TakesNothing, taken_of};
    ghost use Rattle.link_account.specs.Numbers.{IsNumbered};

    /// An end that begins to establish the link in this turn.
    pub(crate) fn new(agreed: Agreed, turn: u64) -> Establishing
        ensures { (a : Account) → IsUnlinked agreed.memory.setup agreed.memory.answer a → agreed.terms ≡ a.terms
            → StandsFor (AnyEnd.Establishing result) (trying Phase.Establishing turn a) }
    {
        let attempt = Attempt::new(turn, &agreed.memory.setup);
        Establishing { agreed, attempt }
    }

    fn on_frame(self, frame: &Frame, turn: u64) -> Result<AnyEnd, Broken>
        ensures hears { (a : Account) → StandsFor (AnyEnd.Establishing self) a → Hears (on_establishing frame.now turn a) a result }
        ensures counted { IfOk result (λ end. taken_of end ≡ 0) }
    {
        match frame {
            Frame::Ua { pf: true } => Ok(AnyEnd::Connected(self.agreed.connect(turn))),
            Frame::Dm { pf: true } => Err(Broken::new(
                LinkFault::PeerRefused,
                self.agreed.memory.setup,
                self.agreed.terms,
            )),
            _ => Ok(AnyEnd::Establishing(self)),
        }
    }

    /// What the end becomes by what it hears in this turn.
    pub fn hear<A: Arrives>(self, turn: u64, arrived: &A) -> Result<AnyEnd, Broken>
        requires turn { turn < 2 ^ 40 }
        requires numbers { IsNumbered (A.arrival arrived.now) }
        ensures hears { (a : Account) → StandsFor (AnyEnd.Establishing self) a → Hears (hear turn (A.arrival arrived.now) a) a result }
        ensures counted { IfOk result (λ end. taken_of end ≡ 0) }
    {
        match arrived.lent() {
            LentArrived::Nothing => {
                let mut end = self;
                end.agreed.memory.hear_nothing();
                Ok(AnyEnd::Establishing(end))
            }
            LentArrived::Pattern(_) => Ok(AnyEnd::Establishing(self)),
            LentArrived::Frame(frame) => self.on_frame(frame, turn),
        }
    }

    /// What the end sends in this turn, and then is. It breaks once all its tries are spent.
    pub fn speak(self, turn: u64, release: bool, sent: &mut Sent) -> Result<AnyEnd, Broken>
        requires { turn < 2 ^ 40 }
        ensures speaks { (a : Account) → StandsFor (AnyEnd.Establishing self) a → Speaks (speak turn release a) a sent.old sent.new result }
        ensures takes_nothing { IfOk result (TakesNothing (AnyEnd.Establishing self)) }
        ensures sendable { IfOk result (λ _. IsSendable sent.new) }
        ensures unchanged { OnErr result (sent.new ≡ sent.old) }
    {
        let _ = release;
        let mut end = self;
        let setup = end.agreed.memory.setup;
        let terms = end.agreed.terms;
        let frame = Frame::Sabme { pf: true };
        match end.attempt.speak(turn, &setup, 0, frame) {
            Ok(said) => {
                *sent = said;
                Ok(AnyEnd::Establishing(end))
            }
            Err(fault) => Err(Broken::new(fault, setup, terms)),
        }
    }
}
