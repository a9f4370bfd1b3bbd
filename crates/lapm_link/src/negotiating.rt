// An end that negotiates.
ghost use Rattle.lapm_frames.specs.Sendable.{IsSendable};
ghost use Rattle.std.specs.Prelude.{◌≡◌, ◌<◌, ◌^◌, IfOk, OnErr};

use crate::answering::Answering;
use crate::asking::Asking;
use crate::{AnyEnd, Arrives, Broken, Sent};

/// An end that negotiates: the originator sends its offer until the other one comes, and the answerer has heard one.
#[derive(Drop)]
pub struct Negotiating {
    /// The end's side of the negotiation.
    pub(crate) talk: Talk,
}

#[derive(Drop)]
pub(crate) enum Talk {
    /// The originator.
    Asking(Asking),
    /// The answerer.
    Answering(Answering),
}

impl Negotiating {
    ghost use Rattle.link_account.specs.Account.{Account};
    ghost use Rattle.lapm_link.specs.Stands.{Negotiates};

    /// Whether the check of 32 bits is agreed.
    pub(crate) fn has_long_check(&self) -> bool
        ensures { (a : Account) → Negotiates self.now.talk a → result ≡ a.terms.check32 }
    {
        match &self.talk {
            Talk::Asking(_) => false,
            Talk::Answering(answering) => answering.agreed.terms.check32,
        }
    }
}

impl Negotiating {
    ghost use Rattle.link_account.specs.Account.{Account};
    ghost use Rattle.link_account.specs.Hear.{hear};
    ghost use Rattle.link_account.specs.Speak.{speak};
    ghost use Rattle.lapm_link.specs.Stands.{StandsFor, Hears, Speaks, TakesNothing, taken_of};
    ghost use Rattle.link_account.specs.Numbers.{IsNumbered};

    /// What the end becomes by what it hears in this turn.
    pub fn hear<A: Arrives>(self, turn: u64, arrived: &A) -> Result<AnyEnd, Broken>
        requires turn { turn < 2 ^ 40 }
        requires numbers { IsNumbered (A.arrival arrived.now) }
        ensures hears { (a : Account) → StandsFor (AnyEnd.Negotiating self) a → Hears (hear turn (A.arrival arrived.now) a) a result }
        ensures counted { IfOk result (λ end. taken_of end ≡ 0) }
    {
        match self.talk {
            Talk::Asking(asking) => asking.hear(turn, arrived),
            Talk::Answering(answering) => Ok(answering.hear(turn, arrived)),
        }
    }

    /// What the end sends in this turn, and then is. The originator breaks once all its tries are spent.
    pub fn speak(self, turn: u64, release: bool, sent: &mut Sent) -> Result<AnyEnd, Broken>
        requires { turn < 2 ^ 40 }
        ensures speaks { (a : Account) → StandsFor (AnyEnd.Negotiating self) a → Speaks (speak turn release a) a sent.old sent.new result }
        ensures takes_nothing { IfOk result (TakesNothing (AnyEnd.Negotiating self)) }
        ensures sendable { IfOk result (λ _. IsSendable sent.new) }
        ensures unchanged { OnErr result (sent.new ≡ sent.old) }
    {
        let _ = release;
        match self.talk {
            Talk::Asking(asking) => asking.speak(turn, sent),
            Talk::Answering(answering) => Ok(answering.speak(sent)),
        }
    }
}
