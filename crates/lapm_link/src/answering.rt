// An answerer that has heard an offer.
ghost use Rattle.lapm_frames.specs.Sendable.{IsSendable};
ghost use Rattle.std.specs.Prelude.{◌≡◌};
ghost use Rattle.shared_terms.specs.declared.role.Role.{Role};
ghost use Rattle.xid_params.specs.Offers.{IsAllowed, offer_in};
ghost use Rattle.xid_params.specs.Terms.{agree};

use crate::negotiating::{Negotiating, Talk};
use crate::offers::offer_of;
use crate::unlinked::{Agreed, Unlinked};
use crate::{AnyEnd, Arrives, LentArrived, Sent};
use frame_check::Info;
use lapm_frames::Frame;
use link_account::Answer;
use xid_params::Offer;

/// An answerer that has heard an offer. Each further one takes its place.
#[derive(Drop)]
pub(crate) struct Answering {
    /// With the terms of the latest offer.
    pub(crate) agreed: Agreed,
}

impl Answering {
    ghost use Rattle.link_account.specs.declared.answer.Answer.{Answer};
    ghost use Rattle.link_account.specs.declared.phase.Phase.{Phase};
    ghost use Rattle.lapm_link.specs.declared.any_end.AnyEnd.{AnyEnd};
    ghost use Rattle.lapm_link.specs.declared.negotiating.Talk.{Talk};
    ghost use Rattle.link_account.specs.Account.{Account};
    ghost use Rattle.link_account.specs.Hear.{on_xid_command, on_negotiating, hear, owing};
    ghost use Rattle.link_account.specs.Speak.{speak_answer};
    ghost use Rattle.lapm_link.specs.Stands.{IsUnlinked, IsAnswering, StandsFor, Hears, Speaks, TakesNothing, taken_of};

    /// An end that has heard this offer, and owes its own.
    pub(crate) fn new(memory: Unlinked, theirs: &Offer) -> Answering
        requires { IsAllowed theirs.now }
        ensures { (a : Account) → a.setup.role ≡ Role.Answerer → IsUnlinked memory.setup memory.answer a
            → IsAnswering result (owing Answer.Xid (record a { phase = Phase.Negotiating; terms = agree theirs.now a.setup.offer })) }
    {
        let mut memory = memory;
        memory.owe(Answer::Xid);
        Answering {
            agreed: memory.agree(theirs),
        }
    }

    pub(crate) fn end(self) -> AnyEnd
        ensures stands { (a : Account) → IsAnswering self a → StandsFor result a }
        ensures value { result ≡ AnyEnd.Negotiating (record { talk = Talk.Answering self }) }
    {
        AnyEnd::Negotiating(Negotiating {
            talk: Talk::Answering(self),
        })
    }

    /// An XID command. One whose information is refused is ignored.
    fn on_offer(self, info: &Info) -> AnyEnd
        ensures becomes { (a : Account) → IsAnswering self a → StandsFor result (on_xid_command (offer_in info.now) a) }
        ensures counted { taken_of result ≡ 0 }
    {
        match offer_of(info) {
            None => self.end(),
            Some(offer) => Answering::new(self.agreed.memory, &offer).end(),
        }
    }

    fn on_disc(self, pf: bool) -> AnyEnd
        ensures becomes { (a : Account) → IsAnswering self a → StandsFor result (owing (Answer.Dm pf) a) }
        ensures counted { taken_of result ≡ 0 }
    {
        let mut answering = self;
        answering.agreed.memory.owe(Answer::Dm { pf });
        answering.end()
    }

    fn on_frame(self, frame: &Frame, turn: u64) -> AnyEnd
        ensures hears { (a : Account) → IsAnswering self a → Hears (on_negotiating Role.Answerer frame.now turn a) a (Ok result) }
        ensures counted { taken_of result ≡ 0 }
    {
        match frame {
            Frame::Xid {
                command: true,
                info,
                ..
            } => self.on_offer(info),
            Frame::Sabme { pf } => AnyEnd::Connected(self.agreed.accept(*pf, turn)),
            Frame::Disc { pf } => self.on_disc(*pf),
            _ => self.end(),
        }
    }

    pub(crate) fn hear<A: Arrives>(self, turn: u64, arrived: &A) -> AnyEnd
        ensures hears { (a : Account) → IsAnswering self a → Hears (hear turn (A.arrival arrived.now) a) a (Ok result) }
        ensures counted { taken_of result ≡ 0 }
    {
        match arrived.lent() {
            LentArrived::Nothing => {
                let mut answering = self;
                answering.agreed.memory.hear_nothing();
                answering.end()
            }
            LentArrived::Pattern(_) => self.end(),
            LentArrived::Frame(frame) => self.on_frame(frame, turn),
        }
    }

    pub(crate) fn speak(self, sent: &mut Sent) -> AnyEnd
        ensures speaks { (a : Account) → IsAnswering self a → Speaks (speak_answer a) a sent.old sent.new (Ok result) }
        ensures takes_nothing { TakesNothing (AnyEnd.Negotiating (record { talk = Talk.Answering self })) result }
        ensures sendable { IsSendable sent.new }
    {
        let mut answering = self;
        *sent = answering.agreed.memory.say_answer(Sent::Flags);
        answering.end()
    }
}
