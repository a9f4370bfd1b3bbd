// An originator that sends its offer.
ghost use Rattle.lapm_frames.specs.Sendable.{IsSendable};
ghost use Rattle.std.specs.Prelude.{◌≡◌, IfOk, OnErr};
ghost use Rattle.shared_terms.specs.declared.role.Role.{Role};
ghost use Rattle.xid_params.specs.Offers.{offer_in};

use crate::attempt::Attempt;
use crate::establishing::Establishing;
use crate::negotiating::{Negotiating, Talk};
use crate::offers::{offer_of, spelled};
use crate::terms::first_terms;
use crate::unlinked::Unlinked;
use crate::{AnyEnd, Arrives, Broken, LentArrived, LinkFault, Sent};
use frame_check::Info;
use lapm_frames::Frame;

/// An originator that sends its offer until the other one comes.
#[derive(Drop)]
pub(crate) struct Asking {
    /// What the end will need once it is connected.
    pub(crate) memory: Unlinked,
    /// The tries of the end's XID command.
    pub(crate) attempt: Attempt,
}

impl Asking {
    ghost use Rattle.link_account.specs.declared.phase.Phase.{Phase};
    ghost use Rattle.lapm_link.specs.declared.any_end.AnyEnd.{AnyEnd};
    ghost use Rattle.lapm_link.specs.declared.negotiating.Talk.{Talk};
    ghost use Rattle.link_account.specs.Account.{Account, first_terms};
    ghost use Rattle.link_account.specs.Hear.{on_xid_response, on_negotiating, hear, trying};
    ghost use Rattle.link_account.specs.Speak.{speak_negotiating};
    ghost use Rattle.lapm_link.specs.Stands.{IsUnlinked, IsAsking, StandsFor, Hears, Speaks, TakesNothing, taken_of};

    /// An end that begins to ask in this turn.
    pub(crate) fn new(memory: Unlinked, turn: u64) -> Asking
        ensures { (a : Account) → a.setup.role ≡ Role.Originator → IsUnlinked memory.setup memory.answer a → a.terms ≡ first_terms
            → IsAsking result (trying Phase.Negotiating turn a) }
    {
        let attempt = Attempt::new(turn, &memory.setup);
        Asking { memory, attempt }
    }

    pub(crate) fn end(self) -> AnyEnd
        ensures stands { (a : Account) → IsAsking self a → StandsFor result a }
        ensures value { result ≡ AnyEnd.Negotiating (record { talk = Talk.Asking self }) }
    {
        AnyEnd::Negotiating(Negotiating {
            talk: Talk::Asking(self),
        })
    }

    /// An XID response. One whose information is refused is ignored.
    fn on_offer(self, info: &Info, turn: u64) -> AnyEnd
        ensures becomes { (a : Account) → IsAsking self a → StandsFor result (on_xid_response (offer_in info.now) turn a) }
        ensures counted { taken_of result ≡ 0 }
    {
        match offer_of(info) {
            None => self.end(),
            Some(offer) => AnyEnd::Establishing(Establishing::new(self.memory.agree(&offer), turn)),
        }
    }

    fn on_frame(self, frame: &Frame, turn: u64) -> Result<AnyEnd, Broken>
        ensures hears { (a : Account) → IsAsking self a → Hears (on_negotiating Role.Originator frame.now turn a) a result }
        ensures counted { IfOk result (λ end. taken_of end ≡ 0) }
    {
        match frame {
            Frame::Xid {
                command: false,
                info,
                ..
            } => Ok(self.on_offer(info, turn)),
            Frame::Dm { .. } => Err(Broken::new(
                LinkFault::PeerRefused,
                self.memory.setup,
                first_terms(),
            )),
            _ => Ok(self.end()),
        }
    }

    pub(crate) fn hear<A: Arrives>(self, turn: u64, arrived: &A) -> Result<AnyEnd, Broken>
        ensures hears { (a : Account) → IsAsking self a → Hears (hear turn (A.arrival arrived.now) a) a result }
        ensures counted { IfOk result (λ end. taken_of end ≡ 0) }
    {
        match arrived.lent() {
            LentArrived::Nothing => {
                let mut asking = self;
                asking.memory.hear_nothing();
                Ok(asking.end())
            }
            LentArrived::Pattern(_) => Ok(self.end()),
            LentArrived::Frame(frame) => self.on_frame(frame, turn),
        }
    }

    pub(crate) fn speak(self, turn: u64, sent: &mut Sent) -> Result<AnyEnd, Broken>
        ensures speaks { (a : Account) → IsAsking self a → Speaks (speak_negotiating Role.Originator turn a) a sent.old sent.new result }
        ensures takes_nothing { IfOk result (TakesNothing (AnyEnd.Negotiating (record { talk = Talk.Asking self }))) }
        ensures sendable { IfOk result (λ _. IsSendable sent.new) }
        ensures unchanged { OnErr result (sent.new ≡ sent.old) }
    {
        let mut asking = self;
        let setup = asking.memory.setup;
        let frame = Frame::Xid {
            command: true,
            pf: false,
            info: spelled(&setup.offer),
        };
        match asking.attempt.speak(turn, &setup, 0, frame) {
            Ok(said) => {
                *sent = said;
                Ok(asking.end())
            }
            Err(fault) => Err(Broken::new(fault, setup, first_terms())),
        }
    }
}
