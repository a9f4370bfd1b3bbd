// An end that looks for the other one.
ghost use Rattle.lapm_frames.specs.Sendable.{IsSendable};
ghost use Rattle.std.specs.Prelude.{◌≡◌, ◌<◌, ◌^◌, nat_le, IfOk, OnErr};
ghost use Rattle.shared_terms.specs.declared.role.Role.{Role};
ghost use Rattle.xid_params.specs.Offers.{offer_in};
ghost use Rattle.shared_terms.specs.Timer.{wait};
ghost use Rattle.lapm_link.specs.Fits.{IsSetUp};

use crate::answering::Answering;
use crate::asking::Asking;
use crate::offers::offer_of;
use crate::terms::first_terms;
use crate::unlinked::Unlinked;
use crate::{AnyEnd, Arrives, Broken, LentArrived, LinkFault, Sent, Setup};
use frame_check::Info;
use lapm_frames::{Frame, Seen};
use link_account::Answer;
use shared_terms::{NoMemory, Role, wait};
use std::alloc::Global;
use xid_params::default_offer;

/// An end that looks for the other one: the originator sends its pattern, and the answerer waits for it.
#[derive(Drop)]
pub struct Detecting {
    /// What the end will need once it is connected.
    pub(crate) memory: Unlinked,
}

impl Detecting {
    ghost use Rattle.link_account.specs.Account.{Account, fresh};
    ghost use Rattle.link_account.specs.Hear.{on_pattern, on_xid_command, on_detecting, hear};
    ghost use Rattle.link_account.specs.Speak.{speak};
    ghost use Rattle.lapm_link.specs.Stands.{StandsFor, Hears, Speaks, TakesNothing, taken_of};
    ghost use Rattle.link_account.specs.Numbers.{IsNumbered};

    /// An end that is set up so. It takes all the memory that the end will need.
    pub fn new(alloc: Global, setup: Setup) -> Result<Detecting, NoMemory>
        requires { IsSetUp setup }
        ensures { IfOk result (λ end. StandsFor (AnyEnd.Detecting end) (fresh setup)) }
    {
        let memory = Unlinked::new(alloc, setup)?;
        Ok(Detecting { memory })
    }

    fn on_pattern(self, seen: Seen, turn: u64) -> AnyEnd
        ensures becomes { (a : Account) → StandsFor (AnyEnd.Detecting self) a → StandsFor result (on_pattern a.setup.role seen turn a) }
        ensures counted { taken_of result ≡ 0 }
    {
        let mut memory = self.memory;
        match (memory.setup.role, seen) {
            (Role::Originator, Seen::Adp) => Asking::new(memory, turn).end(),
            (Role::Answerer, Seen::Odp) => {
                memory.owe(Answer::Adp);
                AnyEnd::Detecting(Detecting { memory })
            }
            _ => AnyEnd::Detecting(Detecting { memory }),
        }
    }

    /// An XID command. One whose information is refused is ignored.
    fn on_offer(self, info: &Info) -> AnyEnd
        ensures becomes { (a : Account) → StandsFor (AnyEnd.Detecting self) a → a.setup.role ≡ Role.Answerer
            → StandsFor result (on_xid_command (offer_in info.now) a) }
        ensures counted { taken_of result ≡ 0 }
    {
        match offer_of(info) {
            None => AnyEnd::Detecting(self),
            Some(offer) => Answering::new(self.memory, &offer).end(),
        }
    }

    /// A frame at an answerer.
    fn answer(self, frame: &Frame, turn: u64) -> AnyEnd
        ensures hears { (a : Account) → StandsFor (AnyEnd.Detecting self) a → a.setup.role ≡ Role.Answerer
            → Hears (on_detecting Role.Answerer frame.now turn a) a (Ok result) }
        ensures counted { taken_of result ≡ 0 }
    {
        match frame {
            Frame::Xid {
                command: true,
                info,
                ..
            } => self.on_offer(info),
            Frame::Sabme { pf } => {
                let agreed = self.memory.agree(&default_offer());
                AnyEnd::Connected(agreed.accept(*pf, turn))
            }
            _ => AnyEnd::Detecting(self),
        }
    }

    /// What the end becomes by what it hears in this turn.
    pub fn hear<A: Arrives>(self, turn: u64, arrived: &A) -> Result<AnyEnd, Broken>
        requires turn { turn < 2 ^ 40 }
        requires numbers { IsNumbered (A.arrival arrived.now) }
        ensures hears { (a : Account) → StandsFor (AnyEnd.Detecting self) a → Hears (hear turn (A.arrival arrived.now) a) a result }
        ensures counted { IfOk result (λ end. taken_of end ≡ 0) }
    {
        match arrived.lent() {
            LentArrived::Nothing => {
                let mut memory = self.memory;
                memory.hear_nothing();
                Ok(AnyEnd::Detecting(Detecting { memory }))
            }
            LentArrived::Pattern(seen) => Ok(self.on_pattern(seen, turn)),
            LentArrived::Frame(frame) => match self.memory.setup.role {
                Role::Originator => Ok(AnyEnd::Detecting(self)),
                Role::Answerer => Ok(self.answer(frame, turn)),
            },
        }
    }

    /// What the end sends in this turn, and then is. The originator breaks once it got no answer in all its tries.
    pub fn speak(self, turn: u64, release: bool, sent: &mut Sent) -> Result<AnyEnd, Broken>
        requires { turn < 2 ^ 40 }
        ensures speaks { (a : Account) → StandsFor (AnyEnd.Detecting self) a → Speaks (speak turn release a) a sent.old sent.new result }
        ensures takes_nothing { IfOk result (TakesNothing (AnyEnd.Detecting self)) }
        ensures sendable { IfOk result (λ _. IsSendable sent.new) }
        ensures unchanged { OnErr result (sent.new ≡ sent.old) }
    {
        let _ = release;
        let mut memory = self.memory;
        match memory.setup.role {
            Role::Originator => {
                if is_undetected(turn, &memory.setup) {
                    return Err(Broken::new(LinkFault::NotDetected, memory.setup, first_terms()));
                }
                *sent = Sent::Odp;
            }
            Role::Answerer => *sent = memory.say_answer(Sent::Mark),
        }
        Ok(AnyEnd::Detecting(Detecting { memory }))
    }
}

/// All tries have passed without an answer.
fn is_undetected(turn: u64, setup: &Setup) -> bool
    ensures { result ≡ nat_le (wait setup.now.tries setup.now.period) turn }
{
    wait(setup.tries, setup.period) <= turn
}
