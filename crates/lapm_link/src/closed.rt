// An end whose link is over.
ghost use Rattle.lapm_frames.specs.Sendable.{IsSendable};
ghost use Rattle.std.specs.Prelude.{◌≡◌, ◌<◌, ◌^◌, None, IfOk, OnErr};
ghost use Rattle.lapm_link.specs.Fits.{IsSetUp};

use crate::answer::{slot_of, without_adp};
use crate::terms::first_terms;
use crate::{AnyEnd, Arrives, LentArrived, LinkFault, Sent, Setup};
use lapm_frames::Frame;
use link_account::Answer;
use xid_params::Terms;

/// An end whose link is over. It answers a DISC.
#[derive(Drop)]
pub struct Closed {
    /// The setup that the end was made with.
    pub(crate) setup: Setup,
    /// The answer that it owes.
    pub(crate) answer: Option<Answer>,
    /// The terms that were agreed on.
    pub(crate) terms: Terms,
    ghost set_up: { IsSetUp setup },
}

/// The link broke: why, and the end that is left, which owes nothing.
#[derive(Drop)]
pub struct Broken {
    /// Why it broke.
    pub fault: LinkFault,
    /// What is left.
    pub end: Closed,
}

impl Broken {
    pub(crate) fn new(fault: LinkFault, setup: Setup, terms: Terms) -> Broken
        requires { IsSetUp setup }
        ensures fault { result.fault ≡ fault }
        ensures setup { result.end.setup ≡ setup }
        ensures answer { result.end.answer ≡ None }
        ensures terms { result.end.terms ≡ terms }
    {
        Broken {
            fault,
            end: Closed {
                setup,
                answer: None,
                terms,
            },
        }
    }
}

impl Closed {
    ghost use Rattle.link_account.specs.declared.answer.Answer.{Answer};
    ghost use Rattle.link_account.specs.declared.phase.Phase.{Phase};
    ghost use Rattle.link_account.specs.Account.{Account, first_terms};
    ghost use Rattle.link_account.specs.Hear.{on_closed, hear, owing};
    ghost use Rattle.link_account.specs.Speak.{speak, Said, answering, else_says, says};
    ghost use Rattle.lapm_link.specs.Stands.{StandsFor, Hears, Speaks, TakesNothing, taken_of};
    ghost use Rattle.link_account.specs.Numbers.{IsNumbered};

    /// An end that is set up so and whose link is over before it was tried. It takes no memory.
    pub fn new(setup: Setup) -> Closed
        requires { IsSetUp setup }
        ensures { (a : Account) → a.setup ≡ setup → a.phase ≡ Phase.Closed → a.owes.answer ≡ None → a.terms ≡ first_terms
            → StandsFor (AnyEnd.Closed result) a }
    {
        Closed {
            setup,
            answer: None,
            terms: first_terms(),
        }
    }

    fn on_frame(self, frame: &Frame) -> AnyEnd
        ensures hears { (a : Account) → StandsFor (AnyEnd.Closed self) a → Hears (on_closed frame.now a) a (Ok result) }
        ensures counted { taken_of result ≡ 0 }
    {
        let mut end = self;
        if let Frame::Disc { pf } = frame {
            end.answer = Some(Answer::Dm { pf: *pf });
        }
        AnyEnd::Closed(end)
    }

    /// What the end becomes by what it hears in this turn.
    pub fn hear<A: Arrives>(self, turn: u64, arrived: &A) -> Result<AnyEnd, Broken>
        requires turn { turn < 2 ^ 40 }
        requires numbers { IsNumbered (A.arrival arrived.now) }
        ensures hears { (a : Account) → StandsFor (AnyEnd.Closed self) a → Hears (hear turn (A.arrival arrived.now) a) a result }
        ensures counted { IfOk result (λ end. taken_of end ≡ 0) }
    {
        let _ = turn;
        match arrived.lent() {
            LentArrived::Nothing => {
                let mut end = self;
                end.answer = without_adp(end.answer);
                Ok(AnyEnd::Closed(end))
            }
            LentArrived::Pattern(_) => Ok(AnyEnd::Closed(self)),
            LentArrived::Frame(frame) => Ok(self.on_frame(frame)),
        }
    }

    /// What the end sends in this turn, and then is.
    pub fn speak(self, turn: u64, release: bool, sent: &mut Sent) -> Result<AnyEnd, Broken>
        requires { turn < 2 ^ 40 }
        ensures speaks { (a : Account) → StandsFor (AnyEnd.Closed self) a → Speaks (speak turn release a) a sent.old sent.new result }
        ensures takes_nothing { IfOk result (TakesNothing (AnyEnd.Closed self)) }
        ensures sendable { IfOk result (λ _. IsSendable sent.new) }
        ensures unchanged { OnErr result (sent.new ≡ sent.old) }
    {
        let _ = turn;
        let _ = release;
        let mut end = self;
        match end.answer {
            None => *sent = Sent::Flags,
            Some(answer) => {
                end.answer = None;
                *sent = slot_of(answer, &end.setup);
            }
        }
        Ok(AnyEnd::Closed(end))
    }
}
