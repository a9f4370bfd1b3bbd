// An end whose link is up.
ghost use Rattle.std.specs.Prelude.{◌≡◌, ◌≤◌};
ghost use Rattle.link_account.specs.Account.{size_for};
ghost use Rattle.lapm_link.specs.Fits.{IsSetUp};

use crate::Setup;
use break_signals::{BreakReceiver, BreakSender};
use lapm_receiver::Receiver;
use lapm_sender::Sender;
use link_account::{Answer, Owes};
use xid_params::Terms;

/// An end whose link is up.
pub struct Connected {
    /// The setup that the end was made with.
    pub(crate) setup: Setup,
    /// The terms that were agreed on.
    pub(crate) terms: Terms,
    /// The segments that it sends.
    pub(crate) sender: Sender,
    /// The segments that it takes.
    pub(crate) receiver: Receiver,
    /// Breaks both ways.
    pub(crate) breaks: Breaks,
    /// What the end owes at once.
    pub(crate) owes: Owes,
    /// What the end waits for.
    pub(crate) wait: Wait,
    /// Whether an I frame or a supervisory frame was heard.
    pub(crate) numbered: bool,
    /// Whether a break's word or an SREJ was sent at the last speaking.
    pub(crate) special: bool,
    ghost set_up: { IsSetUp setup },
    ghost sender_begun: { 1 ≤ sender.window },
    ghost receiver_begun: { 1 ≤ receiver.window },
    ghost sender_size: { sender.size ≡ size_for setup.role terms },
    ghost receiver_srej: { receiver.srej ≡ terms.srej },
}

impl Drop for Connected {
    // for the prover: so it is dropped by a call, and its fields are not dropped anew wherever one is.
    fn drop(self) {
        let Connected {
            setup: _,
            terms: _,
            sender: _,
            receiver: _,
            breaks: _,
            owes: _,
            wait: _,
            numbered: _,
            special: _,
        } = self;
    }
}

/// Breaks both ways.
#[derive(Drop)]
pub(crate) struct Breaks {
    /// The breaks of the end's own user.
    pub(crate) own: BreakSender,
    /// The other user's.
    pub(crate) their: BreakReceiver,
    /// The length of a break that the user wasn't given yet, in units of 10 ms.
    pub(crate) given: Option<u8>,
}

/// What an end waits for.
#[derive(Clone, Copy)]
pub(crate) struct Wait {
    /// A poll is to be sent.
    pub(crate) poll: bool,
    /// The next I frame goes before all else but an answer.
    pub(crate) urgent: bool,
    /// The turn in which the timer was set; none while it doesn't run.
    pub(crate) timer: Option<u64>,
}

impl Connected {
    ghost use Rattle.link_account.specs.declared.phase.Phase.{Phase};
    ghost use Rattle.lapm_sender.specs.Outgoing.{Outgoing};
    ghost use Rattle.lapm_sender.specs.Sending.{StandsOut};
    ghost use Rattle.lapm_receiver.specs.Incoming.{Incoming};
    ghost use Rattle.lapm_receiver.specs.Taking.{StandsIn};
    ghost use Rattle.link_account.specs.Account.{Account};
    ghost use Rattle.link_account.specs.Hear.{first_wait};
    ghost use Rattle.lapm_link.specs.Stands.{IsUnlinked, Links};

    /// A link that comes up in this turn: the originator polls at once. Both parts have begun.
    pub(crate) fn new(
        setup: Setup,
        answer: Option<Answer>,
        terms: Terms,
        sender: Sender,
        receiver: Receiver,
        turn: u64,
    ) -> Connected
        requires set_up { IsSetUp setup }
        requires sender { 1 ≤ sender.window }
        requires receiver { 1 ≤ receiver.window }
        requires size { sender.size ≡ size_for setup.role terms }
        requires srej { receiver.srej ≡ terms.srej }
        ensures links { (a : Account) (o : Outgoing) (i : Incoming) → IsUnlinked setup answer a → terms ≡ a.terms → StandsOut sender o → StandsIn receiver i
            → Links result (record a { phase = Phase.Connected; outgoing = o; incoming = i; wait = first_wait a.setup.role turn a.wait }) }
        ensures receiver { result.receiver ≡ receiver }
    {
        let originates = setup.role.is_originator();
        Connected {
            setup,
            terms,
            sender,
            receiver,
            breaks: Breaks {
                own: BreakSender::new(),
                their: BreakReceiver::new(),
                given: None,
            },
            owes: Owes {
                answer,
                reply: false,
                busy: false,
                busy_told: false,
            },
            wait: Wait {
                poll: originates,
                urgent: false,
                timer: if originates { Some(turn) } else { None },
            },
            numbered: false,
            special: false,
        }
    }
}
