// Answers that an end owes at once.
ghost use Rattle.lapm_frames.specs.Sendable.{IsSendable};
ghost use Rattle.std.specs.Prelude.{◌≡◌};
ghost use Rattle.xid_params.specs.Offers.{IsAllowed};
ghost use Rattle.link_account.specs.Account.{Account};
ghost use Rattle.link_account.specs.Hear.{without_adp};
ghost use Rattle.link_account.specs.Speak.{frame_for};

use crate::offers::spelled;
use crate::{Sent, Setup};
use lapm_frames::Frame;
use link_account::Answer;

/// What is still due once nothing was heard.
pub(crate) fn without_adp(answer: Option<Answer>) -> Option<Answer>
    ensures { result ≡ without_adp answer }
{
    match answer {
        Some(Answer::Adp) => None,
        _ => answer,
    }
}

/// An answer as it is sent.
pub(crate) fn slot_of(answer: Answer, setup: &Setup) -> Sent
    requires { IsAllowed setup.now.offer }
    ensures frame { (a : Account) → setup.now ≡ a.setup → result ≡ frame_for answer a }
    ensures sendable { IsSendable result }
{
    match answer {
        Answer::Adp => Sent::Adp,
        Answer::Xid => Sent::Frame(Frame::Xid {
            command: false,
            pf: false,
            info: spelled(&setup.offer),
        }),
        Answer::Ua { pf } => Sent::Frame(Frame::Ua { pf }),
        Answer::Dm { pf } => Sent::Frame(Frame::Dm { pf }),
    }
}
