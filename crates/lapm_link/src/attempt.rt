// A frame that goes until it is answered.
ghost use Rattle.lapm_frames.specs.declared.frame.Frame.{Frame};
ghost use Rattle.lapm_frames.specs.Sendable.{IsSendable};
ghost use Rattle.lapm_frames.specs.declared.sent.Sent.{Sent};
ghost use Rattle.std.specs.Prelude.{◌≡◌, true, IfOk};

use crate::timer::spent;
use crate::{LinkFault, Sent, Setup};
use lapm_frames::Frame;
use shared_terms::is_expired;

/// A frame that goes until it is answered: an originator's XID command, SABME or DISC.
#[derive(Clone, Copy)]
pub(crate) struct Attempt {
    /// Whether it is to be sent.
    due: bool,
    /// The turn in which its timer was set.
    set: u64,
    /// How often it may go again.
    left: u8,
}

impl Attempt {
    ghost use Rattle.link_account.specs.Account.{Account};
    ghost use Rattle.link_account.specs.Speak.{tries_frame, u_try};
    ghost use Rattle.lapm_link.specs.Attempt.{Tries, TriesOnce, TriesSo};

    /// One that begins in this turn.
    pub(crate) fn new(turn: u64, setup: &Setup) -> Attempt
        ensures { result ≡ record { due = true; set = turn; left = setup.now.tries } }
    {
        Attempt {
            due: true,
            set: turn,
            left: setup.tries,
        }
    }

    /// The frame, where it is to be sent.
    fn once(&mut self, frame: Frame) -> Sent
        ensures tries { (a : Account) → Tries self.old a → TriesOnce (tries_frame frame a) a self.new result }
        ensures sendable { IsSendable (Sent.Frame frame) → IsSendable result }
    {
        if !self.due {
            return Sent::Flags;
        }
        self.due = false;
        Sent::Frame(frame)
    }

    /// What is sent in this turn. `front` is the oldest segment that isn't acknowledged.
    pub(crate) fn speak(
        &mut self,
        turn: u64,
        setup: &Setup,
        front: u64,
        frame: Frame,
    ) -> Result<Sent, LinkFault>
        ensures tries { (a : Account) → Tries self.old a → setup.now ≡ a.setup → front ≡ a.outgoing.front
            → TriesSo (u_try turn frame a) a self.new result }
        ensures sendable { IsSendable (Sent.Frame frame) → IfOk result IsSendable }
    {
        if !is_expired(self.set, setup.period, turn) {
            return Ok(self.once(frame));
        }
        if self.left == 0 {
            return Err(spent(front, turn, setup));
        }
        self.due = true;
        self.set = turn;
        self.left -= 1;
        Ok(self.once(frame))
    }
}
