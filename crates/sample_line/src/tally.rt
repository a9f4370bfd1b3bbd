// What was received in a slot so far, beside what was sent in it.
ghost use Rattle.std.specs.Prelude.{◌≡◌, true, false, [], ◌∷◌, ◌++◌, ℕ, List, option_to_list};
ghost use Rattle.shared_terms.specs.declared.role.Role.{Role};
ghost use Rattle.lapm_frames.specs.declared.seen.Seen.{Seen};
ghost use Rattle.lapm_frames.specs.declared.sent.Sent.{Sent};
ghost use Rattle.sample_line.specs.Outcomes.{is_message, IsLostAs, IsOutcome};
ghost use Rattle.sample_line.specs.Tallies.{Tallies, carries, after_octets, after_pattern};

use crate::Heard;
use crate::same_frame::is_same;
use lapm_frames::{LentFrame, Seen, Sent};

/// What was received in a slot so far.
#[derive(Clone, Copy)]
pub(crate) enum Tally {
    /// Nothing.
    Silent,
    /// Exactly what was sent.
    AsSent,
    /// Something else.
    Other,
}

/// Whether the slot carries this frame, which was read.
pub(crate) fn carries_frame(sent: &Sent, frame: &LentFrame<'_>) -> bool
    ensures yes { result ≡ true → sent.now ≡ Sent.Frame frame.now }
    ensures no { result ≡ false → sent.now ≡ Sent.Frame frame.now → ⊥ }
{
    match sent {
        Sent::Frame(other) => is_same(other, frame),
        _ => false,
    }
}

/// Whether the slot carries this pattern.
fn carries_pattern(sent: &Sent, pattern: Seen) -> bool
    ensures { result ≡ carries sent.now pattern }
{
    match sent {
        Sent::Odp => pattern == Seen::Odp,
        Sent::Adp => pattern == Seen::Adp,
        _ => false,
    }
}

/// Whether a frame or a pattern is sent.
fn is_message(sent: &Sent) -> bool
    ensures { result ≡ is_message sent.now }
{
    match sent {
        Sent::Mark | Sent::Flags => false,
        Sent::Odp | Sent::Adp | Sent::Frame(_) => true,
    }
}

/// What is sent, once more.
pub(crate) fn copy_of(sent: &Sent) -> Sent
    ensures { result ≡ sent.now }
{
    match sent {
        Sent::Mark => Sent::Mark,
        Sent::Odp => Sent::Odp,
        Sent::Adp => Sent::Adp,
        Sent::Flags => Sent::Flags,
        Sent::Frame(frame) => Sent::Frame(frame.copy()),
    }
}

/// What becomes of a slot in which nothing is heard.
fn unheard(sent: Sent) -> Heard
    ensures { IsLostAs sent result }
{
    if is_message(&sent) {
        Heard::Lost(sent)
    } else {
        Heard::Nothing
    }
}

impl Tally {
    /// Octets passed the check once more, which the slot carries or not.
    pub fn after_octets(self, carried: bool) -> Tally
        ensures { result ≡ after_octets carried self }
    {
        match self {
            Tally::Silent => { if carried { Tally::AsSent } else { Tally::Other } }
            Tally::AsSent | Tally::Other => Tally::Other,
        }
    }

    /// A pattern more was received, which the slot carries or not.
    fn after_pattern(self, carried: bool) -> Tally
        ensures { result ≡ after_pattern carried self }
    {
        match self {
            Tally::Silent | Tally::AsSent => { if carried { Tally::AsSent } else { Tally::Other } }
            Tally::Other => Tally::Other,
        }
    }

    /// A pattern more was received, if there is one.
    pub fn with_pattern(self, sent: &Sent, pattern: Option<Seen>) -> Tally
        ensures { (sender : Role) (dlci : ℕ) (octets : List (List ℕ)) (patterns : List Seen) → Tallies sender dlci sent.now octets patterns self
            → Tallies sender dlci sent.now octets (patterns ++ option_to_list pattern) result }
    {
        match pattern {
            Some(pattern) => self.after_pattern(carries_pattern(sent, pattern)),
            None => self,
        }
    }

    /// What becomes of the slot.
    pub fn outcome(self, sent: Sent, loses: bool) -> Heard
        ensures { (sender : Role) (dlci : ℕ) (octets : List (List ℕ)) (patterns : List Seen) → Tallies sender dlci sent octets patterns self
            → IsOutcome loses sender dlci sent octets patterns result }
    {
        if loses {
            return unheard(sent);
        }
        match self {
            Tally::Silent => unheard(sent),
            Tally::AsSent => Heard::Passed(sent),
            Tally::Other => Heard::Chance,
        }
    }
}
