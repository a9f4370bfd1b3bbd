// What the turns of a run show in numbers.
ghost use Rattle.std.specs.Prelude.{◌≡◌, ℕ, ◌+◌, ◌<◌, ◌≤◌, ◌^◌};
ghost use Rattle.link_run.specs.Counts.{again_in, lost_in, next_count, sequence_in};

use lapm_frames::{Frame, Heard, Sent};
use shared_terms::Both;

/// Counts over the turns of a run.
#[derive(Drop)]
pub(crate) struct Counts {
    /// Slots that were lost.
    pub lost: u64,
    /// I frames whose segment had been sent before.
    pub again: u64,
    /// How many segments the originator has sent: one more than the highest number of them, or 0.
    pub orig: u64,
    /// How many the answerer has.
    pub answ: u64,
}

/// 1 where a slot was lost.
fn lost_in(heard: &Heard) -> u64
    ensures { result ≡ lost_in heard.now }
{
    match heard {
        Heard::Lost(_) => 1,
        Heard::Nothing | Heard::Passed(_) | Heard::Chance => 0,
    }
}

/// N(S) of the I frame that is sent in a slot, where one is.
fn sequence_in(sent: &Sent) -> Option<u8>
    ensures { result ≡ sequence_in sent.now }
{
    match sent {
        Sent::Frame(Frame::I { ns, .. }) => Some(*ns),
        _ => None,
    }
}

/// What one more slot makes of the segments that an end has sent, and of those that went again.
fn count(sent: &Sent, segments: &mut u64, again: &mut u64)
    requires segments_few { segments.old + 1 < 2 ^ 64 }
    requires again_few { again.old + 1 < 2 ^ 64 }
    ensures segments { segments.new ≡ next_count (sequence_in sent.now) segments.old }
    ensures again { again.new ≡ again.old + again_in (sequence_in sent.now) segments.old }
    ensures segments_few { segments.new ≤ segments.old + 1 }
    ensures again_few { again.new ≤ again.old + 1 }
{
    match sequence_in(sent) {
        Some(sequence) => {
            if u64::from(sequence) == *segments % 128 {
                *segments += 1;
            } else {
                *again += 1;
            }
        }
        None => {}
    }
}

impl Counts {
    ghost use Rattle.line_world.specs.declared.tally.Counts.{Counts};
    ghost use Rattle.line_world.specs.Tally.{IsFew};

    /// Before the first turn.
    pub fn new() -> Counts
        ensures { result ≡ record { lost = 0; again = 0; orig = 0; answ = 0 } }
    {
        Counts {
            lost: 0,
            again: 0,
            orig: 0,
            answ: 0,
        }
    }

    /// Counts what both ends hear in a turn.
    pub fn hear(&mut self, heard: &Both<Heard>)
        requires { self.old.lost + 2 < 2 ^ 64 }
        ensures { self.new ≡ record self.old { lost = self.old.lost + lost_in heard.now.orig + lost_in heard.now.answ } }
    {
        self.lost += lost_in(&heard.orig) + lost_in(&heard.answ);
    }

    /// Counts what both ends send in a turn.
    pub fn send(&mut self, sent: &Both<Sent>)
        requires again { self.old.again + 2 < 2 ^ 64 }
        requires orig { self.old.orig + 1 < 2 ^ 64 }
        requires answ { self.old.answ + 1 < 2 ^ 64 }
        ensures lost { self.new.lost ≡ self.old.lost }
        ensures again { self.new.again ≡ self.old.again + again_in (sequence_in sent.now.orig) self.old.orig + again_in (sequence_in sent.now.answ) self.old.answ }
        ensures orig { self.new.orig ≡ next_count (sequence_in sent.now.orig) self.old.orig }
        ensures answ { self.new.answ ≡ next_count (sequence_in sent.now.answ) self.old.answ }
        ensures few { (heard turn : ℕ) → IsFew self.old heard turn → IsFew self.new heard (turn + 1) }
    {
        count(&sent.orig, &mut self.orig, &mut self.again);
        count(&sent.answ, &mut self.answ, &mut self.again);
    }
}
