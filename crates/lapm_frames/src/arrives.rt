// What an end can hear.
ghost use Rattle.std.specs.Prelude.{◌≡◌};
ghost use Rattle.lapm_frames.specs.declared.arrived.Arrived.{Arrived};
ghost use Rattle.lapm_frames.specs.Arrivals.{arrival, value_of};

use crate::{Arrived, Heard, LentArrived, Seen, Sent};

/// What an end can hear: it says what arrives.
pub trait Arrives {
    /// What arrives.
    ghost arrival: { Self → Arrived };

    /// What arrives, where a frame stays where it is.
    fn lent(&self) -> LentArrived<'_>
        ensures { value_of result ≡ arrival self.now };
}

impl Arrives for Arrived {
    ghost arrival = { λ arrived. arrived };

    fn lent(&self) -> LentArrived<'_> {
        match self {
            Arrived::Nothing => LentArrived::Nothing,
            Arrived::Pattern(seen) => LentArrived::Pattern(*seen),
            Arrived::Frame(frame) => LentArrived::Frame(frame),
        }
    }
}

impl Arrives for Heard {
    ghost arrival = { arrival };

    fn lent(&self) -> LentArrived<'_> {
        match self {
            Heard::Passed(Sent::Odp) => LentArrived::Pattern(Seen::Odp),
            Heard::Passed(Sent::Adp) => LentArrived::Pattern(Seen::Adp),
            Heard::Passed(Sent::Frame(frame)) => LentArrived::Frame(frame),
            Heard::Passed(Sent::Mark | Sent::Flags)
            | Heard::Nothing
            | Heard::Lost(_)
            | Heard::Chance => LentArrived::Nothing,
        }
    }
}
