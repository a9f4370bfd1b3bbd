// The choices of all states after one sample.
ghost use Rattle.std.specs.Prelude.{◌≡◌, ◌<◌};
ghost use Rattle.exact_decoder.specs.Settled.{choice_at};
ghost use Rattle.exact_decoder.specs.Traced.{choices_of};

use crate::choice::Choice;

/// The branch by which the survivor of each state enters it, by state.
#[derive(Clone, Copy)]
pub struct Column<const STATES: usize> {
    /// The states before.
    pub before: [u8; STATES],
    /// The labels that lead from there.
    pub labels: [u8; STATES],
}

impl<const STATES: usize> Column<STATES> {
    /// The choice of a state.
    pub fn choice(&self, state: u8) -> Choice
        requires { state < STATES }
        ensures { result ≡ choice_at (choices_of self.now) state }
    {
        Choice {
            before: self.before[state as usize],
            label: self.labels[state as usize],
        }
    }
}
