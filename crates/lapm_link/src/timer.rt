// Timers by turns.
ghost use Rattle.std.specs.Prelude.{◌≡◌};
ghost use Rattle.shared_terms.specs.Timer.{waited_since};
ghost use Rattle.link_account.specs.Speak.{running};

use crate::{LinkFault, Setup};
use shared_terms::waited_since;

/// All tries are spent in this turn. `front` is the oldest segment that isn't acknowledged.
pub(crate) fn spent(front: u64, turn: u64, setup: &Setup) -> LinkFault
    ensures { result ≡ LinkFault.Spent front (waited_since setup.now.tries setup.now.period turn) }
{
    LinkFault::Spent {
        segment: front,
        since: waited_since(setup.tries, setup.period, turn),
    }
}

/// A timer that is set in this turn, where it isn't running.
pub(crate) fn started(timer: Option<u64>, turn: u64) -> Option<u64>
    ensures { result ≡ running turn timer }
{
    match timer {
        None => Some(turn),
        Some(_) => timer,
    }
}
