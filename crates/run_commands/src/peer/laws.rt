//! What holds of all runs of an end against a peer's octets. The function does nothing but name the theorem that it rests on: its theorem is a
//! contract.
ghost use Rattle.run_commands.specs.Peering.Laws.{OneResult};

use stations::one_end::laws::one_peer_run;

/// A role, a file and octets have one result at most: how the run ends, and what it leaves.
pub fn one_result()
    ensures { OneResult }
{
    one_peer_run();
}
