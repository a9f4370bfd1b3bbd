// Turns against the peer's slots, up to the end of a run.
ghost use Rattle.std.specs.Prelude.{◌≡◌, ℕ, ◌*◌, ◌+◌, ◌≤◌, Ok, None, true, length, IfOk, IfErr, IfSome};
ghost use Rattle.outside_calls.specs.Folder.{FolderState};
ghost use Rattle.shared_terms.specs.declared.limits.TheConstants.{FILE_LIMIT};
ghost use Rattle.outside_calls.specs.Outputs.{OnlyPuts};
ghost use Rattle.command_base.specs.Stops.{EndCounts};
ghost use Rattle.command_base.specs.Apart.{are_apart};
ghost use Rattle.stations.specs.OneEnd.Heard.{slot_octets};
ghost use Rattle.stations.specs.OneEnd.Single.{IsReady, turn_of};
ghost use Rattle.run_commands.specs.Peering.Words.{named, inputs_of, outputs_of};
ghost use Rattle.run_commands.specs.Peering.Ends.{Ends, EndsBy, RanTo};
ghost use Rattle.run_commands.specs.Peering.Runs.{IsDone};
ghost use Rattle.run_commands.specs.Peering.Turns.{Reached, fault_stop};

use crate::peer::words::PeerWords;
use command_base::{LinkFault, Status, Stop, apart_names_differ, read_piece};
use link_run::laws::lone_turns_deliver_what_came;
use outside_calls::{Folder, FolderFault};
use shared_terms::{FILE_LIMIT, Role};
use stations::{SLOT_OCTETS, Single, SingleFault, SingleStep};

/// The answer of an end that gives its link up in this turn.
fn status_of(role: Role, fault: LinkFault, turn: u64) -> Status
    ensures { result ≡ Rattle.run_commands.specs.Peering.Ends.status_of role fault turn }
{
    match fault {
        LinkFault::NotDetected => Status::NotDetected { turn },
        LinkFault::Spent { segment, .. } => Status::LinkLost {
            role,
            segment,
            turn,
        },
        LinkFault::BadAck { .. } | LinkFault::PeerReset { .. } | LinkFault::PeerRefused => {
            Status::PeerFault { fault, turn }
        }
    }
}

/// Why a run stops in whose turn of this number there is this fault.
fn stop_of(role: Role, turn: u64, fault: SingleFault) -> Stop
    ensures { result ≡ fault_stop role turn fault }
{
    match fault {
        SingleFault::ReadFault => Stop::Read(FolderFault::Failed),
        SingleFault::WriteFault => Stop::Write(FolderFault::Failed),
        SingleFault::Link(fault) => Stop::Own(status_of(role, fault, turn)),
        SingleFault::NoMemory => Stop::Write(FolderFault::NoMemory),
    }
}

/// The turn against the next slot, where there is one: the number of all turns, where it was the last one or there is none.
fn next_turn<F: Folder>(
    single: &mut Single,
    folder: &mut F,
    words: &PeerWords<'_>,
) -> Result<Option<u64>, Stop>
    requires apart { are_apart (inputs_of (named words.now)) (outputs_of (named words.now)) ≡ true }
    requires ready { IsReady single.old }
    requires within { slot_octets * turn_of single.old ≤ FILE_LIMIT }
    ensures going { (start : FolderState) → Reached start (F.state folder.old) (named words.now) single.old → result ≡ Ok None
        → Reached start (F.state folder.new) (named words.now) single.new }
    ensures done { (start : FolderState) → Reached start (F.state folder.old) (named words.now) single.old
        → IfOk result (λ turns. IfSome turns (λ turns. RanTo start (F.state folder.new) (named words.now) (IsDone turns))) }
    ensures err { (start : FolderState) → Reached start (F.state folder.old) (named words.now) single.old
        → IfErr result (EndsBy start (F.state folder.new) (named words.now)) }
    ensures next { result ≡ Ok None → IsReady single.new × (slot_octets * turn_of single.new ≤ FILE_LIMIT)
        × (turn_of single.new ≡ turn_of single.old + 1) }
    ensures only { OnlyPuts (F.state folder.old) (F.state folder.new) (outputs_of (named words.now)) }
    ensures counts { EndCounts (F.state folder.old) (F.state folder.new) (inputs_of (named words.now))
        (outputs_of (named words.now)) result }
{
    lone_turns_deliver_what_came();
    apart_names_differ();
    let turn = single.turn_number();
    let at = SLOT_OCTETS as u64 * turn;
    let mut slot = [0u8; SLOT_OCTETS];
    let count = match read_piece(folder, words.bits, FILE_LIMIT, at, &mut slot) {
        Ok(0) => return Ok(Some(turn)),
        Ok(count) => count,
        Err(fault) => return Err(Stop::Read(fault)),
    };
    match single.turn(folder, words.file, words.got, words.trace, &slot[..count]) {
        Ok(SingleStep::Going) => {
            if count < SLOT_OCTETS {
                Ok(Some(turn + 1))
            } else {
                Ok(None)
            }
        }
        Ok(SingleStep::Closed) => Ok(Some(turn + 1)),
        Err(fault) => Err(stop_of(words.role, turn, fault)),
    }
}

/// Turns are made until the run ends: their number.
pub(crate) fn run_turns<F: Folder>(
    single: &mut Single,
    folder: &mut F,
    words: &PeerWords<'_>,
) -> Result<u64, Stop>
    requires apart { are_apart (inputs_of (named words.now)) (outputs_of (named words.now)) ≡ true }
    requires ready { IsReady single.old }
    requires first { turn_of single.old ≡ 0 }
    ensures ends { (start : FolderState) → Reached start (F.state folder.old) (named words.now) single.old
        → Ends start (F.state folder.new) (named words.now) result }
    ensures only { OnlyPuts (F.state folder.old) (F.state folder.new) (outputs_of (named words.now)) }
    ensures counts { EndCounts (F.state folder.old) (F.state folder.new) (inputs_of (named words.now))
        (outputs_of (named words.now)) result }
{
    loop {
        match next_turn(single, folder, words) {
            Ok(None) => {}
            Ok(Some(turns)) => return Ok(turns),
            Err(stop) => return Err(stop),
        }
    }
}
