// The lines of a turn.
ghost use Rattle.std.specs.Prelude.{◌≡◌, OnOk, OnErr, IfErr};
ghost use Rattle.std.specs.Option.{option_map};
ghost use Rattle.outside_calls.specs.Folder.{Appended, OnlyWrites, PartlyAppended};
ghost use Rattle.line_texts.specs.LineText.{chance_line};
ghost use Rattle.line_run.specs.Names.{written};
ghost use Rattle.stations.specs.Texts.{lines_of};
ghost use Rattle.line_world.specs.Turn.{IsWriting, TurnCounts};
ghost use Rattle.line_world.specs.Faults.{fault_named};
ghost use Rattle.link_run.specs.Laws.{IsNamed};

use crate::{Breaking, Names};
use lapm_frames::{Heard, Sent};
use lapm_link::LinkFault;
use line_run::RunFault;
use outside_calls::Folder;
use shared_terms::{Both, Role};
use stations::{append_chance, append_turn, folder_fault};

/// Appends both lines of a turn, in which both ends send or neither does, to the trace.
pub(crate) fn write_turn<F: Folder>(
    folder: &mut F,
    names: &Names<'_>,
    turn: u64,
    heard: &Both<Heard>,
    given: &Both<Option<u8>>,
    sent: Option<&Both<Sent>>,
) -> Result<(), RunFault>
    ensures ok { OnOk result (Appended (F.state folder.old) (F.state folder.new) (written names.now).trace (lines_of turn heard.now given.now (option_map (λ both. both.now) sent.entry))) }
    ensures err { OnErr result (PartlyAppended (F.state folder.old) (F.state folder.new) (written names.now).trace (lines_of turn heard.now given.now (option_map (λ both. both.now) sent.entry))) }
    ensures only { OnlyWrites (F.state folder.old) (F.state folder.new) (written names.now).trace }
    ensures counts { TurnCounts (F.state folder.old) (F.state folder.new) (written names.now) result }
    ensures write { IfErr result IsWriting }
    ensures came { F.came folder.old folder.new }
{
    match append_turn(folder, names.trace, turn, heard, given, sent) {
        Ok(()) => Ok(()),
        Err(fault) => Err(folder_fault(RunFault::WriteFault, RunFault::NoMemory, fault)),
    }
}

/// Appends the one line of a turn in which that role's slot is a chance match.
pub fn write_chance<F: Folder>(
    folder: &mut F,
    names: &Names<'_>,
    turn: u64,
    role: Role,
) -> Result<(), RunFault>
    ensures ok { OnOk result (Appended (F.state folder.old) (F.state folder.new) (written names.now).trace (chance_line turn role)) }
    ensures err { OnErr result (PartlyAppended (F.state folder.old) (F.state folder.new) (written names.now).trace (chance_line turn role)) }
    ensures only { OnlyWrites (F.state folder.old) (F.state folder.new) (written names.now).trace }
    ensures counts { TurnCounts (F.state folder.old) (F.state folder.new) (written names.now) result }
    ensures write { IfErr result IsWriting }
    ensures came { F.came folder.old folder.new }
{
    match append_chance(folder, names.trace, turn, role) {
        Ok(()) => Ok(()),
        Err(fault) => Err(folder_fault(RunFault::WriteFault, RunFault::NoMemory, fault)),
    }
}

/// Why a run ends in which an end breaks.
pub(crate) fn link_fault(turn: u64, breaking: Breaking) -> RunFault
    requires { IsNamed breaking.role breaking.fault }
    ensures { result ≡ fault_named turn breaking.role breaking.fault }
{
    match breaking.fault {
        LinkFault::NotDetected => RunFault::NotDetected { turn },
        LinkFault::Spent { segment, .. } => RunFault::LinkLost {
            role: breaking.role,
            segment,
            turn,
        },
        LinkFault::BadAck { .. } | LinkFault::PeerReset { .. } | LinkFault::PeerRefused => {
            unreachable!()
        }
    }
}
