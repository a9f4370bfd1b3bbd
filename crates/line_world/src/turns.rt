// Turns, up to the end of a run.
ghost use Rattle.std.specs.Prelude.{◌≡◌, [], ◌++◌, List, ℕ, IfOk};
ghost use Rattle.shared_terms.specs.Both.{Both};
ghost use Rattle.link_run.specs.Run.{start};
ghost use Rattle.line_run.specs.Scripted.{wire_of, link_of};
ghost use Rattle.line_run.specs.Names.{inputs_of, outputs_of, written};
ghost use Rattle.line_world.specs.World.{IsReady, WorldAfter, script_of, lost_of, again_of};
ghost use Rattle.line_world.specs.Turn.{CountsOver};
ghost use Rattle.outside_calls.specs.Outputs.{Creates};
ghost use Rattle.outside_calls.specs.Outputs.{AreApartFrom, OnlyPuts};
ghost use Rattle.line_run.specs.Recorded.{tapes_of};
ghost use Rattle.line_world.specs.Taping.{KeepTapes, tape_names};
ghost use Rattle.line_world.specs.Turns.{TurnsEnd, RunCounts};

use crate::laws::turns_are_few;
use crate::tape::record_turn;
use crate::{Names, Step, Tape, World};
use line_run::RunFault;
use link_run::laws::turns_deliver_what_came;
use outside_calls::Folder;
use shared_terms::Both;

/// Turns are made until the run ends: the number of its last turn. The world has then counted all turns. Where there are tapes, what both ends
/// sent in a turn is recorded behind its other outputs.
pub fn run_turns<F: Folder>(
    world: &mut World,
    folder: &mut F,
    names: &Names<'_>,
    tapes: &mut Option<Both<Tape<'_>>>,
) -> Result<u64, RunFault>
    requires ready { IsReady world.old }
    requires first { (files : Both (List ℕ)) → WorldAfter world.old files [] (start (link_of (script_of world.old) files)) }
    requires apart { AreApartFrom (inputs_of (written names.now)) (outputs_of (written names.now) ++ tapes_of (tape_names tapes.old)) }
    requires created { Creates (F.state folder.old) (outputs_of (written names.now)) }
    requires taped { KeepTapes tapes.old (F.state folder.old) (wire_of (script_of world.old)) [] }

    ensures run { TurnsEnd (script_of world.old) (F.state folder.new) (written names.now) (tape_names tapes.old) result }
    ensures tally { IfOk result (λ turn. RunCounts (script_of world.old) (F.state folder.new) (written names.now) (tape_names tapes.old) turn (lost_of world.new) (again_of world.new)) }
    ensures only { OnlyPuts (F.state folder.old) (F.state folder.new) (outputs_of (written names.now) ++ tapes_of (tape_names tapes.old)) }
    ensures counts { CountsOver (F.state folder.old) (F.state folder.new) (inputs_of (written names.now)) (outputs_of (written names.now) ++ tapes_of (tape_names tapes.old)) result }
    ensures came { F.came folder.old folder.new }
{
    turns_are_few();
    turns_deliver_what_came();
    loop {
        match world.turn(folder, names) {
            Ok(Step::Going) => match record_turn(tapes, world, folder) {
                Ok(()) => {}
                Err(fault) => return Err(fault),
            },
            Ok(Step::Done { turn }) => return Ok(turn),
            Err(fault) => return Err(fault),
        }
    }
}
