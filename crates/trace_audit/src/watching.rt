// A turn of a run, of which only its lines are kept.
ghost use Rattle.std.specs.Prelude.{◌≡◌, ◌+◌, [], List, ℕ, IfOk, IfErr, Ok, true};
ghost use Rattle.outside_calls.specs.Folder.{OnlyReads};
ghost use Rattle.outside_calls.specs.Outputs.{AreApartFrom};
ghost use Rattle.command_base.specs.Stops.{EndCounts};
ghost use Rattle.line_run.specs.Names.{inputs_of, outputs_of, written};
ghost use Rattle.line_world.specs.World.{IsReady, script_of, turn_of};
ghost use Rattle.line_world.specs.Turn.{turns_made};
ghost use Rattle.line_ends.specs.Plain.{AsksInOctets};
ghost use Rattle.trace_audit.specs.Turns.{IsReading, StillRuns, TurnMade, Watched, step_end};

use crate::readable::{traces_are_read, traces_have_lines};
use command_base::Stop;
use frame_check::Octets;
use line_run::RunFault;
use line_world::laws::turns_are_few;
use line_world::{Names, Step, World};
use outside_calls::{Folder, FolderFault};
use program_folders::AuditFolder;
use stations::TURN_TEXT;

/// A turn that was made.
#[derive(Drop)]
pub(crate) struct MadeTurn {
    /// Whether the run goes on behind it.
    pub(crate) goes_on: bool,
    /// The lines that it adds to the trace.
    pub(crate) text: Octets<TURN_TEXT>,
}

/// What a turn answers over a folder of an audit, and the text that this then holds.
fn watch_turn<F: Folder>(
    world: &mut World,
    folder: &mut F,
    names: &Names<'_>,
) -> (Result<Step, RunFault>, Octets<TURN_TEXT>)
    requires ready { IsReady world.old }
    requires apart { AreApartFrom (inputs_of (written names.now)) (outputs_of (written names.now)) }
    ensures watched { Watched world.old world.new (F.state folder.old) (F.state folder.new) (written names.now) result.0 result.1 }
    ensures script { script_of world.new ≡ script_of world.old }
    ensures ready { result.0 ≡ Ok Step.Going → IsReady world.new }
    ensures number { turn_of world.new ≡ turns_made (turn_of world.old) result.0 }
{
    let mut watching = AuditFolder::<_, TURN_TEXT>::new(
        folder,
        names.got_o,
        names.got_a,
        names.trace,
    );
    let step = world.turn(&mut watching, names);
    (step, watching.text())
}

/// Whether the run goes on behind a turn, or why the audit stops in it.
fn step_end(step: Result<Step, RunFault>) -> Result<bool, Stop>
    ensures { result ≡ step_end step }
{
    match step {
        Ok(Step::Going) => Ok(true),
        Ok(Step::Done { .. }) => Ok(false),
        Err(RunFault::ReadFault) => Err(Stop::Read(FolderFault::Failed)),
        Err(RunFault::WriteFault) => Err(Stop::Write(FolderFault::Failed)),
        Err(RunFault::NoMemory) => Err(Stop::NoMemory),
        Err(RunFault::LineLost { .. })
        | Err(RunFault::ChanceMatch { .. })
        | Err(RunFault::NotDetected { .. })
        | Err(RunFault::LinkLost { .. }) => Ok(false),
    }
}

/// One turn is made. Nothing of the folder changes but its counts of reading and of memory.
pub(crate) fn make_turn<F: Folder>(
    world: &mut World,
    folder: &mut F,
    names: &Names<'_>,
) -> Result<MadeTurn, Stop>
    requires ready { IsReady world.old }
    requires apart { AreApartFrom (inputs_of (written names.now)) (outputs_of (written names.now)) }
    requires asks { AsksInOctets (script_of world.old) }
    ensures made { (before : List (List ℕ)) → StillRuns world.old (F.state folder.old) (written names.now) before
        → IfOk result (λ made. TurnMade made.goes_on world.new (F.state folder.new) (written names.now) before made.text) }
    ensures script { script_of world.new ≡ script_of world.old }
    ensures ready { IfOk result (λ made. made.goes_on ≡ true → IsReady world.new) }
    ensures number { IfOk result (λ made. made.goes_on ≡ true → turn_of world.new ≡ turn_of world.old + 1) }
    ensures stops { IfErr result IsReading }
    ensures reads { OnlyReads (F.state folder.old) (F.state folder.new) }
    ensures counts { EndCounts (F.state folder.old) (F.state folder.new) (inputs_of (written names.now)) [] result }
{
    turns_are_few();
    traces_are_read();
    traces_have_lines();
    let (step, text) = watch_turn(world, folder, names);
    match step_end(step) {
        Ok(goes_on) => Ok(MadeTurn { goes_on, text }),
        Err(stop) => Err(stop),
    }
}
