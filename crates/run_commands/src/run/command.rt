// The command: its inputs are opened, all memory is taken, its outputs are made, turns follow to its end, and its line is printed.
ghost use Rattle.std.specs.Prelude.{◌≡◌, [], List, ℕ, true, map, string_bytes};
ghost use Rattle.outside_calls.specs.Folder.{FolderState};
ghost use Rattle.shared_terms.specs.Both.{Both};
ghost use Rattle.link_run.specs.Run.{start};
ghost use Rattle.line_run.specs.Scripted.{link_of};
ghost use Rattle.line_world.specs.World.{IsReady, WorldAfter, script_of};
ghost use Rattle.command_base.specs.Job.{Answers};
ghost use Rattle.outside_calls.specs.Outputs.{OnlyOutputs, SaysNothing};
ghost use Rattle.command_base.specs.Stops.{EndCounts};
ghost use Rattle.command_base.specs.Apart.{are_apart};
ghost use Rattle.run_inputs.specs.Words.{named, inputs_of, outputs_of};
ghost use Rattle.run_commands.specs.Running.Ends.{Ends, IsBegun, run_job};
ghost use Rattle.run_commands.specs.Running.Headline.{Headline};
ghost use Rattle.run_commands.specs.Running.Completes.{Completes};

use crate::run::laws::{answers_keep_the_headline, right_runs_are_done};
use crate::run::outputs::make_outputs;
use command_base::{Status, Stop, apart_names_differ, done_line, tell, tell_stop};
use line_run::laws::line_runs_end_soon;
use line_world::{World, run_turns};
use outside_calls::Folder;
use run_inputs::{LIMITS, RunWords, open_inputs, stop_of};
use std::alloc::Global;

/// The place of the first file's name among the words.
const ORIG: usize = 1;

/// The place of the script's name.
const SCRIPT: usize = 3;

/// The run of a world, once its inputs are opened: the outputs are made, and turns follow to its end.
fn run_world<F: Folder>(
    world: &mut World,
    folder: &mut F,
    words: &RunWords<'_>,
) -> Result<u64, Stop>
    requires ready { IsReady world.old }
    requires first { (files : Both (List ℕ)) → WorldAfter world.old files [] (start (link_of (script_of world.old) files)) }
    requires apart { are_apart (inputs_of (named words.now)) (outputs_of (named words.now)) ≡ true }
    ensures ends { (begin : FolderState) → IsBegun LIMITS begin (F.state folder.old) (named words.now) (script_of world.old) → Ends LIMITS begin (F.state folder.new) (named words.now) result }
    ensures only { OnlyOutputs (F.state folder.old) (F.state folder.new) (outputs_of (named words.now)) }
    ensures said { SaysNothing (F.state folder.old) (F.state folder.new) }
    ensures counts { EndCounts (F.state folder.old) (F.state folder.new) (inputs_of (named words.now)) (outputs_of (named words.now)) result }
{
    apart_names_differ();
    line_runs_end_soon();
    let mut tapes = match make_outputs(folder, words) {
        Ok(tapes) => tapes,
        Err(fault) => return Err(Stop::Write(fault)),
    };
    match run_turns(world, folder, &words.names, &mut tapes) {
        Ok(turn) => Ok(turn),
        Err(fault) => Err(stop_of(fault)),
    }
}

/// A run up to its end: the number of its last turn.
fn run_to_end<F: Folder>(alloc: Global, folder: &mut F, words: &RunWords<'_>) -> Result<u64, Stop>
    requires { are_apart (inputs_of (named words.now)) (outputs_of (named words.now)) ≡ true }
    ensures ends { Ends LIMITS (F.state folder.old) (F.state folder.new) (named words.now) result }
    ensures only { OnlyOutputs (F.state folder.old) (F.state folder.new) (outputs_of (named words.now)) }
    ensures said { SaysNothing (F.state folder.old) (F.state folder.new) }
    ensures counts { EndCounts (F.state folder.old) (F.state folder.new) (inputs_of (named words.now)) (outputs_of (named words.now)) result }
{
    let files = [words.names.orig, words.names.answ];
    let script = match open_inputs(alloc, folder, (words.script, SCRIPT), &files, ORIG, LIMITS) {
        Ok(script) => script,
        Err(stop) => return Err(stop),
    };
    script.is_in_limits();
    let mut world = match World::new(alloc, script) {
        Ok(world) => world,
        Err(_) => return Err(Stop::NoMemory),
    };
    run_world(&mut world, folder, words)
}

/// Runs, and prints how it ended.
fn run_and_tell<F: Folder>(
    alloc: Global,
    folder: &mut F,
    words: &[String],
    names: &RunWords<'_>,
) -> Status
    requires { are_apart (inputs_of (named names.now)) (outputs_of (named names.now)) ≡ true }
    ensures { Answers (run_job (named names.now)) (map string_bytes words.now) (F.state folder.old) (F.state folder.new) result }
{
    match run_to_end(alloc, folder, names) {
        Ok(turn) => tell(folder, done_line(turn).as_slice(), Status::Done),
        Err(stop) => tell_stop(folder, words, stop),
    }
}

/// Does what the words of a run say, and answers how it ended. The line of the answer is printed last.
pub fn run<F: Folder>(
    alloc: Global,
    folder: &mut F,
    words: &[String],
    names: &RunWords<'_>,
) -> Status
    requires { are_apart (inputs_of (named names.now)) (outputs_of (named names.now)) ≡ true }

    // Each end receives a prefix of the other's file, and done means that both are whole. The run is that of the script and the files.
    ensures headline { Headline (F.state folder.old) (F.state folder.new) (named names.now) result }

    // Where the inputs are right and the folder is sound, and but for lack of memory, the answer is that to how their run ends. It is done if
    // the line carries it to its end, or loses few slots of it, or the script names few and its noise is faint.
    ensures completes { Completes (F.state folder.old) (F.state folder.new) (named names.now) result }

    // Each answer comes where it has to, with its line.
    ensures answer { Answers (run_job (named names.now)) (map string_bytes words.now) (F.state folder.old) (F.state folder.new) result }
{
    answers_keep_the_headline();
    right_runs_are_done();
    run_and_tell(alloc, folder, words, names)
}
