// The command: its inputs are opened, all memory is taken, its outputs are made, turns follow to its end, and its line is printed.
ghost use Rattle.std.specs.Prelude.{◌≡◌, [], List, ℕ, true, map, string_bytes, OnOk, OnErr, IfErr};
ghost use Rattle.outside_calls.specs.Folder.{FolderState, CountsStand};
ghost use Rattle.outside_calls.specs.Outputs.{Creates, CreatesPart, OnlyOutputs, SaysNothing};
ghost use Rattle.line_tap.specs.Tapping.{tapping};
ghost use Rattle.command_base.specs.Job.{Answers};
ghost use Rattle.command_base.specs.Stops.{EndCounts, WriteFails};
ghost use Rattle.command_base.specs.Apart.{are_apart};
ghost use Rattle.line_tap.specs.Names.{named, inputs_of, outputs_of, recordings_of};
ghost use Rattle.line_tap.specs.Tap.{IsReady, TapAfter};
ghost use Rattle.line_tap.specs.Turn.{no_octets};
ghost use Rattle.line_tap.specs.declared.limits.TheConstants.{LIMITS};
ghost use Rattle.line_tap.specs.Outcomes.{Ends, IsBegun, tap_job};
ghost use Rattle.line_tap.specs.Headline.{Headline};
ghost use Rattle.line_tap.specs.Completes.{Completes};

use crate::opening::open;
use crate::promises::{answers_keep_the_headline, right_taps_are_told};
use crate::{Tap, TapWords, tap_turns};
use command_base::{Status, Stop, apart_names_differ, create_outputs, tell, tell_stop, turns_line};
use outside_calls::{Folder, FolderFault};
use std::alloc::Global;

/// The outputs are made, in the order of the words.
fn create_all<F: Folder>(folder: &mut F, words: &TapWords<'_>) -> Result<(), FolderFault>
    requires { are_apart (inputs_of (named words.now)) (outputs_of (named words.now)) ≡ true }
    ensures ok { OnOk result (Creates (F.state folder.new) (outputs_of (named words.now))) }
    ensures err { OnErr result (CreatesPart (F.state folder.old) (F.state folder.new) (outputs_of (named words.now))) }
    ensures only { OnlyOutputs (F.state folder.old) (F.state folder.new) (outputs_of (named words.now)) }
    ensures said { SaysNothing (F.state folder.old) (F.state folder.new) }
    ensures stand { OnOk result (CountsStand (F.state folder.old) (F.state folder.new)) }
    ensures fails { IfErr result (WriteFails (F.state folder.old) (F.state folder.new) (outputs_of (named words.now))) }
{
    apart_names_differ();
    create_outputs(folder, &[words.got_o, words.got_a, words.trace])
}

/// The tap, once its inputs are opened: the outputs are made, and turns follow to its end.
fn run_tap<F: Folder>(tap: &mut Tap, folder: &mut F, words: &TapWords<'_>) -> Result<u64, Stop>
    requires ready { IsReady tap.old }
    requires first { TapAfter tap.old (tapping tap.old.script no_octets) [] }
    requires apart { are_apart (inputs_of (named words.now)) (outputs_of (named words.now)) ≡ true }
    ensures ends { (begin : FolderState) → IsBegun LIMITS begin (F.state folder.old) (named words.now) tap.old.script → Ends LIMITS begin (F.state folder.new) (named words.now) result }
    ensures only { OnlyOutputs (F.state folder.old) (F.state folder.new) (outputs_of (named words.now)) }
    ensures said { SaysNothing (F.state folder.old) (F.state folder.new) }
    ensures counts { EndCounts (F.state folder.old) (F.state folder.new) (recordings_of (named words.now)) (outputs_of (named words.now)) result }
{
    apart_names_differ();
    match create_all(folder, words) {
        Ok(()) => {}
        Err(fault) => return Err(Stop::Write(fault)),
    }
    match tap_turns(tap, folder, words) {
        Ok(turns) => Ok(turns),
        Err(stop) => Err(stop),
    }
}

/// A tap up to its end: how many turns it made.
fn tap_to_end<F: Folder>(alloc: Global, folder: &mut F, words: &TapWords<'_>) -> Result<u64, Stop>
    requires { are_apart (inputs_of (named words.now)) (outputs_of (named words.now)) ≡ true }
    ensures ends { Ends LIMITS (F.state folder.old) (F.state folder.new) (named words.now) result }
    ensures only { OnlyOutputs (F.state folder.old) (F.state folder.new) (outputs_of (named words.now)) }
    ensures said { SaysNothing (F.state folder.old) (F.state folder.new) }
    ensures counts { EndCounts (F.state folder.old) (F.state folder.new) (inputs_of (named words.now)) (outputs_of (named words.now)) result }
{
    let script = match open(alloc, folder, words) {
        Ok(script) => script,
        Err(stop) => return Err(stop),
    };
    let mut tap = match Tap::new(alloc, script) {
        Ok(tap) => tap,
        Err(_) => return Err(Stop::NoMemory),
    };
    run_tap(&mut tap, folder, words)
}

/// Taps, and prints how it ended.
fn tap_and_tell<F: Folder>(
    alloc: Global,
    folder: &mut F,
    words: &[String],
    names: &TapWords<'_>,
) -> Status
    requires { are_apart (inputs_of (named names.now)) (outputs_of (named names.now)) ≡ true }
    ensures { Answers (tap_job (named names.now)) (map string_bytes words.now) (F.state folder.old) (F.state folder.new) result }
{
    match tap_to_end(alloc, folder, names) {
        Ok(turns) => tell(folder, turns_line(turns).as_slice(), Status::Done),
        Err(stop) => tell_stop(folder, words, stop),
    }
}

/// Does what the words of a tap say, and answers how it ended. The line of the answer is printed last.
pub fn tap<F: Folder>(
    alloc: Global,
    folder: &mut F,
    words: &[String],
    names: &TapWords<'_>,
) -> Status
    requires { are_apart (inputs_of (named names.now)) (outputs_of (named names.now)) ≡ true }

    // The outputs hold what the script and both recordings show, and each answer is how that ends.
    ensures headline { Headline (F.state folder.old) (F.state folder.new) (named names.now) result }

    // Where the inputs are right and the folder is sound, and but for lack of memory, the answer is that to how their reading ends.
    ensures completes { Completes (F.state folder.old) (F.state folder.new) (named names.now) result }

    // Each answer comes where it has to, with its line.
    ensures answer { Answers (tap_job (named names.now)) (map string_bytes words.now) (F.state folder.old) (F.state folder.new) result }
{
    answers_keep_the_headline();
    right_taps_are_told();
    tap_and_tell(alloc, folder, words, names)
}
