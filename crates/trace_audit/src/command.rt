// The command: its inputs are opened, all memory is taken, turns follow to the run's end, and its line is printed.
ghost use Rattle.std.specs.Prelude.{[], IfErr, IfOk, map, string_bytes};
ghost use Rattle.outside_calls.specs.Folder.{FolderState, OnlyReads};
ghost use Rattle.command_base.specs.Job.{Answers};
ghost use Rattle.command_base.specs.Stops.{EndCounts};
ghost use Rattle.run_inputs.specs.Scripts.{IsSpelled};
ghost use Rattle.line_ends.specs.Plain.{AsksInOctets};
ghost use Rattle.trace_audit.specs.Words.{inputs_of, named};
ghost use Rattle.trace_audit.specs.Ends.{Ends, EndsBy, IsBegun, audit_job};
ghost use Rattle.trace_audit.specs.Headline.{Headline};
ghost use Rattle.trace_audit.specs.Completes.{Completes};

use crate::AuditWords;
use crate::names::{MadeNames, turn_names};
use crate::promises::{answers_keep_the_headline, right_traces_are_judged};
use crate::turns::audit_world;
use command_base::{Status, Stop, tell, tell_stop, true_line, within_limit};
use line_world::World;
use noise_script::Script;
use noise_script::laws::spelled_scripts_are_in_limits;
use outside_calls::Folder;
use run_inputs::{LIMITS, open_inputs};
use std::alloc::Global;

/// The most octets of a trace that is audited.
pub const TRACE_LIMIT: u64 = 16_777_216;

/// The place of the first file's name among the words.
const ORIG: usize = 1;

/// The place of the script's name.
const SCRIPT: usize = 3;

/// The place of the trace's name.
const TRACE: usize = 4;

/// The inputs are taken in order: the script, and then the lengths of the files and of the trace.
fn open_all<F: Folder>(
    alloc: Global,
    folder: &mut F,
    words: &AuditWords<'_>,
) -> Result<Script, Stop>
    ensures begun { IfOk result (IsBegun (F.state folder.old) (F.state folder.new) (named words.now)) }
    ensures spelled { IfOk result IsSpelled }
    ensures ends { IfErr result (EndsBy (F.state folder.old) (F.state folder.new) (named words.now)) }
    ensures reads { OnlyReads (F.state folder.old) (F.state folder.new) }
    ensures counts { EndCounts (F.state folder.old) (F.state folder.new) (inputs_of (named words.now)) [] result }
{
    let files = [words.orig, words.answ];
    let script = match open_inputs(alloc, folder, (words.script, SCRIPT), &files, ORIG, LIMITS) {
        Ok(script) => script,
        Err(stop) => return Err(stop),
    };
    script.is_in_limits();
    match within_limit(folder, words.trace, TRACE_LIMIT, TRACE) {
        Ok(()) => Ok(script),
        Err(stop) => Err(stop),
    }
}

/// Memory is taken, and the run of the script is made and compared with the trace: how many lines that has, where it is the run's.
fn audit_script<F: Folder>(
    alloc: Global,
    folder: &mut F,
    words: &AuditWords<'_>,
    script: Script,
) -> Result<u64, Stop>
    requires { AsksInOctets script }
    ensures ends { (begin : FolderState) → IsBegun begin (F.state folder.old) (named words.now) script → Ends begin (F.state folder.new) (named words.now) result }
    ensures reads { OnlyReads (F.state folder.old) (F.state folder.new) }
    ensures counts { EndCounts (F.state folder.old) (F.state folder.new) (inputs_of (named words.now)) [] result }
{
    let mut world = match World::new(alloc, script) {
        Ok(world) => world,
        Err(_) => return Err(Stop::NoMemory),
    };
    let made = match MadeNames::new(alloc, words) {
        Ok(made) => made,
        Err(_) => return Err(Stop::NoMemory),
    };
    let names = turn_names(words.orig, words.answ, &made);
    audit_world(&mut world, folder, &names, words.trace)
}

/// An audit up to its end.
fn audit_to_end<F: Folder>(
    alloc: Global,
    folder: &mut F,
    words: &AuditWords<'_>,
) -> Result<u64, Stop>
    ensures ends { Ends (F.state folder.old) (F.state folder.new) (named words.now) result }
    ensures reads { OnlyReads (F.state folder.old) (F.state folder.new) }
    ensures counts { EndCounts (F.state folder.old) (F.state folder.new) (inputs_of (named words.now)) [] result }
{
    spelled_scripts_are_in_limits();
    match open_all(alloc, folder, words) {
        Ok(script) => audit_script(alloc, folder, words, script),
        Err(stop) => Err(stop),
    }
}

/// Audits, and prints what was found.
fn audit_and_tell<F: Folder>(
    alloc: Global,
    folder: &mut F,
    words: &[String],
    names: &AuditWords<'_>,
) -> Status
    ensures { Answers (audit_job (named names.now)) (map string_bytes words.now) (F.state folder.old) (F.state folder.new) result }
{
    match audit_to_end(alloc, folder, names) {
        Ok(lines) => tell(folder, true_line(lines).as_slice(), Status::Done),
        Err(stop) => tell_stop(folder, words, stop),
    }
}

/// Does what the words of an audit say, and answers what was found. The line of the answer is printed last.
pub fn audit<F: Folder>(
    alloc: Global,
    folder: &mut F,
    words: &[String],
    names: &AuditWords<'_>,
) -> Status
    // No name changes. Done means that the trace is the text of the run of the files and the script, however that ends; else the answer is the
    // first line in which it differs, and in what.
    ensures headline { Headline (F.state folder.old) (F.state folder.new) (named names.now) result }

    // Where the inputs are right and the folder is sound, and but for lack of memory, the answer is the one to the text of their run.
    ensures completes { Completes (F.state folder.old) (F.state folder.new) (named names.now) result }

    // Each answer comes where it has to, with its line.
    ensures answer { Answers (audit_job (named names.now)) (map string_bytes words.now) (F.state folder.old) (F.state folder.new) result }
{
    answers_keep_the_headline();
    right_traces_are_judged();
    audit_and_tell(alloc, folder, words, names)
}
