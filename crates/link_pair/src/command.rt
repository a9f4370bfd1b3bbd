// The command: its inputs are opened, all memory is taken, its outputs are made, rounds follow to its end, and its line is printed.
ghost use Rattle.std.specs.Prelude.{◌≡◌, [], List, ℕ, true, map, string_bytes, OnOk, OnErr, IfErr};
ghost use Rattle.outside_calls.specs.Folder.{FolderState, CountsStand};
ghost use Rattle.outside_calls.specs.Outputs.{Creates, CreatesPart, OnlyOutputs, SaysNothing};
ghost use Rattle.command_base.specs.Job.{Answers};
ghost use Rattle.command_base.specs.Stops.{EndCounts, WriteFails};
ghost use Rattle.command_base.specs.Apart.{are_apart};
ghost use Rattle.link_pair.specs.Pair.{IsFirst, script_of};
ghost use Rattle.link_pair.specs.Words.{named, inputs_of, outputs_of};
ghost use Rattle.link_pair.specs.Pairs.Ends.{end_of};
ghost use Rattle.link_pair.specs.Half.{run_end};
ghost use Rattle.link_pair.specs.Answers.{last_turn_of, result_of};
ghost use Rattle.link_pair.specs.Ends.{Ends, IsBegun, pair_job};
ghost use Rattle.link_pair.specs.Headline.{Headline};
ghost use Rattle.link_pair.specs.Completes.{Completes};

use crate::laws::{answers_keep_the_headline, right_pairs_are_done};
use crate::{Endings, LinkEnd, Pair, PairWords, pair_rounds};
use command_base::{
    Status, Stop, apart_names_differ, both_done_line, create_outputs, tell, tell_stop,
};
use line_run::laws::line_runs_end_soon;
use outside_calls::{Folder, FolderFault};
use run_inputs::{LIMITS, open_inputs, stop_of};
use std::alloc::Global;

/// The place of the first file's name among the words.
const ORIG: usize = 1;

/// The place of the script's name.
const SCRIPT: usize = 5;

/// The last turns of two links that are done.
#[derive(Clone, Copy)]
pub(crate) struct LastTurns {
    /// The last turn of the first link.
    pub first: u64,
    /// The last turn of the second link.
    pub second: u64,
}

/// The last turn of a link that is done, or why a pair stops whose link of that number isn't.
fn last_turn(link: u8, end: LinkEnd) -> Result<u64, Stop>
    ensures { result ≡ last_turn_of link (run_end end) }
{
    match end {
        LinkEnd::Done { turn } => Ok(turn),
        LinkEnd::LinkLost {
            role,
            segment,
            turn,
        } => Err(Stop::Own(Status::PairLinkLost {
            link,
            role,
            segment,
            turn,
        })),
        LinkEnd::NotDetected { turn } => Err(Stop::Own(Status::PairNotDetected { link, turn })),
    }
}

/// The last turns of both links, or why a pair stops of which not both are done: the first one counts.
fn last_turns(endings: Endings) -> Result<LastTurns, Stop>
    ensures { result ≡ result_of (end_of (run_end endings.first) (run_end endings.second)) }
{
    let first = match last_turn(1, endings.first) {
        Ok(turn) => turn,
        Err(stop) => return Err(stop),
    };
    match last_turn(2, endings.second) {
        Ok(second) => Ok(LastTurns { first, second }),
        Err(stop) => Err(stop),
    }
}

/// The outputs are made, in the order of the words.
fn create_all<F: Folder>(folder: &mut F, words: &PairWords<'_>) -> Result<(), FolderFault>
    requires { are_apart (inputs_of (named words.now)) (outputs_of (named words.now)) ≡ true }
    ensures ok { OnOk result (Creates (F.state folder.new) (outputs_of (named words.now))) }
    ensures err { OnErr result (CreatesPart (F.state folder.old) (F.state folder.new) (outputs_of (named words.now))) }
    ensures only { OnlyOutputs (F.state folder.old) (F.state folder.new) (outputs_of (named words.now)) }
    ensures said { SaysNothing (F.state folder.old) (F.state folder.new) }
    ensures stand { OnOk result (CountsStand (F.state folder.old) (F.state folder.new)) }
    ensures fails { IfErr result (WriteFails (F.state folder.old) (F.state folder.new) (outputs_of (named words.now))) }
{
    apart_names_differ();
    let first = &words.links.first;
    let second = &words.links.second;
    create_outputs(
        folder,
        &[
            first.got_o,
            first.got_a,
            second.got_o,
            second.got_a,
            first.trace,
            second.trace,
        ],
    )
}

/// The rounds of a pair, once its inputs are opened: the outputs are made, and rounds follow to its end.
fn run_pair<F: Folder>(
    pair: &mut Pair,
    folder: &mut F,
    words: &PairWords<'_>,
) -> Result<LastTurns, Stop>
    requires first { IsFirst pair.old }
    requires apart { are_apart (inputs_of (named words.now)) (outputs_of (named words.now)) ≡ true }
    ensures ends { (begin : FolderState) → IsBegun LIMITS begin (F.state folder.old) (named words.now) (script_of pair.old) → Ends LIMITS begin (F.state folder.new) (named words.now) result }
    ensures only { OnlyOutputs (F.state folder.old) (F.state folder.new) (outputs_of (named words.now)) }
    ensures said { SaysNothing (F.state folder.old) (F.state folder.new) }
    ensures counts { EndCounts (F.state folder.old) (F.state folder.new) (inputs_of (named words.now)) (outputs_of (named words.now)) result }
{
    apart_names_differ();
    line_runs_end_soon();
    match create_all(folder, words) {
        Ok(()) => {}
        Err(fault) => return Err(Stop::Write(fault)),
    }
    match pair_rounds(pair, folder, &words.links) {
        Ok(endings) => last_turns(endings),
        Err(fault) => Err(stop_of(fault)),
    }
}

/// A pair up to its end: the last turns of both links.
fn pair_to_end<F: Folder>(
    alloc: Global,
    folder: &mut F,
    words: &PairWords<'_>,
) -> Result<LastTurns, Stop>
    requires { are_apart (inputs_of (named words.now)) (outputs_of (named words.now)) ≡ true }
    ensures ends { Ends LIMITS (F.state folder.old) (F.state folder.new) (named words.now) result }
    ensures only { OnlyOutputs (F.state folder.old) (F.state folder.new) (outputs_of (named words.now)) }
    ensures said { SaysNothing (F.state folder.old) (F.state folder.new) }
    ensures counts { EndCounts (F.state folder.old) (F.state folder.new) (inputs_of (named words.now)) (outputs_of (named words.now)) result }
{
    let first = &words.links.first;
    let second = &words.links.second;
    let files = [first.orig, first.answ, second.orig, second.answ];
    let script = match open_inputs(alloc, folder, (words.script, SCRIPT), &files, ORIG, LIMITS) {
        Ok(script) => script,
        Err(stop) => return Err(stop),
    };
    script.is_in_limits();
    let mut pair = match Pair::new(alloc, script) {
        Ok(pair) => pair,
        Err(_) => return Err(Stop::NoMemory),
    };
    run_pair(&mut pair, folder, words)
}

/// Runs both links, and prints how they ended.
fn pair_and_tell<F: Folder>(
    alloc: Global,
    folder: &mut F,
    words: &[String],
    names: &PairWords<'_>,
) -> Status
    requires { are_apart (inputs_of (named names.now)) (outputs_of (named names.now)) ≡ true }
    ensures { Answers (pair_job (named names.now)) (map string_bytes words.now) (F.state folder.old) (F.state folder.new) result }
{
    match pair_to_end(alloc, folder, names) {
        Ok(turns) => {
            let line = both_done_line(turns.first, turns.second);
            tell(folder, line.as_slice(), Status::Done)
        }
        Err(stop) => tell_stop(folder, words, stop),
    }
}

/// Does what the words of a pair say, and answers how it ended. The line of the answer is printed last.
pub fn pair<F: Folder>(
    alloc: Global,
    folder: &mut F,
    words: &[String],
    names: &PairWords<'_>,
) -> Status
    requires { are_apart (inputs_of (named names.now)) (outputs_of (named names.now)) ≡ true }

    // Each end receives a prefix of the file of the other end of its link, and done means that all four are whole. The pair is that of the
    // script and the files.
    ensures headline { Headline (F.state folder.old) (F.state folder.new) (named names.now) result }

    // Where the inputs are right and the folder is sound, and but for lack of memory, the answer is that to how their pair ends. It is done
    // if the line carries both links to their ends, or loses few slots of each, or the script names few and its noise is faint.
    ensures completes { Completes (F.state folder.old) (F.state folder.new) (named names.now) result }

    // Each answer comes where it has to, with its line.
    ensures answer { Answers (pair_job (named names.now)) (map string_bytes words.now) (F.state folder.old) (F.state folder.new) result }
{
    answers_keep_the_headline();
    right_pairs_are_done();
    pair_and_tell(alloc, folder, words, names)
}
