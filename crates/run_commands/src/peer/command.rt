// The command: the inputs' lengths are looked at, all memory is taken, the outputs are made, turns follow to the run's end, and its line
// is said.
ghost use Rattle.std.specs.Prelude.{◌≡◌, ℕ, [], List, true, map, string_bytes};
ghost use Rattle.outside_calls.specs.Folder.{FolderState};
ghost use Rattle.command_base.specs.Job.{Answers};
ghost use Rattle.outside_calls.specs.Outputs.{OnlyPuts};
ghost use Rattle.command_base.specs.Stops.{EndCounts};
ghost use Rattle.command_base.specs.Apart.{are_apart};
ghost use Rattle.link_account.specs.Account.{fresh};
ghost use Rattle.stations.specs.OneEnd.Peer.{setup_of};
ghost use Rattle.stations.specs.OneEnd.Single.{IsReady, SingleAfter, role_of, turn_of};
ghost use Rattle.run_commands.specs.Peering.Words.{named, inputs_of, outputs_of};
ghost use Rattle.run_commands.specs.Peering.Ends.{Ends, peer_job};
ghost use Rattle.run_commands.specs.Peering.Turns.{IsBegun};
ghost use Rattle.run_commands.specs.Peering.Headline.{Headline};
ghost use Rattle.run_commands.specs.Peering.Completes.{Completes};

use crate::peer::laws::one_result;
use crate::peer::turns::run_turns;
use crate::peer::words::PeerWords;
use command_base::{
    Status, Stop, apart_names_differ, create_outputs, done_line, tell, tell_stop, within_limit,
};
use outside_calls::Folder;
use shared_terms::FILE_LIMIT;
use stations::Single;
use std::alloc::Global;

/// The places of the inputs' names among the words.
const FILE: usize = 2;

const BITS: usize = 3;

/// The run of an end, once its inputs are looked at: the outputs are made, and turns follow to its end.
fn run_single<F: Folder>(
    single: &mut Single,
    folder: &mut F,
    words: &PeerWords<'_>,
) -> Result<u64, Stop>
    requires apart { are_apart (inputs_of (named words.now)) (outputs_of (named words.now)) ≡ true }
    requires ready { IsReady single.old }
    requires turn { turn_of single.old ≡ 0 }
    requires role { role_of single.old ≡ words.now.role }
    requires first { (file : List ℕ)
        → SingleAfter single.old (record { file = file; slots = []; turns = []; account = fresh (setup_of words.now.role) }) }
    ensures ends { (begin : FolderState) → IsBegun begin (F.state folder.old) (named words.now)
        → Ends begin (F.state folder.new) (named words.now) result }
    ensures only { OnlyPuts (F.state folder.old) (F.state folder.new) (outputs_of (named words.now)) }
    ensures counts { EndCounts (F.state folder.old) (F.state folder.new) (inputs_of (named words.now))
        (outputs_of (named words.now)) result }
{
    apart_names_differ();
    match create_outputs(folder, &[words.got, words.trace]) {
        Ok(()) => {}
        Err(fault) => return Err(Stop::Write(fault)),
    }
    run_turns(single, folder, words)
}

/// A run up to its end: the number of its turns.
fn meet_peer<F: Folder>(alloc: Global, folder: &mut F, words: &PeerWords<'_>) -> Result<u64, Stop>
    requires { are_apart (inputs_of (named words.now)) (outputs_of (named words.now)) ≡ true }
    ensures ends { Ends (F.state folder.old) (F.state folder.new) (named words.now) result }
    ensures only { OnlyPuts (F.state folder.old) (F.state folder.new) (outputs_of (named words.now)) }
    ensures counts { EndCounts (F.state folder.old) (F.state folder.new) (inputs_of (named words.now))
        (outputs_of (named words.now)) result }
{
    match within_limit(folder, words.bits, FILE_LIMIT, BITS) {
        Ok(()) => {}
        Err(stop) => return Err(stop),
    }
    match within_limit(folder, words.file, FILE_LIMIT, FILE) {
        Ok(()) => {}
        Err(stop) => return Err(stop),
    }
    let mut single = match Single::new(alloc, words.role) {
        Ok(single) => single,
        Err(_) => return Err(Stop::NoMemory),
    };
    run_single(&mut single, folder, words)
}

/// Meets the peer, and prints how it ended.
fn meet_and_tell<F: Folder>(
    alloc: Global,
    folder: &mut F,
    words: &[String],
    names: &PeerWords<'_>,
) -> Status
    requires { are_apart (inputs_of (named names.now)) (outputs_of (named names.now)) ≡ true }
    ensures { Answers (peer_job (named names.now)) (map string_bytes words.now) (F.state folder.old) (F.state folder.new) result }
{
    match meet_peer(alloc, folder, names) {
        Ok(turns) => tell(folder, done_line(turns).as_slice(), Status::Done),
        Err(stop) => tell_stop(folder, words, stop),
    }
}

/// Does what the words of a run against a peer say, and answers how it ended. The line of the answer is printed last.
pub fn peer<F: Folder>(
    alloc: Global,
    folder: &mut F,
    words: &[String],
    names: &PeerWords<'_>,
) -> Status
    requires { are_apart (inputs_of (named names.now)) (outputs_of (named names.now)) ≡ true }

    // The run of the file and the bits is made to its end, whatever the peer sent, and the outputs hold what it leaves.
    ensures headline { Headline (F.state folder.old) (F.state folder.new) (named names.now) result }

    // Over a sound folder, however the run of the inputs ends, that is the answer, but for lack of memory.
    ensures completes { Completes (F.state folder.old) (F.state folder.new) (named names.now) result }

    // Each answer comes where it has to, with its line.
    ensures answer { Answers (peer_job (named names.now)) (map string_bytes words.now) (F.state folder.old) (F.state folder.new) result }
{
    one_result();
    meet_and_tell(alloc, folder, words, names)
}
