// The top call.
ghost use Rattle.std.specs.Prelude.{◌≡◌, ◌≢◌, IfSome, drop, map, string_bytes};
ghost use Rattle.std.specs.Option.{option_map_or};
ghost use Rattle.command_base.specs.Status.{PassesNoneOver};
ghost use Rattle.modem_cli.specs.Modem.{Nothing, commands, asked, asked_by, promise, usage};
ghost use Rattle.modem_cli.specs.Named.{named};

use command_base::{ResultLine, Status, tell, usage_line};
use frame_commands::frames::{FramesWords, frames, frames_words};
use frame_commands::xid::{xid, xid_words};
use line_tap::{TapWords, tap, tap_words};
use link_pair::{PairWords, pair, pair_words};
use outside_calls::Folder;
use recordings::Rate;
use run_commands::peer::{PeerWords, peer, peer_words};
use run_commands::run::{RunWords, record_words, run, run_words};
use run_commands::soak::{soak, soak_words};
use signal_commands::decode::{DecodeWords, decode, decode_words};
use signal_commands::encode::{EncodeWords, encode, encode_words};
use signal_commands::margin::{MarginWords, margin, margin_words};
use signal_commands::pickup::{pickup, pickup_words};
use std::alloc::Global;
use trace_audit::{AuditWords, audit, audit_words};

/// A command, with the names that words give it.
#[derive(Drop)]
enum Asked<'a> {
    Run(RunWords<'a>),
    Encode(EncodeWords<'a>),
    Decode(DecodeWords<'a>),
    Frames(FramesWords<'a>),
    Xid(&'a str),
    Soak(u64),
    Peer(PeerWords<'a>),
    Pickup(&'a str),
    Margin(MarginWords<'a>),
    Tap(TapWords<'a>),
    Pair(PairWords<'a>),
    Audit(AuditWords<'a>),
}

/// What is asked for by the word of one of the last seven commands of the usage line and the words behind it.
#[tactic(auto, using(crate::proofs::Others::others))]
fn read_later_names<'a>(command: &str, names: &'a [String]) -> Option<Asked<'a>>
    ensures names { asked_by (drop 8 commands) command.now (map string_bytes names.now) ≡ option_map_or named result Nothing }
    ensures apart { IfSome result (λ it. (promise (named it)).Apart) }
{
    let asked = match command {
        "margin" => Asked::Margin(margin_words(names)?),
        "encode4" => Asked::Encode(encode_words(Rate::Quarters, names)?),
        "decode4" => Asked::Decode(decode_words(Rate::Quarters, names)?),
        "record" => Asked::Run(record_words(names)?),
        "tap" => Asked::Tap(tap_words(names)?),
        "pair" => Asked::Pair(pair_words(names)?),
        "audit" => Asked::Audit(audit_words(names)?),
        _ => return None,
    };
    Some(asked)
}

/// What is asked for by a command's word and the words behind it. Two functions read the words: what one holds in all fifteen arms
/// costs the prover much more.
#[tactic(auto, using(crate::proofs::Others::later))]
fn read_names<'a>(command: &str, names: &'a [String]) -> Option<Asked<'a>>
    ensures names { asked_by commands command.now (map string_bytes names.now) ≡ option_map_or named result Nothing }
    ensures apart { IfSome result (λ it. (promise (named it)).Apart) }
{
    let asked = match command {
        "run" => Asked::Run(run_words(names)?),
        "encode" => Asked::Encode(encode_words(Rate::Trellis, names)?),
        "decode" => Asked::Decode(decode_words(Rate::Trellis, names)?),
        "frames" => Asked::Frames(frames_words(names)?),
        "xid" => Asked::Xid(xid_words(names)?),
        "soak" => Asked::Soak(soak_words(names)?),
        "peer" => Asked::Peer(peer_words(names)?),
        "pickup" => Asked::Pickup(pickup_words(names)?),
        _ => return read_later_names(command, names),
    };
    Some(asked)
}

/// What words ask for.
fn read_words(words: &[String]) -> Option<Asked<'_>>
    ensures names { asked (map string_bytes words.now) ≡ option_map_or named result Nothing }
    ensures apart { IfSome result (λ it. (promise (named it)).Apart) }
{
    let [command, names @ ..] = words else {
        return None;
    };
    read_names(command.as_str(), names)
}

/// How the program is used.
fn usage() -> ResultLine
    ensures { result ≡ usage }
{
    usage_line(&[
        "run", "encode", "decode", "frames", "xid", "soak", "peer", "pickup", "margin", "encode4",
        "decode4", "record", "tap", "pair", "audit",
    ])
}

/// Does what a command's names say, and answers how it ended. Each answer's line is printed last.
fn answer<F: Folder>(alloc: Global, folder: &mut F, words: &[String], asked: &Asked<'_>) -> Status
    requires { (promise (named asked.now)).Apart }
    ensures headline { (promise (named asked.now)).Headline (F.state folder.old) (F.state folder.new) result }
    ensures answer { (promise (named asked.now)).Answer (map string_bytes words.now) (F.state folder.old) (F.state folder.new) result }
    ensures completes { (promise (named asked.now)).Completes (F.state folder.old) (F.state folder.new) result }
    ensures stand { PassesNoneOver (F.state folder.old) (F.state folder.new) result }
    ensures usage { result ≢ Status.Usage }
{
    match asked {
        Asked::Run(names) => run(alloc, folder, words, names),
        Asked::Encode(names) => encode(folder, words, names),
        Asked::Decode(names) => decode(alloc, folder, words, names),
        Asked::Frames(names) => frames(folder, words, names),
        Asked::Xid(digits) => xid(folder, words, digits),
        Asked::Soak(seed) => soak(alloc, folder, words, *seed),
        Asked::Peer(names) => peer(alloc, folder, words, names),
        Asked::Pickup(rec) => pickup(alloc, folder, words, rec),
        Asked::Margin(names) => margin(folder, words, names),
        Asked::Tap(names) => tap(alloc, folder, words, names),
        Asked::Pair(names) => pair(alloc, folder, words, names),
        Asked::Audit(names) => audit(alloc, folder, words, names),
    }
}

/// Does what the words of a command line say, and answers how it ended. Each answer's line is printed last.
pub fn modem<F: Folder>(alloc: Global, words: &[String], folder: &mut F) -> Status
    // Each end of a run receives a prefix of the other's file, and done means that both are whole. What `encode` writes is the file's recording, or
    // the beginning of it. What `decode` writes is carried by the first labels of a sequence that is no farther from the recording's first samples, up
    // to some place, than any other, or is the beginning of that. What `frames` prints are the pieces of the file's bits, and what `pickup` prints those that
    // a recording gives from whatever state its line began in. What `peer` leaves is what an end's run against the file's bits gives. Where `margin`
    // says that it is sure, what a recording releases begins the labels of the file. What `record` records is what both ends send, and what `tap` writes
    // is what two recordings show. Each link of a `pair` is a run over the line beside the other link; where the noise is faint it leaves what a run of
    // it alone leaves. A trace that `audit` calls true is that of the run of the files and the script.
    ensures headline { (promise (asked (map string_bytes words.now))).Headline (F.state folder.old) (F.state folder.new) result }

    // Each answer comes where it has to, with its line.
    ensures answer { (promise (asked (map string_bytes words.now))).Answer (map string_bytes words.now) (F.state folder.old) (F.state folder.new) result }

    // Where a command's inputs are right and the folder is sound, nothing but lack of memory keeps it from being done.
    ensures completes { (promise (asked (map string_bytes words.now))).Completes (F.state folder.old) (F.state folder.new) result }

    // No fault of the folder is passed over.
    ensures stand { PassesNoneOver (F.state folder.old) (F.state folder.new) result }

    // How the program is used is printed for no other words.
    ensures usage { result ≡ Status.Usage → asked (map string_bytes words.now) ≡ Nothing }
{
    match read_words(words) {
        Some(asked) => answer(alloc, folder, words, &asked),
        None => tell(folder, usage().as_slice(), Status::Usage),
    }
}
