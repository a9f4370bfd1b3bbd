// The command: the recording is decoded, and its line is printed.
ghost use Rattle.std.specs.Prelude.{◌≡◌, true, [], ◌∷◌, map, string_bytes};
ghost use Rattle.outside_calls.specs.Folder.{FolderState};
ghost use Rattle.command_base.specs.Job.{Answers};
ghost use Rattle.outside_calls.specs.Outputs.{OnlyOutput};
ghost use Rattle.command_base.specs.Stops.{EndCounts};
ghost use Rattle.command_base.specs.Apart.{are_apart};
ghost use Rattle.signal_commands.specs.Decoding.Words.{named, inputs_of, outputs_of};
ghost use Rattle.signal_commands.specs.Decoding.Ends.{Ends, decode_job};
ghost use Rattle.command_base.specs.Recordings.{Opened};
ghost use Rattle.signal_commands.specs.Decoding.Completes.{Completes};
ghost use Rattle.signal_commands.specs.Decoding.Headline.{Headline};

use crate::decode::playback::Playback;
use crate::decode::player::{play_to_end, write_rest};
use crate::decode::words::DecodeWords;
use command_base::{Status, Stop, create_output, octets_line, open_recording, tell, tell_stop};
use outside_calls::Folder;
use scramblers::Mode;
use std::alloc::Global;

/// The place of the recording's name among the words.
const REC: usize = 1;

/// Decodes the recording behind its header into the file: how many octets.
fn decode_file<F: Folder>(
    alloc: Global,
    folder: &mut F,
    names: &DecodeWords<'_>,
    mode: Mode,
) -> Result<u64, Stop>
    requires apart { are_apart (inputs_of (named names.now)) (outputs_of (named names.now)) ≡ true }
    ensures ends { (start : FolderState) → Opened start (F.state folder.old) names.now.rec.now names.now.rate mode → Ends start (F.state folder.new) (named names.now) result }
    ensures only { OnlyOutput (F.state folder.old) (F.state folder.new) names.now.file.now }
    ensures counts { EndCounts (F.state folder.old) (F.state folder.new) (names.now.rec.now ∷ []) (names.now.file.now ∷ []) result }
{
    let mut playback = match Playback::new(alloc, names.rate, mode) {
        Ok(playback) => playback,
        Err(_) => return Err(Stop::NoMemory),
    };
    match create_output(folder, names.file) {
        Ok(()) => {}
        Err(fault) => return Err(Stop::Write(fault)),
    }
    match play_to_end(folder, names, mode, &mut playback) {
        Ok(written) => write_rest(folder, names, playback, written),
        Err(stop) => Err(stop),
    }
}

/// Decodes the recording: how many octets.
fn decode_recording<F: Folder>(
    alloc: Global,
    folder: &mut F,
    names: &DecodeWords<'_>,
) -> Result<u64, Stop>
    requires { are_apart (inputs_of (named names.now)) (outputs_of (named names.now)) ≡ true }
    ensures ends { Ends (F.state folder.old) (F.state folder.new) (named names.now) result }
    ensures only { OnlyOutput (F.state folder.old) (F.state folder.new) names.now.file.now }
    ensures counts { EndCounts (F.state folder.old) (F.state folder.new) (names.now.rec.now ∷ []) (names.now.file.now ∷ []) result }
{
    match open_recording(folder, names.rec, names.rate, REC) {
        Ok(mode) => decode_file(alloc, folder, names, mode),
        Err(stop) => Err(stop),
    }
}

/// Decodes the recording, and prints how it ended.
fn decode_and_tell<F: Folder>(
    alloc: Global,
    folder: &mut F,
    words: &[String],
    names: &DecodeWords<'_>,
) -> Status
    requires { are_apart (inputs_of (named names.now)) (outputs_of (named names.now)) ≡ true }
    ensures { Answers (decode_job (named names.now)) (map string_bytes words.now) (F.state folder.old) (F.state folder.new) result }
{
    match decode_recording(alloc, folder, names) {
        Ok(octets) => tell(folder, octets_line(octets).as_slice(), Status::Done),
        Err(stop) => tell_stop(folder, words, stop),
    }
}

/// Does what the words of a decoding say, and answers how it ended. The line of the answer is printed last.
pub fn decode<F: Folder>(
    alloc: Global,
    folder: &mut F,
    words: &[String],
    names: &DecodeWords<'_>,
) -> Status
    requires { are_apart (inputs_of (named names.now)) (outputs_of (named names.now)) ≡ true }

    // The output becomes what a code sequence carries that is no farther from the recording than any other, or the beginning of it
    // where the command ends otherwise. A line of four points is never lost.
    ensures headline { Headline (F.state folder.old) (F.state folder.new) (named names.now) result }

    // Where the input is right and the folder sound, nothing but lack of memory keeps it from being done.
    ensures completes { Completes (F.state folder.old) (F.state folder.new) (named names.now) result }

    // Each answer comes where it has to, with its line.
    ensures answer { Answers (decode_job (named names.now)) (map string_bytes words.now) (F.state folder.old) (F.state folder.new) result }
{
    decode_and_tell(alloc, folder, words, names)
}
