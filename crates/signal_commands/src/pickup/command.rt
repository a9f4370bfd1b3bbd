// The command: the recording is picked up, and its last line is printed.
ghost use Rattle.std.specs.Prelude.{[], ◌∷◌, map, string_bytes};
ghost use Rattle.outside_calls.specs.Folder.{FolderState};
ghost use Rattle.command_base.specs.Job.{Answers};
ghost use Rattle.outside_calls.specs.Outputs.{OnlyOutputs};
ghost use Rattle.command_base.specs.Stops.{EndCounts};
ghost use Rattle.recordings.specs.declared.rate.Rate.TheVariants as rates;
ghost use Rattle.command_base.specs.Recordings.{Opened};
ghost use Rattle.signal_commands.specs.PickingUp.Ends.{Ends, pickup_job};
ghost use Rattle.signal_commands.specs.PickingUp.Completes.{Completes};
ghost use Rattle.signal_commands.specs.PickingUp.Headline.{Headline};

use crate::pickup::player::Player;
use crate::pickup::playing::play_to_end;
use command_base::{Status, Stop, open_recording, pieces_line, tell, tell_stop};
use outside_calls::Folder;
use recordings::Rate;
use scramblers::Mode;
use std::alloc::Global;

/// The place of the recording's name among the words.
const REC: usize = 1;

/// Picks up the recording behind its header: how many pieces.
fn pick_up_samples<F: Folder>(
    alloc: Global,
    folder: &mut F,
    rec: &str,
    mode: Mode,
) -> Result<u64, Stop>
    ensures ends { (start : FolderState) → Opened start (F.state folder.old) rec.now rates.Trellis mode → Ends start (F.state folder.new) rec.now result }
    ensures only { OnlyOutputs (F.state folder.old) (F.state folder.new) [] }
    ensures counts { EndCounts (F.state folder.old) (F.state folder.new) (rec.now ∷ []) [] result }
{
    match Player::new(alloc, mode) {
        Ok(mut player) => play_to_end(folder, rec, mode, &mut player),
        Err(_) => Err(Stop::NoMemory),
    }
}

/// Picks up the recording: how many pieces.
fn pick_up<F: Folder>(alloc: Global, folder: &mut F, rec: &str) -> Result<u64, Stop>
    ensures ends { Ends (F.state folder.old) (F.state folder.new) rec.now result }
    ensures only { OnlyOutputs (F.state folder.old) (F.state folder.new) [] }
    ensures counts { EndCounts (F.state folder.old) (F.state folder.new) (rec.now ∷ []) [] result }
{
    match open_recording(folder, rec, Rate::Trellis, REC) {
        Ok(mode) => pick_up_samples(alloc, folder, rec, mode),
        Err(stop) => Err(stop),
    }
}

/// Picks up the recording, and prints how it ended.
fn pick_up_and_tell<F: Folder>(alloc: Global, folder: &mut F, words: &[String], rec: &str) -> Status
    ensures { Answers (pickup_job rec.now) (map string_bytes words.now) (F.state folder.old) (F.state folder.new) result }
{
    match pick_up(alloc, folder, rec) {
        Ok(pieces) => tell(folder, pieces_line(pieces).as_slice(), Status::Done),
        Err(stop) => tell_stop(folder, words, stop),
    }
}

/// Prints the frames of a recording that begins anywhere in a stream, and answers how it ended. The line of the answer is printed last.
pub fn pickup<F: Folder>(alloc: Global, folder: &mut F, words: &[String], rec: &str) -> Status
    // A line is printed for each piece in the bits of the labels that the recording's samples release, from whatever state its line
    // began in, and then their number. No file changes.
    ensures headline { Headline (F.state folder.old) (F.state folder.new) rec.now result }

    // Where the input is right and the folder sound, nothing but lack of memory keeps it from being done.
    ensures completes { Completes (F.state folder.old) (F.state folder.new) rec.now result }

    // Each answer comes where it has to, with its line.
    ensures answer { Answers (pickup_job rec.now) (map string_bytes words.now) (F.state folder.old) (F.state folder.new) result }
{
    pick_up_and_tell(alloc, folder, words, rec)
}
