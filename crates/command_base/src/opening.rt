// A recording's length and header.
ghost use Rattle.std.specs.Prelude.{ℕ, List, [], ◌∷◌, IfOk, IfErr};
ghost use Rattle.outside_calls.specs.Folder.{OnlyReads};
ghost use Rattle.command_base.specs.Stops.{StopCounts};
ghost use Rattle.command_base.specs.Recordings.{Opened, IsNotOpened};

use crate::{RECORDING_LIMIT, Status, Stop, read_piece, within_limit};
use outside_calls::Folder;
use recordings::{HEADER, Rate, read_header};
use scramblers::Mode;

/// Looks at the recording's length and reads its header, at this rate. Where it is too long, the answer names this word.
pub fn open_recording<F: Folder>(
    folder: &mut F,
    name: &str,
    rate: Rate,
    word: usize,
) -> Result<Mode, Stop>
    ensures ok { IfOk result (Opened (F.state folder.old) (F.state folder.new) name.now rate) }
    ensures err { IfErr result (IsNotOpened (F.state folder.old) (F.state folder.new) name.now rate word) }
    ensures reads { OnlyReads (F.state folder.old) (F.state folder.new) }
    ensures counts { (outputs : List (List ℕ)) → IfErr result (StopCounts (F.state folder.old) (F.state folder.new) (name.now ∷ []) outputs) }
{
    match within_limit(folder, name, RECORDING_LIMIT, word) {
        Ok(()) => {}
        Err(stop) => return Err(stop),
    }
    let mut header = [0u8; HEADER];
    match read_piece(folder, name, RECORDING_LIMIT, 0, &mut header) {
        Ok(count) => match read_header(rate, &header[..count]) {
            Ok(mode) => Ok(mode),
            Err(at) => Err(Stop::Own(Status::BadRecording { at })),
        },
        Err(fault) => Err(Stop::Read(fault)),
    }
}
