// The lengths of both inputs, and the recording's header.
ghost use Rattle.std.specs.Prelude.{[], IfOk, IfErr};
ghost use Rattle.outside_calls.specs.Folder.{OnlyReads};
ghost use Rattle.command_base.specs.Stops.{EndCounts};
ghost use Rattle.signal_commands.specs.Margins.Words.{named, inputs_of};
ghost use Rattle.signal_commands.specs.Margins.Ends.{AreOpen, EndsBy};

use crate::margin::words::MarginWords;
use command_base::{RECORDING_LIMIT, Status, Stop, read_piece, within_limit};
use outside_calls::Folder;
use recordings::{HEADER, Rate, read_header};
use scramblers::Mode;
use shared_terms::FILE_LIMIT;

/// The place of the recording's name among the words.
const REC: usize = 1;

/// The place of the file's name among the words.
const FILE: usize = 2;

/// Looks at the lengths of both inputs, the recording first, and reads its header: the mode.
pub(crate) fn open_inputs<F: Folder>(folder: &mut F, names: &MarginWords<'_>) -> Result<Mode, Stop>
    ensures ok { IfOk result (AreOpen (F.state folder.old) (named names.now)) }
    ensures err { IfErr result (EndsBy (F.state folder.old) (F.state folder.new) (named names.now)) }
    ensures reads { OnlyReads (F.state folder.old) (F.state folder.new) }
    ensures counts { EndCounts (F.state folder.old) (F.state folder.new) (inputs_of (named names.now)) [] result }
{
    match within_limit(folder, names.rec, RECORDING_LIMIT, REC) {
        Ok(()) => {}
        Err(stop) => return Err(stop),
    }
    match within_limit(folder, names.file, FILE_LIMIT, FILE) {
        Ok(()) => {}
        Err(stop) => return Err(stop),
    }
    let mut header = [0u8; HEADER];
    match read_piece(folder, names.rec, RECORDING_LIMIT, 0, &mut header) {
        Ok(count) => match read_header(Rate::Trellis, &header[..count]) {
            Ok(mode) => Ok(mode),
            Err(at) => Err(Stop::Own(Status::BadRecording { at })),
        },
        Err(fault) => Err(Stop::Read(fault)),
    }
}
