// The header of a recording of one mode.
ghost use Rattle.std.specs.Prelude.{◌≡◌, ◌≤◌, ◌<◌, ◌+◌, ◌++◌, ◌∷◌, [], ℕ, List, OnOk, IfOk, IfErr, length};
ghost use Rattle.scramblers.specs.declared.mode.Mode.{Mode as ModeValue};
ghost use Rattle.outside_calls.specs.Folder.{FolderState, OnlyReads, CountsStand};
ghost use Rattle.recordings.specs.declared.header.TheConstants.{HEADER};
ghost use Rattle.recordings.specs.Recording.{header_of};
ghost use Rattle.line_tap.specs.declared.limits.TheConstants.{TAP_LIMIT};
ghost use Rattle.command_base.specs.Inputs.{ReadTo};
ghost use Rattle.command_base.specs.Stops.{StopCounts};
ghost use Rattle.line_tap.specs.Headers.{fits, IsNotHeader, NoHeader};

use crate::TAP_LIMIT;
use command_base::{Status, Stop, read_piece};
use outside_calls::Folder;
use recordings::{HEADER, Rate, header_octets};
use scramblers::Mode;

/// Whether the header of this mode has this octet at this place.
fn fits(mode: Mode, place: usize, octet: u8) -> bool
    requires { place < HEADER }
    ensures { result ≡ fits mode place octet }
{
    octet == header_octets(Rate::Trellis, mode).as_slice()[place]
}

/// Looks whether these octets are the header of a recording of this mode; else the first place where they are not.
fn check_header(octets: &[u8], mode: Mode) -> Result<(), u64>
    requires { length octets.now ≤ HEADER }
    ensures ok { OnOk result (octets.now ≡ header_of mode) }
    ensures err { IfErr result (IsNotHeader mode octets.now) }
{
    for place in 0..HEADER {
        match octets.get(place) {
            Some(octet) if fits(mode, place, *octet) => {}
            _ => return Err(place as u64),
        }
    }
    Ok(())
}

/// Reads the header of a recording, which is that of this mode.
pub(crate) fn open_header<F: Folder>(folder: &mut F, name: &str, mode: Mode) -> Result<(), Stop>
    ensures ok { (start : FolderState) → ReadTo start (F.state folder.old) name.now TAP_LIMIT 0 []
        → OnOk result (ReadTo start (F.state folder.new) name.now TAP_LIMIT HEADER (header_of mode)) }
    ensures err { (start : FolderState) → ReadTo start (F.state folder.old) name.now TAP_LIMIT 0 [] → IfErr result (NoHeader start name.now mode) }
    ensures reads { OnlyReads (F.state folder.old) (F.state folder.new) }
    ensures stand { OnOk result (CountsStand (F.state folder.old) (F.state folder.new)) }
    ensures counts { (outputs : List (List ℕ)) → IfErr result (StopCounts (F.state folder.old) (F.state folder.new) (name.now ∷ []) outputs) }
{
    let mut header = [0u8; HEADER];
    match read_piece(folder, name, TAP_LIMIT, 0, &mut header) {
        Ok(count) => match check_header(&header[..count], mode) {
            Ok(()) => Ok(()),
            Err(at) => Err(Stop::Own(Status::BadRecording { at })),
        },
        Err(fault) => Err(Stop::Read(fault)),
    }
}
