// A file's bits, listed piece by piece.
ghost use Rattle.std.specs.Prelude.{◌≡◌, ◌≤◌, ◌+◌, ◌*◌, [], ◌∷◌, IfOk, IfErr};
ghost use Rattle.outside_calls.specs.Folder.{FolderState};
ghost use Rattle.shared_terms.specs.declared.limits.TheConstants.{FILE_LIMIT};
ghost use Rattle.outside_calls.specs.Outputs.{OnlyOutputs};
ghost use Rattle.command_base.specs.Stops.{EndCounts};
ghost use Rattle.frame_commands.specs.Listing.Words.{named};
ghost use Rattle.frame_commands.specs.Listing.Heard.{Begun, HeardTo};
ghost use Rattle.frame_commands.specs.Listing.Ends.{SaysAll, EndsBy, Ends};

use crate::frames::words::FramesWords;
use command_base::{Listener, Stop, read_piece, within_limit};
use outside_calls::Folder;
use shared_terms::FILE_LIMIT;

/// The place of the stream's name among the words.
const BITS: usize = 2;

/// How many octets are read at a time.
const PIECE: usize = 4096;

/// Hears the next piece of the file, and answers how many octets it has: none at the file's end.
fn hear_next<F: Folder>(
    folder: &mut F,
    names: &FramesWords<'_>,
    listener: &mut Listener,
    at: u64,
) -> Result<usize, Stop>
    requires within { at ≤ FILE_LIMIT }
    requires pieces { listener.old.pieces ≤ 8 * at }
    ensures ok { (start : FolderState) → HeardTo start (F.state folder.old) (named names.now) listener.old at
        → IfOk result (λ count. HeardTo start (F.state folder.new) (named names.now) listener.new (at + count)) }
    ensures end { (start : FolderState) → HeardTo start (F.state folder.old) (named names.now) listener.old at
        → IfOk result (λ count. count ≡ 0 → SaysAll start (F.state folder.new) (named names.now) listener.new.pieces) }
    ensures err { (start : FolderState) → HeardTo start (F.state folder.old) (named names.now) listener.old at
        → IfErr result (EndsBy start (F.state folder.new) (named names.now)) }
    ensures bound { IfOk result (λ count. at + count ≤ FILE_LIMIT) }
    ensures pieces { IfOk result (λ count. listener.new.pieces ≤ 8 * (at + count)) }
    ensures only { OnlyOutputs (F.state folder.old) (F.state folder.new) [] }
    ensures counts { EndCounts (F.state folder.old) (F.state folder.new) (names.now.bits.now ∷ []) [] result }
{
    let mut piece = [0u8; PIECE];
    let count = match read_piece(folder, names.bits, FILE_LIMIT, at, &mut piece) {
        Ok(0) => return Ok(0),
        Ok(count) => count,
        Err(fault) => return Err(Stop::Read(fault)),
    };
    match listener.hear(folder, &piece[..count]) {
        Ok(()) => Ok(count),
        Err(fault) => Err(Stop::Say(fault)),
    }
}

/// Hears the file to its end: the number of pieces.
fn hear_file<F: Folder>(folder: &mut F, names: &FramesWords<'_>) -> Result<u64, Stop>
    ensures ends { (start : FolderState) → Begun start (F.state folder.old) (named names.now)
        → Ends start (F.state folder.new) (named names.now) result }
    ensures only { OnlyOutputs (F.state folder.old) (F.state folder.new) [] }
    ensures counts { EndCounts (F.state folder.old) (F.state folder.new) (names.now.bits.now ∷ []) [] result }
{
    let mut listener = Listener::new(names.sender);
    let mut at: u64 = 0;
    loop {
        match hear_next(folder, names, &mut listener, at) {
            Ok(0) => return Ok(listener.pieces()),
            Ok(count) => at += count as u64,
            Err(fault) => return Err(fault),
        }
    }
}

/// The file's length is looked at, and its pieces are listed: their number.
pub(crate) fn list_pieces<F: Folder>(folder: &mut F, names: &FramesWords<'_>) -> Result<u64, Stop>
    ensures ends { Ends (F.state folder.old) (F.state folder.new) (named names.now) result }
    ensures only { OnlyOutputs (F.state folder.old) (F.state folder.new) [] }
    ensures counts { EndCounts (F.state folder.old) (F.state folder.new) (names.now.bits.now ∷ []) [] result }
{
    match within_limit(folder, names.bits, FILE_LIMIT, BITS) {
        Ok(()) => hear_file(folder, names),
        Err(stop) => Err(stop),
    }
}
