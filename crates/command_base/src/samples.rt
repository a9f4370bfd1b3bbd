// The octets behind a recording's header.
ghost use Rattle.std.specs.Prelude.{◌≡◌, ◌≢◌, ◌⊎◌, ◌≤◌, ◌+◌, ◌%◌, ◌++◌, ◌∷◌, [], ℕ, List, IfOk, IfErr, OnOk, length, take};
ghost use Rattle.scramblers.specs.declared.mode.Mode.{Mode};
ghost use Rattle.outside_calls.specs.Folder.{FolderState, OnlyReads, CountsStand};
ghost use Rattle.command_base.specs.Stops.{ReadFails};
ghost use Rattle.recordings.specs.declared.rate.Rate.{Rate};
ghost use Rattle.command_base.specs.Recordings.{ReadBehind, IsAtEnd};

use crate::{RECORDING_LIMIT, read_piece};
use outside_calls::{Folder, FolderFault};

/// How many octets of a recording are read at a time: whole samples.
pub const PIECE: usize = 4_096;

/// Reads on behind the header: fills the front of `piece` with the recording's octets from `at` on, and answers how many. Unless they
/// are whole samples and some, the recording ends with them.
pub fn read_samples<F: Folder>(
    folder: &mut F,
    name: &str,
    at: u64,
    piece: &mut [u8],
) -> Result<usize, FolderFault>
    requires size { length piece.old ≡ PIECE }
    requires within { at ≤ RECORDING_LIMIT }
    ensures more { (start : FolderState) (rate : Rate) (mode : Mode) (content : List ℕ) → ReadBehind start (F.state folder.old) name.now rate mode content at
        → IfOk result (λ count. ReadBehind start (F.state folder.new) name.now rate mode (content ++ take count piece.new) (at + count)) }
    ensures end { (start : FolderState) (rate : Rate) (mode : Mode) (content : List ℕ) → ReadBehind start (F.state folder.old) name.now rate mode content at
        → IfOk result (λ count. (count % 4 ≢ 0) ⊎ (count ≡ 0) → IsAtEnd start name.now (at + count)) }
    ensures bound { IfOk result (λ count. count ≤ PIECE) }
    ensures within { IfOk result (λ count. at + count ≤ RECORDING_LIMIT) }
    ensures kept { length piece.new ≡ PIECE }
    ensures reads { OnlyReads (F.state folder.old) (F.state folder.new) }
    ensures fails { IfErr result (ReadFails (F.state folder.old) (F.state folder.new) (name.now ∷ [])) }
    ensures stand { OnOk result (CountsStand (F.state folder.old) (F.state folder.new)) }
{
    match read_piece(folder, name, RECORDING_LIMIT, at, piece) {
        Ok(count) => Ok(count),
        Err(fault) => Err(fault),
    }
}
