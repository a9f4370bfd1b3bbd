// The octets of both recordings.
ghost use Rattle.std.specs.Prelude.{◌≡◌, ℕ, ◌+◌, ◌<◌, ◌≤◌, ◌++◌, List, [], ◌∷◌, length, take, vec_len, IsTrue, IfOk, IfErr, OnOk};
ghost use Rattle.outside_calls.specs.Folder.{FolderState, OnlyReads, CountsStand, octets_at};
ghost use Rattle.command_base.specs.Inputs.{ReadTo};
ghost use Rattle.command_base.specs.Stops.{ReadFails};
ghost use Rattle.line_tap.specs.Names.{named, recordings_of};

use crate::limits::TAP_LIMIT;
use crate::names::TapWords;
use command_base::read_piece;
use outside_calls::{Folder, FolderFault};
use shared_terms::Both;

/// Reads on in one recording from this place: how many octets of the piece these are.
fn read_into<F: Folder>(
    folder: &mut F,
    name: &str,
    at: u64,
    piece: &mut Vec<u8>,
) -> Result<usize, FolderFault>
    requires { at ≤ TAP_LIMIT }
    ensures more { (start : FolderState) (octets : List ℕ) → ReadTo start (F.state folder.old) name.now TAP_LIMIT at octets
        → IfOk result (λ count. ReadTo start (F.state folder.new) name.now TAP_LIMIT (at + count) (octets ++ take count piece.new.items)) }
    ensures end { (start : FolderState) (octets : List ℕ) → ReadTo start (F.state folder.old) name.now TAP_LIMIT at octets
        → IfOk result (λ count. count < vec_len piece.new → IsTrue (start.tells name.now) → octets ++ take count piece.new.items ≡ octets_at start name.now) }
    ensures bound { IfOk result (λ count. count ≤ vec_len piece.new) }
    ensures within { IfOk result (λ count. at + count ≤ TAP_LIMIT) }
    ensures kept { vec_len piece.new ≡ vec_len piece.old }
    ensures reads { OnlyReads (F.state folder.old) (F.state folder.new) }
    ensures stand { OnOk result (CountsStand (F.state folder.old) (F.state folder.new)) }
    ensures fails { IfErr result (ReadFails (F.state folder.old) (F.state folder.new) (name.now ∷ [])) }
{
    match read_piece(folder, name, TAP_LIMIT, at, piece) {
        Ok(count) => Ok(count),
        Err(fault) => Err(fault),
    }
}

/// Reads on in both recordings from this place, the originator's first, and answers how many octets of each piece these are. Fewer than a piece has
/// room for mean the recording's end.
pub(crate) fn read_pieces<F: Folder>(
    folder: &mut F,
    names: &TapWords<'_>,
    at: u64,
    orig: &mut Vec<u8>,
    answ: &mut Vec<u8>,
) -> Result<Both<usize>, FolderFault>
    requires { at ≤ TAP_LIMIT }
    ensures orig { (start : FolderState) (octets : List ℕ) → ReadTo start (F.state folder.old) names.now.rec_o.now TAP_LIMIT at octets
        → IfOk result (λ counts. ReadTo start (F.state folder.new) names.now.rec_o.now TAP_LIMIT (at + counts.orig) (octets ++ take counts.orig orig.new.items)) }
    ensures answ { (start : FolderState) (octets : List ℕ) → ReadTo start (F.state folder.old) names.now.rec_a.now TAP_LIMIT at octets
        → IfOk result (λ counts. ReadTo start (F.state folder.new) names.now.rec_a.now TAP_LIMIT (at + counts.answ) (octets ++ take counts.answ answ.new.items)) }
    ensures orig_end { (start : FolderState) (octets : List ℕ) → ReadTo start (F.state folder.old) names.now.rec_o.now TAP_LIMIT at octets
        → IfOk result (λ counts. counts.orig < vec_len orig.new → IsTrue (start.tells names.now.rec_o.now) → octets ++ take counts.orig orig.new.items ≡ octets_at start names.now.rec_o.now) }
    ensures answ_end { (start : FolderState) (octets : List ℕ) → ReadTo start (F.state folder.old) names.now.rec_a.now TAP_LIMIT at octets
        → IfOk result (λ counts. counts.answ < vec_len answ.new → IsTrue (start.tells names.now.rec_a.now) → octets ++ take counts.answ answ.new.items ≡ octets_at start names.now.rec_a.now) }
    ensures orig_bound { IfOk result (λ counts. counts.orig ≤ vec_len orig.new) }
    ensures answ_bound { IfOk result (λ counts. counts.answ ≤ vec_len answ.new) }
    ensures orig_within { IfOk result (λ counts. at + counts.orig ≤ TAP_LIMIT) }
    ensures answ_within { IfOk result (λ counts. at + counts.answ ≤ TAP_LIMIT) }
    ensures orig_kept { vec_len orig.new ≡ vec_len orig.old }
    ensures answ_kept { vec_len answ.new ≡ vec_len answ.old }
    ensures reads { OnlyReads (F.state folder.old) (F.state folder.new) }
    ensures stand { OnOk result (CountsStand (F.state folder.old) (F.state folder.new)) }
    ensures fails { IfErr result (ReadFails (F.state folder.old) (F.state folder.new) (recordings_of (named names.now))) }
{
    let of_orig = match read_into(folder, names.rec_o, at, orig) {
        Ok(count) => count,
        Err(fault) => return Err(fault),
    };
    match read_into(folder, names.rec_a, at, answ) {
        Ok(of_answ) => Ok(Both {
            orig: of_orig,
            answ: of_answ,
        }),
        Err(fault) => Err(fault),
    }
}
