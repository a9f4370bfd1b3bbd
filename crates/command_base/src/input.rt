// Steps of an input.
ghost use Rattle.std.specs.Prelude.{◌≡◌, ◌≤◌, ◌<◌, ◌+◌, ◌-◌, ◌++◌, ℕ, List, [], ◌∷◌, IsTrue, IfOk, IfErr, OnOk, min, length, take, drop, vec_len};
ghost use Rattle.outside_calls.specs.Folder.{FolderState, OnlyReads, ReadsFront, TellsOctets, CountsStand, octets_at};
ghost use Rattle.command_base.specs.Inputs.{IsWithin, IsNotWithin, FailsToHold, ReadTo};
ghost use Rattle.command_base.specs.Stops.{ReadFails};

use crate::{Status, Stop};
use outside_calls::{Folder, FolderFault};
use std::alloc::Global;

/// How many octets of a file that is held whole are read at a time.
const READ: usize = 1024;

/// Looks whether an input is within its limit: one octet is read there. Where it is longer, the answer names this word.
pub fn within_limit<F: Folder>(
    folder: &mut F,
    name: &str,
    limit: u64,
    word: usize,
) -> Result<(), Stop>
    ensures within { OnOk result (IsWithin (F.state folder.old) name.now limit) }
    ensures octets { OnOk result (TellsOctets (F.state folder.old) name.now) }
    ensures refused { IfErr result (IsNotWithin (F.state folder.old) (F.state folder.new) name.now limit word) }
    ensures reads { OnlyReads (F.state folder.old) (F.state folder.new) }
    ensures stand { OnOk result (CountsStand (F.state folder.old) (F.state folder.new)) }
{
    let mut octet = [0u8; 1];
    match folder.read_at(name, limit, &mut octet) {
        Ok(0) => Ok(()),
        Ok(_) => Err(Stop::Own(Status::TooLong { word })),
        Err(fault) => Err(Stop::Read(fault)),
    }
}

/// Fills the front of `piece` with the input's octets from `at` on, and answers how many.
fn read_front<F: Folder>(
    folder: &mut F,
    name: &str,
    at: u64,
    piece: &mut [u8],
) -> Result<usize, FolderFault>
    ensures octets { IfOk result (ReadsFront (F.state folder.old) name.now at piece.old piece.new) }
    ensures bound { IfOk result (λ count. count ≤ length piece.old) }
    ensures kept { length piece.new ≡ length piece.old }
    ensures reads { OnlyReads (F.state folder.old) (F.state folder.new) }
    ensures fails { IfErr result (ReadFails (F.state folder.old) (F.state folder.new) (name.now ∷ [])) }
    ensures stand { OnOk result (CountsStand (F.state folder.old) (F.state folder.new)) }
{
    match folder.read_at(name, at, piece) {
        Ok(count) => Ok(count),
        Err(fault) => Err(fault),
    }
}

/// Fills the front of `piece` with the input's octets from `at` on, up to its limit, and answers how many. None at or past the limit is read, also of
/// an input that grows.
pub fn read_part<F: Folder>(
    folder: &mut F,
    name: &str,
    limit: u64,
    at: u64,
    piece: &mut [u8],
) -> Result<usize, FolderFault>
    requires { at ≤ limit }
    ensures front { IfOk result (λ count. IsTrue ((F.state folder.old).tells name.now) → take count piece.new ≡ take count (drop at (octets_at (F.state folder.old) name.now))) }
    ensures count { IfOk result (λ count. IsTrue ((F.state folder.old).tells name.now) → count ≡ min (min (length piece.old) (limit - at)) (length (octets_at (F.state folder.old) name.now) - at)) }
    ensures bound { IfOk result (λ count. count ≤ length piece.old) }
    ensures within { IfOk result (λ count. at + count ≤ limit) }
    ensures kept { length piece.new ≡ length piece.old }
    ensures reads { OnlyReads (F.state folder.old) (F.state folder.new) }
    ensures fails { IfErr result (ReadFails (F.state folder.old) (F.state folder.new) (name.now ∷ [])) }
    ensures stand { OnOk result (CountsStand (F.state folder.old) (F.state folder.new)) }
{
    let room = limit - at;
    let want = if room < piece.len() as u64 {
        room as usize
    } else {
        piece.len()
    };
    read_front(folder, name, at, &mut piece[..want])
}

/// Reads on: fills the front of `piece` with the input's octets from `at` on, and answers how many. None at or past the limit is
/// read. Fewer than `piece` has room for mean the input's end, or its limit.
pub fn read_piece<F: Folder>(
    folder: &mut F,
    name: &str,
    limit: u64,
    at: u64,
    piece: &mut [u8],
) -> Result<usize, FolderFault>
    requires { at ≤ limit }
    ensures more { (start : FolderState) (octets : List ℕ) → ReadTo start (F.state folder.old) name.now limit at octets
        → IfOk result (λ count. ReadTo start (F.state folder.new) name.now limit (at + count) (octets ++ take count piece.new)) }
    ensures end { (start : FolderState) (octets : List ℕ) → ReadTo start (F.state folder.old) name.now limit at octets
        → IfOk result (λ count. count < length piece.old → IsTrue (start.tells name.now) → octets ++ take count piece.new ≡ octets_at start name.now) }
    ensures bound { IfOk result (λ count. count ≤ length piece.old) }
    ensures within { IfOk result (λ count. at + count ≤ limit) }
    ensures kept { length piece.new ≡ length piece.old }
    ensures reads { OnlyReads (F.state folder.old) (F.state folder.new) }
    ensures fails { IfErr result (ReadFails (F.state folder.old) (F.state folder.new) (name.now ∷ [])) }
    ensures stand { OnOk result (CountsStand (F.state folder.old) (F.state folder.new)) }
{
    match read_part(folder, name, limit, at, piece) {
        Ok(count) => Ok(count),
        Err(fault) => Err(fault),
    }
}

/// The next piece of an input is put behind what was read of it.
fn read_more<F: Folder>(
    folder: &mut F,
    name: &str,
    limit: u64,
    file: &mut Vec<u8>,
) -> Result<usize, Stop>
    requires { vec_len file.old < limit }
    ensures more { IfOk result (λ count. vec_len file.new ≡ vec_len file.old + count) }
    ensures bound { IfOk result (λ count. vec_len file.old + count ≤ limit) }
    ensures octets { IfOk result (λ count. IsTrue ((F.state folder.old).tells name.now) →
        let rest = drop (vec_len file.old) (octets_at (F.state folder.old) name.now) in
        (file.new.items ≡ file.old.items ++ take count rest) × (count ≡ 0 → (rest ≡ []))) }
    ensures reads { OnlyReads (F.state folder.old) (F.state folder.new) }
    ensures fault { IfErr result (FailsToHold (F.state folder.old) (F.state folder.new) name.now) }
    ensures stand { OnOk result (CountsStand (F.state folder.old) (F.state folder.new)) }
{
    let mut piece = [0u8; READ];
    let count = match read_part(folder, name, limit, file.len() as u64, &mut piece) {
        Ok(count) => count,
        Err(fault) => return Err(Stop::Read(fault)),
    };
    match file.extend_from_slice(&piece[..count]) {
        Ok(()) => Ok(count),
        Err(_) => Err(Stop::NoMemory),
    }
}

/// The input's octets, up to its limit.
pub fn read_file<F: Folder>(
    alloc: Global,
    folder: &mut F,
    name: &str,
    limit: u64,
) -> Result<Vec<u8>, Stop>
    ensures octets { IfOk result (λ file. IsTrue ((F.state folder.old).tells name.now) → file.items ≡ take limit (octets_at (F.state folder.old) name.now)) }
    ensures whole { IfOk result (λ file. IsTrue ((F.state folder.old).tells name.now) → length (octets_at (F.state folder.old) name.now) ≤ limit → file.items ≡ octets_at (F.state folder.old) name.now) }
    ensures bound { IfOk result (λ file. vec_len file ≤ limit) }
    ensures reads { OnlyReads (F.state folder.old) (F.state folder.new) }
    ensures fault { IfErr result (FailsToHold (F.state folder.old) (F.state folder.new) name.now) }
    ensures stand { OnOk result (CountsStand (F.state folder.old) (F.state folder.new)) }
{
    let mut file = Vec::new(alloc);
    while (file.len() as u64) < limit {
        if read_more(folder, name, limit, &mut file)? == 0 {
            break;
        }
    }
    Ok(file)
}
