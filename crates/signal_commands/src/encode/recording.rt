// A file's octets, recorded piece by piece.
ghost use Rattle.std.specs.Prelude.{◌≡◌, ◌≤◌, ◌+◌, ◌*◌, ◌++◌, ℕ, List, [], ◌∷◌, IfOk, IfErr, length, true};
ghost use Rattle.outside_calls.specs.Folder.{FolderState};
ghost use Rattle.scramblers.specs.declared.mode.Mode.{Mode};
ghost use Rattle.recordings.specs.declared.rate.Rate.{Rate};
ghost use Rattle.recordings.specs.Recording.{samples_each};
ghost use Rattle.signal_commands.specs.Encoding.Recorder.{RecorderStands};
ghost use Rattle.shared_terms.specs.declared.limits.TheConstants.{FILE_LIMIT};
ghost use Rattle.outside_calls.specs.Outputs.{OnlyOutput};
ghost use Rattle.command_base.specs.Stops.{EndCounts};
ghost use Rattle.command_base.specs.Apart.{are_apart};
ghost use Rattle.signal_commands.specs.Encoding.Words.{named, inputs_of, outputs_of};
ghost use Rattle.signal_commands.specs.Encoding.Ends.{WritesAll, EndsBy, Ends};
ghost use Rattle.signal_commands.specs.Encoding.Recorded.{Begun, RecordedTo};

use crate::encode::recorder::{RECORDED, Recorder};
use crate::encode::words::EncodeWords;
use crate::pieces::FILE_PIECE;
use command_base::{Stop, append_output, create_output, read_piece, within_limit};
use frame_check::Octets;
use outside_calls::Folder;
use recordings::header_octets;
use shared_terms::FILE_LIMIT;

/// The place of the file's name among the words.
const FILE: usize = 2;

/// How many octets of a recording a piece becomes at most.
const RECORDED_PIECE: usize = FILE_PIECE * RECORDED;

/// Leaves the octets of the samples of a piece.
fn record_piece(recorder: &mut Recorder, piece: &[u8], recorded: &mut Octets<RECORDED_PIECE>)
    requires { length piece.now ≤ FILE_PIECE }
    ensures { (rate : Rate) (mode : Mode) (octets before : List ℕ) → RecorderStands rate mode recorder.old octets before
        → RecorderStands rate mode recorder.new (octets ++ piece.now) (before ++ recorded.new) }
{
    recorded.clear();
    for octet in piece {
        recorder.put(*octet, recorded);
    }
}

/// Records the next piece of the file, and answers how many octets it has: none at the file's end. `recorded` is room for its samples.
fn record_next<F: Folder>(
    folder: &mut F,
    names: &EncodeWords<'_>,
    recorder: &mut Recorder,
    recorded: &mut Octets<RECORDED_PIECE>,
    at: u64,
) -> Result<usize, Stop>
    requires apart { are_apart (inputs_of (named names.now)) (outputs_of (named names.now)) ≡ true }
    requires within { at ≤ FILE_LIMIT }
    ensures ok { (start : FolderState) → RecordedTo start (F.state folder.old) (named names.now) recorder.old at
        → IfOk result (λ count. RecordedTo start (F.state folder.new) (named names.now) recorder.new (at + count)
        × (count ≡ 0 → WritesAll start (F.state folder.new) (named names.now) (samples_each names.now.rate * at))) }
    ensures err { (start : FolderState) → RecordedTo start (F.state folder.old) (named names.now) recorder.old at
        → IfErr result (EndsBy start (F.state folder.new) (named names.now)) }
    ensures bound { IfOk result (λ count. at + count ≤ FILE_LIMIT) }
    ensures only { OnlyOutput (F.state folder.old) (F.state folder.new) names.now.rec.now }
    ensures counts { EndCounts (F.state folder.old) (F.state folder.new) (names.now.file.now ∷ []) (names.now.rec.now ∷ []) result }
{
    let mut piece = [0u8; FILE_PIECE];
    let count = match read_piece(folder, names.file, FILE_LIMIT, at, &mut piece) {
        Ok(0) => return Ok(0),
        Ok(count) => count,
        Err(fault) => return Err(Stop::Read(fault)),
    };
    record_piece(recorder, &piece[..count], recorded);
    match append_output(folder, names.rec, recorded.as_slice()) {
        Ok(()) => Ok(count),
        Err(fault) => Err(Stop::Write(fault)),
    }
}

/// Records the whole file behind the header: the number of samples.
fn record_file<F: Folder>(folder: &mut F, names: &EncodeWords<'_>) -> Result<u64, Stop>
    requires apart { are_apart (inputs_of (named names.now)) (outputs_of (named names.now)) ≡ true }
    ensures ends { (start : FolderState) → Begun start (F.state folder.old) (named names.now)
        → Ends start (F.state folder.new) (named names.now) result }
    ensures only { OnlyOutput (F.state folder.old) (F.state folder.new) names.now.rec.now }
    ensures counts { EndCounts (F.state folder.old) (F.state folder.new) (names.now.file.now ∷ []) (names.now.rec.now ∷ []) result }
{
    let mut recorder = Recorder::new(names.rate, names.mode);
    match append_output(
        folder,
        names.rec,
        header_octets(names.rate, names.mode).as_slice(),
    ) {
        Ok(()) => {}
        Err(fault) => return Err(Stop::Write(fault)),
    }
    let mut recorded = Octets::new();
    let mut at: u64 = 0;
    loop {
        match record_next(folder, names, &mut recorder, &mut recorded, at) {
            Ok(0) => return Ok(names.rate.samples(at)),
            Ok(count) => at += count as u64,
            Err(fault) => return Err(fault),
        }
    }
}

/// The file's length is looked at, the output made, and the file recorded: the number of samples.
pub(crate) fn make_recording<F: Folder>(
    folder: &mut F,
    names: &EncodeWords<'_>,
) -> Result<u64, Stop>
    requires { are_apart (inputs_of (named names.now)) (outputs_of (named names.now)) ≡ true }
    ensures ends { Ends (F.state folder.old) (F.state folder.new) (named names.now) result }
    ensures only { OnlyOutput (F.state folder.old) (F.state folder.new) names.now.rec.now }
    ensures counts { EndCounts (F.state folder.old) (F.state folder.new) (names.now.file.now ∷ []) (names.now.rec.now ∷ []) result }
{
    match within_limit(folder, names.file, FILE_LIMIT, FILE) {
        Ok(()) => {}
        Err(stop) => return Err(stop),
    }
    match create_output(folder, names.rec) {
        Ok(()) => {}
        Err(fault) => return Err(Stop::Write(fault)),
    }
    record_file(folder, names)
}
