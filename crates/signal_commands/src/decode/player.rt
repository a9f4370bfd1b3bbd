// A recording played from the folder, and its octets written into it.
ghost use Rattle.std.specs.Prelude.{◌≡◌, ◌≤◌, ◌<◌, ◌+◌, ◌*◌, ◌%◌, ◌^◌, ◌++◌, ◌∷◌, ℕ, None, List, [], true, IfOk, IfErr, OnOk, length, take, slice_index};
ghost use Rattle.symbol_map.specs.declared.sample.Sample.{Sample};
ghost use Rattle.outside_calls.specs.Folder.{FolderState};
ghost use Rattle.scramblers.specs.declared.mode.Mode.{Mode};
ghost use Rattle.recordings.specs.declared.rate.Rate.{Rate};
ghost use Rattle.command_base.specs.declared.limits.TheConstants.{RECORDING_LIMIT};
ghost use Rattle.outside_calls.specs.Outputs.{OnlyOutput};
ghost use Rattle.command_base.specs.Stops.{EndCounts};
ghost use Rattle.command_base.specs.Apart.{are_apart};
ghost use Rattle.signal_commands.specs.Decoding.Words.{named, inputs_of, outputs_of};
ghost use Rattle.signal_commands.specs.Decoding.Playing.{decoding_of, Hears, IsReady};
ghost use Rattle.signal_commands.specs.Decoding.Played.{PlayedTo, PlaysPiece};
ghost use Rattle.signal_commands.specs.Decoding.Ends.{EndsBy, Ends};
ghost use Rattle.recordings.specs.declared.header.TheConstants.{HEADER};
ghost use Rattle.recordings.specs.Samples.{samples_in};
ghost use Rattle.command_base.specs.Recordings.{IsAtEnd};

use crate::batch::{BATCH, copy_samples};
use crate::decode::playback::{Playback, ROOM};
use crate::decode::words::DecodeWords;
use command_base::{PIECE, Status, Stop, append_output, hearer_of, read_samples};
use exact_decoder::Lost;
use frame_check::Octets;
use outside_calls::Folder;
use recordings::{HEADER, SAMPLE};
use scramblers::Mode;
use symbol_map::Sample;

/// Plays the whole samples of a piece, up to the one that loses the line.
fn play_piece(playback: &mut Playback, piece: &[u8], octets: &mut Octets<ROOM>) -> Result<(), Lost>
    requires few { length piece.now ≤ PIECE }
    requires empty { octets.old ≡ [] }
    requires ready { IsReady playback.old.reader RECORDING_LIMIT }
    ensures plays { (rate : Rate) (mode : Mode) (samples : List Sample) (before : List ℕ) → Hears rate mode playback.old samples before
        → PlaysPiece rate mode playback.new samples piece.now (before ++ octets.new) result }
    ensures taken { (decoding_of playback.new.reader).pending ≡ [] }
    ensures ready { (most : ℕ) → IsReady playback.old.reader most → OnOk result (IsReady playback.new.reader (most + length piece.now)) }
{
    let mut samples = [Sample { re: 0, im: 0 }; BATCH];
    let mut at = 0;
    while at < piece.len() / SAMPLE {
        let count = copy_samples(piece, at, &mut samples);
        match playback.push_some(&samples[..count], octets) {
            Ok(heard) => at += heard,
            Err(lost) => return Err(lost),
        }
    }
    Ok(())
}

/// What a step has read, and the octets that it gave.
#[derive(Clone, Copy)]
pub(crate) struct Step {
    /// Octets of the recording.
    pub read: usize,
    /// Octets of the file.
    pub given: usize,
}

/// Plays the next piece of the recording, and writes the octets that it gives. Nothing is read at the recording's end. What stood in
/// the piece and in the list of octets is replaced.
pub(crate) fn play_next<F: Folder>(
    folder: &mut F,
    names: &DecodeWords<'_>,
    mode: Mode,
    playback: &mut Playback,
    piece: &mut [u8],
    octets: &mut Octets<ROOM>,
    at: u64,
) -> Result<Step, Stop>
    requires apart { are_apart (inputs_of (named names.now)) (outputs_of (named names.now)) ≡ true }
    requires size { length piece.old ≡ PIECE }
    requires within { at ≤ RECORDING_LIMIT }
    requires ready { IsReady playback.old.reader at }
    ensures size { length piece.new ≡ PIECE }
    ensures ok { (start : FolderState) (written : ℕ) → PlayedTo start (F.state folder.old) (named names.now) mode playback.old at written
        → IfOk result (λ step. PlayedTo start (F.state folder.new) (named names.now) mode playback.new (at + step.read) (written + step.given)
        × (step.read ≡ 0 → IsAtEnd start names.now.rec.now at)) }
    ensures err { (start : FolderState) (written : ℕ) → PlayedTo start (F.state folder.old) (named names.now) mode playback.old at written
        → IfErr result (EndsBy start (F.state folder.new) (named names.now)) }
    ensures next { IfOk result (λ step. IsReady playback.new.reader (at + step.read) × (at + step.read ≤ RECORDING_LIMIT) × (step.given ≤ ROOM)) }
    ensures only { OnlyOutput (F.state folder.old) (F.state folder.new) names.now.file.now }
    ensures counts { EndCounts (F.state folder.old) (F.state folder.new) (names.now.rec.now ∷ []) (names.now.file.now ∷ []) result }
{
    let read = match read_samples(folder, names.rec, at, piece) {
        Ok(read) => read,
        Err(fault) => return Err(Stop::Read(fault)),
    };
    octets.clear();
    let played = play_piece(playback, &piece[..read], octets);
    match append_output(folder, names.file, octets.as_slice()) {
        Ok(()) => {}
        Err(fault) => return Err(Stop::Write(fault)),
    }
    match played {
        Ok(()) if read % SAMPLE == 0 => Ok(Step {
            read,
            given: octets.len(),
        }),
        Ok(()) => Err(Stop::Own(Status::BadRecording {
            at: at + (read - read % SAMPLE) as u64,
        })),
        Err(lost) => Err(Stop::Own(Status::LineLost {
            role: hearer_of(mode),
            symbol: lost.symbol,
        })),
    }
}

/// Plays the recording from behind its header to its end: how many octets were written.
pub(crate) fn play_to_end<F: Folder>(
    folder: &mut F,
    names: &DecodeWords<'_>,
    mode: Mode,
    playback: &mut Playback,
) -> Result<u64, Stop>
    requires apart { are_apart (inputs_of (named names.now)) (outputs_of (named names.now)) ≡ true }
    requires ready { IsReady playback.old.reader 0 }
    ensures ok { (start : FolderState) → PlayedTo start (F.state folder.old) (named names.now) mode playback.old HEADER 0
        → IfOk result (λ written. (at : ℕ) × PlayedTo start (F.state folder.new) (named names.now) mode playback.new at written × IsAtEnd start names.now.rec.now at) }
    ensures err { (start : FolderState) → PlayedTo start (F.state folder.old) (named names.now) mode playback.old HEADER 0
        → IfErr result (EndsBy start (F.state folder.new) (named names.now)) }
    ensures ready { IfOk result (λ written. IsReady playback.new.reader RECORDING_LIMIT) }
    ensures bound { IfOk result (λ written. written ≤ 2 ^ 60) }
    ensures only { OnlyOutput (F.state folder.old) (F.state folder.new) names.now.file.now }
    ensures counts { EndCounts (F.state folder.old) (F.state folder.new) (names.now.rec.now ∷ []) (names.now.file.now ∷ []) result }
{
    let mut piece = [0u8; PIECE];
    let mut octets = Octets::new();
    let mut at = HEADER as u64;
    let mut written: u64 = 0;
    loop {
        match play_next(folder, names, mode, playback, &mut piece, &mut octets, at) {
            Ok(step) if step.read == 0 => return Ok(written + step.given as u64),
            Ok(step) => {
                at += step.read as u64;
                written += step.given as u64;
            }
            Err(stop) => return Err(stop),
        }
    }
}

/// Writes the octets of the labels that follow the released ones: how many octets were written in all.
pub(crate) fn write_rest<F: Folder>(
    folder: &mut F,
    names: &DecodeWords<'_>,
    playback: Playback,
    written: u64,
) -> Result<u64, Stop>
    requires apart { are_apart (inputs_of (named names.now)) (outputs_of (named names.now)) ≡ true }
    requires taken { (decoding_of playback.reader).pending ≡ [] }
    requires not_lost { (decoding_of playback.reader).lost ≡ None }
    requires room { written ≤ 2 ^ 60 }
    ensures ends { (start : FolderState) (mode : Mode) (at : ℕ) → PlayedTo start (F.state folder.old) (named names.now) mode playback at written
        → IsAtEnd start names.now.rec.now at → Ends start (F.state folder.new) (named names.now) result }
    ensures only { OnlyOutput (F.state folder.old) (F.state folder.new) names.now.file.now }
    ensures counts { EndCounts (F.state folder.old) (F.state folder.new) (names.now.rec.now ∷ []) (names.now.file.now ∷ []) result }
{
    let octets = playback.finish();
    match append_output(folder, names.file, octets.as_slice()) {
        Ok(()) => Ok(written + octets.len() as u64),
        Err(fault) => Err(Stop::Write(fault)),
    }
}
