// A recording played from the folder.
ghost use Rattle.std.specs.Prelude.{◌≡◌, ◌≤◌, ◌+◌, ◌++◌, ◌∷◌, [], ℕ, List, IfOk, IfErr, OnOk, length};
ghost use Rattle.symbol_map.specs.declared.sample.Sample.{Sample};
ghost use Rattle.outside_calls.specs.Folder.{FolderState, OnlySays};
ghost use Rattle.command_base.specs.declared.limits.TheConstants.{RECORDING_LIMIT};
ghost use Rattle.outside_calls.specs.Outputs.{OnlyOutputs};
ghost use Rattle.command_base.specs.Stops.{EndCounts};
ghost use Rattle.recordings.specs.Samples.{samples_in};
ghost use Rattle.recordings.specs.declared.header.TheConstants.{HEADER};
ghost use Rattle.command_base.specs.Recordings.{IsAtEnd};
ghost use Rattle.signal_commands.specs.PickingUp.Playing.{Plays, IsReady, StopsPlay, PlayedTo};
ghost use Rattle.signal_commands.specs.PickingUp.Ends.{EndsBy, Ends};

use crate::batch::{BATCH, copy_samples};
use crate::pickup::player::Player;
use command_base::{PIECE, Status, Stop, read_samples};
use outside_calls::Folder;
use recordings::{HEADER, SAMPLE};
use scramblers::Mode;
use symbol_map::Sample;

/// Plays the whole samples of a piece, up to the one that loses the line.
fn play_piece<F: Folder>(
    folder: &mut F,
    mode: Mode,
    player: &mut Player,
    piece: &[u8],
) -> Result<(), Stop>
    requires few { length piece.now ≤ PIECE }
    requires ready { IsReady player.old RECORDING_LIMIT }
    ensures ok { (start : FolderState) (samples : List Sample) → Plays start (F.state folder.old) mode player.old samples
        → OnOk result (Plays start (F.state folder.new) mode player.new (samples ++ samples_in piece.now)) }
    ensures err { (start : FolderState) (samples : List Sample) → Plays start (F.state folder.old) mode player.old samples
        → IfErr result (StopsPlay start (F.state folder.new) mode (samples ++ samples_in piece.now)) }
    ensures ready { (most : ℕ) → IsReady player.old most → OnOk result (IsReady player.new (most + length piece.now)) }
    ensures only { OnlySays (F.state folder.old) (F.state folder.new) }
    ensures counts { (inputs : List (List ℕ)) → EndCounts (F.state folder.old) (F.state folder.new) inputs [] result }
{
    let mut samples = [Sample { re: 0, im: 0 }; BATCH];
    let mut at = 0;
    while at < piece.len() / SAMPLE {
        let count = copy_samples(piece, at, &mut samples);
        match player.push_some(folder, mode, &samples[..count]) {
            Ok(heard) => at += heard,
            Err(stop) => return Err(stop),
        }
    }
    Ok(())
}

/// Plays the next piece of the recording, and answers how many octets it has: none at the recording's end. What stood in the piece is
/// replaced.
fn play_next<F: Folder>(
    folder: &mut F,
    rec: &str,
    mode: Mode,
    player: &mut Player,
    piece: &mut [u8],
    at: u64,
) -> Result<usize, Stop>
    requires size { length piece.old ≡ PIECE }
    requires within { at ≤ RECORDING_LIMIT }
    requires ready { IsReady player.old at }
    ensures size { length piece.new ≡ PIECE }
    ensures ok { (start : FolderState) → PlayedTo start (F.state folder.old) rec.now mode player.old at
        → IfOk result (λ read. PlayedTo start (F.state folder.new) rec.now mode player.new (at + read)
        × (read ≡ 0 → IsAtEnd start rec.now at)) }
    ensures err { (start : FolderState) → PlayedTo start (F.state folder.old) rec.now mode player.old at
        → IfErr result (EndsBy start (F.state folder.new) rec.now) }
    ensures next { IfOk result (λ read. IsReady player.new (at + read) × (at + read ≤ RECORDING_LIMIT)) }
    ensures only { OnlyOutputs (F.state folder.old) (F.state folder.new) [] }
    ensures counts { EndCounts (F.state folder.old) (F.state folder.new) (rec.now ∷ []) [] result }
{
    let read = match read_samples(folder, rec, at, piece) {
        Ok(read) => read,
        Err(fault) => return Err(Stop::Read(fault)),
    };
    match play_piece(folder, mode, player, &piece[..read]) {
        Ok(()) => {}
        Err(stop) => return Err(stop),
    }
    if read % SAMPLE != 0 {
        return Err(Stop::Own(Status::BadRecording {
            at: at + (read - read % SAMPLE) as u64,
        }));
    }
    Ok(read)
}

/// Plays the recording from behind its header to its end: how many pieces were heard.
pub(crate) fn play_to_end<F: Folder>(
    folder: &mut F,
    rec: &str,
    mode: Mode,
    player: &mut Player,
) -> Result<u64, Stop>
    requires ready { IsReady player.old 0 }
    ensures ends { (start : FolderState) → PlayedTo start (F.state folder.old) rec.now mode player.old HEADER
        → Ends start (F.state folder.new) rec.now result }
    ensures only { OnlyOutputs (F.state folder.old) (F.state folder.new) [] }
    ensures counts { EndCounts (F.state folder.old) (F.state folder.new) (rec.now ∷ []) [] result }
{
    let mut piece = [0u8; PIECE];
    let mut at = HEADER as u64;
    loop {
        match play_next(folder, rec, mode, player, &mut piece, at) {
            Ok(0) => return Ok(player.pieces()),
            Ok(read) => at += read as u64,
            Err(stop) => return Err(stop),
        }
    }
}
