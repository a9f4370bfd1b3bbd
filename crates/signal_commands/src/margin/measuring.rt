// A file's octets, measured against a recording piece by piece.
ghost use Rattle.std.specs.Prelude.{◌≡◌, ◌≤◌, ◌+◌, ◌*◌, ◌++◌, [], ℕ, List, IfOk, IfErr, length};
ghost use Rattle.scramblers.specs.declared.mode.Mode.{Mode};
ghost use Rattle.symbol_map.specs.declared.sample.Sample.{Sample};
ghost use Rattle.outside_calls.specs.Folder.{FolderState, OnlyReads};
ghost use Rattle.noise_bound.specs.Margins.{MarginStands};
ghost use Rattle.shared_terms.specs.declared.limits.TheConstants.{FILE_LIMIT};
ghost use Rattle.command_base.specs.Stops.{EndCounts};
ghost use Rattle.recordings.specs.declared.header.TheConstants.{HEADER};
ghost use Rattle.recordings.specs.Samples.{samples_in};
ghost use Rattle.command_base.specs.Recordings.{IsAtEnd};
ghost use Rattle.signal_commands.specs.Margins.Words.{named, inputs_of};
ghost use Rattle.signal_commands.specs.Margins.Ends.{EndsBy, Ends};
ghost use Rattle.signal_commands.specs.Margins.Measuring.{Opened, MeasuredTo};

use crate::margin::words::MarginWords;
use crate::pieces::FILE_PIECE;
use command_base::{RECORDING_LIMIT, Status, Stop, read_piece};
use noise_bound::Margin;
use outside_calls::Folder;
use recordings::{HEADER, SAMPLE, sample_at};
use scramblers::Mode;
use shared_terms::FILE_LIMIT;

/// How many octets of the recording an octet of the file has: two samples.
const RECORDED: usize = 2 * SAMPLE;

/// How many octets of the recording are read at a time.
const RECORDED_PIECE: usize = FILE_PIECE * RECORDED;

/// Measures the octets of a piece against their samples.
fn measure_piece(margin: &mut Margin, octets: &[u8], recorded: &[u8])
    requires few { margin.old.count + length octets.now ≤ FILE_LIMIT }
    requires fits { length recorded.now ≡ 8 * length octets.now }
    ensures stands { (mode : Mode) (before : List ℕ) (samples : List Sample) → MarginStands mode margin.old before samples
        → MarginStands mode margin.new (before ++ octets.now) (samples ++ samples_in recorded.now) }
    ensures count { margin.new.count ≡ margin.old.count + length octets.now }
{
    for place in 0..octets.len() {
        let first = sample_at(recorded, 2 * place);
        let second = sample_at(recorded, 2 * place + 1);
        margin.push(octets[place], first, second);
    }
}

/// Measures the next piece of the file, and answers how many octets it has: none at the end of both inputs. Where one of them ends
/// before the other, the place is where it ends.
fn measure_next<F: Folder>(
    folder: &mut F,
    names: &MarginWords<'_>,
    margin: &mut Margin,
    at: u64,
) -> Result<usize, Stop>
    requires within { at ≤ FILE_LIMIT }
    requires count { margin.old.count ≡ at }
    ensures ok { (start : FolderState) (mode : Mode) → MeasuredTo start (F.state folder.old) (named names.now) mode margin.old at
        → IfOk result (λ count. MeasuredTo start (F.state folder.new) (named names.now) mode margin.new (at + count)
        × (count ≡ 0 → IsAtEnd start names.now.file.now at × IsAtEnd start names.now.rec.now (HEADER + 8 * at))) }
    ensures err { (start : FolderState) (mode : Mode) → MeasuredTo start (F.state folder.old) (named names.now) mode margin.old at
        → IfErr result (EndsBy start (F.state folder.new) (named names.now)) }
    ensures next { IfOk result (λ count. (at + count ≤ FILE_LIMIT) × (margin.new.count ≡ at + count)) }
    ensures reads { OnlyReads (F.state folder.old) (F.state folder.new) }
    ensures counts { EndCounts (F.state folder.old) (F.state folder.new) (inputs_of (named names.now)) [] result }
{
    let mut octets = [0u8; FILE_PIECE];
    let count = match read_piece(folder, names.file, FILE_LIMIT, at, &mut octets) {
        Ok(count) => count,
        Err(fault) => return Err(Stop::Read(fault)),
    };
    let place = HEADER as u64 + RECORDED as u64 * at;
    let mut recorded = [0u8; RECORDED_PIECE];
    let read = match read_piece(folder, names.rec, RECORDING_LIMIT, place, &mut recorded) {
        Ok(read) => read,
        Err(fault) => return Err(Stop::Read(fault)),
    };
    if read != RECORDED * count {
        return Err(Stop::Own(Status::BadRecording {
            at: place + read.min(RECORDED * count) as u64,
        }));
    }
    measure_piece(margin, &octets[..count], &recorded[..read]);
    Ok(count)
}

/// Measures the file against the recording behind its header, to the end of both.
pub(crate) fn measure_to_end<F: Folder>(
    folder: &mut F,
    names: &MarginWords<'_>,
    mode: Mode,
) -> Result<Margin, Stop>
    ensures ends { (start : FolderState) → Opened start (F.state folder.old) (named names.now) mode → Ends start (F.state folder.new) (named names.now) result }
    ensures reads { OnlyReads (F.state folder.old) (F.state folder.new) }
    ensures counts { EndCounts (F.state folder.old) (F.state folder.new) (inputs_of (named names.now)) [] result }
{
    let mut margin = Margin::new(mode);
    let mut at: u64 = 0;
    loop {
        match measure_next(folder, names, &mut margin, at) {
            Ok(0) => return Ok(margin),
            Ok(count) => at += count as u64,
            Err(stop) => return Err(stop),
        }
    }
}
