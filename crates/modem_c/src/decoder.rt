// Samples to bits.
ghost use Rattle.std.specs.Prelude.{◌≡◌, ◌*◌, ◌≤◌, ◌++◌, [], Bool, List, Some, None, IsSomeAnd, MatchResult, length};
ghost use Rattle.scramblers.specs.declared.mode.Mode.{Mode};
ghost use Rattle.symbol_map.specs.declared.sample.Sample.{Sample};
ghost use Rattle.gateway.specs.declared.any_reader.LineKind.{LineKind};
ghost use Rattle.gateway.specs.Given.{given, samples_in, AreBits};
ghost use Rattle.gateway.specs.Reads.{Ends};
ghost use Rattle.modem_c.specs.declared.machine.Machine.TheVariants as machines;
ghost use Rattle.modem_c.specs.Answered.{Missing, Answered, MadeOfBoth};
ghost use Rattle.modem_c.specs.Codes as codes;
ghost use Rattle.modem_c.specs.Decoders.{Decodes, PushAnswers, FinishAnswers};
ghost use Rattle.modem_c.specs.Decoders as decoders;
ghost use Rattle.modem_c.specs.Led.{decoder_in};
ghost use Rattle.modem_c.specs.Progressed.{nothing_done};

use crate::codes::{BAD_ARGUMENT, DONE, EMPTY, FULL, LATE, LOST, NO_MEMORY, WRONG_KIND, mode_of};
use crate::handle::{Handle, fill, make, put, take};
use crate::machine::Machine;
use crate::progress::Progress;
use gateway::{DecoderStop, LineKind, SampleDecoder};
use std::alloc::Global;
use std::mem;

/// The line of a code.
fn line_kind_of(code: u8) -> Option<LineKind>
    ensures { result ≡ codes.line_kind_of code }
{
    match code {
        0 => Some(LineKind::Begun),
        1 => Some(LineKind::Middle),
        2 => Some(LineKind::Quarters),
        _ => None,
    }
}

/// The code of a stop.
fn code_of(stop: DecoderStop) -> i32
    ensures { result ≡ decoders.code_of stop }
{
    match stop {
        DecoderStop::All => DONE,
        DecoderStop::Full => FULL,
        DecoderStop::Lost(_) => LOST,
        DecoderStop::Late => LATE,
    }
}

/// The symbol since which the line is lost.
fn lost_of(stop: DecoderStop) -> u64
    ensures { result ≡ decoders.lost_of stop }
{
    match stop {
        DecoderStop::Lost(symbol) => symbol,
        _ => 0,
    }
}

/// The decoder that the handle leads to, and the box that it was in, or why there is none. The handle is empty meanwhile.
fn take_decoder(alloc: Global, handle: &mut Handle) -> Result<(SampleDecoder, Box<Machine>), i32>
    ensures { MatchResult result (λ taken. (handle.old.value ≡ Some (machines.Decoder taken.0)) × (taken.1.value ≡ machines.Spent))
        (λ code. (decoder_in handle.old.value ≡ None) × Missing handle.old.value handle.new.value code) }
{
    let Some(mut machine) = take(alloc, handle) else {
        return Err(EMPTY);
    };
    match mem::replace(machine.as_mut(), Machine::Spent) {
        Machine::Decoder(decoder) => Ok((decoder, machine)),
        other => {
            fill(alloc, handle, machine, other);
            Err(WRONG_KIND)
        }
    }
}

/// Pushes samples into what a handle leads to.
fn push(machine: &mut Machine, parts: &[i16], bits: &mut [u8], progress: &mut Progress) -> i32
    requires { progress.old ≡ nothing_done }
    ensures decodes { (line : LineKind) (mode : Mode) (samples : List Sample) (before : List Bool) → Decodes line mode (Some machine.old) samples before
        → Decodes line mode (Some machine.new) (samples ++ samples_in progress.new.read parts.now) (before ++ given progress.new.written bits.new) }
    ensures bits { AreBits progress.new.written bits.new }
    ensures answer { Answered (decoder_in (Some machine.old)) (Some machine.old) (Some machine.new) result
        (λ old. IsSomeAnd (decoder_in (Some machine.new)) (PushAnswers old (length parts.now) bits.old bits.new result progress.new)) }
    ensures none { decoder_in (Some machine.old) ≡ None → (progress.new ≡ nothing_done) × (bits.new ≡ bits.old) }
    ensures length { length bits.new ≡ length bits.old }
    ensures read { 2 * progress.new.read ≤ length parts.now }
    ensures written { progress.new.written ≤ length bits.new }
{
    match machine {
        Machine::Decoder(decoder) => {
            let pushed = decoder.push(parts, bits);
            *progress = Progress {
                read: pushed.read,
                written: pushed.written,
                lost: lost_of(pushed.stop),
            };
            code_of(pushed.stop)
        }
        _ => WRONG_KIND,
    }
}

/// A decoder before the first sample of a line of this kind, sent by the modem of that mode.
#[unsafe(no_mangle)]
pub extern "C" fn modem_decoder_new(alloc: Global, handle: &mut Handle, line: u8, mode: u8) -> i32
    ensures { MadeOfBoth (codes.line_kind_of line) (codes.mode_of mode) handle.old.value handle.new.value result (λ l m led. Decodes l m led [] []) }
{
    let (Some(line), Some(mode)) = (line_kind_of(line), mode_of(mode)) else {
        return BAD_ARGUMENT;
    };
    match SampleDecoder::new(alloc, line, mode) {
        Ok(decoder) => make(alloc, handle, Machine::Decoder(decoder)),
        Err(_) => NO_MEMORY,
    }
}

/// Samples more, as parts that are real and imaginary by turns, and the bits that they release, an octet each. `FULL`: call again behind what was
/// read, with room for four bits at least. `LOST`: no sample behind the one that lost the line is read, now or later. `LATE`: none of these
/// was read, since with them the line would have more than 2^50.
#[unsafe(no_mangle)]
pub extern "C" fn modem_decoder_push(
    alloc: Global,
    handle: &mut Handle,
    parts: &[i16],
    bits: &mut [u8],
    progress: &mut Progress,
) -> i32
    ensures decodes { (line : LineKind) (mode : Mode) (samples : List Sample) (before : List Bool) → Decodes line mode handle.old.value samples before
        → Decodes line mode handle.new.value (samples ++ samples_in progress.new.read parts.now) (before ++ given progress.new.written bits.new) }
    ensures bits { AreBits progress.new.written bits.new }
    ensures answer { Answered (decoder_in handle.old.value) handle.old.value handle.new.value result
        (λ old. IsSomeAnd (decoder_in handle.new.value) (PushAnswers old (length parts.now) bits.old bits.new result progress.new)) }
    ensures none { decoder_in handle.old.value ≡ None → (progress.new ≡ nothing_done) × (bits.new ≡ bits.old) }
    ensures length { length bits.new ≡ length bits.old }
    ensures read { 2 * progress.new.read ≤ length parts.now }
    ensures written { progress.new.written ≤ length bits.new }
{
    *progress = Progress::none();
    let Some(mut machine) = take(alloc, handle) else {
        return EMPTY;
    };
    let code = push(machine.as_mut(), parts, bits, progress);
    put(alloc, handle, machine);
    code
}

/// The bits of the labels that aren't released at the line's end. The decoder is spent then. `FULL`: released ones wait, which a push without
/// samples gives, or there is room for fewer than 512 bits.
#[unsafe(no_mangle)]
pub extern "C" fn modem_decoder_finish(
    alloc: Global,
    handle: &mut Handle,
    bits: &mut [u8],
    progress: &mut Progress,
) -> i32
    ensures ends { (line : LineKind) (mode : Mode) (samples : List Sample) (before : List Bool) → Decodes line mode handle.old.value samples before
        → result ≡ DONE → Ends line mode samples before (given progress.new.written bits.new) }
    ensures bits { AreBits progress.new.written bits.new }
    ensures answer { Answered (decoder_in handle.old.value) handle.old.value handle.new.value result
        (λ old. FinishAnswers old bits.old bits.new result progress.new handle.old.value handle.new.value) }
    ensures none { decoder_in handle.old.value ≡ None → (progress.new ≡ nothing_done) × (bits.new ≡ bits.old) }
    ensures length { length bits.new ≡ length bits.old }
    ensures written { progress.new.written ≤ length bits.new }
{
    *progress = Progress::none();
    let (decoder, machine) = match take_decoder(alloc, handle) {
        Ok(taken) => taken,
        Err(code) => return code,
    };
    match decoder.finish(bits) {
        Ok(written) => {
            put(alloc, handle, machine);
            progress.written = written;
            DONE
        }
        Err((decoder, stop)) => {
            fill(alloc, handle, machine, Machine::Decoder(decoder));
            progress.lost = lost_of(stop);
            code_of(stop)
        }
    }
}
