// Bits to samples.
ghost use Rattle.std.specs.Prelude.{◌≡◌, ◌*◌, ◌≤◌, ◌++◌, [], Bool, List, Some, None, IsSomeAnd, MatchOption, MatchResult, length};
ghost use Rattle.scramblers.specs.declared.mode.Mode.{Mode};
ghost use Rattle.symbol_map.specs.declared.sample.Sample.{Sample};
ghost use Rattle.gateway.specs.declared.any_reader.LineKind.{LineKind};
ghost use Rattle.gateway.specs.Encoded.{HasEncoded, bits_each};
ghost use Rattle.gateway.specs.Given.{heard, samples_in};
ghost use Rattle.modem_c.specs.declared.machine.Machine.TheVariants as machines;
ghost use Rattle.modem_c.specs.Answered.{Missing, Answered, MadeOfBoth};
ghost use Rattle.modem_c.specs.Codes as codes;
ghost use Rattle.modem_c.specs.Encoders.{Encodes, EncodeAnswers};
ghost use Rattle.modem_c.specs.Led.{encoder_in};
ghost use Rattle.modem_c.specs.Progressed.{nothing_done};

use crate::codes::{BAD_ARGUMENT, DONE, EMPTY, FULL, WRONG_KIND, mode_of};
use crate::handle::{Handle, fill, make, take};
use crate::machine::Machine;
use crate::progress::Progress;
use gateway::SampleEncoder;
use scramblers::Mode;
use std::alloc::Global;
use std::mem;

/// An encoder of the line of a code before its first bit. A line's middle can't be sent.
fn encoder_of(line: u8, mode: Mode) -> Option<SampleEncoder>
    ensures { MatchOption (codes.sent_line_of line) (result ≡ None) (λ l. IsSomeAnd result (λ encoder. HasEncoded l mode encoder [] [])) }
{
    match line {
        0 => Some(SampleEncoder::begun(mode)),
        2 => Some(SampleEncoder::quarters(mode)),
        _ => None,
    }
}

/// The encoder that the handle leads to, and the box that it was in, or why there is none. The handle is empty meanwhile.
fn take_encoder(alloc: Global, handle: &mut Handle) -> Result<(SampleEncoder, Box<Machine>), i32>
    ensures { MatchResult result (λ taken. (handle.old.value ≡ Some (machines.Encoder taken.0)) × (taken.1.value ≡ machines.Spent))
        (λ code. (encoder_in handle.old.value ≡ None) × Missing handle.old.value handle.new.value code) }
{
    let Some(mut machine) = take(alloc, handle) else {
        return Err(EMPTY);
    };
    match mem::replace(machine.as_mut(), Machine::Spent) {
        Machine::Encoder(encoder) => Ok((encoder, machine)),
        other => {
            fill(alloc, handle, machine, other);
            Err(WRONG_KIND)
        }
    }
}

/// An encoder before the first bit of a line of this kind, sent by the modem of that mode: 0 at 9600 bit/s, 2 at 4800.
#[unsafe(no_mangle)]
pub extern "C" fn modem_encoder_new(alloc: Global, handle: &mut Handle, line: u8, mode: u8) -> i32
    ensures { MadeOfBoth (codes.mode_of mode) (codes.sent_line_of line) handle.old.value handle.new.value result (λ m l led. Encodes l m led [] []) }
{
    let Some(mode) = mode_of(mode) else {
        return BAD_ARGUMENT;
    };
    match encoder_of(line, mode) {
        Some(encoder) => make(alloc, handle, Machine::Encoder(encoder)),
        None => BAD_ARGUMENT,
    }
}

/// Bits more, an octet each whose lowest bit counts, and the samples that they become, as parts that are real and imaginary by turns: four bits
/// a sample at 9600 bit/s, two at 4800. Bits that weren't read are to come again. `FULL`: there are enough for a sample, and no room for it.
#[unsafe(no_mangle)]
pub extern "C" fn modem_encoder_push(
    alloc: Global,
    handle: &mut Handle,
    bits: &[u8],
    parts: &mut [i16],
    progress: &mut Progress,
) -> i32
    ensures encodes { (line : LineKind) (mode : Mode) (past : List Bool) (samples : List Sample) → Encodes line mode handle.old.value past samples
        → Encodes line mode handle.new.value (past ++ heard progress.new.read bits.now) (samples ++ samples_in progress.new.written parts.new) }
    ensures answer { Answered (encoder_in handle.old.value) handle.old.value handle.new.value result
        (λ old. EncodeAnswers (bits_each old) (length bits.now) (length parts.new) result progress.new
        × (progress.new.read ≡ bits_each old * progress.new.written)) }
    ensures none { encoder_in handle.old.value ≡ None → (progress.new ≡ nothing_done) × (parts.new ≡ parts.old) }
    ensures length { length parts.new ≡ length parts.old }
    ensures read { progress.new.read ≤ length bits.now }
    ensures written { 2 * progress.new.written ≤ length parts.new }
{
    *progress = Progress::none();
    let (mut encoder, machine) = match take_encoder(alloc, handle) {
        Ok(taken) => taken,
        Err(code) => return code,
    };
    let encoded = encoder.push(bits, parts);
    fill(alloc, handle, machine, Machine::Encoder(encoder));
    progress.read = encoded.read;
    progress.written = encoded.written;
    if encoded.all { DONE } else { FULL }
}
