// How good a decoding is.
ghost use Rattle.std.specs.Prelude.{◌≡◌, ◌*◌, ◌/◌, ◌≤◌, ◌++◌, [], Bool, List, Some, None, MatchResult, length, nat_lt};
ghost use Rattle.frame_check.specs.Bits.{number};
ghost use Rattle.scramblers.specs.declared.mode.Mode.{Mode};
ghost use Rattle.symbol_map.specs.declared.sample.Sample.{Sample};
ghost use Rattle.noise_bound.specs.Near.{sure};
ghost use Rattle.gateway.specs.Given.{heard, samples_in};
ghost use Rattle.gateway.specs.Measured.{BitsCost};
ghost use Rattle.modem_c.specs.declared.machine.Machine.TheVariants as machines;
ghost use Rattle.modem_c.specs.Answered.{Missing, Answered, MadeOf};
ghost use Rattle.modem_c.specs.Codes as codes;
ghost use Rattle.modem_c.specs.Led.{meter_in};
ghost use Rattle.modem_c.specs.Progressed.{nothing_done};
ghost use Rattle.modem_c.specs.Meters.{Meters, MeterAnswers, no_reading};

use crate::codes::{BAD_ARGUMENT, DONE, EMPTY, LATE, WRONG_KIND, mode_of};
use crate::handle::{Handle, fill, make, take};
use crate::machine::Machine;
use crate::progress::Progress;
use gateway::LockMeter;
use std::alloc::Global;
use std::mem;

/// What a meter reads. The ratio of signal to noise is 10·log10(10·2048²·symbols / cost) dB.
#[repr(C)]
#[derive(Clone, Copy)]
pub struct Reading {
    /// The sum of the squared distances between what was sent and what was heard, in squares of 1/2048 of a unit of the map.
    pub cost: u64,
    /// How many samples the costs are of.
    pub symbols: u64,
    /// 1 where the cost is below 2.5 squares of a unit, else 0: a decoder of this mode then gives these bits, at most 126 samples behind. Others
    /// may be as near at the end, and those that were sent needn't be these.
    pub sure: u8,
}

/// The meter that the handle leads to, and the box that it was in, or why there is none. The handle is empty meanwhile.
fn take_meter(alloc: Global, handle: &mut Handle) -> Result<(LockMeter, Box<Machine>), i32>
    ensures { MatchResult result (λ taken. (handle.old.value ≡ Some (machines.Meter taken.0)) × (taken.1.value ≡ machines.Spent))
        (λ code. (meter_in handle.old.value ≡ None) × Missing handle.old.value handle.new.value code) }
{
    let Some(mut machine) = take(alloc, handle) else {
        return Err(EMPTY);
    };
    match mem::replace(machine.as_mut(), Machine::Spent) {
        Machine::Meter(meter) => Ok((meter, machine)),
        other => {
            fill(alloc, handle, machine, other);
            Err(WRONG_KIND)
        }
    }
}

/// A meter before the first bit that was decoded at 9600 bit/s of a line from its beginning, sent by the modem of that mode.
#[unsafe(no_mangle)]
pub extern "C" fn modem_meter_new(alloc: Global, handle: &mut Handle, mode: u8) -> i32
    ensures { MadeOf (codes.mode_of mode) handle.old.value handle.new.value result (λ m led. Meters m led [] []) }
{
    let Some(mode) = mode_of(mode) else {
        return BAD_ARGUMENT;
    };
    make(alloc, handle, Machine::Meter(LockMeter::new(mode)))
}

/// Bits more, and the samples that they were decoded of, a sample for four bits: as many as both are enough for, eight bits at a time. What wasn't
/// read is to come again. `LATE`: none of these was read, since with them they would be more than 2^27 bits.
#[unsafe(no_mangle)]
pub extern "C" fn modem_meter_push(
    alloc: Global,
    handle: &mut Handle,
    bits: &[u8],
    parts: &[i16],
    progress: &mut Progress,
) -> i32
    ensures meters { (mode : Mode) (past : List Bool) (samples : List Sample) → Meters mode handle.old.value past samples
        → Meters mode handle.new.value (past ++ heard progress.new.read bits.now) (samples ++ samples_in (progress.new.read / 4) parts.now) }
    ensures answer { Answered (meter_in handle.old.value) handle.old.value handle.new.value result
        (λ old. MeterAnswers old.octets (length bits.now) (length parts.now) result progress.new handle.old.value handle.new.value) }
    ensures none { meter_in handle.old.value ≡ None → progress.new ≡ nothing_done }
    ensures read { progress.new.read ≤ length bits.now }
    ensures heard { 2 * (progress.new.read / 4) ≤ length parts.now }
{
    *progress = Progress::none();
    let (meter, machine) = match take_meter(alloc, handle) {
        Ok(taken) => taken,
        Err(code) => return code,
    };
    let (meter, measured) = meter.push(bits, parts);
    fill(alloc, handle, machine, Machine::Meter(meter));
    match measured {
        Some(octets) => {
            progress.read = 8 * octets;
            DONE
        }
        None => LATE,
    }
}

/// What the meter reads now.
#[unsafe(no_mangle)]
pub extern "C" fn modem_meter_read(alloc: Global, handle: &mut Handle, reading: &mut Reading) -> i32
    ensures cost { (mode : Mode) (bits : List Bool) (samples : List Sample) → Meters mode handle.old.value bits samples
        → BitsCost mode bits samples reading.new.cost × (reading.new.symbols ≡ length samples) }
    ensures answer { Answered (meter_in handle.old.value) handle.old.value handle.new.value result
        (λ old. (result ≡ DONE) × (handle.new.value ≡ handle.old.value) × (reading.new.sure ≡ number (nat_lt reading.new.cost sure))) }
    ensures none { meter_in handle.old.value ≡ None → reading.new ≡ no_reading }
{
    *reading = Reading {
        cost: 0,
        symbols: 0,
        sure: 0,
    };
    let (meter, machine) = match take_meter(alloc, handle) {
        Ok(taken) => taken,
        Err(code) => return code,
    };
    let read = meter.reading();
    fill(alloc, handle, machine, Machine::Meter(meter));
    *reading = Reading {
        cost: read.cost,
        symbols: read.symbols,
        sure: u8::from(read.sure),
    };
    DONE
}
