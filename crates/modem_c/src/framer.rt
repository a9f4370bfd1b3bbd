// Frames, patterns, flags and ones to bits.
ghost use Rattle.std.specs.Prelude.{◌≡◌, ◌≢◌, ◌≤◌, ◌∷◌, ◌++◌, [], ℕ, List, None, Some, MatchOption, pos, length};
ghost use Rattle.detection.specs.Slots.{CanCarry, Signal};
ghost use Rattle.gateway.specs.Given.{AreBits};
ghost use Rattle.gateway.specs.Signals.{signal_of};
ghost use Rattle.gateway.specs.SlotsWritten.{HasWritten};
ghost use Rattle.modem_c.specs.Answered.{AnswersKind};
ghost use Rattle.modem_c.specs.Framers.{FrameAlone, Frames, MakesFramer, SlottedBy, signal_by};
ghost use Rattle.modem_c.specs.Led.{framer_in};

use crate::codes::{BAD_ARGUMENT, DONE, EMPTY, FULL, WRONG_KIND};
use crate::handle::{Handle, make, put, take};
use crate::machine::Machine;
use frame_check::{WHOLE, Whole};
use gateway::{FrameWriter, SlotStop, Told, frame_bits};
use lapm_frames::Seen;
use std::alloc::Global;

/// A framer of slots of so many symbols, 139 to 2615, before the first one.
#[unsafe(no_mangle)]
pub extern "C" fn modem_framer_new(alloc: Global, handle: &mut Handle, symbols: u16) -> i32
    ensures { MakesFramer symbols handle.old.value handle.new.value result }
{
    match FrameWriter::new(symbols) {
        Some(writer) => make(alloc, handle, Machine::Framer(writer)),
        None => BAD_ARGUMENT,
    }
}

/// Octets of a frame that are few enough.
fn whole(octets: &[u8]) -> Whole
    requires { length octets.now ≤ WHOLE }
    ensures { result ≡ octets.now }
{
    let mut whole = Whole::new();
    whole.extend(octets);
    whole
}

/// What a slot of this kind carries, unless its octets are too many.
fn told_by(kind: u32, octets: &[u8]) -> Option<Told>
    ensures { MatchOption result ((signal : Signal) (size : ℕ) → signal_by kind octets.now ≡ Some signal → CanCarry size signal → ⊥)
        (λ told. signal_by kind octets.now ≡ Some (signal_of told)) }
{
    match kind {
        0 => Some(Told::Mark),
        1 => Some(Told::Pattern(Seen::Odp)),
        2 => Some(Told::Pattern(Seen::Adp)),
        3 if octets.len() <= WHOLE => Some(Told::Octets(whole(octets))),
        4 => Some(Told::Flags),
        _ => None,
    }
}

/// Writes a slot of this kind, and reports how many bits it has.
fn write(
    writer: &mut FrameWriter,
    kind: u32,
    octets: &[u8],
    bits: &mut [u8],
    written: &mut usize,
) -> i32
    requires { written.old ≡ 0 }
    ensures frames { (symbols : ℕ) (signals : List Signal) (signal : Signal) → HasWritten symbols writer.old signals → signal_by kind octets.now ≡ Some signal
        → result ≡ pos 0 → HasWritten symbols writer.new (signals ++ signal ∷ []) }
    ensures slotted { (symbols : ℕ) (signals : List Signal) → HasWritten symbols writer.old signals
        → SlottedBy symbols signals (signal_by kind octets.now) bits.old bits.new written.new result }
    ensures bits { AreBits written.new bits.new }
    ensures kind { (result ≢ EMPTY) × (result ≢ WRONG_KIND) }
    ensures stays { result ≢ pos 0 → writer.new ≡ writer.old }
    ensures within { written.new ≤ length bits.new }
{
    let Some(told) = told_by(kind, octets) else {
        return BAD_ARGUMENT;
    };
    match writer.slot(&told, bits) {
        Ok(count) => {
            *written = count;
            DONE
        }
        Err(SlotStop::BadFrame) => BAD_ARGUMENT,
        Err(SlotStop::Full) => FULL,
    }
}

/// Writes a slot by what a handle leads to.
fn write_to(
    machine: &mut Machine,
    kind: u32,
    octets: &[u8],
    bits: &mut [u8],
    written: &mut usize,
) -> i32
    requires { written.old ≡ 0 }
    ensures frames { (symbols : ℕ) (signals : List Signal) (signal : Signal) → Frames symbols (Some machine.old) signals
        → signal_by kind octets.now ≡ Some signal → result ≡ pos 0 → Frames symbols (Some machine.new) (signals ++ signal ∷ []) }
    ensures slotted { (symbols : ℕ) (signals : List Signal) → Frames symbols (Some machine.old) signals
        → SlottedBy symbols signals (signal_by kind octets.now) bits.old bits.new written.new result }
    ensures bits { AreBits written.new bits.new }
    ensures kind { AnswersKind (Some machine.old) (framer_in (Some machine.old)) result }
    ensures none { framer_in (Some machine.old) ≡ None → (written.new ≡ 0) × (bits.new ≡ bits.old) }
    ensures stays { result ≢ pos 0 → machine.new ≡ machine.old }
    ensures within { written.new ≤ length bits.new }
{
    match machine {
        Machine::Framer(writer) => write(writer, kind, octets, bits, written),
        _ => WRONG_KIND,
    }
}

/// Writes the bits of the next slot, an octet each, four a symbol: 0 ones, 1 the originator's pattern, 2 the answerer's, 3 a frame between
/// flags, its octets with their check given, 4 flags. So many octets fit a slot as 47 + 8n + 8n/5 bits do, rounded down, into its symbols
/// but 128.
#[unsafe(no_mangle)]
pub extern "C" fn modem_framer_slot(
    alloc: Global,
    handle: &mut Handle,
    kind: u32,
    octets: &[u8],
    bits: &mut [u8],
    written: &mut usize,
) -> i32
    ensures frames { (symbols : ℕ) (signals : List Signal) (signal : Signal) → Frames symbols handle.old.value signals
        → signal_by kind octets.now ≡ Some signal → result ≡ pos 0 → Frames symbols handle.new.value (signals ++ signal ∷ []) }
    ensures slotted { (symbols : ℕ) (signals : List Signal) → Frames symbols handle.old.value signals
        → SlottedBy symbols signals (signal_by kind octets.now) bits.old bits.new written.new result }
    ensures bits { AreBits written.new bits.new }
    ensures kind { AnswersKind handle.old.value (framer_in handle.old.value) result }
    ensures none { framer_in handle.old.value ≡ None → (written.new ≡ 0) × (bits.new ≡ bits.old) }
    ensures stays { result ≢ pos 0 → handle.new.value ≡ handle.old.value }
    ensures length { length bits.new ≡ length bits.old }
    ensures within { written.new ≤ length bits.new }
{
    *written = 0;
    let Some(mut machine) = take(alloc, handle) else {
        return EMPTY;
    };
    let code = write_to(machine.as_mut(), kind, octets, bits, written);
    put(alloc, handle, machine);
    code
}

/// The bits of a frame alone, an octet each, for a line that isn't cut into slots: four flags, the frame's octets with their check, 4 to
/// 1031, and its closing flag. There is to be room for 10,460.
#[unsafe(no_mangle)]
pub extern "C" fn modem_frame_bits(octets: &[u8], bits: &mut [u8], written: &mut usize) -> i32
    ensures writes { FrameAlone octets.now bits.old bits.new written.new result }
    ensures bits { AreBits written.new bits.new }
    ensures length { length bits.new ≡ length bits.old }
    ensures within { written.new ≤ length bits.new }
{
    *written = 0;
    match frame_bits(octets, bits) {
        Ok(count) => {
            *written = count;
            DONE
        }
        Err(SlotStop::BadFrame) => BAD_ARGUMENT,
        Err(SlotStop::Full) => FULL,
    }
}
