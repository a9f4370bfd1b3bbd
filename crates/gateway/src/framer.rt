// Frames, patterns, flags and ones to bits, in slots, and a frame alone.
ghost use Rattle.std.specs.Prelude.{◌≡◌, ◌+◌, ◌-◌, ◌*◌, ◌<◌, ◌≤◌, ◌↔◌, ◌++◌, ◌∷◌, [], ℕ, List, IsTrue, IfOk, IfErr, MatchOption, length};
ghost use Rattle.std.specs.Option.{option_copied};
ghost use Rattle.frame_check.specs.declared.sizes.TheConstants.{SLOT};
ghost use Rattle.bit_stuffing.specs.BitSlot.{line_bits};
ghost use Rattle.bit_stuffing.specs.Found.{Found, pieces_of};
ghost use Rattle.bit_stuffing.specs.Slots.{Slot, IsFrame, opening, slot_bits};
ghost use Rattle.bit_stuffing.specs.SlotWriter.{WriterStands};
ghost use Rattle.bit_stuffing.specs.declared.slot_writer.TheConstants.{HEAD, TAIL};
ghost use Rattle.detection.specs.Slots.{CanCarry, slot_of};
ghost use Rattle.detection.specs.Slots.Signal.{FlagSlot};
ghost use Rattle.gateway.specs.Given.{given, AreBits};
ghost use Rattle.gateway.specs.FrameBits.{FrameBits};
ghost use Rattle.gateway.specs.Signals.{signal_of};

use crate::label_bits::{LabelBits, put_bits};
use crate::turns::Told;
use bit_stuffing::laws::{
    found_is_sent, opening_is_short, pieces_grow, pieces_stay, sent_grows, slots_have_size,
};
use bit_stuffing::{BitSlot, Deframer, HEAD, SHORTEST, SlotWriter, TAIL};
use detection::{write_mark, write_patterns};
use frame_check::{SLOT, WHOLE};

/// Why a slot isn't written.
#[derive(Clone, Copy, PartialEq, Eq)]
pub enum SlotStop {
    /// The slot would carry a frame that no deframer takes, or one that is too long for it.
    BadFrame,
    /// There is no room for its bits.
    Full,
}

/// Writes slots of one size, one after another. Flags run on from one slot to the next.
#[derive(Drop)]
pub struct FrameWriter {
    writer: SlotWriter,
    symbols: u16,
    ghost same: { writer.symbols ≡ symbols },
    ghost low: { HEAD + TAIL < symbols },
    ghost high: { symbols ≤ SLOT },
    ghost stands: { ∥ ((slots : List Slot) × WriterStands writer slots) ∥₁ },
}

/// Writes a slot of flags, with a frame that it can carry or without.
fn write_flags(writer: &mut SlotWriter, frame: Option<&[u8]>, out: &mut BitSlot)
    requires low { HEAD + TAIL < writer.old.symbols }
    requires phase { writer.old.phase < 8 }
    requires empty { out.old ≡ [] }
    requires fits { CanCarry (4 * (writer.old.symbols - TAIL)) (FlagSlot (option_copied frame)) }
    ensures bits { line_bits out.new ≡ slot_bits (4 * writer.old.symbols) writer.old.phase (slot_of (4 * writer.old.symbols) (FlagSlot (option_copied frame.entry))) }
    ensures count { length out.new ≡ writer.old.symbols }
    ensures symbols { writer.new.symbols ≡ writer.old.symbols }
    ensures stands { (slots : List Slot) → WriterStands writer.old slots
        → WriterStands writer.new (slots ++ slot_of (4 * writer.old.symbols) (FlagSlot (option_copied frame.entry)) ∷ []) }
{
    opening_is_short();
    slots_have_size();
    writer.slot(frame, out);
}

/// Writes the slot of what is transmitted.
fn write_told(writer: &mut SlotWriter, symbols: u16, told: &Told, out: &mut BitSlot)
    requires symbols { symbols ≡ writer.old.symbols }
    requires low { HEAD + TAIL < symbols }
    requires high { symbols ≤ SLOT }
    requires phase { writer.old.phase < 8 }
    requires empty { out.old ≡ [] }
    requires fits { CanCarry (4 * (writer.old.symbols - TAIL)) (signal_of told.now) }
    ensures bits { line_bits out.new ≡ slot_bits (4 * writer.old.symbols) writer.old.phase (slot_of (4 * writer.old.symbols) (signal_of told.now)) }
    ensures count { length out.new ≡ writer.old.symbols }
    ensures symbols { writer.new.symbols ≡ writer.old.symbols }
    ensures stands { (slots : List Slot) → WriterStands writer.old slots
        → WriterStands writer.new (slots ++ slot_of (4 * writer.old.symbols) (signal_of told.now) ∷ []) }
{
    match told {
        Told::Mark => write_mark(writer, symbols, out),
        Told::Flags => write_flags(writer, None, out),
        Told::Pattern(seen) => write_patterns(writer, symbols, *seen, out),
        Told::Octets(octets) => write_flags(writer, Some(octets.as_slice()), out),
    }
}

/// Puts a slot's bits into the room, an octet each.
fn put_slot(slot: &BitSlot, bits: &mut [u8])
    requires { 4 * length slot.now ≤ length bits.old }
    ensures given { given (4 * length slot.now) bits.new ≡ line_bits slot.now }
    ensures bits { AreBits (4 * length slot.now) bits.new }
{
    for place in 0..slot.len() {
        let quad = LabelBits {
            count: 4,
            number: slot.quad(place),
        };
        put_bits(quad, bits, 4 * place);
    }
}

/// Whether a slot of so many symbols can carry what is transmitted, whatever flags came before.
fn can_carry(symbols: u16, told: &Told) -> bool
    requires { TAIL < symbols }
    ensures { IsTrue result ↔ CanCarry (4 * (symbols - TAIL)) (signal_of told.now) }
{
    match told {
        Told::Octets(octets) => {
            let count = octets.as_slice().len();
            SHORTEST <= count && 47 + 8 * count + 8 * count / 5 <= 4 * usize::from(symbols - TAIL)
        }
        _ => true,
    }
}

impl FrameWriter {
    ghost use Rattle.detection.specs.Slots.{Signal, signal_bits};
    ghost use Rattle.gateway.specs.SlotsWritten.{HasWritten, SlotWritten};

    /// A writer of slots of so many symbols, 139 to 2615, before the first one; none where they are fewer or more.
    pub fn new(symbols: u16) -> Option<FrameWriter>
        ensures { MatchOption result ((HEAD + TAIL < symbols) × (symbols ≤ SLOT) → ⊥) (λ writer. HasWritten symbols writer []) }
    {
        if symbols <= HEAD + TAIL || usize::from(symbols) > SLOT {
            return None;
        }
        Some(FrameWriter {
            writer: SlotWriter::new(symbols),
            symbols,
        })
    }

    /// Writes the bits of the next slot, an octet each, four a symbol: how many.
    pub fn slot(&mut self, told: &Told, bits: &mut [u8]) -> Result<usize, SlotStop>
        ensures writes { (symbols : ℕ) (signals : List Signal) → HasWritten symbols self.old signals
            → SlotWritten symbols signals (signal_of told.now) self.old bits.old self.new bits.new result }
        ensures bits { IfOk result (λ count. AreBits count bits.new) }
        ensures within { IfOk result (λ count. count ≤ length bits.new) }
        ensures stays { IfErr result (λ stop. (self.new ≡ self.old) × (bits.new ≡ bits.old)) }
    {
        if !can_carry(self.symbols, told) {
            return Err(SlotStop::BadFrame);
        }
        let count = 4 * usize::from(self.symbols);
        if bits.len() < count {
            return Err(SlotStop::Full);
        }
        sent_grows();
        let mut out = BitSlot::new();
        write_told(&mut self.writer, self.symbols, told, &mut out);
        put_slot(&out, bits);
        Ok(count)
    }
}

/// Whether a deframer takes a frame of these octets.
fn is_frame(octets: &[u8]) -> bool
    ensures { IsTrue result ↔ IsFrame octets.now }
{
    SHORTEST <= octets.len() && octets.len() <= WHOLE
}

/// Where the one piece ends that the first so many bits have.
fn first_end(bits: &[u8], count: usize) -> usize
    requires { count ≤ length bits.now }
    ensures within { result ≤ count }
    ensures end { (found : Found) → pieces_of (given count bits.now) ≡ found ∷ [] → result ≡ found.place }
{
    pieces_grow();
    pieces_stay();
    let mut deframer = Deframer::new();
    for place in 0..count {
        if deframer.push(bits[place] == 1).is_some() {
            return place + 1;
        }
    }
    count
}

/// The bits that a frame alone needs room for, whatever they are.
pub const FRAME_BITS: usize = 4 * SLOT;

/// The bits of a frame's octets with their check, an octet each: four flags, the frame and its closing flag: how many.
pub fn frame_bits(octets: &[u8], bits: &mut [u8]) -> Result<usize, SlotStop>
    ensures writes { FrameBits octets.now bits.old bits.new result }
    ensures bits { IfOk result (λ count. AreBits count bits.new) }
{
    if !is_frame(octets) {
        return Err(SlotStop::BadFrame);
    }
    if bits.len() < FRAME_BITS {
        return Err(SlotStop::Full);
    }
    opening_is_short();
    found_is_sent();
    pieces_grow();
    let mut out = BitSlot::new();
    write_flags(&mut SlotWriter::new(SLOT as u16), Some(octets), &mut out);
    put_slot(&out, bits);
    Ok(first_end(bits, FRAME_BITS))
}
