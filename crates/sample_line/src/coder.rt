// Slots become labels.
ghost use Rattle.std.specs.Prelude.{◌≡◌, ◌+◌, ◌*◌, ◌%◌, ◌<◌, ◌≤◌, Bool, List, [], ◌∷◌, ◌++◌, length, map, take};
ghost use Rattle.frame_check.specs.declared.sizes.TheConstants.{SLOT};
ghost use Rattle.scramblers.specs.declared.mode.Mode.{Mode};
ghost use Rattle.symbol_map.specs.declared.sample.Sample.{Sample};
ghost use Rattle.symbol_map.specs.Points.{point_of};
ghost use Rattle.line_coding.specs.Modulates.{ModulatorStands};
ghost use Rattle.bit_stuffing.specs.BitSlot.{line_bits};
ghost use Rattle.bit_stuffing.specs.declared.slot_writer.TheConstants.{HEAD, TAIL};
ghost use Rattle.detection.specs.Slots.{Signal};
ghost use Rattle.sample_line.specs.Signals.{signal_of, IsCodable};
ghost use Rattle.sample_line.specs.Line.{bits_behind};
ghost use Rattle.sample_line.specs.Coder.{CoderStands, IsCodedAs, bits_in};

use crate::coding::write_sent;
use crate::{Framing, LabelSlot, mode_of};
use bit_stuffing::{BitSlot, SlotWriter};
use frame_check::Check;
use lapm_frames::Sent;
use line_coding::Modulator;
use shared_terms::Role;
use std::marker::Model;

/// What codes all that an end sends, one slot after another.
pub struct Coder {
    /// The end that sends.
    sender: Role,
    /// How many a slot has.
    symbols: u16,
    /// What makes bits of what is sent.
    writer: SlotWriter,
    /// The labels of the slots' bits.
    modulator: Modulator,
}

impl Drop for Coder {
    // for the prover: so it is dropped by a call, and its fields are not dropped anew wherever one is.
    fn drop(self) {
        let Coder {
            sender: _,
            symbols: _,
            writer: _,
            modulator: _,
        } = self;
    }
}

impl Model for Coder {
    ghost use Rattle.std.specs.Prelude.{◌≡◌, ◌<◌, ◌≤◌, ◌+◌};
    ghost use Rattle.frame_check.specs.declared.sizes.TheConstants.{SLOT};
    ghost use Rattle.bit_stuffing.specs.declared.slot_writer.TheConstants.{HEAD, TAIL};
    ghost use Rattle.sample_line.specs.Coder.{Coding};

    ghost Value = { Coding };

    ghost view = { λ c. record { sender = c.sender; writer = c.writer; modulator = c.modulator } };

    ghost invariant = { λ c. (c.symbols ≡ c.writer.symbols) × (HEAD + TAIL < c.symbols) × (c.symbols ≤ SLOT) };
}

/// Writes the labels of two quads of a slot.
fn write_two(modulator: &mut Modulator, bits: &BitSlot, place: usize, out: &mut LabelSlot)
    requires within { place + 2 ≤ length bits.now }
    requires room { place + 2 ≤ SLOT }
    requires even { place % 2 ≡ 0 }
    requires behind { length out.old ≡ place }
    ensures behind { length out.new ≡ place + 2 }
    ensures stands { (mode : Mode) (before : List Bool) (points : List Sample)
        → ModulatorStands mode modulator.old (before ++ line_bits (take place bits.now)) (points ++ map point_of out.old)
        → ModulatorStands mode modulator.new (before ++ line_bits (take (place + 2) bits.now)) (points ++ map point_of out.new) }
{
    let first = modulator.label(bits.quad(place));
    let second = modulator.label(bits.quad(place + 1));
    out.push_two(first, second);
}

/// Writes the label of the last quad, where they are odd.
fn write_last(modulator: &mut Modulator, bits: &BitSlot, place: usize, out: &mut LabelSlot)
    requires within { place < length bits.now }
    requires room { place < SLOT }
    requires behind { length out.old ≡ place }
    ensures stands { (mode : Mode) (before : List Bool) (points : List Sample)
        → ModulatorStands mode modulator.old (before ++ line_bits (take place bits.now)) (points ++ map point_of out.old)
        → ModulatorStands mode modulator.new (before ++ line_bits (take (place + 1) bits.now)) (points ++ map point_of out.new) }
{
    out.push(modulator.label(bits.quad(place)));
}

/// Writes the labels of a slot's bits.
fn write_labels(modulator: &mut Modulator, bits: &BitSlot, out: &mut LabelSlot)
    requires { out.old ≡ [] }
    ensures { (mode : Mode) (before : List Bool) (points : List Sample) → ModulatorStands mode modulator.old before points
        → ModulatorStands mode modulator.new (before ++ line_bits bits.now) (points ++ map point_of out.new) }
{
    let count = bits.len();
    for pair in 0..count / 2 {
        write_two(modulator, bits, 2 * pair, out);
    }
    if count % 2 == 1 {
        write_last(modulator, bits, count - 1, out);
    }
}

impl Coder {
    /// A coder before the first slot of this end, whose slots have so many symbols.
    pub fn new(sender: Role, symbols: u16) -> Coder
        requires low { HEAD + TAIL < symbols }
        requires high { symbols ≤ SLOT }
        ensures sender { result.sender ≡ sender }
        ensures symbols { result.writer.symbols ≡ symbols }
        ensures stands { CoderStands result [] }
    {
        Coder {
            sender,
            symbols,
            writer: SlotWriter::new(symbols),
            modulator: Modulator::new(mode_of(sender)),
        }
    }

    /// Codes the next slot: its bits and their labels take the place of what is in these. A frame has the check that its kind has where the ends use
    /// `check`.
    pub fn code(
        &mut self,
        sent: &Sent,
        check: Check,
        dlci: u8,
        bits: &mut BitSlot,
        labels: &mut LabelSlot,
    )
        requires channel { dlci < 64 }
        requires codable { IsCodable check self.old.sender dlci self.old.writer.symbols self.old.writer.phase sent.now }
        ensures bits { (signals : List Signal) → CoderStands self.old signals
            → line_bits bits.new ≡ bits_behind (bits_in self.old) signals (signal_of check self.old.sender dlci sent.now) }
        ensures labels { (signals : List Signal) → CoderStands self.old signals
            → IsCodedAs self.old.sender (bits_in self.old) signals (signal_of check self.old.sender dlci sent.now) labels.new }
        ensures stands { (signals : List Signal) → CoderStands self.old signals
            → CoderStands self.new (signals ++ signal_of check self.old.sender dlci sent.now ∷ []) }
        ensures sender { self.new.sender ≡ self.old.sender }
        ensures symbols { self.new.writer.symbols ≡ self.old.writer.symbols }
    {
        bits.clear();
        write_sent(
            &mut self.writer,
            self.symbols,
            sent,
            Framing {
                check,
                sender: self.sender,
                dlci,
            },
            bits,
        );
        labels.clear();
        write_labels(&mut self.modulator, bits, labels);
    }
}
