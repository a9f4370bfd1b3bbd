// Slots of flags, with or without a frame.
ghost use Rattle.std.specs.Prelude.{◌≡◌, ◌+◌, ◌-◌, ◌*◌, ◌<◌, ◌≤◌, List, Bool, Some, [], ◌∷◌, ◌++◌, length};
ghost use Rattle.std.specs.Option.{option_copied};
ghost use Rattle.bit_stuffing.specs.BitSlot.{line_bits};
ghost use Rattle.bit_stuffing.specs.Pen.{written};
ghost use Rattle.bit_stuffing.specs.Slots.{Slot, flags, opening, rest_of_flag, slot_bits};
ghost use Rattle.bit_stuffing.specs.Slots.Slot.{Flags, Plain};

use crate::bit_slot::BitSlot;
use crate::pen::Pen;
use frame_check::SLOT;
use std::marker::Model;

/// The symbols that may stand before a slot's frame: the rest of an unfinished flag, and four flags.
pub const HEAD: u16 = 10;

/// The symbols that stand behind a slot's frame at least, so that its receiver may be so many behind.
pub const TAIL: u16 = 128;

/// Writes what stands in front of a slot's frame.
fn opened(phase: u8, out: &mut BitSlot) -> Pen
    requires phase { phase < 8 }
    requires empty { out.old ≡ [] }
    ensures { written result out.new ≡ rest_of_flag phase ++ flags 4 }
{
    let mut pen = Pen::new();
    pen.head(phase, out);
    pen
}

/// Writes slots of flags, one after another. The flags run on from one slot to the next.
#[derive(Drop)]
pub struct SlotWriter {
    /// How many symbols of four bits a slot has.
    symbols: u16,
    /// How many bits of its last flag the slot before had: 0 where it was whole.
    phase: u8,
}

impl Model for SlotWriter {
    ghost use Rattle.std.specs.Prelude.{◌<◌, ◌≤◌, ◌+◌};
    ghost use Rattle.frame_check.specs.declared.sizes.TheConstants.{SLOT};
    ghost use Rattle.bit_stuffing.specs.declared.slot_writer.TheConstants.{HEAD, TAIL};
    ghost use Rattle.bit_stuffing.specs.SlotWriter.{Writer};

    ghost Value = { Writer };

    ghost view = { λ w. record { symbols = w.symbols; phase = w.phase } };

    ghost invariant = { λ w. (HEAD + TAIL < w.symbols) × (w.symbols ≤ SLOT) × (w.phase < 8) };
}

impl SlotWriter {
    ghost use Rattle.bit_stuffing.specs.SlotWriter.{WriterStands};

    /// A writer of slots of so many symbols, before the first one.
    pub fn new(symbols: u16) -> SlotWriter
        requires low { HEAD + TAIL < symbols }
        requires high { symbols ≤ SLOT }
        ensures symbols { result.symbols ≡ symbols }
        ensures stands { WriterStands result [] }
    {
        SlotWriter { symbols, phase: 0 }
    }

    /// Writes the next slot: flags, and between them the frame, if there is one. It is handed in with its
    /// check.
    pub fn slot(&mut self, frame: Option<&[u8]>, out: &mut BitSlot)
        requires empty { out.old ≡ [] }
        requires room { length (opening self.old.phase (option_copied frame))
            ≤ 4 * (self.old.symbols - TAIL) }
        ensures bits { line_bits out.new
            ≡ slot_bits (4 * self.old.symbols) self.old.phase (Flags (option_copied frame.entry)) }
        ensures symbols { self.new.symbols ≡ self.old.symbols }
        ensures stands { (slots : List Slot) → WriterStands self.old slots
            → WriterStands self.new (slots ++ Flags (option_copied frame.entry) ∷ []) }
    {
        match frame {
            Some(octets) => self.framed(&[], &[], octets, out),
            None => {
                let mut flags = opened(self.phase, out);
                self.phase = flags.fill(self.symbols, out);
            }
        }
    }

    /// Writes the next slot, with a frame whose octets stand in three places: its head, its information, and its check.
    pub fn framed(&mut self, head: &[u8], information: &[u8], check: &[u8], out: &mut BitSlot)
        requires empty { out.old ≡ [] }
        requires room { length (opening self.old.phase (Some (head.now ++ information.now ++ check.now)))
            ≤ 4 * (self.old.symbols - TAIL) }
        ensures bits { line_bits out.new
            ≡ slot_bits (4 * self.old.symbols) self.old.phase (Flags (Some (head.now ++ information.now ++ check.now))) }
        ensures symbols { self.new.symbols ≡ self.old.symbols }
        ensures stands { (slots : List Slot) → WriterStands self.old slots
            → WriterStands self.new (slots ++ Flags (Some (head.now ++ information.now ++ check.now)) ∷ []) }
    {
        let mut pen = opened(self.phase, out);
        pen.frame(head, information, check, out);
        self.phase = pen.fill(self.symbols, out);
    }

    /// Tells the writer that a slot of other bits was sent. They begin at once, also behind a flag that is cut,
    /// and flags begin anew behind them.
    pub fn restart(&mut self)
        ensures symbols { self.new.symbols ≡ self.old.symbols }
        ensures stands { (slots : List Slot) (bits : List Bool) → WriterStands self.old slots
            → WriterStands self.new (slots ++ Plain bits ∷ []) }
    {
        self.phase = 0;
    }
}
