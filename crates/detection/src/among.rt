// Slots of patterns and of ones among those of flags: behind one of them flags begin anew.
ghost use Rattle.std.specs.Prelude.{◌≡◌, ◌+◌, ◌*◌, ◌<◌, ◌≤◌, List, [], ◌∷◌, ◌++◌, length};
ghost use Rattle.frame_check.specs.declared.sizes.TheConstants.{SLOT};
ghost use Rattle.bit_stuffing.specs.BitSlot.{line_bits};
ghost use Rattle.bit_stuffing.specs.Slots.{Slot, slot_bits};
ghost use Rattle.bit_stuffing.specs.SlotWriter.{WriterStands};
ghost use Rattle.bit_stuffing.specs.declared.slot_writer.TheConstants.{HEAD, TAIL};
ghost use Rattle.detection.specs.Slots.{slot_of};
ghost use Rattle.detection.specs.Slots.Signal.{MarkSlot, PatternSlot};

use crate::{Seen, mark_slot, pattern_slot};
use bit_stuffing::{BitSlot, SlotWriter};

/// Writes a slot of ones in the place of the next slot of flags.
pub fn write_mark(writer: &mut SlotWriter, symbols: u16, out: &mut BitSlot)
    requires symbols { symbols ≡ writer.old.symbols }
    requires low { HEAD + TAIL < symbols }
    requires high { symbols ≤ SLOT }
    requires empty { out.old ≡ [] }
    ensures bits { line_bits out.new ≡ slot_bits (4 * writer.old.symbols) writer.old.phase (slot_of (4 * writer.old.symbols) MarkSlot) }
    ensures count { length out.new ≡ writer.old.symbols }
    ensures symbols { writer.new.symbols ≡ writer.old.symbols }
    ensures stands { (slots : List Slot) → WriterStands writer.old slots
        → WriterStands writer.new (slots ++ slot_of (4 * writer.old.symbols) MarkSlot ∷ []) }
{
    mark_slot(symbols, out);
    writer.restart();
}

/// Writes a slot of patterns in the place of the next slot of flags.
pub fn write_patterns(writer: &mut SlotWriter, symbols: u16, seen: Seen, out: &mut BitSlot)
    requires symbols { symbols ≡ writer.old.symbols }
    requires low { HEAD + TAIL < symbols }
    requires high { symbols ≤ SLOT }
    requires empty { out.old ≡ [] }
    ensures bits { line_bits out.new ≡ slot_bits (4 * writer.old.symbols) writer.old.phase (slot_of (4 * writer.old.symbols) (PatternSlot seen)) }
    ensures count { length out.new ≡ writer.old.symbols }
    ensures symbols { writer.new.symbols ≡ writer.old.symbols }
    ensures stands { (slots : List Slot) → WriterStands writer.old slots
        → WriterStands writer.new (slots ++ slot_of (4 * writer.old.symbols) (PatternSlot seen) ∷ []) }
{
    pattern_slot(seen, symbols, out);
    writer.restart();
}
