// The slot of bits of what an end sends.
ghost use Rattle.std.specs.Prelude.{◌≡◌, ◌+◌, ◌*◌, ◌<◌, ◌≤◌, List, [], ◌∷◌, ◌++◌};
ghost use Rattle.frame_check.specs.declared.sizes.TheConstants.{SLOT};
ghost use Rattle.bit_stuffing.specs.BitSlot.{line_bits};
ghost use Rattle.bit_stuffing.specs.Slots.{Slot, slot_bits};
ghost use Rattle.bit_stuffing.specs.SlotWriter.{WriterStands};
ghost use Rattle.bit_stuffing.specs.declared.slot_writer.TheConstants.{HEAD, TAIL};
ghost use Rattle.detection.specs.Slots.{slot_of};
ghost use Rattle.sample_line.specs.Signals.{signal_of, IsCodable};

use crate::Framing;
use bit_stuffing::{BitSlot, SlotWriter};
use detection::{write_mark, write_patterns};
use lapm_frames::{Seen, Sent, check_parts};

/// Writes the slot of what is sent. A frame has the check that its kind has where the ends use the framing's.
pub fn write_sent(
    writer: &mut SlotWriter,
    symbols: u16,
    sent: &Sent,
    framing: Framing,
    out: &mut BitSlot,
)
    requires symbols { symbols ≡ writer.old.symbols }
    requires low { HEAD + TAIL < symbols }
    requires high { symbols ≤ SLOT }
    requires channel { framing.dlci < 64 }
    requires empty { out.old ≡ [] }
    requires codable { IsCodable framing.check framing.sender framing.dlci writer.old.symbols writer.old.phase sent.now }
    ensures bits { line_bits out.new ≡ slot_bits (4 * writer.old.symbols) writer.old.phase (slot_of (4 * writer.old.symbols) (signal_of framing.check framing.sender framing.dlci sent.now)) }
    ensures symbols { writer.new.symbols ≡ writer.old.symbols }
    ensures stands { (slots : List Slot) → WriterStands writer.old slots
        → WriterStands writer.new (slots ++ slot_of (4 * writer.old.symbols) (signal_of framing.check framing.sender framing.dlci sent.now) ∷ []) }
{
    match sent {
        Sent::Mark => write_mark(writer, symbols, out),
        Sent::Odp => write_patterns(writer, symbols, Seen::Odp, out),
        Sent::Adp => write_patterns(writer, symbols, Seen::Adp, out),
        Sent::Flags => writer.slot(None, out),
        Sent::Frame(frame) => {
            let parts = check_parts(frame, framing.check, framing.sender, framing.dlci);
            writer.framed(
                parts.head.as_slice(),
                parts.information,
                parts.check.as_slice(),
                out,
            );
        }
    }
}
