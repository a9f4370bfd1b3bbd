// Slots as texts: what arrives, what is sent, and the break that is given.
ghost use Rattle.std.specs.Prelude.{◌≡◌, ◌≤◌, ◌+◌, ◌++◌, length};
ghost use Rattle.std.specs.Option.{option_map};
ghost use Rattle.line_texts.specs.LineText.{break_word, heard_word, is_chance, sent_word, slot_word};
ghost use Rattle.line_texts.specs.declared.words.TheConstants.{TEXT};

use crate::LineText;
use crate::text::put_frame;
use crate::words::put_number;
use lapm_frames::{Heard, Sent};

/// Puts what a slot holds.
fn put_slot(slot: &Sent, out: &mut LineText)
    requires room { length out.old + 70 ≤ TEXT }
    ensures text { out.new ≡ out.old ++ slot_word slot.now }
    ensures short { length out.new ≤ length out.old + 44 }
{
    match slot {
        Sent::Mark => out.extend(b"mark"),
        Sent::Odp => out.extend(b"odp"),
        Sent::Adp => out.extend(b"adp"),
        Sent::Flags => out.extend(b"flags"),
        Sent::Frame(frame) => put_frame(frame, out),
    }
}

/// Puts what arrived.
pub(crate) fn put_heard(heard: &Heard, out: &mut LineText)
    requires room { length out.old + 75 ≤ TEXT }
    ensures text { out.new ≡ out.old ++ heard_word heard.now }
    ensures short { length out.new ≤ length out.old + 49 }
{
    match heard {
        Heard::Nothing => out.push(b'-'),
        Heard::Passed(slot) => put_slot(slot, out),
        Heard::Lost(slot) => {
            out.extend(b"lost ");
            put_slot(slot, out);
        }
        Heard::Chance => out.extend(b"chance"),
    }
}

/// Whether what arrived is a chance match.
pub(crate) fn is_chance(heard: &Heard) -> bool
    ensures { result ≡ is_chance heard.now }
{
    match heard {
        Heard::Nothing | Heard::Passed(_) | Heard::Lost(_) => false,
        Heard::Chance => true,
    }
}

/// Puts what was sent.
pub(crate) fn put_sent(sent: Option<&Sent>, out: &mut LineText)
    requires room { length out.old + 70 ≤ TEXT }
    ensures text { out.new ≡ out.old ++ sent_word (option_map (λ slot. slot.now) sent.entry) }
    ensures short { length out.new ≤ length out.old + 44 }
{
    match sent {
        Some(slot) => put_slot(slot, out),
        None => out.extend(b"none"),
    }
}

/// Puts the break that was given, where one was.
pub(crate) fn put_given(given: Option<u8>, out: &mut LineText)
    requires room { length out.old + 28 ≤ TEXT }
    ensures text { out.new ≡ out.old ++ break_word given }
    ensures short { length out.new ≤ length out.old + 11 }
{
    put_number(b" break=", given, out);
}
