// Slots that aren't what was sent, put on the line as they are.
ghost use Rattle.std.specs.Prelude.{◌≡◌, ◌<◌, ◌^◌, None};
ghost use Rattle.sample_line.specs.Line.{decoder_of};

use super::*;
use frame_check::INFO;
use line_coding::Modulator;
use scramblers::Mode;

/// A ready frame of the originator's, a response, with its check.
const READY: &[u8] = b"\x01\x01\x00\xc8\x85";

/// Octets that pass the check and are no frame: a response as a command.
const AS_COMMAND: &[u8] = b"\x03\x63\xb2\x74";

/// The same: a frame of another channel's.
const OF_ANOTHER: &[u8] = b"\x43\x63\xd4\x32";

const FLAG: &[u8] = b"\x7e";

/// Octets so many times, one behind the other.
type Octets = (&'static [u8], usize);

/// Puts octets into a slot, as far as there is room for them.
fn put(slot: &mut BitSlot, octets: &[u8], times: usize) {
    for _ in 0..times {
        for octet in octets {
            if slot.len() + 2 <= SLOT {
                slot.push(octet % 16);
                slot.push(octet / 16);
            }
        }
    }
}

/// The bits of a slot with these octets behind four flags, and flags behind them; a symbol is left. No five ones follow one another in them
/// but in flags.
fn slot_of(pieces: &[Octets]) -> BitSlot {
    let mut slot = BitSlot::new();
    put(&mut slot, FLAG, 4);
    for &(octets, times) in pieces {
        put(&mut slot, octets, times);
    }
    put(&mut slot, FLAG, SLOT);
    slot
}

/// The labels of a first slot's bits.
fn labels_of(slot: &BitSlot) -> LabelSlot {
    let mut modulator = Modulator::new(Mode::Call);
    let mut labels = LabelSlot::new();
    for place in 0..slot.len() {
        labels.push(modulator.label(slot.quad(place)));
    }
    labels
}

/// Octets of a slot, what was sent in it, and what is heard.
struct Forged(&'static [Octets], Message, Outcome);

impl Forged {
    /// Whether a line hears this of these labels.
    fn is_heard(&self, line: &mut Line, script: &Script, labels: &LabelSlot) -> bool
        requires few { line.old.passed < 2 ^ 40 }
        requires not_lost { (decoder_of line.old).lost ≡ None }
    {
        let sent = sent(&self.1);
        match line.pass(script, labels, &sent, false, Check::Sixteen, 0) {
            Ok(heard) => outcome_of(&heard, &sent) == self.2,
            Err(_) => false,
        }
    }
}

impl Row for Forged {
    fn holds(&self, alloc: Global) -> bool {
        let Ok(script) = read_script(alloc, b"") else {
            return false;
        };
        match Line::new(alloc, Role::Originator, SLOT as u16) {
            Ok(mut line) => self.is_heard(&mut line, &script, &labels_of(&slot_of(self.0))),
            Err(_) => false,
        }
    }
}

const WANTED: Message = Message::Ready(0);

/// Pieces of a slot in which the ready frame was sent.
const PIECES: &[(&str, Forged)] = &[
    (
        "a frame alone",
        Forged(&[(READY, 1)], WANTED, Outcome::AsSent),
    ),
    (
        "the frame twice",
        Forged(
            &[(READY, 1), (FLAG, 1), (READY, 1)],
            WANTED,
            Outcome::Chance,
        ),
    ),
    (
        "a response as a command before it",
        Forged(
            &[(AS_COMMAND, 1), (FLAG, 1), (READY, 1)],
            WANTED,
            Outcome::Chance,
        ),
    ),
    (
        "a response as a command behind it",
        Forged(
            &[(READY, 1), (FLAG, 1), (AS_COMMAND, 1)],
            WANTED,
            Outcome::Chance,
        ),
    ),
    (
        "a response as a command alone",
        Forged(&[(AS_COMMAND, 1)], WANTED, Outcome::Chance),
    ),
    (
        "a frame of another channel before it",
        Forged(
            &[(OF_ANOTHER, 1), (FLAG, 1), (READY, 1)],
            WANTED,
            Outcome::Chance,
        ),
    ),
    (
        "a frame of another channel behind it",
        Forged(
            &[(READY, 1), (FLAG, 1), (OF_ANOTHER, 1)],
            WANTED,
            Outcome::Chance,
        ),
    ),
    (
        "a frame of another channel alone",
        Forged(&[(OF_ANOTHER, 1)], WANTED, Outcome::Chance),
    ),
];

#[test]
fn pieces_beside_the_right_frame_are_chance(rt: HostRuntime) {
    assert_rows(&rt, rt.alloc(), PIECES);
}

/// The head of an originator's first I frame.
const HEAD: Octets = (b"\x03\x00\x00", 1);

const LONGEST: Message = Message::Longest(0, 0, 0, false);

/// I frames of zeros with their check, where the longest one was sent.
const ZEROS: &[(&str, Forged)] = &[
    (
        "the longest information field",
        Forged(
            &[HEAD, (b"\0", INFO), (b"\x1d\x55", 1)],
            LONGEST,
            Outcome::AsSent,
        ),
    ),
    (
        "an information field that is too long",
        Forged(
            &[HEAD, (b"\0", INFO + 1), (b"\x49\x3b", 1)],
            LONGEST,
            Outcome::Chance,
        ),
    ),
];

#[test]
fn an_information_field_that_is_too_long_is_chance(rt: HostRuntime) {
    assert_rows(&rt, rt.alloc(), ZEROS);
}
