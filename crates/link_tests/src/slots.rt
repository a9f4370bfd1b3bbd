// Pieces in bits, and slots.
ghost use Rattle.std.specs.Prelude.{◌≡◌};
ghost use Rattle.link_tests.specs.declared.slots.TheConstants.{SYMBOLS};

use super::assert_row;
use bit_stuffing::{BitSlot, Deframer, Piece, SlotWriter};
use frame_check::{SLOT, WHOLE};

const FLAG: &[u8] = b"01111110";

/// Bits, so many times, with the answer at the last of them and the octets that are lent behind it. No other bit has any.
type Push = (&'static [u8], usize, Option<Piece>, &'static [u8]);

/// Streams of bits.
const STREAMS: &[(&str, &[Push])] = &[
    (
        "without the last bit it is ragged",
        &[
            (FLAG, 1, None, b""),
            (b"111110111110111110", 1, None, b""),
            (FLAG, 1, Some(Piece::Ragged), b""),
        ],
    ),
    (
        "with a bit more it is too short",
        &[
            (FLAG, 1, None, b""),
            (b"1111101111101111101", 1, None, b""),
            (FLAG, 1, Some(Piece::TooShort), b""),
        ],
    ),
    (
        "five ones at the end want a zero",
        &[
            (FLAG, 1, None, b""),
            (b"10000000010000001100000000011111", 1, None, b""),
            (FLAG, 1, Some(Piece::Ragged), b""),
            (b"100000000100000011000000000111110", 1, None, b""),
            (FLAG, 1, Some(Piece::Whole), b"\x01\x02\x03\xf8"),
        ],
    ),
    (
        "a frame in octets",
        &[
            (
                b"01111110110000001111101101111100100111010101111110",
                1,
                Some(Piece::Whole),
                b"\x03\x7f\x5f\xae",
            ),
            (b"011111", 1, None, b""),
        ],
    ),
    // Its check isn't looked at.
    (
        "a frame with another address",
        &[(
            b"01111110010000001111101101111100100111010101111110",
            1,
            Some(Piece::Whole),
            b"\x02\x7f\x5f\xae",
        )],
    ),
    (
        "flags with nothing between them give no piece",
        &[
            (b"0111111001111110", 1, None, b""),
            (b"1111110", 1, None, b""),
            (b"1", 1, None, b""),
            (FLAG, 1, Some(Piece::Ragged), b""),
        ],
    ),
    (
        "pieces too short and too long",
        &[
            (FLAG, 1, None, b""),
            (b"0", 24, None, b""),
            (FLAG, 1, Some(Piece::TooShort), b""),
            (b"0", 32, None, b""),
            (FLAG, 1, Some(Piece::Whole), &[0; 4]),
            (b"0", 8 * WHOLE, None, b""),
            (FLAG, 1, Some(Piece::Whole), &[0; WHOLE]),
            (b"0", 8 * WHOLE + 1, None, b""),
            (FLAG, 1, Some(Piece::TooLong), b""),
        ],
    ),
    (
        "seven ones abort once",
        &[
            (b"11111111", 1, None, b""),
            (FLAG, 1, None, b""),
            (b"001111111", 1, Some(Piece::Aborted), b""),
            (b"1111111", 1, None, b""),
            (b"0", 32, None, b""),
            (FLAG, 1, None, b""),
            (b"0", 32, None, b""),
            (FLAG, 1, Some(Piece::Whole), &[0; 4]),
        ],
    ),
];

/// Whether one bit is answered so, and these octets are lent behind it.
fn answers(deframer: &mut Deframer, bit: bool, answer: Option<Piece>, whole: &[u8]) -> bool {
    deframer.push(bit) == answer && deframer.whole() == whole
}

/// Whether the bits of a push are answered so.
fn is_answered(deframer: &mut Deframer, push: &Push) -> bool {
    let (digits, times, answer, whole) = *push;
    let mut left = digits.len().saturating_mul(times);
    for _ in 0..times {
        for digit in digits {
            left = left.saturating_sub(1);
            let bit = *digit == b'1';
            let is_answered = if left == 0 {
                answers(deframer, bit, answer, whole)
            } else {
                answers(deframer, bit, None, b"")
            };
            if !is_answered {
                return false;
            }
        }
    }
    true
}

/// Whether the bits of a stream are answered so.
fn are_answered(pushes: &[Push]) -> bool {
    let mut deframer = Deframer::new();
    for push in pushes {
        if !is_answered(&mut deframer, push) {
            return false;
        }
    }
    true
}

#[test]
fn pieces_in_streams(rt: HostRuntime) {
    for &(name, pushes) in STREAMS {
        assert_row(&rt, name, are_answered(pushes));
    }
}

/// A slot of these quads.
pub(crate) fn slot_of(quads: &[u8]) -> BitSlot {
    let mut slot = BitSlot::new();
    for quad in quads {
        if slot.len() < SLOT {
            slot.push(quad % 16);
        }
    }
    slot
}

/// Whether the digits of a slot's bits from this one on are these.
fn has_digits(slot: &BitSlot, from: usize, digits: &[u8]) -> bool {
    for i in 0..digits.len() {
        let place = from.wrapping_add(i);
        if place / 4 >= slot.len() {
            return false;
        }
        let bit = (slot.quad(place / 4) >> (place % 4)) & 1 == 1;
        if bit != (digits[i] == b'1') {
            return false;
        }
    }
    true
}

/// Whether a slot begins with flags, and then a frame of two octets of ones with no check.
fn has_stuffed_ones(slot: &BitSlot) -> bool {
    for place in 0..4 {
        if !has_digits(slot, 8 * place, FLAG) {
            return false;
        }
    }
    has_digits(slot, 32, b"1111101111101111101") && has_digits(slot, 51, FLAG)
}

#[test]
fn a_zero_goes_behind_five_ones(rt: HostRuntime) {
    let mut writer = SlotWriter::new(SLOT as u16);
    let mut slot = BitSlot::new();
    writer.slot(Some(&[0xff, 0xff]), &mut slot);
    assert!(rt; slot.len() == SLOT && has_stuffed_ones(&slot));
}

/// The symbols of a slot in which the last flag of such a frame's slot is cut.
const SYMBOLS: usize = 464;

/// Writes such a slot of flags alone.
fn write_flags(writer: &mut SlotWriter, slot: &mut BitSlot)
    requires { writer.old.symbols ≡ SYMBOLS }
    ensures { writer.new.symbols ≡ SYMBOLS }
{
    slot.clear();
    writer.slot(None, slot);
}

/// Whether such a slot ends in a flag without its last bit.
fn ends_in_a_flag(slot: &BitSlot) -> bool {
    has_digits(slot, 4 * SYMBOLS - 7, b"0111111")
}

#[test]
fn a_flag_that_is_cut_goes_on_in_the_next_slot(rt: HostRuntime) {
    let mut writer = SlotWriter::new(SYMBOLS as u16);
    let mut slot = BitSlot::new();
    writer.slot(Some(&[1, 2, 3, 0xff]), &mut slot);
    assert_row(&rt, "it is cut", ends_in_a_flag(&slot));
    write_flags(&mut writer, &mut slot);
    assert_row(&rt, "it goes on", has_digits(&slot, 0, b"001111110"));
    assert_row(&rt, "it is cut again", ends_in_a_flag(&slot));
    writer.restart();
    write_flags(&mut writer, &mut slot);
    assert_row(&rt, "it begins anew", has_digits(&slot, 0, FLAG));
}

/// Whether a slot has these two quads, and none once it is cleared.
fn has_quads_until_cleared(slot: &mut BitSlot) -> bool {
    if slot.len() != 2 || slot.quad(1) != 15 || !has_digits(slot, 0, b"01101111") {
        return false;
    }
    slot.clear();
    slot.len() == 0
}

#[test]
fn quads_of_a_slot(rt: HostRuntime) {
    let mut slot = slot_of(&[6, 15]);
    assert!(rt; BitSlot::new().is_empty() && has_quads_until_cleared(&mut slot));
}
