// Patterns in slots and in streams of bits.
use super::assert_row;
use super::slots::slot_of;
use bit_stuffing::BitSlot;
use detection::{PatternReader, Seen, mark_slot, pattern_slot};
use frame_check::SLOT;

/// The digits of two characters.
type Pair = (&'static [u8], &'static [u8]);

const ODP: Pair = (b"010001000", b"010001001");

const TURNED_ROUND: Pair = (b"010001001", b"010001000");

const ADP: Pair = (b"010100010", b"011000010");

/// Two pairs of characters, the ones behind each of them but the last, and the pattern that ends with the eighth one behind that.
const PAIRS: &[(&str, Pair, Pair, usize, Option<Seen>)] = &[
    ("ODP with gaps of 8", ODP, ODP, 8, Some(Seen::Odp)),
    ("ODP with gaps of 9", ODP, ODP, 9, Some(Seen::Odp)),
    ("ODP with gaps of 16", ODP, ODP, 16, Some(Seen::Odp)),
    ("ODP with gaps of 17", ODP, ODP, 17, Some(Seen::Odp)),
    ("ADP with gaps of 8", ADP, ADP, 8, Some(Seen::Adp)),
    ("ADP with gaps of 9", ADP, ADP, 9, Some(Seen::Adp)),
    ("ADP with gaps of 16", ADP, ADP, 16, Some(Seen::Adp)),
    ("ADP with gaps of 17", ADP, ADP, 17, Some(Seen::Adp)),
    ("ODP with gaps of 7", ODP, ODP, 7, None),
    ("ODP with gaps of 18", ODP, ODP, 18, None),
    ("ADP with gaps of 7", ADP, ADP, 7, None),
    ("ADP with gaps of 18", ADP, ADP, 18, None),
    ("ODP and ADP", ODP, ADP, 9, None),
    ("ADP and ODP", ADP, ODP, 9, None),
    ("ODP turned round and ODP", TURNED_ROUND, ODP, 9, None),
];

/// Whether no pattern ends with any bit of a character and so many ones behind it.
fn is_quiet(reader: &mut PatternReader, digits: &[u8], ones: usize) -> bool {
    for digit in digits {
        if reader.push(*digit == b'1').is_some() {
            return false;
        }
    }
    for _ in 0..ones {
        if reader.push(true).is_some() {
            return false;
        }
    }
    true
}

/// Whether two pairs of characters end so.
fn end_with(one: &Pair, other: &Pair, ones: usize, seen: Option<Seen>) -> bool {
    let mut reader = PatternReader::new();
    is_quiet(&mut reader, one.0, ones)
        && is_quiet(&mut reader, one.1, ones)
        && is_quiet(&mut reader, other.0, ones)
        && is_quiet(&mut reader, other.1, 7)
        && reader.push(true) == seen
}

#[test]
fn two_patterns_of_a_kind_are_seen(rt: HostRuntime) {
    for (name, one, other, ones, seen) in PAIRS {
        assert_row(&rt, name, end_with(one, other, *ones, *seen));
    }
}

/// The number of bits up to the first pattern in a slot, and how often the pattern is seen, where no other one is.
fn sights(reader: &mut PatternReader, slot: &BitSlot, seen: Seen) -> Option<(usize, usize)> {
    let mut first = 0usize;
    let mut count = 0usize;
    for i in 0..slot.len() {
        let quad = slot.quad(i);
        for shift in 0..4u32 {
            let Some(answer) = reader.push((quad >> shift) & 1 == 1) else {
                continue;
            };
            if answer != seen {
                return None;
            }
            count = count.wrapping_add(1);
            if count == 1 {
                first = i.wrapping_mul(4).wrapping_add(shift as usize + 1);
            }
        }
    }
    Some((first, count))
}

/// Whether a pattern is seen in its slot, and nothing in one of ones behind it.
fn is_seen_in_its_slot(reader: &mut PatternReader, seen: Seen) -> bool {
    let mut slot = BitSlot::new();
    pattern_slot(seen, SLOT as u16, &mut slot);
    if slot.len() != SLOT || sights(reader, &slot, seen) != Some((71, 9)) {
        return false;
    }
    slot.clear();
    mark_slot(139, &mut slot);
    slot.len() == 139 && sights(reader, &slot, seen) == Some((0, 0))
}

#[test]
fn slots_of_patterns_and_of_ones(rt: HostRuntime) {
    let mut reader = PatternReader::new();
    assert_row(&rt, "ODP", is_seen_in_its_slot(&mut reader, Seen::Odp));
    assert_row(&rt, "ADP", is_seen_in_its_slot(&mut reader, Seen::Adp));
}

#[test]
fn a_pattern_cut_over_two_slots(rt: HostRuntime) {
    let first = slot_of(&[2, 2, 14, 15, 15, 15, 5, 4, 14, 15, 15]);
    let second = slot_of(&[15, 11, 8, 8, 15, 15, 15, 7, 1, 9, 15, 15]);
    let mut reader = PatternReader::new();
    let at_first = sights(&mut reader, &first, Seen::Odp) == Some((0, 0));
    assert_row(&rt, "first slot", at_first);
    let at_second = sights(&mut reader, &second, Seen::Odp) == Some((48, 1));
    assert_row(&rt, "second slot", at_second);
}
