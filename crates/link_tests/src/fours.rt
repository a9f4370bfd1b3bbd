// What goes on by four bits beside what takes each bit by itself.
ghost use Rattle.std.specs.Prelude.{◌<◌};

use bit_stuffing::{BitSlot, Deframer, SlotWriter};
use detection::{PatternReader, Seen, mark_slot, pattern_slot};
use frame_check::SLOT;

/// Readers of one stream: two that go on by four bits where that is plain, and two that take each bit.
#[derive(Drop)]
struct Beside {
    by_fours: Deframer,
    by_bits: Deframer,
    patterns_by_fours: PatternReader,
    patterns_by_bits: PatternReader,
}

impl Beside {
    fn new() -> Beside {
        Beside {
            by_fours: Deframer::new(),
            by_bits: Deframer::new(),
            patterns_by_fours: PatternReader::new(),
            patterns_by_bits: PatternReader::new(),
        }
    }

    /// Whether the same piece ends with a bit, and none where it was passed over.
    fn piece_agrees(&mut self, is_passed: bool, bit: bool) -> bool {
        let piece = if is_passed {
            None
        } else {
            self.by_fours.push(bit)
        };
        self.by_bits.push(bit) == piece
    }

    /// Whether the same pattern ends with a bit, and none where it was passed over.
    fn pattern_agrees(&mut self, is_passed: bool, bit: bool) -> bool {
        let seen = if is_passed {
            None
        } else {
            self.patterns_by_fours.push(bit)
        };
        self.patterns_by_bits.push(bit) == seen
    }

    /// Whether the same octets are lent.
    fn whole_agrees(&self) -> bool {
        self.by_fours.whole() == self.by_bits.whole()
    }

    /// Whether all agree on one bit.
    fn bit_agrees(&mut self, bit: bool) -> bool {
        self.piece_agrees(false, bit) && self.whole_agrees() && self.pattern_agrees(false, bit)
    }

    /// Whether all agree on four bits, which may be passed over.
    fn four_agrees(&mut self, four: u8) -> bool
        requires { four < 16 }
    {
        let pieces_passed = self.by_fours.pass_four(four);
        let patterns_passed = self.patterns_by_fours.pass_four(four);
        for place in 0..4u32 {
            let bit = (four >> place) & 1 == 1;
            if !self.piece_agrees(pieces_passed, bit)
                || !self.pattern_agrees(patterns_passed, bit)
            {
                return false;
            }
        }
        self.whole_agrees()
    }

    /// Whether all agree on the bits of a slot.
    fn slot_agrees(&mut self, slot: &BitSlot) -> bool {
        for place in 0..slot.len() {
            if !self.four_agrees(slot.quad(place) % 16) {
                return false;
            }
        }
        true
    }
}

/// A slot of bits by chance, of which most are ones.
fn slot_by_chance(word: &mut u32, slot: &mut BitSlot) {
    for _ in 0..100u8 {
        *word = word.wrapping_mul(1_664_525).wrapping_add(1_013_904_223);
        let four = ((*word >> 16) | (*word >> 20)) % 16;
        if slot.len() < SLOT {
            slot.push(four as u8);
        }
    }
}

/// A slot of frames, patterns, ones or bits by chance.
fn fill(turn: u32, word: &mut u32, slot: &mut BitSlot) {
    slot.clear();
    match turn % 5 {
        0 => {
            let mut writer = SlotWriter::new(SLOT as u16);
            writer.slot(Some(&[0x03, 0xff, 0xff, 0x7e, 0x00, 0xf8, 0x1f]), slot);
        }
        1 => pattern_slot(Seen::Odp, SLOT as u16, slot),
        2 => pattern_slot(Seen::Adp, SLOT as u16, slot),
        3 => mark_slot(139, slot),
        _ => slot_by_chance(word, slot),
    }
}

// Some 8,000 bits. A bit between slots moves the fours on, so that flags and patterns end at each place of one.
#[test]
fn fours_are_four_bits(rt: HostRuntime) {
    let mut beside = Beside::new();
    let mut slot = BitSlot::new();
    let mut word = 1;
    for turn in 0..20u32 {
        fill(turn, &mut word, &mut slot);
        assert!(&rt; beside.slot_agrees(&slot) && beside.bit_agrees(turn % 2 == 0));
    }
}
