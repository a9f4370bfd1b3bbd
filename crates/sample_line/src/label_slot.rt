// The labels of a slot, five bits each: a line of long delay holds more than a hundred slots.
ghost use Rattle.std.specs.Prelude.{◌≡◌, ◌<◌, ◌≤◌, ◌+◌, ◌*◌, ◌%◌, ◌^◌, ℕ, [], ◌∷◌, ◌++◌, length, slice_index};
ghost use Rattle.sample_line.specs.declared.transmitter.TheConstants.{BATCH};

use crate::transmitter::BATCH;
use frame_check::SLOT;
use std::marker::Model;

/// How many octets hold the low four bits of `SLOT` labels.
const QUADS: usize = SLOT / 2 + 1;

/// How many octets hold the high bit of `SLOT` labels.
const HIGHS: usize = SLOT / 8 + 1;

/// At most `SLOT` labels of the 32-point map, by which a slot is modulated.
#[derive(Drop)]
pub struct LabelSlot {
    /// The low four bits of each label, two labels an octet, the earlier one in its low end.
    quads: [u8; QUADS],
    /// The high bit of each label, eight labels an octet, the earliest one in its low end.
    highs: [u8; HIGHS],
    /// How many labels there are. What stands behind them in the octets isn't read.
    count: usize,
}

impl Model for LabelSlot {
    ghost use Rattle.std.specs.Prelude.{List, ℕ, ◌≤◌};
    ghost use Rattle.frame_check.specs.declared.sizes.TheConstants.{SLOT};
    ghost use Rattle.sample_line.specs.Packed.{labels_in};

    ghost Value = { List ℕ };

    ghost view = { λ s. labels_in s.count s.quads s.highs };

    ghost invariant = { λ s. s.count ≤ SLOT };
}

/// Octets of any value, generic so that no proof writes them out one by one.
fn unread<const COUNT: usize>() -> [u8; COUNT] {
    [0; COUNT]
}

/// An octet with these bits from a place on, and its own below that place.
fn with_bits(octet: u8, place: usize, bits: u8) -> u8
    requires place { place < 8 }
    requires fit { bits * 2 ^ place + 2 ^ place ≤ 256 }
    ensures { result ≡ bits * 2 ^ place + octet % 2 ^ place }
{
    (bits << place) + octet % (1 << place)
}

impl LabelSlot {
    /// A slot without labels.
    pub fn new() -> LabelSlot
        ensures { result ≡ [] }
    {
        LabelSlot {
            quads: unread(),
            highs: unread(),
            count: 0,
        }
    }

    /// How many labels the slot has.
    pub fn len(&self) -> usize
        ensures count { result ≡ length self.now }
        ensures bound { length self.now ≤ SLOT }
    {
        self.count
    }

    /// The label at a place.
    pub fn label(&self, i: usize) -> u8
        requires { i < length self.now }
        ensures value { result ≡ slice_index self.now i }
        ensures bound { result < 32 }
    {
        let quad = (self.quads[i / 2] >> (4 * (i % 2))) % 16;
        let high = (self.highs[i / 8] >> (i % 8)) % 2;
        quad + 16 * high
    }

    /// Puts eight labels from a multiple of eight on to a place on. Those behind the slot's last one are any.
    fn put_eight(&self, group: usize, place: usize, out: &mut [u8; BATCH])
        requires within { 8 * group < length self.now }
        requires room { place + 8 ≤ BATCH }
        ensures value { (k : ℕ) → k < 8 → 8 * group + k < length self.now → slice_index out.new (place + k) ≡ slice_index self.now (8 * group + k) }
        ensures bound { (k : ℕ) → k < 8 → slice_index out.new (place + k) < 32 }
        ensures before { (j : ℕ) → j < place → slice_index out.new j ≡ slice_index out.old j }
    {
        let highs = self.highs[group];
        for k in 0..8usize {
            let quads = self.quads[4 * group + k / 2];
            out[place + k] = (quads >> (4 * (k % 2))) % 16 + 16 * ((highs >> k) % 2);
        }
    }

    /// Puts so many labels from a multiple of eight on, eight from five octets at a time.
    pub(crate) fn unpack(&self, at: usize, count: usize, out: &mut [u8; BATCH])
        requires multiple { at % 8 ≡ 0 }
        requires within { at + count ≤ length self.now }
        requires few { count ≤ BATCH }
        ensures value { (k : ℕ) → k < count → slice_index out.new k ≡ slice_index self.now (at + k) }
        ensures bound { (k : ℕ) → k < count → slice_index out.new k < 32 }
    {
        for eight in 0..(count + 7) / 8 {
            self.put_eight(at / 8 + eight, 8 * eight, out);
        }
    }

    /// Takes all labels out.
    pub fn clear(&mut self)
        ensures { self.new ≡ [] }
    {
        self.count = 0;
    }

    /// Puts a label behind the others.
    pub fn push(&mut self, label: u8)
        requires room { length self.old < SLOT }
        requires small { label < 32 }
        ensures { self.new ≡ self.old ++ label ∷ [] }
    {
        let i = self.count;
        self.quads[i / 2] = with_bits(self.quads[i / 2], 4 * (i % 2), label % 16);
        self.highs[i / 8] = with_bits(self.highs[i / 8], i % 8, label / 16);
        self.count = i + 1;
    }
    /// Puts two labels behind an even number of others.
    pub(crate) fn push_two(&mut self, first: u8, second: u8)
        requires even { length self.old % 2 ≡ 0 }
        requires room { length self.old + 2 ≤ SLOT }
        requires first { first < 32 }
        requires second { second < 32 }
        ensures { self.new ≡ self.old ++ first ∷ second ∷ [] }
    {
        let i = self.count;
        self.quads[i / 2] = first % 16 + 16 * (second % 16);
        self.highs[i / 8] = with_bits(self.highs[i / 8], i % 8, first / 16 + 2 * (second / 16));
        self.count = i + 2;
    }
}
