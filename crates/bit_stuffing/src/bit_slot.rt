// The bits of a slot, four at a time.
ghost use Rattle.std.specs.Prelude.{◌≡◌, ◌≤◌, ◌<◌, ◌==◌, [], ◌∷◌, ◌++◌, length, slice_index};

use arrayvec::ArrayVec;
use frame_check::SLOT;
use std::marker::Model;

/// At most `SLOT` quads. A quad is the number Q1 + 2·Q2 + 4·Q3 + 8·Q4 of four bits Q1, Q2, Q3 and Q4,
/// in order of time.
#[derive(Drop)]
pub struct BitSlot {
    /// In the order in which they are sent, each below 16.
    quads: ArrayVec<u8, SLOT>,
}

impl Model for BitSlot {
    ghost use Rattle.std.specs.Prelude.{List, ℕ, All, length, ◌≤◌, ◌<◌};
    ghost use Rattle.frame_check.specs.declared.sizes.TheConstants.{SLOT};

    ghost Value = { List ℕ };

    ghost view = { λ s. s.quads.items };

    ghost invariant = { λ s. (length s.quads.items ≤ SLOT) × All (λ quad. quad < 16) s.quads.items };
}

impl BitSlot {
    /// A slot without quads.
    pub fn new() -> BitSlot
        ensures { result ≡ [] }
    {
        BitSlot {
            quads: ArrayVec::new(),
        }
    }

    /// How many quads the slot has.
    pub fn len(&self) -> usize
        ensures count { result ≡ length self.now }
        ensures bound { length self.now ≤ SLOT }
    {
        self.quads.len()
    }

    /// Whether the slot has no quad.
    pub fn is_empty(&self) -> bool
        ensures { result ≡ (length self.now == 0) }
    {
        self.quads.is_empty()
    }

    /// The quad at a place.
    pub fn quad(&self, i: usize) -> u8
        requires { i < length self.now }
        ensures value { result ≡ slice_index self.now i }
        ensures bound { result < 16 }
    {
        self.quads[i]
    }

    /// Takes all quads out.
    pub fn clear(&mut self)
        ensures { self.new ≡ [] }
    {
        self.quads.clear();
    }

    /// Puts a quad behind the others.
    pub fn push(&mut self, quad: u8)
        requires room { length self.old < SLOT }
        requires small { quad < 16 }
        ensures { self.new ≡ self.old ++ quad ∷ [] }
    {
        self.quads.push(quad);
    }
}
