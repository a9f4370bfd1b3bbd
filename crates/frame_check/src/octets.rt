// Lists of octets of bounded length, which take no memory.
ghost use Rattle.std.specs.Prelude.{◌≡◌, ◌≤◌, ◌<◌, ◌+◌, ◌==◌, [], ◌∷◌, ◌++◌, length, nat_eq};
ghost use Rattle.std.specs.Cmp.{partial_equiv_from_equiv};
ghost use Rattle.frame_check.specs.Octets.{AreOctets};
ghost use Rattle.std.specs.Cmp.Lexicographic.{pointwise, nat_list_eq_equiv};

use crate::{INFO, WHOLE};
use arrayvec::ArrayVec;
use std::marker::Model;

/// At most `CAP` octets, which lie in the value itself.
#[derive(Drop)]
pub struct Octets<const CAP: usize> {
    /// In order, each below 256.
    items: ArrayVec<u8, CAP>,
}

/// The information of a frame.
pub type Info = Octets<INFO>;

/// A frame with its check.
pub type Whole = Octets<WHOLE>;

impl<const CAP: usize> Model for Octets<CAP> {
    ghost use Rattle.std.specs.Prelude.{List, ℕ, length, ◌≤◌};
    ghost use Rattle.frame_check.specs.Octets.{AreOctets};

    ghost Value = { List ℕ };

    ghost view = { λ o. o.items.items };

    ghost invariant = { λ o. (length o.items.items ≤ CAP) × AreOctets o.items.items };
}

impl<const CAP: usize> Octets<CAP> {
    /// An empty list.
    pub fn new() -> Octets<CAP>
        ensures { result ≡ [] }
    {
        Octets {
            items: ArrayVec::new(),
        }
    }

    /// A second list of the same octets. Unlike a `clone` it can't fail.
    pub fn copy(&self) -> Octets<CAP>
        ensures { result ≡ self.now }
    {
        let mut copy = Octets::new();
        copy.extend(self.as_slice());
        copy
    }

    /// The octets in order.
    pub fn as_slice(&self) -> &[u8]
        ensures items { result.now ≡ self.now }
        ensures bound { length self.now ≤ CAP }
        ensures octets { AreOctets self.now }
    {
        self.items.as_slice()
    }

    /// How many octets the list has.
    pub fn len(&self) -> usize
        ensures count { result ≡ length self.now }
        ensures bound { length self.now ≤ CAP }
    {
        self.items.len()
    }

    /// Whether the list has no octet.
    pub fn is_empty(&self) -> bool
        ensures { result ≡ (length self.now == 0) }
    {
        self.items.is_empty()
    }

    /// Takes all octets out.
    pub fn clear(&mut self)
        ensures { self.new ≡ [] }
    {
        self.items.clear();
    }

    /// Puts an octet behind the others.
    pub fn push(&mut self, octet: u8)
        requires { length self.old < CAP }
        ensures { self.new ≡ self.old ++ octet ∷ [] }
    {
        self.items.push(octet);
    }

    /// Puts all of these octets behind the others, in their order.
    #[inline]
    pub fn extend(&mut self, octets: &[u8])
        requires { length self.old + length octets.now ≤ CAP }
        ensures { self.new ≡ self.old ++ octets.now }
    {
        self.items.try_extend_from_slice(octets).unwrap();
    }
}

impl<const CAP: usize> PartialEq for Octets<CAP> {
    ghost eq = { λ o p. pointwise nat_eq o p };

    ghost laws = { partial_equiv_from_equiv nat_list_eq_equiv };

    fn eq(&self, other: &Self) -> bool {
        self.as_slice() == other.as_slice()
    }
}

impl<const CAP: usize> Eq for Octets<CAP> {
    ghost laws = { nat_list_eq_equiv };
}
