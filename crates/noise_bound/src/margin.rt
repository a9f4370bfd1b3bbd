// How much noise there is between octets and the samples of a recording.
ghost use Rattle.std.specs.Prelude.{◌≡◌, ◌+◌, ◌<◌, ◌^◌, ℕ, List, [], ◌∷◌, ◌++◌, nat_lt};
ghost use Rattle.scramblers.specs.declared.mode.Mode.{Mode};
ghost use Rattle.symbol_map.specs.declared.sample.Sample.{Sample};
ghost use Rattle.noise_bound.specs.Near.{sure};
ghost use Rattle.noise_bound.specs.Margins.{MarginStands, IsCostOf};

use line_coding::Modulator;
use scramblers::Mode;
use std::marker::Model;
use symbol_map::{Sample, distance};

/// Below this cost what was sent is certain: 2.5 squares of a unit of the map, of 2048 units each.
const SURE: u64 = 10_485_760;

/// What octets cost against the samples of a recording: the sum of the squared distances of the samples that they become.
#[derive(Drop)]
pub struct Margin {
    /// Stands where the octets so far have led to.
    modulator: Modulator,
    /// In squares of 1/2048 of a unit of the map.
    cost: u64,
    /// How many were held against samples.
    octets: u32,
}

impl Model for Margin {
    ghost use Rattle.std.specs.Prelude.{ℕ, ◌≤◌, ◌*◌, ◌^◌};
    ghost use Rattle.noise_bound.specs.Margins.{Measured};

    ghost Value = { Measured };

    ghost view = { λ m. record { modulator = m.modulator; cost = m.cost; count = m.octets } };

    ghost invariant = { λ m. (m.octets ≤ 2 ^ 24) × (m.cost ≤ m.octets * 2 ^ 34) };
}

impl Margin {
    /// A margin before the first octet.
    pub fn new(mode: Mode) -> Margin
        ensures stands { MarginStands mode result [] [] }
        ensures count { result.count ≡ 0 }
    {
        Margin {
            modulator: Modulator::new(mode),
            cost: 0,
            octets: 0,
        }
    }

    /// One octet more, and the two samples that were heard of it: that of its low four bits first.
    pub fn push(&mut self, octet: u8, first: Sample, second: Sample)
        requires { self.old.count < 2 ^ 24 }
        ensures stands { (mode : Mode) (octets : List ℕ) (samples : List Sample) → MarginStands mode self.old octets samples
            → MarginStands mode self.new (octets ++ octet ∷ []) ((samples ++ first ∷ []) ++ second ∷ []) }
        ensures count { self.new.count ≡ self.old.count + 1 }
    {
        let low = self.modulator.push(octet % 16);
        let high = self.modulator.push(octet / 16);
        self.cost += distance(low, first) + distance(high, second);
        self.octets += 1;
    }

    /// What the octets cost.
    pub fn cost(&self) -> u64
        ensures cost { (mode : Mode) (octets : List ℕ) (samples : List Sample) → MarginStands mode self.now octets samples
            → IsCostOf mode octets samples result }
        ensures kept { result ≡ self.now.cost }
    {
        self.cost
    }

    /// Whether they cost so little that what is decoded of the samples was sent.
    pub fn sure(&self) -> bool
        ensures { result ≡ nat_lt self.now.cost sure }
    {
        self.cost < SURE
    }
}
