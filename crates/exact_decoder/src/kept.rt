// What is kept of the survivors.
ghost use Rattle.std.specs.Prelude.{◌≡◌, ℕ, All, IfOk, replicate, set, map, reverse, ◌+◌, ◌<◌, ◌≤◌, ◌^◌, length, Some, None, []};
ghost use Rattle.exact_decoder.specs.Columns.{sum_in, sums_at, tail_at};
ghost use Rattle.exact_decoder.specs.Kept.{Kept, AreSums, IsLeastSum, Stepped, Released, Covered};
ghost use Rattle.exact_decoder.specs.Batches.{IsSmallAfter, SteppedEach};
ghost use Rattle.exact_decoder.specs.declared.labels.TheConstants.{ROOM};

use crate::back::{labels_back, release};
use crate::choice::least_of;
use crate::columns::Columns;
use crate::labels::Labels;
use crate::room::{far_sums, no_sums};
use crate::step::ViterbiStep;
use std::alloc::{AllocError, Global};
use std::marker::Model;
use symbol_map::Sample;

/// The survivor of each state: the sum of its squared distances, less a number that all have in common, and the way back
/// through columns of choices, the newest first. As many columns as labels are unreleased count.
#[derive(Drop)]
pub struct Survivors<const STATES: usize, const LABELS: usize, const DEPTH: usize> {
    /// By state, less a number that is common to all. A state that no sequence has reached is far above all others.
    sums: Vec<u64>,
    /// The latest columns of choices, one for each sample.
    ring: Columns<STATES>,
    /// How many labels of each survivor are not released.
    unreleased: usize,
}

impl<const STATES: usize, const LABELS: usize, const DEPTH: usize> Model
    for Survivors<STATES, LABELS, DEPTH> {
    ghost use Rattle.std.specs.Prelude.{◌≡◌, ◌≤◌, ◌+◌, length};
    ghost use Rattle.exact_decoder.specs.Kept.{Kept, kept_of, HoldsColumns};

    ghost Value = { Kept };

    ghost view = { λ s. kept_of STATES s.sums.items s.ring s.unreleased };

    ghost invariant = { λ s. HoldsColumns STATES LABELS DEPTH s.sums.items s.ring s.unreleased };
}

impl<const STATES: usize, const LABELS: usize, const DEPTH: usize> Survivors<
    STATES,
    LABELS,
    DEPTH,
> {
    /// Before the first sample: the empty sequence in its start. All memory is taken here.
    pub fn new(alloc: Global, start: u8) -> Result<Survivors<STATES, LABELS, DEPTH>, AllocError>
        requires start { start < STATES }
        requires few { STATES ≤ 256 }
        requires labels { 1 ≤ LABELS }
        requires depth { DEPTH ≤ 128 }
        ensures { IfOk result (λ s. s ≡ record { sums = set (replicate STATES None) start (Some 0); tails = replicate STATES []; unreleased = 0 }) }
    {
        let mut sums = far_sums(alloc, STATES)?;
        sums[start as usize] = u64::from(start);
        Survivors::with_sums(alloc, sums)
    }

    /// Before the first sample: an empty sequence in each state. All memory is taken here.
    pub fn new_any(alloc: Global) -> Result<Survivors<STATES, LABELS, DEPTH>, AllocError>
        requires some { 1 ≤ STATES }
        requires few { STATES ≤ 256 }
        requires labels { 1 ≤ LABELS }
        requires depth { DEPTH ≤ 128 }
        ensures { IfOk result (λ s. s ≡ record { sums = replicate STATES (Some 0); tails = replicate STATES []; unreleased = 0 }) }
    {
        let sums = no_sums(alloc, STATES)?;
        Survivors::with_sums(alloc, sums)
    }

    /// Before the first sample, with these sums. All memory but theirs is taken here.
    fn with_sums(
        alloc: Global,
        sums: Vec<u64>,
    ) -> Result<Survivors<STATES, LABELS, DEPTH>, AllocError>
        requires sums { AreSums STATES sums.items }
        requires labels { 1 ≤ LABELS }
        requires depth { DEPTH ≤ 128 }
        ensures { IfOk result (λ s. s ≡ record { sums = map sum_in sums.items; tails = replicate STATES []; unreleased = 0 }) }
    {
        let ring = Columns::new(alloc, DEPTH + 1)?;
        Ok(Survivors {
            sums,
            ring,
            unreleased: 0,
        })
    }

    /// How many labels of each survivor are not released.
    pub fn unreleased(&self) -> usize
        ensures { result ≡ self.now.unreleased }
    {
        self.unreleased
    }

    /// One sample more.
    pub fn push<C: ViterbiStep<STATES, LABELS>>(&mut self, code: &C, sample: Sample)
        requires depth { DEPTH ≤ 128 }
        requires room { self.old.unreleased ≤ DEPTH }
        requires small { (s m : ℕ) → sums_at self.old.sums s ≡ Some m → m < 2 ^ 44 }
        ensures stepped { Stepped C.table C.points sample self.old self.new }
        ensures covered { Covered STATES self.new }
    {
        self.ring.advance(code, sample, &mut self.sums);
        self.unreleased += 1;
    }

    /// Several samples more.
    pub fn push_each<C: ViterbiStep<STATES, LABELS>>(&mut self, code: &C, samples: &[Sample])
        requires depth { DEPTH ≤ 128 }
        requires room { self.old.unreleased + length samples.now ≤ DEPTH + 1 }
        requires small { (count : ℕ) × IsSmallAfter C.table STATES C.REACH count self.old }
        ensures stepped { SteppedEach C.table C.points STATES C.REACH samples.now self.old self.new }
        ensures covered { 1 ≤ length samples.now → Covered STATES self.new }
    {
        for sample in samples {
            self.push(code, *sample);
        }
    }

    /// Releases the labels on which all survivors agree: they are put into the list, the oldest last.
    pub fn release<C: ViterbiStep<STATES, LABELS>>(&mut self, code: &C, labels: &mut Labels)
        requires depth { DEPTH ≤ 128 }
        requires empty { labels.old ≡ [] }
        requires covered { Covered STATES self.old }
        ensures released { Released self.old self.new (reverse labels.new) }
        ensures below { All (λ label. label < LABELS) labels.new }
    {
        self.unreleased = release(code, &self.ring, self.unreleased, labels);
    }

    /// The unreleased labels of the survivor of least cost, the oldest last: of equal ones that of the smallest state.
    pub fn least(&self) -> Labels
        requires some { 1 ≤ STATES }
        requires few { STATES ≤ 256 }
        requires depth { DEPTH ≤ 128 }
        ensures least { (state : ℕ) × IsLeastSum self.now.sums state × (reverse result ≡ tail_at self.now.tails state) }
        ensures long { length result ≡ self.now.unreleased }
        ensures below { All (λ label. label < LABELS) result }
    {
        let from = (least_of::<STATES>(&self.sums) % 256) as u8;
        labels_back::<STATES, LABELS>(&self.ring, self.unreleased, from)
    }
}
