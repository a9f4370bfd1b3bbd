// The decoder: samples in, labels out.
ghost use Rattle.std.specs.Prelude.{◌≡◌, ℕ, IfOk, IfSome, ◌↔◌, nat_eq, nat_lt, option_to_list, Bool, List, All, ◌+◌, ◌<◌, ◌≤◌, ◌^◌, length, drop, Some, None, [], ◌∷◌, ◌++◌, MatchResult, MatchOption};
ghost use Rattle.symbol_map.specs.declared.sample.Sample.{Sample};
ghost use Rattle.exact_decoder.specs.Surviving.Trellises.{trellis_of};
ghost use Rattle.exact_decoder.specs.Surviving.Survivors.{IsFirstLeast};
ghost use Rattle.exact_decoder.specs.Decoder.{DecoderStands, two_in};
ghost use Rattle.exact_decoder.specs.Batches.{heard_of};

use crate::kept::Survivors;
use crate::labels::Labels;
use crate::step::ViterbiStep;
use crate::tail::Tail;
use shared_terms::NoMemory;
use std::alloc::Global;
use std::marker::Model;
use symbol_map::Sample;

/// The line was lost with this symbol: more labels than the depth were unreleased after it.
#[derive(Clone, Copy, PartialEq, Eq)]
pub struct Lost {
    /// The symbol's number, from 0.
    pub symbol: u64,
}

/// The exact decoder of a code's sequences from one state, or from any. At most `DEPTH` labels of each survivor are unreleased
/// while the line is not lost.
pub struct Decoder<
    C: ViterbiStep<STATES, LABELS> + Drop,
    const STATES: usize,
    const LABELS: usize,
    const DEPTH: usize,
> {
    code: C,
    survivors: Survivors<STATES, LABELS, DEPTH>,
    count: u64,
    // The oldest is the last.
    pending: Labels,
    lost: Option<u64>,
}

impl<
    C: ViterbiStep<STATES, LABELS> + Drop,
    const STATES: usize,
    const LABELS: usize,
    const DEPTH: usize,
> Drop for Decoder<C, STATES, LABELS, DEPTH> {
    // for the prover: so it is dropped by a call, and its fields are not dropped anew wherever one is.
    fn drop(self) {
        let Decoder {
            code: _,
            survivors: _,
            count: _,
            pending: _,
            lost: _,
        } = self;
    }
}

impl<
    C: ViterbiStep<STATES, LABELS> + Drop,
    const STATES: usize,
    const LABELS: usize,
    const DEPTH: usize,
> Model for Decoder<C, STATES, LABELS, DEPTH> {
    ghost use Rattle.exact_decoder.specs.Decoder.{Decoding, IsSound, decoding_of};

    ghost Value = { Decoding };

    ghost view = { λ d. decoding_of d.survivors d.count d.pending d.lost };

    ghost invariant = { λ d. IsSound C.table STATES LABELS C.REACH DEPTH (decoding_of d.survivors d.count d.pending d.lost) };
}

impl<
    C: ViterbiStep<STATES, LABELS> + Drop,
    const STATES: usize,
    const LABELS: usize,
    const DEPTH: usize,
> Decoder<C, STATES, LABELS, DEPTH> {
    /// A decoder before its first sample, whose sequences start in this state. All its memory is taken here.
    pub fn new(
        alloc: Global,
        code: C,
        start: u8,
    ) -> Result<Decoder<C, STATES, LABELS, DEPTH>, NoMemory>
        requires start { start < STATES }
        requires low { 1 ≤ DEPTH }
        requires high { DEPTH ≤ 128 }
        ensures stands { IfOk result (λ d. DecoderStands C.table C.points (λ state. nat_eq state start) DEPTH d [] []) }
        ensures count { IfOk result (λ d. d.count ≡ 0) }
        ensures pending { IfOk result (λ d. d.pending ≡ []) }
        ensures lost { IfOk result (λ d. d.lost ≡ None) }
    {
        Ok(Decoder {
            code,
            survivors: Survivors::new(alloc, start)?,
            count: 0,
            pending: Labels::new(),
            lost: None,
        })
    }

    /// A decoder before its first sample, whose sequences start in any state. All its memory is taken here.
    pub fn new_any(alloc: Global, code: C) -> Result<Decoder<C, STATES, LABELS, DEPTH>, NoMemory>
        requires low { 1 ≤ DEPTH }
        requires high { DEPTH ≤ 128 }
        ensures stands { IfOk result (λ d. DecoderStands C.table C.points (λ state. nat_lt state STATES) DEPTH d [] []) }
        ensures count { IfOk result (λ d. d.count ≡ 0) }
        ensures pending { IfOk result (λ d. d.pending ≡ []) }
        ensures lost { IfOk result (λ d. d.lost ≡ None) }
    {
        Ok(Decoder {
            code,
            survivors: Survivors::new_any(alloc)?,
            count: 0,
            pending: Labels::new(),
            lost: None,
        })
    }

    /// As many of the samples as there is room for, at least one where there is one: how many. What they release is the same as if they
    /// came one by one. `Lost` comes with the first sample after which more than `DEPTH` labels are unreleased, of which no call hears one
    /// more, and again with each later call.
    pub fn push_some(&mut self, samples: &[Sample]) -> Result<usize, Lost>
        requires taken { self.old.pending ≡ [] }
        requires count { self.old.count + length samples.now ≤ 2 ^ 56 }
        ensures stands { (starts : ℕ → Bool) (past : List Sample) (taken : List ℕ) → DecoderStands C.table C.points starts DEPTH self.old past taken
            → DecoderStands C.table C.points starts DEPTH self.new (past ++ heard_of result samples.now) taken }
        ensures answer { MatchResult result (λ _. self.new.lost ≡ None) (λ lost. self.new.lost ≡ Some lost.symbol) }
        ensures within { IfOk result (λ heard. heard ≤ length samples.now) }
        ensures some { IfOk result (λ heard. 1 ≤ length samples.now → 1 ≤ heard) }
        ensures stays { (symbol : ℕ) → self.old.lost ≡ Some symbol → self.new ≡ self.old }
        ensures count { MatchResult result (λ heard. self.new.count ≤ self.old.count + heard) (λ _. self.new.count ≤ self.old.count + length samples.now) }
    {
        if let Some(symbol) = self.lost {
            return Err(Lost { symbol });
        }
        let heard = samples.len().min(DEPTH + 1 - self.survivors.unreleased());
        if heard == 0 {
            return Ok(0);
        }
        self.survivors.push_each(&self.code, &samples[..heard]);
        self.survivors.release(&self.code, &mut self.pending);
        self.count += heard as u64;
        if self.survivors.unreleased() > DEPTH {
            let symbol = self.count - 1;
            self.lost = Some(symbol);
            return Err(Lost { symbol });
        }
        Ok(heard)
    }

    /// One sample more. `Lost` comes with the first sample after which more than `DEPTH` labels are unreleased,
    /// and again with each later one.
    pub fn push(&mut self, sample: Sample) -> Result<(), Lost>
        requires taken { self.old.pending ≡ [] }
        requires count { self.old.count < 2 ^ 56 }
        ensures stands { (starts : ℕ → Bool) (samples : List Sample) (taken : List ℕ) → DecoderStands C.table C.points starts DEPTH self.old samples taken
            → DecoderStands C.table C.points starts DEPTH self.new (samples ++ sample ∷ []) taken }
        ensures answer { MatchResult result (λ _. self.new.lost ≡ None) (λ lost. self.new.lost ≡ Some lost.symbol) }
        ensures stays { (symbol : ℕ) → self.old.lost ≡ Some symbol → self.new ≡ self.old }
        ensures count { self.new.count ≤ self.old.count + 1 }
    {
        match self.push_some(&[sample]) {
            Ok(_) => Ok(()),
            Err(lost) => Err(lost),
        }
    }

    /// The oldest label that is released and not yet taken.
    pub fn take(&mut self) -> Option<u8>
        ensures stands { (starts : ℕ → Bool) (samples : List Sample) (taken : List ℕ) → DecoderStands C.table C.points starts DEPTH self.old samples taken
            → DecoderStands C.table C.points starts DEPTH self.new samples (taken ++ option_to_list result) }
        ensures first { MatchOption result (self.old.pending ≡ []) (λ label. self.old.pending ≡ label ∷ self.new.pending) }
        ensures rest { self.new ≡ record self.old { pending = drop 1 self.old.pending } }
        ensures bound { IfSome result (λ label. label < LABELS) }
    {
        self.pending.pop()
    }

    /// The two oldest labels that are released and not yet taken, where there are two: the older one first.
    pub fn take_two(&mut self) -> Option<(u8, u8)>
        ensures stands { (starts : ℕ → Bool) (samples : List Sample) (taken : List ℕ) → DecoderStands C.table C.points starts DEPTH self.old samples taken
            → DecoderStands C.table C.points starts DEPTH self.new samples (taken ++ two_in result) }
        ensures first { MatchOption result ((length self.old.pending < 2) × (self.new ≡ self.old)) (λ two. self.old.pending ≡ two.0 ∷ two.1 ∷ self.new.pending) }
        ensures rest { self.new ≡ record self.old { pending = self.new.pending } }
        ensures bound { IfSome result (λ two. (two.0 < LABELS) × (two.1 < LABELS)) }
    {
        self.pending.pop_two()
    }

    /// How many labels are released and not taken.
    pub fn pending(&self) -> usize
        ensures value { result ≡ length self.now.pending }
        ensures few { result ≤ DEPTH + 1 }
    {
        self.pending.as_slice().len()
    }

    /// Where the line was lost.
    pub fn lost(&self) -> Option<Lost>
        ensures { MatchOption result (self.now.lost ≡ None) (λ lost. self.now.lost ≡ Some lost.symbol) }
    {
        match self.lost {
            Some(symbol) => Some(Lost { symbol }),
            None => None,
        }
    }

    /// The labels behind the released ones in the least whole sequence: of survivors of one cost that of the
    /// smallest end state.
    pub fn finish(self) -> Tail
        requires taken { self.pending ≡ [] }
        requires lost { self.lost ≡ None }
        ensures least { (starts : ℕ → Bool) (samples : List Sample) (taken : List ℕ) → DecoderStands C.table C.points starts DEPTH self samples taken
            → IsFirstLeast (trellis_of C.table C.points starts) samples (taken ++ result) }
        ensures bound { All (λ label. label < LABELS) result }
    {
        Tail::of(self.survivors.least())
    }
}
