// What the decoder does with each sample.
ghost use Rattle.std.specs.Prelude.{◌≡◌, ℕ, ◌%◌, ◌<◌, ◌≤◌, ◌^◌, length, slice_index, true, MatchOption};
ghost use Rattle.exact_decoder.specs.Traced.{choices_of, Differ, Agree, AreBefore};
ghost use Rattle.exact_decoder.specs.Advances.{Advances};

use crate::choice::{least_of, settle};
use crate::column::Column;
use crate::entering::enter;
use crate::nearest::find_nearest;
use symbol_map::Sample;
use trellis_tables::TrellisCode;

/// A code, and how its survivors go on. An empty block takes the plain form, which serves each code: one whose states fill a vector may
/// have a faster one.
pub trait ViterbiStep<const STATES: usize, const LABELS: usize>: TrellisCode<STATES, LABELS> {
    /// One sample more: the sums of all states, each with its state, and the column of choices by which survivors go on.
    fn advance(&self, sample: Sample, sums: &mut [u64], column: &mut Column<STATES>)
        requires sums { length sums.old ≡ STATES }
        requires states { (s : ℕ) → s < STATES → slice_index sums.old s % 65536 ≡ s }
        requires small { (s : ℕ) → s < STATES → slice_index sums.old s < 2 ^ 62 }
        ensures { Advances Self.points STATES Self.PARALLEL Self.SUBSETS Self.WAYS Self.way_before Self.way_subset sample sums.old sums.new (choices_of column.new) }
    {
        advance_plainly::<STATES, LABELS, Self>(self, sample, sums, column);
    }

    /// Goes back by a column: each state of a list becomes the one before it. The label that all have there, if it is the same.
    fn go_back(&self, column: &Column<STATES>, live: &mut [u8; STATES]) -> Option<u8>
        requires { (s : ℕ) → s < STATES → slice_index live.old s < STATES }
        ensures before { AreBefore STATES live.old (choices_of column.now) live.new }
        ensures label { MatchOption result (Differ STATES live.old (choices_of column.now)) (Agree STATES live.old (choices_of column.now)) }
    {
        go_back_plainly::<STATES>(column, live)
    }

    /// Whether all states of a list are one.
    fn have_met(&self, live: &[u8; STATES]) -> bool
        ensures { result ≡ true → (s : ℕ) → s < STATES → slice_index live.now s ≡ slice_index live.now 0 }
    {
        have_met_plainly::<STATES>(live)
    }
}

/// The step of any code: by the distances of all labels, and by each way into each state.
pub fn advance_plainly<const STATES: usize, const LABELS: usize, C: TrellisCode<STATES, LABELS>>(
    code: &C,
    sample: Sample,
    sums: &mut [u64],
    column: &mut Column<STATES>,
)
    requires sums { length sums.old ≡ STATES }
    requires small { (s : ℕ) → s < STATES → slice_index sums.old s < 2 ^ 62 }
    ensures { Advances C.points STATES C.PARALLEL C.SUBSETS C.WAYS C.way_before C.way_subset sample sums.old sums.new (choices_of column.new) }
{
    let mut nearest = [0; LABELS];
    find_nearest(code, sample, &mut nearest);
    let mut entered = [0; STATES];
    enter(code, sums, &nearest, &mut entered);
    let least = least_of::<STATES>(&entered);
    settle::<STATES>(&entered, least, sums, column);
}

/// The way back by a column for any code.
pub fn go_back_plainly<const STATES: usize>(
    column: &Column<STATES>,
    live: &mut [u8; STATES],
) -> Option<u8>
    requires some { 1 ≤ STATES }
    requires within { (s : ℕ) → s < STATES → slice_index live.old s < STATES }
    ensures before { AreBefore STATES live.old (choices_of column.now) live.new }
    ensures label { MatchOption result (Differ STATES live.old (choices_of column.now)) (Agree STATES live.old (choices_of column.now)) }
{
    let first = column.choice(live[0]).label;
    let mut same = true;
    for place in 0..STATES {
        let choice = column.choice(live[place]);
        same = same & (choice.label == first);
        live[place] = choice.before;
    }
    if same { Some(first) } else { None }
}

/// Whether all states of a list are one, for any code.
fn have_met_plainly<const STATES: usize>(live: &[u8; STATES]) -> bool
    ensures { result ≡ true → (s : ℕ) → s < STATES → slice_index live.now s ≡ slice_index live.now 0 }
{
    for place in 0..STATES {
        if live[place] != live[0] {
            return false;
        }
    }
    true
}
