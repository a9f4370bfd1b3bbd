// The latest columns of choices.
ghost use Rattle.std.specs.Prelude.{◌≡◌, ℕ, ◌+◌, ◌-◌, ◌*◌, ◌%◌, ◌^◌, ◌<◌, ◌≤◌, List, [], ◌∷◌, ◌++◌, length, take, slice_index, IfOk};
ghost use Rattle.exact_decoder.specs.declared.choice.Choice.{Choice};
ghost use Rattle.exact_decoder.specs.Advances.{Advances};
ghost use Rattle.exact_decoder.specs.Traced.{choices_of, from_newest, IsColumn, AreColumns};

use crate::column::Column;
use crate::step::ViterbiStep;
use std::alloc::{AllocError, Global};
use std::marker::Model;
use symbol_map::Sample;

/// How many times as many columns there is room for.
const ROOMS: usize = 4;

/// Columns of choices, the newest first, always as many: with a new one the oldest goes.
#[derive(Drop)]
pub struct Columns<const STATES: usize> {
    /// There is room before the newest, so that columns, which lie side by side, are seldom moved.
    items: Vec<Column<STATES>>,
    /// The place of the newest. The others follow it.
    newest: usize,
    /// How many there are.
    count: usize,
}

impl<const STATES: usize> Model for Columns<STATES> {
    ghost use Rattle.std.specs.Prelude.{List, ◌<◌, ◌≤◌, ◌+◌, ◌*◌, length};
    ghost use Rattle.exact_decoder.specs.declared.choice.Choice.{Choice};
    ghost use Rattle.exact_decoder.specs.Traced.{columns_in, from_newest};

    ghost Value = { List (List Choice) };

    ghost view = { λ c. columns_in (from_newest c.newest c.count c.items.items) };

    ghost invariant = { λ c. (1 ≤ c.count) × (c.newest + c.count ≤ length c.items.items) × (2 * c.count ≤ length c.items.items)
        × (length c.items.items ≤ 1024) };
}

/// Moves the columns, which are the first, to the end. The place of the newest.
#[cold]
#[inline(never)]
fn move_to_end<const STATES: usize>(items: &mut Vec<Column<STATES>>, count: usize) -> usize
    requires some { 1 ≤ count }
    requires twice { 2 * count ≤ length items.old.items }
    ensures same { from_newest result count items.new.items ≡ from_newest 0 count items.old.items }
    ensures room { 1 ≤ result }
    ensures within { result + count ≤ length items.new.items }
    ensures long { length items.new.items ≡ length items.old.items }
{
    let last = items.len() - count;
    items.copy_within(0..count, last);
    last
}

/// Sees that there is room before the newest. Its place.
fn make_room<const STATES: usize>(
    items: &mut Vec<Column<STATES>>,
    newest: usize,
    count: usize,
) -> usize
    requires some { 1 ≤ count }
    requires within { newest + count ≤ length items.old.items }
    requires twice { 2 * count ≤ length items.old.items }
    ensures same { from_newest result count items.new.items ≡ from_newest newest count items.old.items }
    ensures room { 1 ≤ result }
    ensures within { result + count ≤ length items.new.items }
    ensures long { length items.new.items ≡ length items.old.items }
{
    if newest > 0 {
        newest
    } else {
        move_to_end(items, count)
    }
}

impl<const STATES: usize> Columns<STATES> {
    /// Columns in which each choice is that of state 0 and label 0. All memory is taken here.
    pub fn new(alloc: Global, count: usize) -> Result<Columns<STATES>, AllocError>
        requires some { 1 ≤ count }
        requires few { count ≤ 129 }
        ensures long { IfOk result (λ c. length c ≡ count) }
        ensures columns { (labels : ℕ) → 1 ≤ labels → IfOk result (λ c. AreColumns STATES labels c) }
    {
        let room = ROOMS * count;
        let mut items = Vec::with_capacity(alloc, room)?;
        for _ in 0..room {
            items.push(Column {
                before: [0; STATES],
                labels: [0; STATES],
            })?;
        }
        Ok(Columns {
            items,
            newest: room - count,
            count,
        })
    }

    /// The column that this many others are newer than.
    pub fn column<const LABELS: usize>(&self, back: usize) -> &Column<STATES>
        requires columns { AreColumns STATES LABELS self.now }
        requires within { back < length self.now }
        ensures next { take (back + 1) self.now ≡ take back self.now ++ choices_of result.now ∷ [] }
        ensures column { IsColumn STATES LABELS (choices_of result.now) }
    {
        &self.items[self.newest + back]
    }

    /// One sample more: the new sums, and a new column before the others but the oldest.
    pub fn advance<const LABELS: usize, C: ViterbiStep<STATES, LABELS>>(
        &mut self,
        code: &C,
        sample: Sample,
        sums: &mut [u64],
    )
        requires sums { length sums.old ≡ STATES }
        requires states { (s : ℕ) → s < STATES → slice_index sums.old s % 65536 ≡ s }
        requires small { (s : ℕ) → s < STATES → slice_index sums.old s < 2 ^ 62 }
        ensures { (column : List Choice) × (self.new ≡ column ∷ take (length self.old - 1) self.old)
            × Advances C.points STATES C.PARALLEL C.SUBSETS C.WAYS C.way_before C.way_subset sample sums.old sums.new column }
    {
        let newest = make_room(&mut self.items, self.newest, self.count) - 1;
        code.advance(sample, sums, &mut self.items[newest]);
        self.newest = newest;
    }
}
