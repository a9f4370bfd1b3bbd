// The segments that arrived and aren't delivered.
ghost use Rattle.std.specs.Prelude.{◌≡◌, ◌≤◌, ◌<◌, ◌+◌, ◌-◌, ◌^◌, [], ◌∷◌, length, drop, nat_le, replicate, IfOk, IfSome, None, false, slice_get};
ghost use Rattle.std.specs.Bool.{OnFalse, OnTrue};
ghost use Rattle.std.specs.List.{find, position};
ghost use Rattle.std.specs.Option.{option_copied};
ghost use Rattle.circular_buffer.specs.Buffer.{buffer};
ghost use Rattle.lapm_receiver.specs.Held.{is_held, with_held, run_from, rest_from, missing_from};
ghost use Rattle.lapm_receiver.specs.Slots.{is_empty, info_at, missing_among, IsRising};

use circular_buffer::HeapCircularBuffer;
use frame_check::Info;
use shared_terms::NoMemory;
use std::alloc::Global;
use std::marker::Model;

/// A slot for each number from that of the first segment that isn't delivered on, in a ring. It is empty until its segment
/// has come.
#[derive(Drop)]
pub(crate) struct Slots {
    /// As many as the window has segments.
    ring: HeapCircularBuffer<Option<Info>>,
    /// How many segments were taken in order.
    taken: u64,
}

impl Model for Slots {
    ghost use Rattle.std.specs.Prelude.{◌≡◌, ◌<◌, ◌^◌, length};
    ghost use Rattle.lapm_receiver.specs.Slots.{Arrived, ready_of, held_after};

    ghost Value = { Arrived };

    ghost view = { λ s. record { room = s.ring.capacity; taken = s.taken; ready = ready_of s.ring.items; held = held_after s.taken s.ring.items } };

    ghost invariant = { λ s. (length s.ring.items ≡ s.ring.capacity) × (s.ring.capacity < 2 ^ 8) × (s.taken < 2 ^ 57) };
}

/// Fills a ring up with empty slots.
fn fill(ring: &mut HeapCircularBuffer<Option<Info>>)
    requires { ring.old.items ≡ [] }
    ensures { ring.new ≡ buffer (replicate ring.old.capacity None) ring.old.capacity }
{
    for _count in 0..ring.capacity() {
        ring.push_back(None);
    }
}

/// The place of the first empty slot.
fn first_empty(ring: &HeapCircularBuffer<Option<Info>>) -> Option<usize>
    ensures place { result ≡ position is_empty ring.now.items }
    ensures within { IfSome result (λ place. place < length ring.now.items) }
{
    ring.iter().position(|slot| slot.is_none())
}

/// What stands in a slot.
fn info_in(ring: &HeapCircularBuffer<Option<Info>>, place: usize) -> Option<&Info>
    ensures { option_copied result ≡ info_at (slice_get ring.now.items place) }
{
    ring.get(place)?.as_ref()
}

/// The number of the first empty slot from `start` on that stands before a full one and whose number isn't below `low`.
/// The slot at `start` has the number `first`.
fn least_missing(
    ring: &HeapCircularBuffer<Option<Info>>,
    start: usize,
    first: u64,
    low: u64,
) -> Option<u64>
    requires within { start ≤ length ring.now.items }
    requires few { first < 2 ^ 57 }
    ensures { result ≡ missing_among low first (drop start ring.now.items) }
{
    let mut later = false;
    let mut missing = None;
    for place in (start..ring.len()).rev() {
        let number = first + (place - start) as u64;
        if info_in(ring, place).is_some() {
            later = true;
        } else if later && low <= number {
            missing = Some(number);
        }
    }
    missing
}

impl Slots {
    /// Empty slots. They take all their memory here.
    pub(crate) fn new(alloc: Global, room: u8) -> Result<Slots, NoMemory>
        ensures { IfOk result (λ slots. slots ≡ record { room = room; taken = 0; ready = []; held = [] }) }
    {
        let mut ring = HeapCircularBuffer::with_capacity(alloc, usize::from(room))?;
        fill(&mut ring);
        Ok(Slots { ring, taken: 0 })
    }

    /// Begins at number 0, with no segment.
    pub(crate) fn restart(&mut self)
        ensures { self.new ≡ record { room = self.old.room; taken = 0; ready = []; held = [] } }
    {
        self.ring.clear();
        fill(&mut self.ring);
        self.taken = 0;
    }

    /// How many segments were taken in order.
    pub(crate) fn taken(&self) -> u64
        ensures { result ≡ self.now.taken }
    {
        self.taken
    }

    /// How many of them aren't delivered.
    pub(crate) fn ready(&self) -> usize
        ensures ready { result ≡ length self.now.ready }
        ensures bound { result ≤ self.now.room }
        ensures room { self.now.room < 2 ^ 8 }
    {
        first_empty(&self.ring).unwrap_or(self.ring.len())
    }

    /// Whether a segment so far ahead of the next one has come.
    pub(crate) fn is_held(&self, ahead: u8) -> bool
        requires delivered { self.now.ready ≡ [] }
        requires low { 1 ≤ ahead }
        ensures { result ≡ is_held (self.now.taken + ahead) self.now.held }
    {
        info_in(&self.ring, usize::from(ahead)).is_some()
    }

    /// Takes the next segment, and those that follow it without a gap.
    pub(crate) fn take(&mut self, info: &Info)
        requires delivered { self.old.ready ≡ [] }
        requires some { 1 ≤ self.old.room }
        requires few { self.old.taken < 2 ^ 56 }
        ensures bound { length self.new.ready ≤ self.old.room }
        ensures taken { self.new ≡ record self.old { taken = self.old.taken + length (info.now ∷ run_from (self.old.taken + 1) self.old.held); ready = info.now ∷ run_from (self.old.taken + 1) self.old.held; held = rest_from (self.old.taken + 1) self.old.held } }
    {
        if let Some(slot) = self.ring.get_mut(0) {
            *slot = Some(info.copy());
        }
        self.taken += self.ready() as u64;
    }

    /// Holds a segment that is so far ahead of the next one.
    pub(crate) fn keep(&mut self, ahead: u8, info: &Info)
        requires delivered { self.old.ready ≡ [] }
        requires low { 1 ≤ ahead }
        requires high { ahead < self.old.room }
        requires new { is_held (self.old.taken + ahead) self.old.held ≡ false }
        ensures { self.new ≡ record self.old { held = with_held (record { number = self.old.taken + ahead; info = info.now }) self.old.held } }
    {
        if let Some(slot) = self.ring.get_mut(usize::from(ahead)) {
            *slot = Some(info.copy());
        }
    }

    /// Copies the first segment that isn't delivered into `out`, in place of what that held.
    pub(crate) fn deliver(&mut self, out: &mut Info) -> bool
        ensures delivered { self.new ≡ record self.old { ready = drop 1 self.old.ready } }
        ensures some { OnTrue result (self.old.ready ≡ out.new ∷ self.new.ready) }
        ensures none { OnFalse result (self.old.ready ≡ []) }
        ensures unchanged { OnFalse result (out.new ≡ out.old) }
    {
        match info_in(&self.ring, 0) {
            Some(info) => *out = info.copy(),
            None => return false,
        }
        self.ring.pop_front();
        self.ring.push_back(None);
        true
    }

    /// The least missing number before one that is held, not below `low`.
    pub(crate) fn first_missing(&self, low: u64) -> Option<u64>
        ensures missing { result ≡ find (λ n. nat_le low n) (missing_from self.now.taken self.now.held) }
        ensures bound { IfSome result (λ number. number < 2 ^ 58) }
        ensures rising { IsRising self.now.taken self.now.held }
    {
        let start = first_empty(&self.ring)?;
        least_missing(&self.ring, start, self.taken, low)
    }
}
