// The segments that aren't acknowledged. A full ring would drop its first segment in silence as another is pushed: `push` asks that there be
// room, which the window gives. A number is never taken modulo 128 here, so a place is a number less the front.
ghost use Rattle.std.specs.Prelude.{◌≡◌, ◌≤◌, ◌<◌, ◌+◌, ◌-◌, ◌^◌, [], ◌∷◌, ◌++◌, length, drop, IfOk, IfSome, slice_get, slice_index_or};
ghost use Rattle.frame_check.specs.declared.sizes.TheConstants.{INFO};
ghost use Rattle.std.specs.List.{position};
ghost use Rattle.lapm_sender.specs.Segments.{is_marked};
ghost use Rattle.lapm_sender.specs.Numbers.{with_number, from_number};

use circular_buffer::HeapCircularBuffer;
use frame_check::Info;
use shared_terms::NoMemory;
use std::alloc::Global;
use std::marker::Model;

/// A segment that isn't acknowledged.
#[derive(Drop)]
struct Segment {
    /// The segment's octets.
    info: Info,
    /// Whether the segment alone is to be sent again.
    again: bool,
}

/// The segments that aren't acknowledged, in a ring. Their numbers go on from the front.
#[derive(Drop)]
pub(crate) struct Segments {
    /// As many places as the window has segments.
    ring: HeapCircularBuffer<Segment>,
    /// The number of the first one [V(A)], from 0, without a modulus.
    front: u64,
}

impl Model for Segments {
    ghost use Rattle.std.specs.Prelude.{◌+◌, ◌≤◌, ◌^◌, length};
    ghost use Rattle.lapm_sender.specs.Segments.{Unacknowledged, infos, marked_from};

    ghost Value = { Unacknowledged };

    ghost view = { λ s. record { room = s.ring.capacity; front = s.front; kept = infos s.ring.items; chosen = marked_from s.front s.ring.items } };

    ghost invariant = { λ s. s.front + length s.ring.items ≤ 2 ^ 56 };
}

/// The place of the first segment that alone is to be sent again.
fn first_again(ring: &HeapCircularBuffer<Segment>) -> Option<usize>
    ensures place { result ≡ position is_marked ring.now.items }
    ensures within { IfSome result (λ place. place < length ring.now.items) }
{
    ring.iter().position(|segment| segment.again)
}

impl Segments {
    pub(crate) fn new(alloc: Global, room: u8) -> Result<Segments, NoMemory>
        ensures { IfOk result (λ segments. segments ≡ record { room = room; front = 0; kept = []; chosen = [] }) }
    {
        let ring = HeapCircularBuffer::with_capacity(alloc, usize::from(room))?;
        Ok(Segments { ring, front: 0 })
    }

    /// Begins at number 0, with no segment.
    pub(crate) fn restart(&mut self)
        ensures { self.new ≡ record { room = self.old.room; front = 0; kept = []; chosen = [] } }
    {
        self.ring.clear();
        self.front = 0;
    }

    /// The number of the first one: all before it are acknowledged.
    pub(crate) fn front(&self) -> u64
        ensures { result ≡ self.now.front }
    {
        self.front
    }

    /// The number behind the last one.
    pub(crate) fn end(&self) -> u64
        ensures end { result ≡ self.now.front + length self.now.kept }
        ensures bound { result ≤ 2 ^ 56 }
    {
        self.front + self.ring.len() as u64
    }

    pub(crate) fn push(&mut self, octets: &[u8])
        requires fits { length octets.now ≤ INFO }
        requires room { length self.old.kept < self.old.room }
        requires few { self.old.front + length self.old.kept < 2 ^ 56 }
        ensures { self.new ≡ record self.old { kept = self.old.kept ++ octets.now ∷ [] } }
    {
        let mut info = Info::new();
        info.extend(octets);
        self.ring.push_back(Segment { info, again: false });
    }

    /// Copies a segment into `out`, in place of what that held.
    pub(crate) fn copy(&self, number: u64, out: &mut Info)
        requires low { self.now.front ≤ number }
        requires high { number < self.now.front + length self.now.kept }
        ensures { out.new ≡ slice_index_or self.now.kept (number - self.now.front) [] }
    {
        if let Some(segment) = self.ring.get((number - self.front) as usize) {
            *out = segment.info.copy();
        }
    }

    /// Lets go of the segments before this number.
    pub(crate) fn advance(&mut self, number: u64)
        requires low { self.old.front ≤ number }
        requires high { number ≤ self.old.front + length self.old.kept }
        ensures { self.new ≡ record self.old { front = number; kept = drop (number - self.old.front) self.old.kept; chosen = from_number number self.old.chosen } }
    {
        let gone = (number - self.front) as usize;
        self.ring.truncate_front(self.ring.len() - gone);
        self.front = number;
    }

    /// The least number that alone is to be sent again.
    pub(crate) fn least_chosen(&self) -> Option<u64>
        ensures value { result ≡ slice_get self.now.chosen 0 }
        ensures low { IfSome result (λ number. self.now.front ≤ number) }
        ensures high { IfSome result (λ number. number < self.now.front + length self.now.kept) }
    {
        let place = first_again(&self.ring)?;
        Some(self.front + place as u64)
    }

    /// Marks the segment of this number alone to be sent again.
    pub(crate) fn choose(&mut self, number: u64)
        requires low { self.old.front ≤ number }
        requires high { number < self.old.front + length self.old.kept }
        ensures { self.new ≡ record self.old { chosen = with_number number self.old.chosen } }
    {
        if let Some(segment) = self.ring.get_mut((number - self.front) as usize) {
            segment.again = true;
        }
    }

    /// The least number that alone is to be sent again was sent.
    pub(crate) fn drop_least(&mut self)
        ensures { self.new ≡ record self.old { chosen = drop 1 self.old.chosen } }
    {
        if let Some(place) = first_again(&self.ring) {
            if let Some(segment) = self.ring.get_mut(place) {
                segment.again = false;
            }
        }
    }

    /// No number alone is to be sent again.
    pub(crate) fn choose_none(&mut self)
        ensures { self.new ≡ record self.old { chosen = [] } }
    {
        while self.least_chosen().is_some() {
            self.drop_least();
        }
    }
}
