// Bits that are written into a slot.
ghost use Rattle.std.specs.Prelude.{◌≡◌, ◌+◌, ◌-◌, ◌*◌, ◌%◌, ◌<◌, ◌≤◌, ◌^◌, [], ◌∷◌, ◌++◌, length, take, drop, Some};
ghost use Rattle.frame_check.specs.Bits.{octet_bits, bits_of};
ghost use Rattle.bit_stuffing.specs.Flags.{bit_of, flag};
ghost use Rattle.bit_stuffing.specs.Slots.{fill, flags, framed, rest_of_flag};
ghost use Rattle.bit_stuffing.specs.Stuffing.{stuffed, room_behind};

use crate::bit_slot::BitSlot;
use crate::bits::{joined, with_bit};
use crate::finder::FLAG;
use crate::unstuffer::{RUN, is_plain, room_behind_octet};
use frame_check::SLOT;

/// The bit of a flag at a place.
fn flag_bit(place: u8) -> bool
    requires { place < 8 }
    ensures { result ≡ bit_of flag place }
{
    (FLAG >> place) & 1 == 1
}

/// Writes bits into a slot. It holds those of the next quad.
#[derive(Drop)]
pub(crate) struct Pen {
    /// The bits of the next quad that are there, the first one lowest.
    part: u8,
    /// How many they are.
    held: u8,
    ghost few: { held < 4 },
    ghost low: { part < 2 ^ held },
}

impl Pen {
    ghost use Rattle.bit_stuffing.specs.Pen.{written};

    pub(crate) fn new() -> Pen
        ensures { written result [] ≡ [] }
    {
        Pen { part: 0, held: 0 }
    }

    /// Writes one bit.
    pub(crate) fn bit(&mut self, bit: bool, out: &mut BitSlot)
        requires { length (written self.old out.old) < 4 * SLOT }
        ensures { written self.new out.new ≡ written self.old out.old ++ bit ∷ [] }
    {
        let part = with_bit(self.part, self.held, bit);
        if self.held == 3 {
            out.push(part);
            self.part = 0;
            self.held = 0;
        } else {
            self.part = part;
            self.held += 1;
        }
    }

    /// Writes the bits of an octet, the low one first.
    fn octet(&mut self, octet: u8, out: &mut BitSlot)
        requires { length (written self.old out.old) + 8 ≤ 4 * SLOT }
        ensures { written self.new out.new ≡ written self.old out.old ++ octet_bits octet }
    {
        let bits = joined(self.part, self.held, octet);
        out.push((bits % 16) as u8);
        out.push((bits / 16 % 16) as u8);
        self.part = (bits / 256) as u8;
    }

    /// Writes a flag from this place of it on, up to that one.
    fn flag(&mut self, from: u8, to: u8, out: &mut BitSlot)
        requires from { from ≤ to }
        requires to { to ≤ 8 }
        requires room { length (written self.old out.old) + (to - from) ≤ 4 * SLOT }
        ensures { written self.new out.new ≡ written self.old out.old ++ take (to - from) (drop from flag) }
    {
        for place in from..to {
            self.bit(flag_bit(place), out);
        }
    }

    /// Writes a bit of a content, and behind five ones a zero. It takes how many ones may follow before a
    /// zero has to, and answers how many may follow then.
    fn content_bit(&mut self, bit: bool, room: u8, out: &mut BitSlot) -> u8
        requires some { 0 < room }
        requires few { room ≤ 5 }
        requires fits { length (written self.old out.old) + length (stuffed room (bit ∷ []))
            ≤ 4 * SLOT }
        ensures written { written self.new out.new
            ≡ written self.old out.old ++ stuffed room (bit ∷ []) }
        ensures room { result ≡ room_behind room (bit ∷ []) }
    {
        self.bit(bit, out);
        if !bit {
            return RUN;
        }
        if room == 1 {
            self.bit(false, out);
            return RUN;
        }
        room - 1
    }

    /// Writes the bits of an octet of a content, the low one first.
    fn content_octet(&mut self, octet: u8, room: u8, out: &mut BitSlot) -> u8
        requires some { 0 < room }
        requires few { room ≤ 5 }
        requires fits { length (written self.old out.old) + length (stuffed room (octet_bits octet))
            ≤ 4 * SLOT }
        ensures written { written self.new out.new
            ≡ written self.old out.old ++ stuffed room (octet_bits octet) }
        ensures room { result ≡ room_behind room (octet_bits octet) }
    {
        if is_plain(room, octet) {
            self.octet(octet, out);
            return room_behind_octet(octet);
        }
        let mut left = room;
        for place in 0..8u32 {
            left = self.content_bit((octet >> place) & 1 == 1, left, out);
        }
        left
    }

    /// Writes the stuffing of octets of a content. Of the ones that may follow it takes and answers what a bit's call does.
    fn content(&mut self, octets: &[u8], room: u8, out: &mut BitSlot) -> u8
        requires some { 0 < room }
        requires few { room ≤ 5 }
        requires fits { length (written self.old out.old) + length (stuffed room (bits_of octets.now))
            ≤ 4 * SLOT }
        ensures written { written self.new out.new
            ≡ written self.old out.old ++ stuffed room (bits_of octets.now) }
        ensures room { result ≡ room_behind room (bits_of octets.now) }
        ensures some { 0 < result }
        ensures few { result ≤ 5 }
    {
        let mut left = room;
        for octet in octets {
            left = self.content_octet(*octet, left, out);
        }
        left
    }

    /// Writes so many flags.
    fn flags(&mut self, count: usize, out: &mut BitSlot)
        requires { length (written self.old out.old) + 8 * count ≤ 4 * SLOT }
        ensures { written self.new out.new ≡ written self.old out.old ++ flags count }
    {
        for _ in 0..count {
            self.octet(FLAG, out);
        }
    }

    /// Writes the rest of an unfinished flag, and the flags at the head of a slot.
    pub(crate) fn head(&mut self, phase: u8, out: &mut BitSlot)
        requires phase { phase < 8 }
        requires room { length (written self.old out.old) + length (rest_of_flag phase ++ flags 4)
            ≤ 4 * SLOT }
        ensures { written self.new out.new
            ≡ written self.old out.old ++ (rest_of_flag phase ++ flags 4) }
    {
        if phase > 0 {
            self.flag(phase, 8, out);
        }
        self.flags(4, out);
    }

    /// Writes a frame's octets, which stand in three places, and its closing flag.
    pub(crate) fn frame(&mut self, head: &[u8], information: &[u8], check: &[u8], out: &mut BitSlot)
        requires { length (written self.old out.old) + length (framed (Some (head.now ++ information.now ++ check.now)))
            ≤ 4 * SLOT }
        ensures { written self.new out.new
            ≡ written self.old out.old ++ framed (Some (head.now ++ information.now ++ check.now)) }
    {
        let behind_head = self.content(head, RUN, out);
        let behind_both = self.content(information, behind_head, out);
        self.content(check, behind_both, out);
        self.octet(FLAG, out);
    }

    /// Writes flags until the slot has so many symbols. It answers how many bits of an unfinished flag come last.
    pub(crate) fn fill(&mut self, symbols: u16, out: &mut BitSlot) -> u8
        requires few { symbols ≤ SLOT }
        requires room { length (written self.old out.old) ≤ 4 * symbols }
        ensures written { written self.new out.new
            ≡ written self.old out.old ++ fill (4 * symbols - length (written self.old out.old)) }
        ensures phase { result ≡ (4 * symbols - length (written self.old out.old)) % 8 }
    {
        let written = 4 * out.len() + usize::from(self.held);
        let left = 4 * usize::from(symbols) - written;
        self.flags(left / 8, out);
        let phase = (left % 8) as u8;
        self.flag(0, phase, out);
        phase
    }
}
