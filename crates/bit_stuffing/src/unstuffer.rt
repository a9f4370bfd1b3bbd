// The octets of a content, as the bits between two flags come in.
ghost use Rattle.std.specs.Prelude.{◌≡◌, ◌≤◌, ◌<◌, ◌+◌, ◌*◌, ◌/◌, ◌^◌, true, false, List, Bool, [], ◌∷◌, ◌++◌, length};
ghost use Rattle.frame_check.specs.Bits.{low_bits, octet_bits};
ghost use Rattle.bit_stuffing.specs.Deframer.{has_room, is_plain, room_behind_octet, room_behind_four};
ghost use Rattle.frame_check.specs.declared.sizes.TheConstants.{WHOLE};

use crate::bits::{joined, with_bit};
use crate::piece::{Piece, SHORTEST};
use frame_check::{WHOLE, Whole};
use std::marker::Model;

/// The most ones in a row that a content's line may have. A zero stands behind them.
pub(crate) const RUN: u8 = 5;

/// Whether no zero is due within the first ones of some bits or behind them, where so many ones may still follow what was before.
fn has_room(room: u8, bits: u8) -> bool
    requires { room ≤ 5 }
    ensures { result ≡ has_room room bits }
{
    bits % (1 << room) != (1 << room) - 1
}

/// Whether no zero is due within an octet's bits or behind them, where so many ones may still follow what was before.
pub(crate) fn is_plain(room: u8, octet: u8) -> bool
    requires { room ≤ 5 }
    ensures { result ≡ is_plain room octet }
{
    has_room(room, octet) && octet / 2 % 32 != 31 && octet / 4 % 32 != 31 && octet / 8 != 31
}

/// How many ones may still follow such an octet before a zero has to.
pub(crate) fn room_behind_octet(octet: u8) -> u8
    ensures value { result ≡ room_behind_octet octet }
    ensures bound { result ≤ 5 }
{
    if octet < 128 {
        5
    } else if octet < 192 {
        4
    } else if octet < 224 {
        3
    } else if octet < 240 {
        2
    } else {
        1
    }
}

/// How many ones may still follow four such bits, which have room, before a zero has to.
fn room_behind_four(four: u8) -> u8
    ensures value { result ≡ room_behind_four four }
    ensures bound { result ≤ 5 }
{
    room_behind_octet(16 * (four % 16))
}

/// Takes the inserted zeros out of a content's line, and gathers its octets.
#[derive(Drop)]
pub(crate) struct Unstuffer {
    /// How many ones may still follow before a zero has to.
    room: u8,
    /// The octets that are whole.
    octets: Whole,
    /// The low bits of the next octet, and how many they are.
    part: u8,
    /// How many bits `part` has, less than eight.
    held: u8,
    /// Whether the content has more bits than the longest frame.
    over: bool,
}

impl Model for Unstuffer {
    ghost use Rattle.std.specs.Prelude.{◌≤◌, ◌<◌, ◌+◌, ◌*◌, ◌^◌, length};
    ghost use Rattle.frame_check.specs.declared.sizes.TheConstants.{WHOLE};
    ghost use Rattle.bit_stuffing.specs.Deframer.{Gathering};

    ghost Value = { Gathering };

    ghost view = { λ u. record { room = u.room; octets = u.octets; part = u.part; held = u.held; over = u.over } };

    ghost invariant = { λ u. (u.room ≤ 5) × (u.held < 8) × (u.part < 2 ^ u.held)
        × (8 * length u.octets + u.held ≤ 8 * WHOLE) };
}

impl Unstuffer {
    ghost use Rattle.bit_stuffing.specs.Deframer.{Gathers, KeepsBits};
    ghost use Rattle.bit_stuffing.specs.Pieces.{Judged, IsWhole};
    ghost use Rattle.bit_stuffing.specs.Stuffing.{Fits};

    pub(crate) fn new() -> Unstuffer
        ensures { Gathers result [] }
    {
        Unstuffer {
            room: RUN,
            octets: Whole::new(),
            part: 0,
            held: 0,
            over: false,
        }
    }

    /// Begins another content.
    pub(crate) fn clear(&mut self)
        ensures { Gathers self.new [] }
    {
        self.room = RUN;
        self.octets.clear();
        self.part = 0;
        self.held = 0;
        self.over = false;
    }

    /// One more bit of the line.
    pub(crate) fn push(&mut self, bit: bool)
        ensures { (line : List Bool) → Gathers self.old line → Gathers self.new (line ++ bit ∷ []) }
    {
        if self.room == 0 {
            self.room = RUN;
        } else {
            self.room = if bit { self.room - 1 } else { RUN };
            self.keep(bit);
        }
    }

    /// One more bit of the content.
    fn keep(&mut self, bit: bool)
        ensures keeps { (kept : List Bool)
            → KeepsBits self.old.over self.old.octets self.old.part self.old.held kept
            → KeepsBits self.new.over self.new.octets self.new.part self.new.held (kept ++ bit ∷ []) }
        ensures room { self.new.room ≡ self.old.room }
    {
        if self.over {
            return;
        }
        if self.octets.len() == WHOLE {
            self.over = true;
            return;
        }
        let part = with_bit(self.part, self.held, bit);
        if self.held == 7 {
            self.octets.push(part);
            self.part = 0;
            self.held = 0;
        } else {
            self.part = part;
            self.held += 1;
        }
    }

    /// The next eight bits of the line, the low one of the octet first.
    pub(crate) fn push_octet(&mut self, octet: u8)
        ensures { (line : List Bool) → Gathers self.old line → Gathers self.new (line ++ octet_bits octet) }
    {
        if !self.over && self.octets.len() + 1 < WHOLE && is_plain(self.room, octet) {
            self.keep_octet(octet);
        } else {
            self.push_fours(octet);
        }
    }

    /// The next eight bits of the line, four at once. It isn't inlined, so that no octet without an inserted zero pays for its registers.
    #[inline(never)]
    fn push_fours(&mut self, octet: u8)
        ensures { (line : List Bool) → Gathers self.old line → Gathers self.new (line ++ octet_bits octet) }
    {
        self.push_four(octet % 16);
        self.push_four(octet / 16);
    }

    /// The next four bits of the line, the low one first.
    pub(crate) fn push_four(&mut self, four: u8)
        requires { four < 16 }
        ensures { (line : List Bool) → Gathers self.old line → Gathers self.new (line ++ low_bits 4 four) }
    {
        if !self.over && self.octets.len() + 1 < WHOLE && has_room(self.room, four) {
            self.keep_four(four);
        } else {
            self.push_each(four, 4);
        }
    }

    /// The next bits of the line, so many, one by one.
    pub(crate) fn push_each(&mut self, bits: u8, count: u32)
        requires { count ≤ 8 }
        ensures { (line : List Bool) → Gathers self.old line → Gathers self.new (line ++ low_bits count bits) }
    {
        let mut rest = bits;
        for _place in 0..count {
            self.push(rest % 2 == 1);
            rest /= 2;
        }
    }

    /// The next eight bits of the line, none of which is an inserted zero.
    fn keep_octet(&mut self, octet: u8)
        requires not_over { self.old.over ≡ false }
        requires room { length self.old.octets + 1 < WHOLE }
        requires plain { is_plain self.old.room octet ≡ true }
        ensures { (line : List Bool) → Gathers self.old line → Gathers self.new (line ++ octet_bits octet) }
    {
        let bits = joined(self.part, self.held, octet);
        self.octets.push((bits % 256) as u8);
        self.part = (bits / 256) as u8;
        self.room = room_behind_octet(octet);
    }

    /// The next four bits of the line, none of which is an inserted zero.
    fn keep_four(&mut self, four: u8)
        requires four { four < 16 }
        requires not_over { self.old.over ≡ false }
        requires room { length self.old.octets + 1 < WHOLE }
        requires plain { has_room self.old.room four ≡ true }
        ensures { (line : List Bool) → Gathers self.old line → Gathers self.new (line ++ low_bits 4 four) }
    {
        let bits = joined(self.part, self.held, four);
        self.room = room_behind_four(four);
        if self.held < 4 {
            self.part = (bits % 256) as u8;
            self.held += 4;
        } else {
            self.octets.push((bits % 256) as u8);
            self.part = (bits / 256) as u8;
            self.held -= 4;
        }
    }

    /// What the content is, once all its bits came in.
    pub(crate) fn judge(&self) -> Piece
        ensures judged { (line : List Bool) → Fits 5 line → Gathers self.now line
            → Judged line result }
        ensures whole { (line : List Bool) → Fits 5 line → Gathers self.now line
            → result ≡ Piece.Whole → IsWhole line self.now.octets }
    {
        if self.over {
            return Piece::TooLong;
        }
        if self.held != 0 || self.room == 0 {
            return Piece::Ragged;
        }
        if self.octets.len() < SHORTEST {
            return Piece::TooShort;
        }
        Piece::Whole
    }

    pub(crate) fn octets(&self) -> &[u8]
        ensures { result.now ≡ self.now.octets }
    {
        self.octets.as_slice()
    }
}
