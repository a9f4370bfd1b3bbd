// The pieces in a stream of bits.
ghost use Rattle.std.specs.Prelude.{◌≡◌, ◌≢◌, IsTrue};

use crate::finder::{Event, FlagFinder};
use crate::piece::Piece;
use crate::unstuffer::Unstuffer;
use std::marker::Model;

/// Finds the pieces in a stream of bits. It keeps no more than the longest frame takes, however long the stream
/// is.
#[derive(Drop)]
pub struct Deframer {
    /// Where flags and aborts stand.
    finder: FlagFinder,
    /// What has come since the last flag.
    unstuffer: Unstuffer,
    /// Whether the last bit closed a whole piece.
    lent: bool,
}

impl Model for Deframer {
    ghost use Rattle.bit_stuffing.specs.Deframer.{Kept};

    ghost Value = { Kept };

    ghost view = { λ d. record { finding = d.finder; gathering = d.unstuffer; lent = d.lent } };
}

fn is_whole(piece: Piece) -> bool
    ensures yes { IsTrue result → piece ≡ Piece.Whole }
    ensures no { (IsTrue result → ⊥) → piece ≢ Piece.Whole }
{
    match piece {
        Piece::Whole => true,
        _ => false,
    }
}

impl Deframer {
    ghost use Rattle.std.specs.Prelude.{ℕ, ◌+◌, ◌-◌, ◌<◌, ◌≤◌, length, take, drop, List, Bool, true, false, [], ◌∷◌, ◌++◌, Some, IfSome};
    ghost use Rattle.frame_check.specs.Bits.{low_bits, octet_bits};
    ghost use Rattle.bit_stuffing.specs.Flags.{OpenedAt};
    ghost use Rattle.bit_stuffing.specs.Pieces.{IsAnswer, IsLent, content};
    ghost use Rattle.bit_stuffing.specs.Found.{answer_of, lent_of, pieces_of};
    ghost use Rattle.bit_stuffing.specs.Deframer.{DeframerStands, Gathers};

    /// A deframer before the first bit.
    pub fn new() -> Deframer
        ensures { DeframerStands result [] }
    {
        Deframer {
            finder: FlagFinder::new(),
            unstuffer: Unstuffer::new(),
            lent: false,
        }
    }

    /// Gathers the bit that stands before a flag, should one end with the next bit.
    fn gather(&mut self)
        ensures gathers { (past : List Bool) (bit : Bool) → DeframerStands self.old past
            → (p : ℕ) → OpenedAt past p → p + 8 ≤ length (past ++ bit ∷ [])
            → Gathers self.new.gathering (content (past ++ bit ∷ []) p) }
        ensures finding { self.new.finding ≡ self.old.finding }
    {
        match self.finder.leaving() {
            Some(bit) => self.unstuffer.push(bit),
            None => self.unstuffer.clear(),
        }
    }

    /// The piece that ends with the next bit of the stream.
    pub fn push(&mut self, bit: bool) -> Option<Piece>
        ensures answer { (past : List Bool) → DeframerStands self.old past
            → IsAnswer past bit result }
        ensures value { (past : List Bool) → DeframerStands self.old past
            → result ≡ answer_of (past ++ bit ∷ []) }
        ensures stands { (past : List Bool) → DeframerStands self.old past
            → DeframerStands self.new (past ++ bit ∷ []) }
    {
        self.gather();
        self.lent = false;
        match self.finder.push(bit) {
            Some(Event::Closed) => {
                let piece = self.unstuffer.judge();
                self.lent = is_whole(piece);
                Some(piece)
            }
            Some(Event::Aborted) => Some(Piece::Aborted),
            None => None,
        }
    }

    /// Gathers the latest eight bits, where they stand behind the flag that is open.
    fn gather_octet(&mut self)
        ensures gathers { (past : List Bool) → DeframerStands self.old past
            → (p : ℕ) → OpenedAt past p → p + 8 ≤ length past → Gathers self.new.gathering (drop p past) }
        ensures finding { self.new.finding ≡ self.old.finding }
    {
        match self.finder.leaving_octet() {
            Some(octet) => self.unstuffer.push_octet(octet),
            None => {}
        }
    }

    /// Goes on by the bits of an octet, the low one first, where it is plain that nothing ends with any of them: whether it did.
    /// Where it answers true no octets are lent.
    #[inline(always)]
    pub fn pass(&mut self, octet: u8) -> bool
        ensures stands { result ≡ true → (past : List Bool) → DeframerStands self.old past
            → DeframerStands self.new (past ++ octet_bits octet) }
        ensures quiet { result ≡ true → (past : List Bool) → DeframerStands self.old past
            → pieces_of (past ++ octet_bits octet) ≡ pieces_of past }
        ensures stays { result ≡ false → self.new ≡ self.old }
    {
        if !self.finder.is_quiet(octet) {
            return false;
        }
        self.gather_octet();
        self.lent = false;
        self.finder.pass(octet);
        true
    }

    /// Goes on by the bits of an octet, the low one first, where flags follow one another before it and with it: whether it did. Nothing
    /// ends with any of them, nothing is gathered, and no octets are lent then.
    pub fn pass_flags(&mut self, octet: u8) -> bool
        ensures stands { result ≡ true → (past : List Bool) → DeframerStands self.old past
            → DeframerStands self.new (past ++ octet_bits octet) }
        ensures quiet { result ≡ true → (past : List Bool) → DeframerStands self.old past
            → pieces_of (past ++ octet_bits octet) ≡ pieces_of past }
        ensures stays { result ≡ false → self.new ≡ self.old }
    {
        if !self.finder.is_flags(octet) {
            return false;
        }
        self.lent = false;
        true
    }

    /// Gathers the bits that four more hand on.
    fn gather_four(&mut self)
        ensures gathers { (past : List Bool) → DeframerStands self.old past
            → (p : ℕ) → OpenedAt past p → p + 4 ≤ length past → Gathers self.new.gathering (drop p (take (length past - 4) past)) }
        ensures finding { self.new.finding ≡ self.old.finding }
    {
        let Some((bits, count)) = self.finder.leaving_four() else {
            return;
        };
        if count < 4 {
            self.unstuffer.clear();
            self.unstuffer.push_each(bits, count);
        } else {
            self.unstuffer.push_four(bits % 16);
        }
    }

    /// Gathers the bits that four more hand on, behind which the flag that is open stands so far back. Where it ends with one of the
    /// four nothing is asked of what was gathered: flags that follow one another cost little.
    fn gather_unless_flag(&mut self, since: Option<u8>)
        ensures gathers { IfSome since (λ count. 4 ≤ count) → (past : List Bool) → DeframerStands self.old past
            → (p : ℕ) → OpenedAt past p → p + 4 ≤ length past → Gathers self.new.gathering (drop p (take (length past - 4) past)) }
        ensures finding { self.new.finding ≡ self.old.finding }
    {
        match since {
            Some(count) if count < 4 => {}
            _ => self.gather_four(),
        }
    }

    /// Goes on by four bits, the low one first, where it is plain that no piece ends with any of them: whether it did. Flags that
    /// follow one another, and most bits of a frame, are plain. Then no octets are lent.
    pub fn pass_four(&mut self, four: u8) -> bool
        requires { four < 16 }
        ensures stands { result ≡ true → (past : List Bool) → DeframerStands self.old past
            → DeframerStands self.new (past ++ low_bits 4 four) }
        ensures quiet { result ≡ true → (past : List Bool) → DeframerStands self.old past
            → pieces_of (past ++ low_bits 4 four) ≡ pieces_of past }
        ensures stays { result ≡ false → self.new ≡ self.old }
    {
        let Some(since) = self.finder.since_behind(four) else {
            return false;
        };
        self.gather_unless_flag(since);
        self.finder.pass_four(four, since);
        self.lent = false;
        true
    }

    /// The octets of the piece that the last push answered as whole, with their check. None are lent where
    /// that push answered anything else, or none was made.
    pub fn whole(&self) -> &[u8]
        ensures lent { (past : List Bool) → DeframerStands self.now past
            → IsLent past result.now }
        ensures value { (past : List Bool) → DeframerStands self.now past
            → result.now ≡ lent_of past }
    {
        if self.lent {
            self.unstuffer.octets()
        } else {
            &[]
        }
    }
}
