// Patterns in a stream of bits.
ghost use Rattle.std.specs.Prelude.{◌≡◌, ◌+◌, ◌<◌, ◌≤◌, ◌↔◌, ℕ, List, Bool, IsTrue, true, false, ◌++◌, reverse};
ghost use Rattle.std.specs.Int.{bit_at};
ghost use Rattle.frame_check.specs.Bits.{low_bits, octet_bits};
ghost use Rattle.detection.specs.Patterns.{EndsPattern, longest_gap};
ghost use Rattle.detection.specs.Reader.{Holds, ReaderStands, LeftBehind, LeftBehindOnce, whole_pattern};

use crate::Seen;
use crate::characters::{first, second};
use std::marker::Model;

/// The most ones behind a character, its stop bit among them.
const LONGEST: u32 = 17;

/// The fewest of them.
const SHORTEST: u32 = 8;

/// The bits before a character that the latest bits end with, where the fewest ones stand behind it, or more up to so
/// many.
fn before_character(latest: u128, character: u128, most: u32) -> Option<u128>
    requires start { character < 256 }
    requires few { most ≤ longest_gap }
    ensures { (width : ℕ) (recent : List Bool) → most + 9 ≤ width → Holds width latest recent
        → LeftBehind width (low_bits 9 character) most recent result }
{
    let gap = latest
        .trailing_ones()
        .saturating_sub(character.trailing_ones());
    if gap < SHORTEST || gap > most {
        return None;
    }
    let rest = latest >> gap;
    if rest & 0x1ff == character {
        Some(rest >> 9)
    } else {
        None
    }
}

/// The bits before a whole pattern that the latest bits end with, where up to so many ones stand behind it.
fn before_pattern(latest: u128, seen: Seen, most: u32) -> Option<u128>
    requires { most ≤ longest_gap }
    ensures { (width : ℕ) (recent : List Bool) → most + whole_pattern ≤ width → Holds width latest recent
        → LeftBehindOnce width seen most recent result }
{
    let rest = before_character(latest, second(seen), most)?;
    before_character(rest, first(seen), LONGEST)
}

/// Whether the latest bits are two whole patterns, up to the eighth one behind the last character.
fn ends_pattern(latest: u128, seen: Seen) -> bool
    ensures { (bits : List Bool) → ReaderStands latest bits → (IsTrue result ↔ EndsPattern seen bits) }
{
    match before_pattern(latest, seen, SHORTEST) {
        Some(rest) => before_pattern(rest, seen, LONGEST).is_some(),
        None => false,
    }
}

/// Four bits in turned order.
fn turned(four: u8) -> u8
    requires { four < 16 }
    ensures bits { low_bits 4 result ≡ reverse (low_bits 4 four) }
    ensures small { result < 16 }
{
    // the answers for 15 down to 0
    let answers: u64 = 0xf7b3_d591_e6a2_c480;
    ((answers >> (4 * four)) % 16) as u8
}

/// The latest bits behind four bits more.
fn behind_four(latest: u128, four: u8) -> u128
    requires { four < 16 }
    ensures { (past : List Bool) → ReaderStands latest past → ReaderStands result (past ++ low_bits 4 four) }
{
    (latest << 4) | u128::from(turned(four))
}

/// The latest bits behind the eight bits of an octet more.
fn behind_octet(latest: u128, octet: u8) -> u128
    ensures { (past : List Bool) → ReaderStands latest past → ReaderStands result (past ++ octet_bits octet) }
{
    behind_four(behind_four(latest, octet % 16), octet / 16)
}

/// Whether eight of the bits are ones in a row.
fn has_eight_ones(bits: u16) -> bool
    ensures { result ≡ false → (i : ℕ) → ((j : ℕ) → j < 8 → bit_at bits (i + j) ≡ 1) → ⊥ }
{
    let twos = bits & (bits / 2);
    let fours = twos & (twos / 4);
    fours & (fours / 16) != 0
}

/// Finds patterns in a stream of bits. It keeps the latest 128 bits, which is more than two patterns have, however
/// long the gaps in them are.
#[derive(Drop)]
pub struct PatternReader {
    /// The latest 128 bits, the last one lowest; ones before the first.
    latest: u128,
}

impl Model for PatternReader {
    ghost use Rattle.std.specs.Prelude.{ℕ};

    ghost Value = { ℕ };

    ghost view = { λ r. r.latest };
}

impl PatternReader {
    ghost use Rattle.std.specs.Prelude.{[], ◌∷◌, IfSome};
    ghost use Rattle.detection.specs.Patterns.{IsSeen, seen_at};
    ghost use Rattle.detection.specs.Sights.{sights_of};

    /// A reader before the first bit.
    pub fn new() -> PatternReader
        ensures { ReaderStands result [] }
    {
        PatternReader { latest: u128::MAX }
    }

    /// The pattern that ends with the next bit of the stream: two whole patterns in a row, up to the eighth one
    /// behind the last character. By ITU-T V.42, 8 to 17 ones stand behind each character, its stop bit among
    /// them.
    pub fn push(&mut self, bit: bool) -> Option<Seen>
        ensures answer { (past : List Bool) → ReaderStands self.old past
            → IsSeen (past ++ bit ∷ []) result }
        ensures value { (past : List Bool) → ReaderStands self.old past
            → result ≡ seen_at (past ++ bit ∷ []) }
        ensures stands { (past : List Bool) → ReaderStands self.old past
            → ReaderStands self.new (past ++ bit ∷ []) }
    {
        self.latest = (self.latest << 1) | u128::from(bit);
        if ends_pattern(self.latest, Seen::Odp) {
            Some(Seen::Odp)
        } else if ends_pattern(self.latest, Seen::Adp) {
            Some(Seen::Adp)
        } else {
            None
        }
    }

    /// Goes on by four bits of the stream, the low one first, where it is plain that no pattern ends with any of them, since none stands
    /// behind eight ones: whether it did.
    pub fn pass_four(&mut self, four: u8) -> bool
        requires { four < 16 }
        ensures stands { result ≡ true → (past : List Bool) → ReaderStands self.old past
            → ReaderStands self.new (past ++ low_bits 4 four) }
        ensures quiet { result ≡ true → (past : List Bool) → ReaderStands self.old past
            → sights_of (past ++ low_bits 4 four) ≡ sights_of past }
        ensures stays { result ≡ false → self.new ≡ self.old }
    {
        let latest = behind_four(self.latest, four);
        if has_eight_ones((latest % 0x1_0000) as u16) {
            return false;
        }
        self.latest = latest;
        true
    }

    /// The reader behind the eight bits of an octet more, the low one first, where it is plain that no pattern ends with any of them.
    pub(crate) fn behind(&self, octet: u8) -> Option<PatternReader>
        ensures stands { IfSome result (λ next. (past : List Bool) → ReaderStands self.now past → ReaderStands next (past ++ octet_bits octet)) }
        ensures quiet { IfSome result (λ _. (past : List Bool) → ReaderStands self.now past → sights_of (past ++ octet_bits octet) ≡ sights_of past) }
    {
        let latest = behind_octet(self.latest, octet);
        if has_eight_ones((latest % 0x1_0000) as u16) {
            None
        } else {
            Some(PatternReader { latest })
        }
    }

    /// Goes on by the eight bits of an octet, the low one first, as by four.
    pub fn pass_octet(&mut self, octet: u8) -> bool
        ensures stands { result ≡ true → (past : List Bool) → ReaderStands self.old past
            → ReaderStands self.new (past ++ octet_bits octet) }
        ensures quiet { result ≡ true → (past : List Bool) → ReaderStands self.old past
            → sights_of (past ++ octet_bits octet) ≡ sights_of past }
        ensures stays { result ≡ false → self.new ≡ self.old }
    {
        match self.behind(octet) {
            Some(next) => {
                *self = next;
                true
            }
            None => false,
        }
    }
}
