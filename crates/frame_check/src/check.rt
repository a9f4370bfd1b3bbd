// The check that goes behind the octets of a frame.
ghost use Rattle.std.specs.Prelude.{◌≡◌, ◌+◌, ◌≤◌, ◌↔◌, ◌++◌, IsTrue, length};
ghost use Rattle.frame_check.specs.FrameCheck.{IsChecked, Passes};
ghost use Rattle.frame_check.specs.Division.{check_of, with_check, count_of};
ghost use Rattle.frame_check.specs.declared.check.Check.TheVariants.{Sixteen, ThirtyTwo};

use crate::Octets;
use crate::register::{SIXTEEN, THIRTY_TWO, after_both};

/// One of the two checks of ITU-T V.42, by its number of bits.
#[derive(Clone, Copy, PartialEq, Eq)]
pub enum Check {
    /// Two octets; generator x^16 + x^12 + x^5 + 1.
    Sixteen,
    /// Four octets; the generator of HDLC's 32-bit check.
    ThirtyTwo,
}

impl Check {
    /// How many octets the check has.
    pub fn len(self) -> usize
        ensures { result ≡ count_of self }
    {
        match self {
            Check::Sixteen => 2,
            Check::ThirtyTwo => 4,
        }
    }
}

/// The check of 16 bits, whose generator is x^16 + x^12 + x^5 + 1, of both octets in a row.
fn sixteen(head: &[u8], rest: &[u8]) -> [u8; 2]
    ensures { result ≡ check_of Sixteen (head.now ++ rest.now) }
{
    let register = after_both(0xffff, &SIXTEEN, head, rest);
    (!(register as u16)).to_le_bytes()
}

/// The check of 32 bits, which ISO/IEC 13239 has too, of both octets in a row.
fn thirty_two(head: &[u8], rest: &[u8]) -> [u8; 4]
    ensures { result ≡ check_of ThirtyTwo (head.now ++ rest.now) }
{
    let register = after_both(0xffff_ffff, &THIRTY_TWO, head, rest);
    (!register).to_le_bytes()
}

/// The check of octets that stand in two places, one behind the other: of a frame's head and its information, say. The octet that
/// goes first on the line is in front.
pub fn check_octets(head: &[u8], rest: &[u8], check: Check) -> Octets<4>
    ensures value { result ≡ check_of check (head.now ++ rest.now) }
    ensures count { length result ≡ count_of check }
{
    let mut check_octets = Octets::new();
    match check {
        Check::Sixteen => check_octets.extend(&sixteen(head, rest)),
        Check::ThirtyTwo => check_octets.extend(&thirty_two(head, rest)),
    }
    check_octets
}

/// Puts the check of the octets behind them.
pub fn append<const CAP: usize>(octets: &mut Octets<CAP>, check: Check)
    requires room { length octets.old + count_of check ≤ CAP }
    ensures checked { IsChecked check octets.old octets.new }
    ensures value { octets.new ≡ with_check check octets.old }
{
    let check_octets = check_octets(&[], octets.as_slice(), check);
    octets.extend(check_octets.as_slice());
}

/// Whether the last octets are the check of those before. Of fewer octets than a check has it is false.
pub fn passes(octets: &[u8], check: Check) -> bool
    ensures { IsTrue result ↔ Passes check octets.now }
{
    let Some(len) = octets.len().checked_sub(check.len()) else {
        return false;
    };
    let (front, last) = octets.split_at(len);
    last == check_octets(&[], front, check).as_slice()
}
