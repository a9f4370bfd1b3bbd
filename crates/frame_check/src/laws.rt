//! Theorems over the definition of the check alone. The functions do nothing: each theorem is a contract.
ghost use Rattle.std.specs.Prelude.{◌≡◌, ℕ, ◌+◌, ◌-◌, List, Bool, length, take};
ghost use Rattle.frame_check.specs.FrameCheck.{IsCheckOf, IsChecked, Leaves, width_of, generator_of};
ghost use Rattle.frame_check.specs.Division.{check_of, count_of};
ghost use Rattle.frame_check.specs.declared.check.Check.{Check};
ghost use Rattle.frame_check.specs.declared.sizes.TheConstants.{INFO, WHOLE, SLOT};

/// The numbers that the rules name: the most octets of information, the most octets of a frame with its check, and the most symbols
/// of a slot.
pub fn sizes()
    ensures info { INFO ≡ 1024 }
    ensures whole { WHOLE ≡ 1031 }
    ensures slot { SLOT ≡ 2615 }
{}

/// Bits leave one remainder.
pub fn one_remainder()
    ensures { (check : Check) (bits remainder other : List Bool)
        → Leaves (width_of check) (generator_of check) bits remainder
        → Leaves (width_of check) (generator_of check) bits other → remainder ≡ other }
{}

/// Octets have exactly one check. It has two or four octets, and the long division gives it.
pub fn one_check()
    ensures exists { (check : Check) (octets : List ℕ) → IsCheckOf check octets (check_of check octets) }
    ensures no_other { (check : Check) (octets other : List ℕ) → IsCheckOf check octets other
        → other ≡ check_of check octets }
    ensures count { (check : Check) (octets : List ℕ) → length (check_of check octets) ≡ count_of check }
{}

/// A whole that passes is one list of octets with its check: that in front of its last two or four.
pub fn one_front()
    ensures one { (check : Check) (octets others whole : List ℕ) → IsChecked check octets whole
        → IsChecked check others whole → octets ≡ others }
    ensures count { (check : Check) (octets whole : List ℕ) → IsChecked check octets whole
        → length whole ≡ length octets + count_of check }
    ensures front { (check : Check) (octets whole : List ℕ) → IsChecked check octets whole
        → octets ≡ take (length whole - count_of check) whole }
{}
