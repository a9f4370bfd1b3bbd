//! Theorems of scrambling. Each function's contract is a theorem over all lists of bits.
ghost use Rattle.std.specs.Prelude.{◌≡◌};
ghost use Rattle.scramblers.specs.Mode.{tap_of};
ghost use Rattle.scramblers.specs.Laws.{ReadsBackwards, GivesBack, HasOneLine, FirstBitsStay, DependsOnThree, RightAfter23};

use crate::{ANSWER_TAP, CALL_TAP, Mode};

/// The taps are those of the modes.
pub fn each_mode_has_its_tap()
    ensures call { tap_of Mode.Call ≡ CALL_TAP }
    ensures answer { tap_of Mode.Answer ≡ ANSWER_TAP }
{}

/// To descramble is to read a scrambling backwards.
pub fn descrambling_reads_backwards()
    ensures { ReadsBackwards }
{}

/// A descrambler gives back what a scrambler of the same tap was given.
pub fn input_comes_back()
    ensures { GivesBack }
{}

/// An input has one line.
pub fn input_has_one_line()
    ensures { HasOneLine }
{}

/// What was sent of the first bits stays, whatever is put in later.
pub fn first_bits_stay()
    ensures { FirstBitsStay }
{}

/// A wrong bit of the line disturbs at most three outputs: at its place, and TAP and 23 places later.
pub fn output_depends_on_three_bits()
    ensures { DependsOnThree }
{}

/// After 23 right bits in succession the next output is right, whatever came before.
pub fn output_is_right_after_23_bits()
    ensures { RightAfter23 }
{}
