//! Theorems over all lists of labels and bits. The functions do nothing: each theorem is a contract.
ghost use Rattle.std.specs.Prelude.{◌≡◌};
ghost use Rattle.exact_decoder.specs.Surviving.V32.{line_depth};
ghost use Rattle.line_coding.specs.Demodulates.{OneReading, ComesBack, FirstBitsStay, IsFourTimes};
ghost use Rattle.line_coding.specs.Laws.{PickedUpOnce, TurnedAreAlike, MiddleIsSent, ReadersPickUp};
ghost use Rattle.line_coding.specs.declared.line.TheConstants.{DEPTH};

/// Labels carry one list of bits, four for each label.
pub fn one_reading()
    ensures one { OneReading }
    ensures length { IsFourTimes }
{}

/// The labels that a modulator coded give back the bits that it was given.
pub fn bits_come_back()
    ensures { ComesBack }
{}

/// What was read of the first labels stays, whatever follows.
pub fn first_bits_stay()
    ensures { FirstBitsStay }
{}

/// A line is lost past as many labels as its definition says.
pub fn depth_of_a_line()
    ensures { DEPTH ≡ line_depth }
{}

/// The labels of a line that is picked up in its middle give one list of bits.
pub fn one_list_is_picked_up()
    ensures { PickedUpOnce }
{}

/// Labels that are turned by a quarter give the same bits.
pub fn turned_labels_give_the_same()
    ensures { TurnedAreAlike }
{}

/// The last labels of a line give the bits that the line carries there.
pub fn bits_in_the_middle_are_those_sent()
    ensures { MiddleIsSent }
{}

/// What a [`crate::MiddleReader`] has read are the bits that the labels give which its decoder released, from any state.
pub fn readers_pick_up()
    ensures { ReadersPickUp }
{}
