// Theorems of differential coding. Each function's contract is a theorem over all lists of numbers below 4.
ghost use Rattle.trellis_tables.specs.Differential.Laws.{GivesBack, TurnsAgain, GoesOn, TurnsInBits, FirstTurnsStay, FirstReadingsStay, ForgetsATurn};

/// An unturner gives back what a turner was given.
pub fn turns_come_back()
    ensures { GivesBack }
{}

/// A turner makes again what an unturner was given.
pub fn line_comes_back()
    ensures { TurnsAgain }
{}

/// Each number sent is the one before it and one turn more, modulo 4.
pub fn each_turn_goes_on()
    ensures { GoesOn }
{}

/// One turn is the Recommendation's rule on the bits Q1, Q2, Y1 and Y2.
pub fn each_turn_in_bits()
    ensures { TurnsInBits }
{}

/// What was sent of the first turns stays, whatever follows.
pub fn first_turns_stay()
    ensures { FirstTurnsStay }
{}

/// What was read of the first numbers stays, whatever follows.
pub fn first_readings_stay()
    ensures { FirstReadingsStay }
{}

/// Where the whole line is turned, only the first reading can differ.
pub fn turned_line_reads_the_same()
    ensures { ForgetsATurn }
{}
