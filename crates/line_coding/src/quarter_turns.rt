//! Turned samples and turned lists of labels: what a quarter turn keeps. Each function's contract is a theorem.
ghost use Rattle.trellis_tables.specs.Laws.{FourTurnsAreNone};
ghost use Rattle.line_coding.specs.TurnedLaws.{TurnedSamplesFit, SamplesComeBack, LabelsComeBack, CostStays, SequencesTurn, LeastTurns, AllStatesTurn, LeastTurnsOfAll};

/// A sample of which no coordinate is -32768 is a sample of that kind once it is turned.
pub fn turned_samples_are_samples()
    ensures { TurnedSamplesFit }
{}

/// Four turns give back each sample, each label and each state.
pub fn four_turns_give_back()
    ensures samples { SamplesComeBack }
    ensures labels { LabelsComeBack }
    ensures states { FourTurnsAreNone }
{}

/// Turned labels cost against turned samples what they cost.
pub fn turned_labels_cost_the_same()
    ensures { CostStays }
{}

/// Turned labels are a sequence for turned samples, from the turned starts, exactly where the labels are one.
pub fn turned_labels_are_sequences()
    ensures { SequencesTurn }
{}

/// Turned labels are least for turned samples, from the turned starts, exactly where the labels are least.
pub fn turned_labels_are_least()
    ensures { LeastTurns }
{}

/// All states are their own turn, so what is least from any state stays so.
pub fn all_states_are_their_turn()
    ensures turn { AllStatesTurn }
    ensures least { LeastTurnsOfAll }
{}
