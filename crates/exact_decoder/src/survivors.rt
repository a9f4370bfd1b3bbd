//! Theorems of survivors, of what they release, and of where a line is lost. Each function's contract is a theorem.
ghost use Rattle.symbol_map.specs.declared.sample.Sample.{Sample};
ghost use Rattle.exact_decoder.specs.Surviving.Trellises.{Trellis};
ghost use Rattle.exact_decoder.specs.Surviving.Laws.{SurvivesOnce, FrontsSurvive, EachReachedSurvives, SomeSurvives, SomeIsReleased, ReleasedOnce, ReleasedStays, ReleasedIsLeast, FirstLeastOnce, LostOnce, LostStays, OfEachCode};

/// A state has at most one survivor.
pub fn states_have_one_survivor()
    ensures { (t : Trellis Sample) → SurvivesOnce t }
{}

/// What a survivor begins with survived the samples at the same places.
pub fn fronts_of_survivors_survive()
    ensures { (t : Trellis Sample) → FrontsSurvive t }
{}

/// Each state that a sequence leads to has a survivor, and whatever the samples there is such a state.
pub fn reached_states_have_survivors()
    ensures each { OfEachCode EachReachedSurvives }
    ensures some { OfEachCode SomeSurvives }
{}

/// Whatever the samples, one list is released.
pub fn one_list_is_released()
    ensures some { OfEachCode SomeIsReleased }
    ensures once { (t : Trellis Sample) → ReleasedOnce t }
{}

/// What is released stays a prefix of what is released later, whatever samples follow.
pub fn released_labels_stay()
    ensures { (t : Trellis Sample) → ReleasedStays t }
{}

/// What is released begins a sequence than which none costs less.
pub fn released_labels_begin_a_least_sequence()
    ensures { OfEachCode ReleasedIsLeast }
{}

/// At most one sequence is the survivor of least cost with the smallest end state.
pub fn one_survivor_is_first_of_the_least()
    ensures { (t : Trellis Sample) → FirstLeastOnce t }
{}

/// A line is lost with one symbol or not at all, and it stays so, whatever samples follow.
pub fn lines_are_lost_once()
    ensures once { (t : Trellis Sample) → LostOnce t }
    ensures stays { (t : Trellis Sample) → LostStays t }
{}
