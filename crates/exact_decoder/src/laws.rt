//! Theorems of the decoders of each code, whatever its states, labels and starts: they rest on the laws of [`TrellisCode`]
//! alone. Each function's contract is a theorem.
ghost use Rattle.std.specs.Prelude.{ℕ, Bool};
ghost use Rattle.exact_decoder.specs.Surviving.Trellises.{trellis_of, HasLaws};
ghost use Rattle.exact_decoder.specs.Surviving.Laws.{EachReachedSurvives, SomeSurvives, SurvivesOnce, SomeIsReleased, ReleasedOnce, ReleasedStays, ReleasedIsLeast, FirstLeastOnce, LostOnce, LostStays};
ghost use Rattle.exact_decoder.specs.Laws.{AreStarts, FromAnyStarts, OnlySentIsLeast, ReleasesSent, DecoderReleasesLeast, DecoderReleasesStay, DecodersAgree, FewUnreleased};

use trellis_tables::TrellisCode;

/// Each code, from any of its states, has the laws that survivors rest on.
pub fn codes_have_laws<const STATES: usize, const LABELS: usize, C: TrellisCode<STATES, LABELS>>()
    ensures { (starts : ℕ → Bool) → AreStarts STATES starts → HasLaws (trellis_of C.table C.points starts) STATES LABELS C.REACH }
{}

/// Each state that a sequence leads to has one survivor, and whatever the samples there is such a state.
pub fn reached_states_have_one_survivor<
    const STATES: usize,
    const LABELS: usize,
    C: TrellisCode<STATES, LABELS>,
>()
    ensures each { FromAnyStarts C.table C.points STATES EachReachedSurvives }
    ensures some { FromAnyStarts C.table C.points STATES SomeSurvives }
    ensures once { FromAnyStarts C.table C.points STATES SurvivesOnce }
{}

/// Whatever the samples, one list is released. It stays a prefix of what is released later, and begins a sequence than
/// which none costs less; of the least sequences that survive one has the smallest end state.
pub fn one_least_beginning_is_released<
    const STATES: usize,
    const LABELS: usize,
    C: TrellisCode<STATES, LABELS>,
>()
    ensures some { FromAnyStarts C.table C.points STATES SomeIsReleased }
    ensures once { FromAnyStarts C.table C.points STATES ReleasedOnce }
    ensures stays { FromAnyStarts C.table C.points STATES ReleasedStays }
    ensures least { FromAnyStarts C.table C.points STATES ReleasedIsLeast }
    ensures first { FromAnyStarts C.table C.points STATES FirstLeastOnce }
{}

/// A line is lost with one symbol or not at all, and it stays so, whatever samples follow.
pub fn lines_are_lost_once<
    const STATES: usize,
    const LABELS: usize,
    C: TrellisCode<STATES, LABELS>,
>()
    ensures once { FromAnyStarts C.table C.points STATES LostOnce }
    ensures stays { FromAnyStarts C.table C.points STATES LostStays }
{}

/// Of samples that are exactly the points of a code sequence, its labels are the only sequence of least cost, and what
/// is released after any sample is a prefix of them.
pub fn sent_labels_are_decoded<
    const STATES: usize,
    const LABELS: usize,
    C: TrellisCode<STATES, LABELS>,
>()
    ensures least { OnlySentIsLeast C.table C.points }
    ensures released { ReleasesSent C.table C.points }
{}

/// What a decoder has released begins a sequence than which none costs less, stays a prefix of what any decoder of
/// more samples has released, and is that of each other decoder of the same samples, which also lost the line with
/// the same symbol or not at all.
pub fn decoders_release_what_stays<
    const STATES: usize,
    const LABELS: usize,
    C: TrellisCode<STATES, LABELS>,
>()
    ensures least { DecoderReleasesLeast C.table C.points STATES }
    ensures stays { DecoderReleasesStay C.table C.points }
    ensures agree { DecodersAgree C.table C.points }
{}

/// At most one label more than the depth is unreleased after any sample, also after the one that loses the line.
pub fn few_labels_are_unreleased<
    const STATES: usize,
    const LABELS: usize,
    C: TrellisCode<STATES, LABELS>,
>()
    ensures { FewUnreleased C.table C.points }
{}
