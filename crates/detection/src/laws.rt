//! Theorems over the definitions alone. The functions do nothing: each theorem is a contract.
ghost use Rattle.std.specs.Prelude.{◌≡◌, ℕ, ◌+◌, ◌*◌, ◌<◌, ◌≤◌, All, Bool, List, [], ◌∷◌, ◌++◌, length, Option};
ghost use Rattle.bit_stuffing.specs.Slots.{AreSlots, IsPlain, IsSlot, phase_after, slot_bits};
ghost use Rattle.bit_stuffing.specs.declared.slot_writer.TheConstants.{HEAD, TAIL};
ghost use Rattle.lapm_frames.specs.declared.seen.Seen.{Seen};
ghost use Rattle.detection.specs.Patterns.{EndsPattern, IsSeen, ones, seen_at};
ghost use Rattle.detection.specs.Slots.{Signal, CanCarry, pattern_bits, signal_bits, slot_of, slots_of};
ghost use Rattle.detection.specs.Slots.Signal.{PatternSlot};
ghost use Rattle.detection.specs.Sights.{EndsInSlot, IsSent, Sight, SightsAdded};
ghost use Rattle.detection.specs.Sights.{seen_in, sights_at, sights_of};

/// Each bit of a stream has exactly one answer, and the function gives it.
pub fn one_answer()
    ensures exists { (bits : List Bool) → IsSeen bits (seen_at bits) }
    ensures no_other { (bits : List Bool) (answer : Option Seen) → IsSeen bits answer → answer ≡ seen_at bits }
{}

/// At most one pattern ends with a bit, and its gaps can be read in one way only.
pub fn one_pattern()
    ensures kind { (bits : List Bool) (one other : Seen) → EndsPattern one bits → EndsPattern other bits → one ≡ other }
    ensures gaps { (bits : List Bool) (seen : Seen) → (one other : EndsPattern seen bits)
        → (one.a ≡ other.a) × (one.b ≡ other.b) × (one.e ≡ other.e) }
{}

/// One more bit of a stream adds what is seen at it to the patterns before.
pub fn sights_grow()
    ensures none { sights_of [] ≡ [] }
    ensures more { (bits : List Bool) (bit : Bool) → sights_of (bits ++ bit ∷ [])
        ≡ sights_of bits ++ sights_at (length bits + 1) (seen_at (bits ++ bit ∷ [])) }
{}

/// The patterns of a stream stay, whatever follows.
pub fn sights_stay()
    ensures { (bits more : List Bool) → (added : List Sight) × SightsAdded bits more added }
{}

/// Bits of patterns and of ones may fill a slot: no flag stands in them, and they end with ones.
pub fn patterns_are_plain()
    ensures patterns { (size : ℕ) (seen : Seen) → 4 * (HEAD + TAIL) < size → IsPlain size (pattern_bits size seen) }
    ensures marks { (size : ℕ) → 4 * (HEAD + TAIL) < size → IsPlain size (ones size) }
{}

/// The bits of a slot tell what it carries: at one size and flag phase no two of them are those of different signals.
pub fn one_signal()
    ensures { (size phase : ℕ) (one other : Signal) → 8 < size → phase < 8 → IsSlot size phase (slot_of size one) → IsSlot size phase (slot_of size other)
        → slot_bits size phase (slot_of size one) ≡ slot_bits size phase (slot_of size other) → one ≡ other }
{}

/// Slots of any kinds may follow one another, if each can carry what it does.
pub fn signals_are_slots()
    ensures { (size : ℕ) (signals : List Signal) → 4 * (HEAD + TAIL) < size → All (CanCarry size) signals
        → AreSlots size 0 (slots_of size signals) }
{}

/// One more slot comes behind those before, and so do its bits, by the flag phase behind them.
pub fn signals_grow()
    ensures slots { (size : ℕ) (before : List Signal) (signal : Signal) → slots_of size (before ++ signal ∷ [])
        ≡ slots_of size before ++ slot_of size signal ∷ [] }
    ensures bits { (size : ℕ) (before : List Signal) (signal : Signal) → signal_bits size (before ++ signal ∷ [])
        ≡ signal_bits size before ++ slot_bits size (phase_after size (slots_of size before)) (slot_of size signal) }
{}

/// Each pattern slot has its pattern, whatever came before: it ends first at the slot's 71st bit.
pub fn patterns_are_found()
    ensures { (size : ℕ) (before : List Signal) (seen : Seen) → EndsInSlot size before (PatternSlot seen) seen 71 }
{}

/// A pattern ends only in a slot of its kind, whatever slots came before, and never over a border of slots.
pub fn patterns_are_sent()
    ensures { (size : ℕ) (before : List Signal) (signal : Signal) → 4 * (HEAD + TAIL) < size
        → AreSlots size 0 (slots_of size (before ++ signal ∷ [])) → (seen : Seen) (place : ℕ) → 0 < place → place ≤ size
        → EndsInSlot size before signal seen place → IsSent size signal seen place }
{}

/// What is seen in a slot is what was sent in it and nothing else, whatever slots came before.
pub fn seen_is_sent()
    ensures { (size : ℕ) (before : List Signal) (signal : Signal) → 4 * (HEAD + TAIL) < size
        → AreSlots size 0 (slots_of size (before ++ signal ∷ []))
        → sights_of (signal_bits size (before ++ signal ∷ [])) ≡ sights_of (signal_bits size before)
        ++ seen_in (length (signal_bits size before)) signal }
{}
