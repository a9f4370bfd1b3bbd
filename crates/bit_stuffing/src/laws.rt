//! Theorems over the definitions alone. The functions do nothing: each theorem is a contract.
ghost use Rattle.std.specs.Prelude.{◌≡◌, ◌≢◌, ◌⊎◌, ℕ, ◌+◌, ◌*◌, ◌/◌, ◌%◌, ◌<◌, ◌≤◌, Bool, true};
ghost use Rattle.std.specs.Prelude.{List, [], ◌∷◌, ◌++◌, length, replicate, Option, Some, None};
ghost use Rattle.std.specs.Bool.{beq};
ghost use Rattle.std.specs.List.{ends_with};
ghost use Rattle.bit_stuffing.specs.declared.piece.Piece.{Piece};
ghost use Rattle.bit_stuffing.specs.declared.piece.TheConstants.{SHORTEST};
ghost use Rattle.bit_stuffing.specs.declared.slot_writer.TheConstants.{HEAD, TAIL};
ghost use Rattle.bit_stuffing.specs.Found.{Found, found_at, listed, pieces_of, seven_ones};
ghost use Rattle.bit_stuffing.specs.Found.{answer_of, lent_of};
ghost use Rattle.bit_stuffing.specs.Flags.{Closes};
ghost use Rattle.bit_stuffing.specs.Pieces.{Carries, IsAnswer, IsLent, content};
ghost use Rattle.bit_stuffing.specs.Sent.{Added, AreWholeOrAborted, SlotAdds, wholes};
ghost use Rattle.bit_stuffing.specs.Slots.{Slot, are_flagless, frames_of, opening, slot_bits};
ghost use Rattle.bit_stuffing.specs.Slots.{AreSlots, IsPlain, IsSlot};
ghost use Rattle.bit_stuffing.specs.Slots.Slot.{Flags};
ghost use Rattle.bit_stuffing.specs.Slots.{next_phase, phase_after, sent_bits};
ghost use Rattle.bit_stuffing.specs.Stuffing.{Fits, Stuffs, removed, room_after, stuffed};
ghost use Rattle.bit_stuffing.specs.Tails.{LastPiecesAreFound};

/// The numbers that the rules name: the octets of the shortest frame with its check, and the symbols that a slot has before a frame
/// and behind it.
pub fn sizes()
    ensures shortest { SHORTEST ≡ 4 }
    ensures head { HEAD ≡ 10 }
    ensures tail { TAIL ≡ 128 }
{}

/// Each content has exactly one stuffing.
pub fn one_stuffing()
    ensures exists { (content : List Bool) → Stuffs content (stuffed 5 content) }
    ensures no_other { (content line : List Bool) → Stuffs content line → line ≡ stuffed 5 content }
{}

/// The bits of a line carry at most one content.
pub fn one_content()
    ensures { (content other line : List Bool) → Stuffs content line → Stuffs other line → content ≡ other }
{}

/// Each bit of a stream has exactly one answer, and the function gives it.
pub fn one_answer()
    ensures exists { (past : List Bool) (bit : Bool) → IsAnswer past bit (answer_of (past ++ bit ∷ [])) }
    ensures no_other { (past : List Bool) (bit : Bool) (answer : Option Piece) → IsAnswer past bit answer
        → answer ≡ answer_of (past ++ bit ∷ []) }
{}

/// Behind each bit of a stream exactly one list of octets is lent, and the function gives it.
pub fn one_lent()
    ensures exists { (bits : List Bool) → IsLent bits (lent_of bits) }
    ensures no_other { (bits : List Bool) (octets : List ℕ) → IsLent bits octets → octets ≡ lent_of bits }
{}

/// What stands between two flags has a zero behind each five ones, if anything follows these. So it is no stuffing of
/// octets exactly where its bits without these zeros are no whole octets, or where it ends with five ones.
pub fn ragged_contents()
    ensures fits { (past : List Bool) (bit : Bool) (closes : Closes past (past ++ bit ∷ []))
        → Fits 5 (content (past ++ bit ∷ []) closes.opened) }
    ensures ragged { (line : List Bool) (octets : List ℕ)
        → (length (removed 5 line) % 8 ≢ 0) ⊎ (room_after 5 line ≡ 0) → Carries line octets → ⊥ }
    ensures carried { (line : List Bool) → Fits 5 line → length (removed 5 line) % 8 ≡ 0
        → room_after 5 line ≢ 0 → (octets : List ℕ) × Carries line octets }
{}

/// One more bit of a stream adds what is found at it to the pieces before.
pub fn pieces_grow()
    ensures none { pieces_of [] ≡ [] }
    ensures more { (bits : List Bool) (bit : Bool)
        → pieces_of (bits ++ bit ∷ []) ≡ pieces_of bits ++ listed (found_at (bits ++ bit ∷ [])) }
{}

/// The pieces of a stream stay, whatever follows.
pub fn pieces_stay()
    ensures { (bits more : List Bool) → (added : List Found) × Added bits more added }
{}

/// Of a stream whose first bits aren't heard the last pieces are found: all but those that end before or with the first flag that is
/// heard whole.
pub fn last_pieces_are_found()
    ensures { LastPiecesAreFound }
{}

/// What is found in a slot is what was sent in it and nothing else, whatever slots came before.
pub fn found_is_sent()
    ensures { (size : ℕ) (before : List Slot) (slot : Slot) → AreSlots size 0 (before ++ slot ∷ [])
        → (added : List Found) × SlotAdds size before slot added }
{}

/// The whole pieces in the bits of slots are their frames, in order. No others are found but aborted ones.
pub fn wholes_are_frames()
    ensures frames { (size : ℕ) (slots : List Slot) → AreSlots size 0 slots
        → wholes (pieces_of (sent_bits size slots)) ≡ frames_of slots }
    ensures others { (size : ℕ) (slots : List Slot) → AreSlots size 0 slots
        → AreWholeOrAborted (pieces_of (sent_bits size slots)) }
{}

/// One more slot adds its bits to those sent before, by the flag phase behind them.
pub fn sent_grows()
    ensures bits { (size : ℕ) (slots : List Slot) (slot : Slot) → sent_bits size (slots ++ slot ∷ [])
        ≡ sent_bits size slots ++ slot_bits size (phase_after size slots) slot }
    ensures phase { (size : ℕ) (slots : List Slot) (slot : Slot) → phase_after size (slots ++ slot ∷ [])
        ≡ next_phase size (phase_after size slots) slot }
{}

/// The bits of a flag slot tell which frame it carries, and whether it carries one.
pub fn one_frame()
    ensures { (size phase : ℕ) (one other : Option (List ℕ)) → IsSlot size phase (Flags one) → IsSlot size phase (Flags other)
        → slot_bits size phase (Flags one) ≡ slot_bits size phase (Flags other) → one ≡ other }
{}

/// A slot's bits are as many as its size. Behind it stand fewer than the eight bits of a flag.
pub fn slots_have_size()
    ensures size { (size phase : ℕ) (slot : Slot) → IsSlot size phase slot
        → length (slot_bits size phase slot) ≡ size }
    ensures phase { (size : ℕ) (slots : List Slot) → phase_after size slots < 8 }
{}

/// Two tests tell bits that may fill a slot of their own.
pub fn plain_by_tests()
    ensures { (bits : List Bool) → are_flagless bits ≡ true → ends_with beq bits seven_ones ≡ true
        → IsPlain (length bits) bits }
{}

/// Such bits may be followed by any number of ones.
pub fn plain_grows()
    ensures { (size more : ℕ) (bits : List Bool) → IsPlain size bits
        → IsPlain (size + more) (bits ++ replicate more true) }
{}

/// How many bits a flag slot has up to and with its frame's closing flag, at most. Stuffing makes a content longer by
/// no more than a fifth.
pub fn opening_is_short()
    ensures without { (phase : ℕ) → phase < 8 → length (opening phase None) ≤ 39 }
    ensures with_frame { (phase : ℕ) (octets : List ℕ) → phase < 8
        → length (opening phase (Some octets)) ≤ 47 + 8 * length octets + 8 * length octets / 5 }
{}
