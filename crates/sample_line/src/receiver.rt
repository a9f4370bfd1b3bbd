// The receiver behind the decoder: what is found in the bits.
ghost use Rattle.std.specs.Prelude.{◌≡◌, ◌<◌, true, false, Some, ℕ, Bool, List, [], ◌∷◌, ◌++◌};
ghost use Rattle.frame_check.specs.Bits.{low_bits, octet_bits};
ghost use Rattle.bit_stuffing.specs.Deframer.{DeframerStands};
ghost use Rattle.bit_stuffing.specs.declared.piece.Piece.{Piece};
ghost use Rattle.shared_terms.specs.declared.role.Role.{Role};
ghost use Rattle.lapm_frames.specs.declared.seen.Seen.{Seen};
ghost use Rattle.detection.specs.Reader.{ReaderStands};
ghost use Rattle.sample_line.specs.Tallies.{PatternsAreTallied, PiecesAreTallied, Tallies, TalliesBetween, WholeIsTallied};
ghost use Rattle.detection.specs.Ear.{HasHeard};

use crate::Framing;
use crate::tally::{Tally, carries_frame};
use bit_stuffing::{Deframer, Piece};
use detection::{Ear, PatternReader};
use lapm_frames::{CheckedFault, Sent, read_checked_lent};

/// What is known of the slot that is received: what was sent in it, and how its receiver judges frames.
#[derive(Clone, Copy)]
pub(crate) struct Slot<'a> {
    /// What was sent in it.
    pub sent: &'a Sent,
    /// By the hearer's check.
    pub framing: Framing,
}

/// Whether a whole piece ends here.
fn is_whole(piece: Option<Piece>) -> bool
    ensures yes { result ≡ true → piece ≡ Some Piece.Whole }
    ensures no { result ≡ false → piece ≡ Some Piece.Whole → ⊥ }
{
    matches!(piece, Some(Piece::Whole))
}

/// The tally once a whole piece was received: its octets count where they pass the check, whether they are a frame or not. A frame has room for the
/// longest information: what each bit goes through has no part in that.
fn with_whole(whole: &[u8], slot: Slot<'_>, tally: Tally) -> Tally
    requires { slot.framing.dlci < 64 }
    ensures { (octets : List (List ℕ)) (patterns : List Seen) → Tallies slot.entry.framing.sender slot.entry.framing.dlci slot.entry.sent.now octets patterns tally
        → WholeIsTallied slot.entry.framing.check slot.entry.framing.sender slot.entry.framing.dlci slot.entry.sent.now whole.now octets patterns result }
{
    match read_checked_lent(
        whole,
        slot.framing.check,
        slot.framing.sender,
        slot.framing.dlci,
    ) {
        Ok(frame) => tally.after_octets(carries_frame(slot.sent, &frame)),
        Err(CheckedFault::Refused(_)) => tally.after_octets(false),
        Err(CheckedFault::BadCheck) => tally,
    }
}

/// The tally once the deframer took one bit more: with the piece that ends there, if one does.
fn with_bit(deframer: &mut Deframer, bit: bool, slot: Slot<'_>, tally: Tally) -> Tally
    requires { slot.framing.dlci < 64 }
    ensures stands { (bits : List Bool) → DeframerStands deframer.old bits → DeframerStands deframer.new (bits ++ bit ∷ []) }
    ensures tallied { (bits : List Bool) (octets : List (List ℕ)) (patterns : List Seen) → DeframerStands deframer.old bits
        → Tallies slot.entry.framing.sender slot.entry.framing.dlci slot.entry.sent.now octets patterns tally
        → PiecesAreTallied slot.entry.framing.check slot.entry.framing.sender slot.entry.framing.dlci slot.entry.sent.now bits (bits ++ bit ∷ []) octets patterns result }
{
    if is_whole(deframer.push(bit)) {
        with_whole(deframer.whole(), slot, tally)
    } else {
        tally
    }
}

/// The tally once the deframer took four bits more: with the pieces that end there.
fn with_four(deframer: &mut Deframer, four: u8, slot: Slot<'_>, tally: Tally) -> Tally
    requires channel { slot.framing.dlci < 64 }
    requires four { four < 16 }
    ensures stands { (bits : List Bool) → DeframerStands deframer.old bits → DeframerStands deframer.new (bits ++ low_bits 4 four) }
    ensures tallied { (bits : List Bool) (octets : List (List ℕ)) (patterns : List Seen) → DeframerStands deframer.old bits
        → Tallies slot.entry.framing.sender slot.entry.framing.dlci slot.entry.sent.now octets patterns tally
        → PiecesAreTallied slot.entry.framing.check slot.entry.framing.sender slot.entry.framing.dlci slot.entry.sent.now bits (bits ++ low_bits 4 four) octets patterns result }
{
    if deframer.pass_four(four) {
        return tally;
    }
    let tally = with_bit(deframer, four % 2 == 1, slot, tally);
    let tally = with_bit(deframer, four / 2 % 2 == 1, slot, tally);
    let tally = with_bit(deframer, four / 4 % 2 == 1, slot, tally);
    with_bit(deframer, four / 8 == 1, slot, tally)
}

/// The tally once the deframer took the bits of an octet more: with the pieces that end there. Mostly flags follow one another.
fn with_octet(deframer: &mut Deframer, octet: u8, slot: Slot<'_>, tally: Tally) -> Tally
    requires { slot.framing.dlci < 64 }
    ensures stands { (bits : List Bool) → DeframerStands deframer.old bits → DeframerStands deframer.new (bits ++ octet_bits octet) }
    ensures tallied { (bits : List Bool) (octets : List (List ℕ)) (patterns : List Seen) → DeframerStands deframer.old bits
        → Tallies slot.entry.framing.sender slot.entry.framing.dlci slot.entry.sent.now octets patterns tally
        → PiecesAreTallied slot.entry.framing.check slot.entry.framing.sender slot.entry.framing.dlci slot.entry.sent.now bits (bits ++ octet_bits octet) octets patterns result }
{
    if deframer.pass_flags(octet) {
        return tally;
    }
    if deframer.pass(octet) {
        return tally;
    }
    let tally = with_four(deframer, octet % 16, slot, tally);
    with_four(deframer, octet / 16, slot, tally)
}

/// The tally once the reader took one bit more: with the pattern that ends there, if one does.
fn with_bit_seen(reader: &mut PatternReader, bit: bool, sent: &Sent, tally: Tally) -> Tally
    ensures stands { (bits : List Bool) → ReaderStands reader.old bits → ReaderStands reader.new (bits ++ bit ∷ []) }
    ensures tallied { (sender : Role) (dlci : ℕ) (bits : List Bool) (octets : List (List ℕ)) (patterns : List Seen) → ReaderStands reader.old bits
        → Tallies sender dlci sent.now octets patterns tally
        → PatternsAreTallied sender dlci sent.now bits (bits ++ bit ∷ []) octets patterns result }
{
    let pattern = reader.push(bit);
    tally.with_pattern(sent, pattern)
}

/// The tally once the reader took four bits more: with the patterns that end there.
fn with_four_seen(reader: &mut PatternReader, four: u8, sent: &Sent, tally: Tally) -> Tally
    requires { four < 16 }
    ensures stands { (bits : List Bool) → ReaderStands reader.old bits → ReaderStands reader.new (bits ++ low_bits 4 four) }
    ensures tallied { (sender : Role) (dlci : ℕ) (bits : List Bool) (octets : List (List ℕ)) (patterns : List Seen) → ReaderStands reader.old bits
        → Tallies sender dlci sent.now octets patterns tally
        → PatternsAreTallied sender dlci sent.now bits (bits ++ low_bits 4 four) octets patterns result }
{
    if reader.pass_four(four) {
        return tally;
    }
    let tally = with_bit_seen(reader, four % 2 == 1, sent, tally);
    let tally = with_bit_seen(reader, four / 2 % 2 == 1, sent, tally);
    let tally = with_bit_seen(reader, four / 4 % 2 == 1, sent, tally);
    with_bit_seen(reader, four / 8 == 1, sent, tally)
}

/// The tally once the reader took the bits of an octet more: with the patterns that end there.
fn with_octet_seen(reader: &mut PatternReader, octet: u8, sent: &Sent, tally: Tally) -> Tally
    ensures stands { (bits : List Bool) → ReaderStands reader.old bits → ReaderStands reader.new (bits ++ octet_bits octet) }
    ensures tallied { (sender : Role) (dlci : ℕ) (bits : List Bool) (octets : List (List ℕ)) (patterns : List Seen) → ReaderStands reader.old bits
        → Tallies sender dlci sent.now octets patterns tally
        → PatternsAreTallied sender dlci sent.now bits (bits ++ octet_bits octet) octets patterns result }
{
    if reader.pass_octet(octet) {
        return tally;
    }
    let tally = with_four_seen(reader, octet % 16, sent, tally);
    with_four_seen(reader, octet / 16, sent, tally)
}

/// The tally once four bits more were read.
pub(crate) fn push_four(ear: &mut Ear, four: u8, slot: Slot<'_>, tally: Tally) -> Tally
    requires channel { slot.framing.dlci < 64 }
    requires four { four < 16 }
    ensures stands { (bits : List Bool) → HasHeard ear.old bits → HasHeard ear.new (bits ++ low_bits 4 four) }
    ensures tallies { (earlier bits : List Bool) → HasHeard ear.old bits
        → TalliesBetween slot.entry.framing.check slot.entry.framing.sender slot.entry.framing.dlci slot.entry.sent.now earlier bits tally
        → TalliesBetween slot.entry.framing.check slot.entry.framing.sender slot.entry.framing.dlci slot.entry.sent.now earlier (bits ++ low_bits 4 four) result }
{
    let tally = with_four_seen(&mut ear.reader, four, slot.sent, tally);
    with_four(&mut ear.deframer, four, slot, tally)
}

/// The tally once the bits of an octet more were read, the low one first.
pub(crate) fn push_octet(ear: &mut Ear, octet: u8, slot: Slot<'_>, tally: Tally) -> Tally
    requires { slot.framing.dlci < 64 }
    ensures stands { (bits : List Bool) → HasHeard ear.old bits → HasHeard ear.new (bits ++ octet_bits octet) }
    ensures tallies { (earlier bits : List Bool) → HasHeard ear.old bits
        → TalliesBetween slot.entry.framing.check slot.entry.framing.sender slot.entry.framing.dlci slot.entry.sent.now earlier bits tally
        → TalliesBetween slot.entry.framing.check slot.entry.framing.sender slot.entry.framing.dlci slot.entry.sent.now earlier (bits ++ octet_bits octet) result }
{
    let tally = with_octet_seen(&mut ear.reader, octet, slot.sent, tally);
    with_octet(&mut ear.deframer, octet, slot, tally)
}
