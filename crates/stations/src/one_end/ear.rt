// What is heard in a stream of bits.
ghost use Rattle.std.specs.Prelude.{◌≡◌, ◌≤◌, ◌<◌, ◌+◌, ℕ, Bool, List, [], ◌∷◌, ◌++◌, length, slice_index_or, IfSome, IfNone};
ghost use Rattle.frame_check.specs.Bits.{octet_bits, bits_of};
ghost use Rattle.frame_check.specs.declared.check.Check.TheVariants.{Sixteen};
ghost use Rattle.lapm_frames.specs.declared.frame.Frame.{Frame};
ghost use Rattle.lapm_frames.specs.Checked.{SpellsFrame};
ghost use Rattle.link_account.specs.Numbers.{IsNumbered, HasNumbers};
ghost use Rattle.stations.specs.declared.one_end.limits.TheConstants.{SLOT_OCTETS};
ghost use Rattle.stations.specs.OneEnd.Heard.{IsHeard, filled, slot_bits};
ghost use Rattle.detection.specs.Ear.{HasHeard};

use crate::one_end::limits::SLOT_OCTETS;
use bit_stuffing::laws::one_lent;
use detection::Ear;
use detection::laws::{one_answer, sights_grow, sights_stay};
use frame_check::Check;
use lapm_frames::{Arrived, Frame, read_checked};
use shared_terms::Role;

/// The frame of the peer that these octets are, where they pass the check of 16 bits.
fn frame_in(whole: &[u8], peer: Role) -> Option<Frame>
    ensures some { IfSome result (λ frame. SpellsFrame Sixteen peer 0 whole.now frame) }
    ensures none { IfNone result ((frame : Frame) → SpellsFrame Sixteen peer 0 whole.now frame → ⊥) }
    ensures numbers { IfSome result HasNumbers }
{
    match read_checked(whole, Check::Sixteen, peer, 0) {
        Ok(frame) => Some(frame),
        Err(_) => None,
    }
}

/// The octet of a slot at that place: a short slot is filled with ones.
fn octet_at(slot: &[u8], place: usize) -> u8
    requires place { place < SLOT_OCTETS }
    requires short { length slot.now ≤ SLOT_OCTETS }
    ensures { result ≡ slice_index_or (filled slot.now) place 0 }
{
    match slot.get(place) {
        Some(octet) => *octet,
        None => 0xff,
    }
}

/// The next bit, with what ends there where nothing was heard before. What is heard is large: it is written once, where it is heard.
fn hear_bit(ear: &mut Ear, bit: bool, peer: Role, heard: &mut Arrived)
    requires { IsNumbered heard.old }
    ensures stands { (bits : List Bool) → HasHeard ear.old bits → HasHeard ear.new (bits ++ bit ∷ []) }
    ensures heard { (earlier bits : List Bool) → HasHeard ear.old (earlier ++ bits) → IsHeard peer earlier bits heard.old
        → IsHeard peer earlier (bits ++ bit ∷ []) heard.new }
    ensures numbers { IsNumbered heard.new }
{
    one_lent();
    let pattern = ear.reader.push(bit);
    ear.deframer.push(bit);
    if let Arrived::Nothing = heard {
        if let Some(seen) = pattern {
            *heard = Arrived::Pattern(seen);
        } else if let Some(frame) = frame_in(ear.deframer.whole(), peer) {
            *heard = Arrived::Frame(frame);
        }
    }
}

/// What was heard first, once the bits of an octet came behind what was heard before.
fn hear_octet(ear: &mut Ear, octet: u8, peer: Role, heard: &mut Arrived)
    requires { IsNumbered heard.old }
    ensures stands { (bits : List Bool) → HasHeard ear.old bits → HasHeard ear.new (bits ++ octet_bits octet) }
    ensures heard { (earlier bits : List Bool) → HasHeard ear.old (earlier ++ bits) → IsHeard peer earlier bits heard.old
        → IsHeard peer earlier (bits ++ octet_bits octet) heard.new }
    ensures numbers { IsNumbered heard.new }
{
    one_answer();
    sights_grow();
    sights_stay();
    if ear.pass(octet) {
        return;
    }
    for place in 0..8u32 {
        hear_bit(ear, (octet >> place) & 1 == 1, peer, heard);
    }
}

/// What is heard in a slot of these octets, or fewer.
pub(crate) fn hear_slot(ear: &mut Ear, slot: &[u8], peer: Role) -> Arrived
    requires { length slot.now ≤ SLOT_OCTETS }
    ensures stands { (bits : List Bool) → HasHeard ear.old bits → HasHeard ear.new (bits ++ slot_bits slot.now) }
    ensures heard { (bits : List Bool) → HasHeard ear.old bits → IsHeard peer bits (slot_bits slot.now) result }
    ensures numbers { IsNumbered result }
{
    let mut heard = Arrived::Nothing;
    for place in 0..SLOT_OCTETS {
        hear_octet(ear, octet_at(slot, place), peer, &mut heard);
    }
    heard
}
