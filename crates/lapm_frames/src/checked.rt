// Frames as octets with their check.
ghost use Rattle.std.specs.Prelude.{◌≡◌, ◌<◌, ◌≤◌, ◌↔◌, ◌++◌, length, IfOk};
ghost use Rattle.frame_check.specs.Division.{check_of};
ghost use Rattle.frame_check.specs.declared.sizes.TheConstants.{INFO};
ghost use Rattle.lapm_frames.specs.declared.frame.Frame.{Frame};
ghost use Rattle.lapm_frames.specs.declared.fault.CheckedFault.{CheckedFault};
ghost use Rattle.lapm_frames.specs.Frame.{information_of, spelled, IsFrame};
ghost use Rattle.lapm_frames.specs.Checked.{check_for, check_heard, checked, IsCheckedFault, SpellsFrame};

use crate::spelling::{HEAD, head, read_lent};
use crate::{CheckedFault, Frame, LentFrame, Role};
use frame_check::{Check, Octets, Whole, check_octets, passes};

/// The check of a frame, where the ends agreed on this one: I frames and S frames have it, U frames that of 16 bits.
fn check_for(frame: &Frame, check: Check) -> Check
    ensures { result ≡ check_for check frame.now }
{
    if frame.parts().nr.is_some() {
        check
    } else {
        Check::Sixteen
    }
}

/// The check by which octets are judged, where the ends agreed on this one.
fn check_heard(octets: &[u8], check: Check) -> Check
    ensures { result ≡ check_heard check octets.now }
{
    match octets.get(1) {
        Some(control) if *control % 4 == 3 => Check::Sixteen,
        _ => check,
    }
}

/// A frame's octets with its check. The information is lent by the frame.
#[derive(Drop)]
pub struct CheckedParts<'a> {
    /// What stands in front of the information: address, control octet, and N(R) with P/F where the frame has that.
    pub head: Octets<HEAD>,
    /// The information; no octets where the frame has none.
    pub information: &'a [u8],
    /// The check of both.
    pub check: Octets<4>,
}

/// The frame's octets with the check that it has where the ends agreed on this one, as this end sends it on this channel, in parts.
pub fn check_parts(frame: &Frame, check: Check, sender: Role, dlci: u8) -> CheckedParts<'_>
    requires channel { dlci < 64 }
    requires frame { IsFrame frame.now }
    ensures octets { result.head ++ result.information.now ++ result.check ≡ checked check sender dlci frame.now }
    ensures information { result.information.now ≡ information_of frame.now }
    ensures check { result.check ≡ check_of (check_for check frame.now) (spelled frame.now sender dlci) }
    ensures room { length result.information.now ≤ INFO }
{
    let parts = frame.parts();
    let head = head(&parts, sender, dlci);
    let information = parts.information();
    let check = check_octets(head.as_slice(), information, check_for(frame, check));
    CheckedParts {
        head,
        information,
        check,
    }
}

/// The frame's octets with the check that it has where the ends agreed on this one, as this end sends it on this channel.
pub fn write_checked(frame: &Frame, check: Check, sender: Role, dlci: u8) -> Whole
    requires channel { dlci < 64 }
    requires frame { IsFrame frame.now }
    ensures { result ≡ checked check sender dlci frame.now }
{
    let parts = check_parts(frame, check, sender, dlci);
    let mut octets = Whole::new();
    octets.extend(parts.head.as_slice());
    octets.extend(parts.information);
    octets.extend(parts.check.as_slice());
    octets
}

/// The frame that these octets with their check are, sent by this end on this channel, where the ends agreed on this check. Its
/// information is lent by the octets.
pub fn read_checked_lent(
    octets: &[u8],
    check: Check,
    sender: Role,
    dlci: u8,
) -> Result<LentFrame<'_>, CheckedFault>
    requires { dlci < 64 }
    ensures ok { IfOk result (SpellsFrame check sender dlci octets.now) }
    ensures all { (frame : Frame) → SpellsFrame check sender dlci octets.now frame → result ≡ Ok frame }
    ensures fault { (fault : CheckedFault) → (result ≡ Err fault) ↔ IsCheckedFault check sender dlci octets.now fault }
{
    let used = check_heard(octets, check);
    if !passes(octets, used) {
        return Err(CheckedFault::BadCheck);
    }
    let (front, _) = octets.split_at(octets.len() - used.len());
    match read_lent(front, sender, dlci) {
        Ok(frame) => Ok(frame),
        Err(fault) => Err(CheckedFault::Refused(fault)),
    }
}

/// The frame that these octets with their check are, sent by this end on this channel, where the ends agreed on this check.
pub fn read_checked(
    octets: &[u8],
    check: Check,
    sender: Role,
    dlci: u8,
) -> Result<Frame, CheckedFault>
    requires { dlci < 64 }
    ensures ok { IfOk result (SpellsFrame check sender dlci octets.now) }
    ensures all { (frame : Frame) → SpellsFrame check sender dlci octets.now frame → result ≡ Ok frame }
    ensures fault { (fault : CheckedFault) → (result ≡ Err fault) ↔ IsCheckedFault check sender dlci octets.now fault }
{
    match read_checked_lent(octets, check, sender, dlci) {
        Ok(lent) => Ok(lent.to_frame()),
        Err(fault) => Err(fault),
    }
}
