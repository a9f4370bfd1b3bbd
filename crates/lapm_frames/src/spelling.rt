// Frames as octets: the address, then the control octet, then what its family has behind it.
ghost use Rattle.std.specs.Prelude.{◌≡◌, ℕ, ◌<◌, ◌≤◌, ◌+◌, [], ◌∷◌, ◌++◌, ◌↔◌, length, unwrap_or, IfSome, IfOk, IfErr};
ghost use Rattle.std.specs.Option.{option_map};
ghost use Rattle.frame_check.specs.declared.sizes.TheConstants.{INFO, WHOLE};
ghost use Rattle.lapm_frames.specs.declared.spelling.TheConstants.{HEAD};
ghost use Rattle.shared_terms.specs.declared.role.Role.{Role};
ghost use Rattle.lapm_frames.specs.declared.frame.Frame.{Frame};
ghost use Rattle.lapm_frames.specs.declared.fault.FrameFault.{FrameFault};
ghost use Rattle.lapm_frames.specs.Frame.{address_of, numbers_before, octet_with, spelled, IsFrame, FrameSpelling};
ghost use Rattle.lapm_frames.specs.Fault.{FirstFault};

use crate::address::{address_octet, is_command};
use crate::numbers::number_octet;
use crate::parts::control_octet;
use crate::{Frame, FrameFault, LentFrame, Parts, Role, information, supervisory, unnumbered};
use frame_check::{Octets, Whole};

/// The most octets in front of a frame's information: the address, the control octet, and N(R) with P/F.
pub(crate) const HEAD: usize = 3;

/// Reads what follows the address of a command or of a response.
fn read_addressed(command: bool, rest: &[u8]) -> Result<LentFrame<'_>, FrameFault>
    ensures ok { IfOk result (λ frame. (sender : Role) (dlci : ℕ)
        → FrameSpelling frame sender dlci (address_of command sender dlci ∷ rest.now)) }
    ensures err { IfErr result (λ fault. (sender : Role) (dlci : ℕ)
        → FirstFault sender dlci (address_of command sender dlci ∷ rest.now) fault) }
{
    let Some((control, tail)) = rest.split_first() else {
        return Err(FrameFault::Short);
    };
    match *control % 4 {
        1 => supervisory::read(*control, command, tail),
        3 => unnumbered::read(*control, command, tail),
        _ => information::read(*control, command, tail),
    }
}

/// The frame that these octets are, sent by this end on this channel, with its information lent.
pub(crate) fn read_lent(octets: &[u8], sender: Role, dlci: u8) -> Result<LentFrame<'_>, FrameFault>
    requires { dlci < 64 }
    ensures ok { IfOk result (λ frame. FrameSpelling frame sender dlci octets.now) }
    ensures all { (frame : Frame) → FrameSpelling frame sender dlci octets.now → result ≡ Ok frame }
    ensures fault { (fault : FrameFault) → (result ≡ Err fault) ↔ FirstFault sender dlci octets.now fault }
{
    let Some((address, rest)) = octets.split_first() else {
        return Err(FrameFault::Short);
    };
    match is_command(*address, sender, dlci) {
        Some(command) => read_addressed(command, rest),
        None => Err(FrameFault::Address { octet: *address }),
    }
}

/// The frame that these octets are, sent by this end on this channel. The octets come without their check.
pub fn read(octets: &[u8], sender: Role, dlci: u8) -> Result<Frame, FrameFault>
    requires { dlci < 64 }
    ensures ok { IfOk result (λ frame. FrameSpelling frame sender dlci octets.now) }
    ensures all { (frame : Frame) → FrameSpelling frame sender dlci octets.now → result ≡ Ok frame }
    ensures fault { (fault : FrameFault) → (result ≡ Err fault) ↔ FirstFault sender dlci octets.now fault }
{
    match read_lent(octets, sender, dlci) {
        Ok(lent) => Ok(lent.to_frame()),
        Err(fault) => Err(fault),
    }
}

/// Puts N(R) with P/F, where the frame has N(R).
fn put_number(nr: Option<u8>, pf: bool, head: &mut Octets<HEAD>)
    requires number { IfSome nr (λ nr. nr < 128) }
    requires room { length head.old < HEAD }
    ensures { head.new ≡ head.old ++ numbers_before nr pf [] }
{
    if let Some(nr) = nr {
        head.push(number_octet(nr, pf));
    }
}

/// The octets in front of a frame's information, of what the frame consists of: the address, the control octet and N(R).
pub(crate) fn head(parts: &Parts<'_>, sender: Role, dlci: u8) -> Octets<HEAD>
    requires channel { dlci < 64 }
    requires control { parts.now.control < 240 }
    requires ns { IfSome parts.now.ns (λ ns. ns < 128) }
    requires nr { IfSome parts.now.nr (λ nr. nr < 128) }
    ensures octets { result ≡ address_of parts.now.command sender dlci ∷ octet_with parts.now.ns parts.now.nr parts.now.pf parts.now.control
        ∷ numbers_before parts.now.nr parts.now.pf [] }
{
    let mut head = Octets::new();
    head.push(address_octet(parts.command, sender, dlci));
    head.push(control_octet(parts.ns, parts.nr, parts.pf, parts.control));
    put_number(parts.nr, parts.pf, &mut head);
    head
}

/// Writes the frame's octets, as this end sends it on this channel. The check isn't written.
pub fn write(frame: &Frame, sender: Role, dlci: u8, out: &mut Whole)
    requires channel { dlci < 64 }
    requires empty { out.old ≡ [] }
    requires frame { IsFrame frame.now }
    ensures { out.new ≡ spelled frame.now sender dlci }
{
    let parts = frame.parts();
    let head = head(&parts, sender, dlci);
    out.extend(head.as_slice());
    out.extend(parts.information());
}
