// I frames: numbers and information, always commands. And the information of any frame.
ghost use Rattle.std.specs.Prelude.{◌≡◌, ℕ, ◌<◌, ◌≤◌, ◌+◌, ◌%◌, ◌∷◌, length, IfOk, IfErr, OnOk};
ghost use Rattle.frame_check.specs.declared.sizes.TheConstants.{INFO};
ghost use Rattle.shared_terms.specs.declared.role.Role.{Role};
ghost use Rattle.lapm_frames.specs.Frame.{address_of, FrameSpelling};
ghost use Rattle.lapm_frames.specs.Fault.{FirstFault};

use crate::numbers::number;
use crate::{FrameFault, FrameKind, LentFrame};
use frame_check::{INFO, Info};

/// Whether these octets, which have `before` others of a frame in front of them, are no more than there may be.
pub(crate) fn fits(octets: &[u8], before: usize, most: usize) -> Result<(), FrameFault>
    requires { before ≤ 3 }
    ensures ok { OnOk result (length octets.now ≤ most) }
    ensures err { IfErr result (λ fault. (fault ≡ FrameFault.Long (before + length octets.now))
        × (most < length octets.now)) }
{
    if octets.len() > most {
        return Err(FrameFault::Long {
            len: before + octets.len(),
        });
    }
    Ok(())
}

/// The information of a frame. It is large, so it is made in its place, once it is known to fit.
pub(crate) fn information(octets: &[u8]) -> Info
    requires { length octets.now ≤ INFO }
    ensures { result ≡ octets.now }
{
    let mut info = Info::new();
    info.extend(octets);
    info
}

/// Reads what follows an even control octet.
pub(crate) fn read(control: u8, command: bool, tail: &[u8]) -> Result<LentFrame<'_>, FrameFault>
    requires { control % 2 ≡ 0 }
    ensures ok { IfOk result (λ frame. (sender : Role) (dlci : ℕ)
        → FrameSpelling frame sender dlci (address_of command sender dlci ∷ control ∷ tail.now)) }
    ensures err { IfErr result (λ fault. (sender : Role) (dlci : ℕ)
        → FirstFault sender dlci (address_of command sender dlci ∷ control ∷ tail.now) fault) }
{
    if !command {
        return Err(FrameFault::Control { octet: control });
    }
    let [numbers, rest @ ..] = tail else {
        return Err(FrameFault::Short);
    };
    fits(rest, 3, INFO)?;
    let (nr, pf) = number(*numbers);
    Ok(LentFrame::of(FrameKind::I, true, control / 2, nr, pf, rest))
}
