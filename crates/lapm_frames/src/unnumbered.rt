// U frames: no numbers, and information in some.
ghost use Rattle.std.specs.Prelude.{◌≡◌, ℕ, ◌<◌, ◌≤◌, ◌%◌, ◌∷◌, if◌then◌else◌, is_some, IfOk, IfErr};
ghost use Rattle.frame_check.specs.declared.sizes.TheConstants.{INFO};
ghost use Rattle.shared_terms.specs.declared.role.Role.{Role};
ghost use Rattle.lapm_frames.specs.Frame.{address_of, FrameSpelling};
ghost use Rattle.lapm_frames.specs.Fault.{FirstFault};

use crate::control::mark;
use crate::information::fits;
use crate::{FrameFault, FrameKind, LentFrame};
use frame_check::INFO;

/// The most octets that may follow a control octet, where the kind has information, or none.
fn longest(informed: bool) -> usize
    ensures { result ≡ (if informed then INFO else 0) }
{
    if informed { INFO } else { 0 }
}

/// Reads what follows a control octet whose two low bits are set.
pub(crate) fn read(control: u8, command: bool, tail: &[u8]) -> Result<LentFrame<'_>, FrameFault>
    requires { control % 4 ≡ 3 }
    ensures ok { IfOk result (λ frame. (sender : Role) (dlci : ℕ)
        → FrameSpelling frame sender dlci (address_of command sender dlci ∷ control ∷ tail.now)) }
    ensures err { IfErr result (λ fault. (sender : Role) (dlci : ℕ)
        → FirstFault sender dlci (address_of command sender dlci ∷ control ∷ tail.now) fault) }
{
    let (octet, pf) = mark(control);
    let Some(kind) = FrameKind::with_control(octet) else {
        return Err(FrameFault::Control { octet: control });
    };
    let parts = kind.parts(command, 0, 0, pf, &[]);
    if parts.command != command {
        return Err(FrameFault::Control { octet: control });
    }
    fits(tail, 2, longest(parts.info.is_some()))?;
    Ok(LentFrame::of(kind, command, 0, 0, pf, tail))
}
