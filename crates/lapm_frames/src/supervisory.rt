// S frames: commands or responses with N(R) and nothing else.
ghost use Rattle.std.specs.Prelude.{◌≡◌, ℕ, ◌<◌, ◌+◌, ◌%◌, [], ◌∷◌, IfOk, IfErr};
ghost use Rattle.shared_terms.specs.declared.role.Role.{Role};
ghost use Rattle.lapm_frames.specs.Frame.{address_of, numbered, FrameSpelling};
ghost use Rattle.lapm_frames.specs.Fault.{FirstFault, IsNumbersFault};

use crate::numbers::number;
use crate::{FrameFault, FrameKind, LentFrame};

/// N(R) and P/F, where this octet alone follows the control octet.
fn numbers(tail: &[u8]) -> Result<(u8, bool), FrameFault>
    ensures ok { IfOk result (λ n. (n.0 < 128) × (tail.now ≡ numbered n.0 n.1 ∷ [])) }
    ensures err { IfErr result (IsNumbersFault tail.now) }
{
    match tail {
        [] => Err(FrameFault::Short),
        [octet] => Ok(number(*octet)),
        _ => Err(FrameFault::Long {
            len: 2 + tail.len(),
        }),
    }
}

/// Reads what follows an odd control octet whose second bit isn't set.
pub(crate) fn read(control: u8, command: bool, tail: &[u8]) -> Result<LentFrame<'_>, FrameFault>
    requires { control % 4 ≡ 1 }
    ensures ok { IfOk result (λ frame. (sender : Role) (dlci : ℕ)
        → FrameSpelling frame sender dlci (address_of command sender dlci ∷ control ∷ tail.now)) }
    ensures err { IfErr result (λ fault. (sender : Role) (dlci : ℕ)
        → FirstFault sender dlci (address_of command sender dlci ∷ control ∷ tail.now) fault) }
{
    let Some(kind) = FrameKind::with_control(control) else {
        return Err(FrameFault::Control { octet: control });
    };
    let (nr, pf) = numbers(tail)?;
    Ok(LentFrame::of(kind, command, 0, nr, pf, &[]))
}
