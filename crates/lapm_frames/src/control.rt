// P/F in the control octets of U frames.
ghost use Rattle.std.specs.Prelude.{◌≡◌, ◌<◌, ◌/◌, ◌%◌};
ghost use Rattle.lapm_frames.specs.Frame.{marked};

/// What P/F = 1 adds to the octet of a U frame.
const PF: u8 = 0x10;

/// The octet of a U frame with its P/F.
pub(crate) fn marked_octet(control: u8, pf: bool) -> u8
    requires { control < 240 }
    ensures { result ≡ marked control pf }
{
    if pf { control + PF } else { control }
}

/// The octet of a U frame without its P/F, and this.
pub(crate) fn mark(octet: u8) -> (u8, bool)
    ensures marked { marked result.0 result.1 ≡ octet }
    ensures unmarked { result.0 / 16 % 2 ≡ 0 }
{
    if octet / PF % 2 == 1 {
        (octet - PF, true)
    } else {
        (octet, false)
    }
}
