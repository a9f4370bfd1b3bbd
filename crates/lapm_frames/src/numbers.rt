// The octet of I and S frames that has N(R) in its high seven bits and P/F in its low bit.
ghost use Rattle.std.specs.Prelude.{◌≡◌, ◌<◌};
ghost use Rattle.lapm_frames.specs.Frame.{numbered};

/// The octet of N(R) and P/F.
pub(crate) fn number_octet(nr: u8, pf: bool) -> u8
    requires { nr < 128 }
    ensures { result ≡ numbered nr pf }
{
    2 * nr + u8::from(pf)
}

/// N(R) and P/F of the octet.
pub(crate) fn number(octet: u8) -> (u8, bool)
    ensures range { result.0 < 128 }
    ensures spelled { numbered result.0 result.1 ≡ octet }
{
    (octet / 2, octet % 2 == 1)
}
