// Whether a frame is one that was read, without a copy of that.
ghost use Rattle.std.specs.Prelude.{◌≡◌, true, false};
ghost use Rattle.std.specs.Option.{option_map};

use lapm_frames::{Frame, LentFrame};

/// Whether both are the same number, or none is there.
fn is_same_number(one: Option<u8>, other: Option<u8>) -> bool
    ensures yes { result ≡ true → one ≡ other }
    ensures no { result ≡ false → one ≡ other → ⊥ }
{
    match (one, other) {
        (Some(one), Some(other)) => one == other,
        (None, None) => true,
        _ => false,
    }
}

/// Whether both are the same information, or none is there.
fn is_same_information(one: Option<&[u8]>, other: Option<&[u8]>) -> bool
    ensures yes { result ≡ true → option_map (λ info. info.now) one.entry ≡ option_map (λ info. info.now) other.entry }
    ensures no { result ≡ false → option_map (λ info. info.now) one.entry ≡ option_map (λ info. info.now) other.entry → ⊥ }
{
    match (one, other) {
        (Some(one), Some(other)) => one == other,
        (None, None) => true,
        _ => false,
    }
}

/// Whether a frame is the one that was read. Their kinds are the same where the control octets of these are.
pub(crate) fn is_same(frame: &Frame, read: &LentFrame<'_>) -> bool
    ensures yes { result ≡ true → frame.now ≡ read.now }
    ensures no { result ≡ false → frame.now ≡ read.now → ⊥ }
{
    let one = frame.parts();
    let other = read.parts();
    if one.control != other.control || one.command != other.command || one.pf != other.pf {
        return false;
    }
    is_same_number(one.ns, other.ns)
        && is_same_number(one.nr, other.nr)
        && is_same_information(one.info, other.info)
}
