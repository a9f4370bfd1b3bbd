// The fields of a frame, as C has them, and frames by their fields.
ghost use Rattle.std.specs.Prelude.{◌≡◌, ◌≤◌, ◌<◌, ◌↔◌, IsTrue, IfSome, MatchOption, length};
ghost use Rattle.lapm_frames.specs.declared.frame.Frame.{Frame};
ghost use Rattle.lapm_frames.specs.Frame.{IsFrame};
ghost use Rattle.lapm_frames.specs.Seen.{seen};
ghost use Rattle.modem_c.specs.Codes as codes;
ghost use Rattle.modem_c.specs.FrameFields.{HasFields, fields_of, frame_with};
ghost use Rattle.modem_c.specs.FramesWritten.{WritesFrame};

use crate::codes::{BAD_ARGUMENT, DONE, FULL, check_of, put_octets, role_of};
use frame_check::{INFO, WHOLE};
use lapm_frames::{Frame, FrameKind, Parts, write_checked};

/// Stands in place of N(S) or N(R) where a kind of frames has none.
pub const NO_NUMBER: u8 = 255;

/// The fields of a frame but for its information.
#[repr(C)]
#[derive(Clone, Copy)]
pub struct FrameFields {
    /// The control octet of its kind, without N(S) and P/F: 0 for an I frame.
    pub control: u8,
    /// 1 for a command, 0 for a response.
    pub command: u8,
    /// The poll bit of a command, the final bit of a response.
    pub pf: u8,
    /// N(S), below 128; 255 where the kind has none.
    pub ns: u8,
    /// N(R), below 128; 255 where the kind has none.
    pub nr: u8,
}

/// The fields of these parts.
pub(crate) fn fields_of(parts: &Parts<'_>) -> FrameFields
    ensures { result ≡ fields_of (seen parts.now) }
{
    FrameFields {
        control: parts.control,
        command: u8::from(parts.command),
        pf: u8::from(parts.pf),
        ns: parts.ns.unwrap_or(NO_NUMBER),
        nr: parts.nr.unwrap_or(NO_NUMBER),
    }
}

/// A frame of the kind that has this control octet, of what the kind has of these fields.
fn frame_with(fields: &FrameFields, octets: &[u8]) -> Option<Frame>
    requires { length octets.now ≤ INFO }
    ensures { result ≡ frame_with fields.now octets.now }
{
    let FrameFields {
        control,
        command,
        pf,
        ns,
        nr,
    } = *fields;
    match FrameKind::with_control(control) {
        Some(kind) => Some(Frame::of(kind, command == 1, ns, nr, pf == 1, octets)),
        None => None,
    }
}

/// Whether the number is one, where there is one.
fn is_number(number: Option<u8>) -> bool
    ensures { IsTrue result ↔ IfSome number (λ number. number < 128) }
{
    match number {
        Some(number) => number < 128,
        None => true,
    }
}

/// Whether these are the same fields.
fn are_same(a: FrameFields, b: FrameFields) -> bool
    ensures { IsTrue result ↔ (a ≡ b) }
{
    a.control == b.control && a.command == b.command && a.pf == b.pf && a.ns == b.ns && a.nr == b.nr
}

/// Whether the frame has these fields and this information, and its numbers are below 128.
fn has_fields(frame: &Frame, fields: &FrameFields, octets: &[u8]) -> bool
    requires { length octets.now ≤ INFO }
    ensures { IsTrue result ↔ (IsFrame frame.now × HasFields frame.now fields.now octets.now) }
{
    let parts = frame.parts();
    is_number(parts.ns)
        && is_number(parts.nr)
        && are_same(*fields, fields_of(&parts))
        && octets == parts.info.unwrap_or(&[])
}

/// The frame of these fields, if there is one.
fn frame_of(fields: &FrameFields, octets: &[u8]) -> Option<Frame>
    ensures { MatchOption result ((frame : Frame) → IsFrame frame → HasFields frame fields.now octets.now → ⊥)
        (λ frame. IsFrame frame × HasFields frame fields.now octets.now) }
{
    if octets.len() > INFO {
        return None;
    }
    let frame = frame_with(fields, octets)?;
    if has_fields(&frame, fields, octets) {
        Some(frame)
    } else {
        None
    }
}

/// The octets of a frame with its check, as that end sends it, where I frames and S frames have a check of 16 bits, or of 32. There is to be
/// room for 1031.
#[unsafe(no_mangle)]
pub extern "C" fn modem_frame_write(
    fields: &FrameFields,
    info: &[u8],
    sender: u8,
    check32: u8,
    room: &mut [u8],
    count: &mut usize,
) -> i32
    ensures writes { WritesFrame (codes.role_of sender) (codes.check_of check32) fields.now info.now room.old room.new count.new result }
    ensures length { length room.new ≡ length room.old }
    ensures within { count.new ≤ length room.new }
{
    *count = 0;
    let (Some(sender), Some(check)) = (role_of(sender), check_of(check32)) else {
        return BAD_ARGUMENT;
    };
    let Some(frame) = frame_of(fields, info) else {
        return BAD_ARGUMENT;
    };
    if room.len() < WHOLE {
        return FULL;
    }
    // The channel is below 64: it is the constant 0.
    let octets = write_checked(&frame, check, sender, 0);
    put_octets(octets.as_slice(), room);
    *count = octets.len();
    DONE
}
