// The parts of frames: what a frame of each kind consists of, and the octet behind its address.
ghost use Rattle.std.specs.Prelude.{◌≡◌, ◌<◌, ◌≤◌, [], length, unwrap_or, IfSome};
ghost use Rattle.frame_check.specs.declared.sizes.TheConstants.{INFO};
ghost use Rattle.std.specs.Option.{option_map};
ghost use Rattle.lapm_frames.specs.Frame.{octet_with};
ghost use Rattle.lapm_frames.specs.Parts as parts;
ghost use Rattle.lapm_frames.specs.Seen.{seen};

use crate::control::marked_octet;

/// What a frame consists of. Lent by the frame.
#[derive(Clone, Copy)]
pub struct Parts<'a> {
    /// What texts call the kind, in ASCII characters.
    pub name: &'static [u8],
    /// A command, or a response.
    pub command: bool,
    /// The control octet of the kind, without N(S) and P/F. That of an I frame is 0.
    pub control: u8,
    /// N(S), below 128.
    pub ns: Option<u8>,
    /// N(R), below 128.
    pub nr: Option<u8>,
    /// The poll bit of a command, the final bit of a response.
    pub pf: bool,
    /// The information field, where the kind has one.
    pub info: Option<&'a [u8]>,
}

impl<'a> Parts<'a> {
    /// The information field, where the kind has one, and else no octets.
    pub(crate) fn information(&self) -> &'a [u8]
        ensures { result.now ≡ unwrap_or (option_map (λ info. info.now) self.now.info) [] }
    {
        match self.info {
            Some(info) => info,
            None => &[],
        }
    }
}

/// The parts of an I frame.
pub(crate) fn information(ns: u8, nr: u8, pf: bool, info: &[u8]) -> Parts<'_>
    ensures parts { seen result ≡ parts.information ns nr pf info.now }
    ensures name { length result.name.now ≡ 1 }
    ensures control { result.control ≡ 0 }
{
    Parts {
        name: b"i",
        command: true,
        control: 0,
        ns: Some(ns),
        nr: Some(nr),
        pf,
        info: Some(info),
    }
}

/// The parts of an S frame.
pub(crate) fn supervisory<'a>(
    name: &'static [u8],
    control: u8,
    command: bool,
    nr: u8,
    pf: bool,
) -> Parts<'a>
    ensures parts { seen result ≡ parts.supervisory name.entry.now control command nr pf }
    ensures name { result.name.now ≡ name.entry.now }
    ensures control { result.control ≡ control }
{
    Parts {
        name,
        command,
        control,
        ns: None,
        nr: Some(nr),
        pf,
        info: None,
    }
}

/// The parts of a U frame.
pub(crate) fn unnumbered<'a>(
    name: &'static [u8],
    control: u8,
    command: bool,
    pf: bool,
    info: Option<&'a [u8]>,
) -> Parts<'a>
    ensures parts { seen result ≡ parts.unnumbered name.entry.now control command pf (option_map (λ info. info.now) info.entry) }
    ensures name { result.name.now ≡ name.entry.now }
    ensures control { result.control ≡ control }
{
    Parts {
        name,
        command,
        control,
        ns: None,
        nr: None,
        pf,
        info,
    }
}

/// The control octet of a frame, with N(S) in it, or with P/F where N(R) doesn't have that.
pub(crate) fn control_octet(ns: Option<u8>, nr: Option<u8>, pf: bool, control: u8) -> u8
    requires number { IfSome ns (λ ns. ns < 128) }
    requires control { control < 240 }
    ensures { result ≡ octet_with ns nr pf control }
{
    match (ns, nr) {
        (Some(ns), _) => 2 * ns,
        (None, Some(_)) => control,
        (None, None) => marked_octet(control, pf),
    }
}
