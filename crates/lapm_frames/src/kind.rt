// The kinds of frames: the one table, by which frames are read, written and named.
//
// An I frame's control octet is even and has N(S) in its high seven bits: without N(S) it is 0. Where a kind has no information,
// no number or one direction alone, what a caller hands over of it counts for nothing.
ghost use Rattle.std.specs.Prelude.{◌≡◌, ◌<◌, ◌≤◌, length, IfSome};
ghost use Rattle.frame_check.specs.declared.sizes.TheConstants.{INFO};
ghost use Rattle.lapm_frames.specs.Parts as parts;
ghost use Rattle.lapm_frames.specs.Parts.{frame_of, kind_with, kind_named, first_named, kinds};
ghost use Rattle.lapm_frames.specs.Seen.{seen};

use crate::Parts;
use crate::parts::{information, supervisory, unnumbered};

/// The kind of a frame of ITU-T V.42, as [`crate::Frame`] has them.
#[derive(Clone, Copy)]
pub enum FrameKind {
    /// Information.
    I,
    /// Receive ready.
    Rr,
    /// Receive not ready.
    Rnr,
    /// Reject.
    Rej,
    /// Selective reject.
    Srej,
    /// Set asynchronous balanced mode extended.
    Sabme,
    /// Disconnect.
    Disc,
    /// Unnumbered acknowledgement.
    Ua,
    /// Disconnected mode.
    Dm,
    /// Frame reject.
    Frmr,
    /// Exchange identification.
    Xid,
    /// Test.
    Test,
    /// Unnumbered information.
    Ui,
}

// The control octets of ITU-T V.42, without P/F.
const RR: u8 = 0x01;

const RNR: u8 = 0x05;

const REJ: u8 = 0x09;

const SREJ: u8 = 0x0d;

const SABME: u8 = 0x6f;

const DISC: u8 = 0x43;

const UA: u8 = 0x63;

const DM: u8 = 0x0f;

const FRMR: u8 = 0x87;

const XID: u8 = 0xaf;

const TEST: u8 = 0xe3;

const UI: u8 = 0x03;

/// All kinds.
const KINDS: [FrameKind; 13] = [
    FrameKind::I,
    FrameKind::Rr,
    FrameKind::Rnr,
    FrameKind::Rej,
    FrameKind::Srej,
    FrameKind::Sabme,
    FrameKind::Disc,
    FrameKind::Ua,
    FrameKind::Dm,
    FrameKind::Frmr,
    FrameKind::Xid,
    FrameKind::Test,
    FrameKind::Ui,
];

/// The first of these kinds that texts call so.
fn first_named(kinds: &[FrameKind], name: &[u8]) -> Option<FrameKind>
    ensures { result ≡ first_named name.now kinds.now }
{
    let (kind, rest) = kinds.split_first()?;
    if name == kind.parts(true, 0, 0, false, &[]).name {
        return Some(*kind);
    }
    first_named(rest, name)
}

impl FrameKind {
    /// The kind that texts call so, in ASCII characters.
    pub fn named(name: &[u8]) -> Option<FrameKind>
        ensures { result ≡ kind_named name.now }
    {
        first_named(&KINDS, name)
    }

    /// The kind that has this control octet, without N(S) and P/F.
    pub fn with_control(control: u8) -> Option<FrameKind>
        ensures { result ≡ kind_with control }
    {
        match control {
            0 => Some(FrameKind::I),
            RR => Some(FrameKind::Rr),
            RNR => Some(FrameKind::Rnr),
            REJ => Some(FrameKind::Rej),
            SREJ => Some(FrameKind::Srej),
            SABME => Some(FrameKind::Sabme),
            DISC => Some(FrameKind::Disc),
            UA => Some(FrameKind::Ua),
            DM => Some(FrameKind::Dm),
            FRMR => Some(FrameKind::Frmr),
            XID => Some(FrameKind::Xid),
            TEST => Some(FrameKind::Test),
            UI => Some(FrameKind::Ui),
            _ => None,
        }
    }

    /// What a frame of the kind consists of, of what the kind has of these.
    pub fn parts(self, command: bool, ns: u8, nr: u8, pf: bool, info: &[u8]) -> Parts<'_>
        requires { length info.now ≤ INFO }
        ensures parts { seen result ≡ parts.parts_of (frame_of self command ns nr pf info.now) }
        ensures name { length result.name.now ≤ 5 }
        ensures control { result.control < 240 }
        ensures info { IfSome result.info (λ info. length info.now ≤ INFO) }
    {
        match self {
            FrameKind::I => information(ns, nr, pf, info),
            FrameKind::Rr => supervisory(b"rr", RR, command, nr, pf),
            FrameKind::Rnr => supervisory(b"rnr", RNR, command, nr, pf),
            FrameKind::Rej => supervisory(b"rej", REJ, command, nr, pf),
            FrameKind::Srej => supervisory(b"srej", SREJ, command, nr, pf),
            FrameKind::Sabme => unnumbered(b"sabme", SABME, true, pf, None),
            FrameKind::Disc => unnumbered(b"disc", DISC, true, pf, None),
            FrameKind::Ua => unnumbered(b"ua", UA, false, pf, None),
            FrameKind::Dm => unnumbered(b"dm", DM, false, pf, None),
            FrameKind::Frmr => unnumbered(b"frmr", FRMR, false, pf, Some(info)),
            FrameKind::Xid => unnumbered(b"xid", XID, command, pf, Some(info)),
            FrameKind::Test => unnumbered(b"test", TEST, command, pf, Some(info)),
            FrameKind::Ui => unnumbered(b"ui", UI, command, pf, Some(info)),
        }
    }
}
