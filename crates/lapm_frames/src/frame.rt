// Frames as values.
ghost use Rattle.std.specs.Prelude.{◌≡◌, ◌<◌, ◌≤◌, length, IfSome};
ghost use Rattle.frame_check.specs.declared.sizes.TheConstants.{INFO};
ghost use Rattle.lapm_frames.specs.Parts.{frame_of, parts_of};
ghost use Rattle.lapm_frames.specs.Seen.{seen};

use crate::information::information;
use crate::{FrameKind, LentFrame, Parts};
use frame_check::Info;

/// A frame of ITU-T V.42. `command` tells a command from a response where the kind has both, `ns` and `nr` are the numbers N(S) and
/// N(R) modulo 128, and `pf` is the poll bit of a command and the final bit of a response.
#[derive(Drop, PartialEq, Eq)]
pub enum Frame {
    /// A segment: N(S) is its number, N(R) the next one that is expected of the other end, both modulo 128.
    I {
        ns: u8,
        nr: u8,
        pf: bool,
        info: Info,
    },
    /// Receive ready: all before N(R) came.
    Rr {
        command: bool,
        nr: u8,
        pf: bool,
    },
    /// Receive not ready: they came, and its sender asks for a pause.
    Rnr {
        command: bool,
        nr: u8,
        pf: bool,
    },
    /// Reject: N(R) and all behind it are asked for again.
    Rej {
        command: bool,
        nr: u8,
        pf: bool,
    },
    /// Selective reject: N(R) alone is asked for again.
    Srej {
        command: bool,
        nr: u8,
        pf: bool,
    },
    /// Set asynchronous balanced mode extended: sets the link up.
    Sabme {
        pf: bool,
    },
    /// Disconnect: takes it down.
    Disc {
        pf: bool,
    },
    /// Unnumbered acknowledgement of SABME or DISC.
    Ua {
        pf: bool,
    },
    /// Disconnected mode: refuses them.
    Dm {
        pf: bool,
    },
    /// Frame reject. Its information is read as octets.
    Frmr {
        pf: bool,
        info: Info,
    },
    /// Unnumbered information: a break, or its acknowledgement.
    Ui {
        command: bool,
        pf: bool,
        info: Info,
    },
    /// Exchange identification: an offer.
    Xid {
        command: bool,
        pf: bool,
        info: Info,
    },
    /// A test of the link, which an end ignores.
    Test {
        command: bool,
        pf: bool,
        info: Info,
    },
}

impl Frame {
    /// The frame of a kind, of what the kind has of these.
    pub fn of(kind: FrameKind, command: bool, ns: u8, nr: u8, pf: bool, info: &[u8]) -> Frame
        requires { length info.now ≤ INFO }
        ensures { result ≡ frame_of kind command ns nr pf info.now }
    {
        match kind {
            FrameKind::I => Frame::I {
                ns,
                nr,
                pf,
                info: information(info),
            },
            FrameKind::Rr => Frame::Rr { command, nr, pf },
            FrameKind::Rnr => Frame::Rnr { command, nr, pf },
            FrameKind::Rej => Frame::Rej { command, nr, pf },
            FrameKind::Srej => Frame::Srej { command, nr, pf },
            FrameKind::Sabme => Frame::Sabme { pf },
            FrameKind::Disc => Frame::Disc { pf },
            FrameKind::Ua => Frame::Ua { pf },
            FrameKind::Dm => Frame::Dm { pf },
            FrameKind::Frmr => Frame::Frmr {
                pf,
                info: information(info),
            },
            FrameKind::Xid => Frame::Xid {
                command,
                pf,
                info: information(info),
            },
            FrameKind::Test => Frame::Test {
                command,
                pf,
                info: information(info),
            },
            FrameKind::Ui => Frame::Ui {
                command,
                pf,
                info: information(info),
            },
        }
    }

    /// The frame, with its information lent.
    pub fn lent(&self) -> LentFrame<'_>
        ensures { result ≡ self.now }
    {
        match self {
            Frame::I { ns, nr, pf, info } => LentFrame::of(
                FrameKind::I,
                true,
                *ns,
                *nr,
                *pf,
                info.as_slice(),
            ),
            Frame::Rr { command, nr, pf } => LentFrame::of(
                FrameKind::Rr,
                *command,
                0,
                *nr,
                *pf,
                &[],
            ),
            Frame::Rnr { command, nr, pf } => LentFrame::of(
                FrameKind::Rnr,
                *command,
                0,
                *nr,
                *pf,
                &[],
            ),
            Frame::Rej { command, nr, pf } => LentFrame::of(
                FrameKind::Rej,
                *command,
                0,
                *nr,
                *pf,
                &[],
            ),
            Frame::Srej { command, nr, pf } => LentFrame::of(
                FrameKind::Srej,
                *command,
                0,
                *nr,
                *pf,
                &[],
            ),
            Frame::Sabme { pf } => LentFrame::of(FrameKind::Sabme, true, 0, 0, *pf, &[]),
            Frame::Disc { pf } => LentFrame::of(FrameKind::Disc, true, 0, 0, *pf, &[]),
            Frame::Ua { pf } => LentFrame::of(FrameKind::Ua, false, 0, 0, *pf, &[]),
            Frame::Dm { pf } => LentFrame::of(FrameKind::Dm, false, 0, 0, *pf, &[]),
            Frame::Frmr { pf, info } => LentFrame::of(
                FrameKind::Frmr,
                false,
                0,
                0,
                *pf,
                info.as_slice(),
            ),
            Frame::Xid { command, pf, info } => LentFrame::of(
                FrameKind::Xid,
                *command,
                0,
                0,
                *pf,
                info.as_slice(),
            ),
            Frame::Test { command, pf, info } => LentFrame::of(
                FrameKind::Test,
                *command,
                0,
                0,
                *pf,
                info.as_slice(),
            ),
            Frame::Ui { command, pf, info } => LentFrame::of(
                FrameKind::Ui,
                *command,
                0,
                0,
                *pf,
                info.as_slice(),
            ),
        }
    }

    /// A second frame of the same content. Unlike a `clone` it can't fail.
    pub fn copy(&self) -> Frame
        ensures { result ≡ self.now }
    {
        self.lent().to_frame()
    }

    /// What the frame consists of.
    pub fn parts(&self) -> Parts<'_>
        ensures parts { seen result ≡ parts_of self.now }
        ensures name { length result.name.now ≤ 5 }
        ensures control { result.control < 240 }
        ensures info { IfSome result.info (λ info. length info.now ≤ INFO) }
    {
        self.lent().parts()
    }
}
