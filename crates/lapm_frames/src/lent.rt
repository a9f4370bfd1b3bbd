// Frames whose information stays where it is: what a reader of octets finds before anything is copied.
ghost use Rattle.std.specs.Prelude.{◌≡◌, ◌<◌, ◌≤◌, length, IfSome};
ghost use Rattle.std.specs.Option.{option_map};
ghost use Rattle.frame_check.specs.declared.sizes.TheConstants.{INFO};
ghost use Rattle.lapm_frames.specs.Frame.{information_of_ui};
ghost use Rattle.lapm_frames.specs.Parts.{frame_of, parts_of};
ghost use Rattle.lapm_frames.specs.Seen.{seen};

use crate::{Frame, FrameKind, Parts};
use std::marker::Model;

/// A frame whose information is lent. A contract sees the frame.
#[derive(Drop)]
pub struct LentFrame<'a> {
    /// Which of the others it has.
    kind: FrameKind,
    /// A command, or a response, where the kind has both.
    command: bool,
    /// N(S).
    ns: u8,
    /// N(R).
    nr: u8,
    /// The poll bit of a command, the final bit of a response.
    pf: bool,
    /// The information, at most INFO octets.
    info: &'a [u8],
}

impl<'a> Model for LentFrame<'a> {
    ghost use Rattle.std.specs.Prelude.{◌≤◌, length};
    ghost use Rattle.frame_check.specs.declared.sizes.TheConstants.{INFO};
    ghost use Rattle.lapm_frames.specs.declared.frame.Frame.{Frame};
    ghost use Rattle.lapm_frames.specs.Parts.{frame_of};

    ghost Value = { Frame };

    ghost view = { λ l. frame_of l.kind l.command l.ns l.nr l.pf l.info.now };

    ghost invariant = { λ l. length l.info.now ≤ INFO };
}

impl<'a> LentFrame<'a> {
    /// The frame of a kind, of what the kind has of these.
    pub(crate) fn of(
        kind: FrameKind,
        command: bool,
        ns: u8,
        nr: u8,
        pf: bool,
        info: &'a [u8],
    ) -> LentFrame<'a>
        requires { length info.now ≤ INFO }
        ensures { result ≡ frame_of kind command ns nr pf info.now }
    {
        LentFrame {
            kind,
            command,
            ns,
            nr,
            pf,
            info,
        }
    }

    /// The frame, with a copy of its information.
    pub fn to_frame(&self) -> Frame
        ensures { result ≡ self.now }
    {
        Frame::of(
            self.kind,
            self.command,
            self.ns,
            self.nr,
            self.pf,
            self.info,
        )
    }

    /// What the frame consists of.
    pub fn parts(&self) -> Parts<'a>
        ensures parts { seen result ≡ parts_of self.now }
        ensures name { length result.name.now ≤ 5 }
        ensures control { result.control < 240 }
        ensures info { IfSome result.info (λ info. length info.now ≤ INFO) }
    {
        self.kind
            .parts(self.command, self.ns, self.nr, self.pf, self.info)
    }

    /// The information of a UI frame.
    pub fn information_of_ui(&self) -> Option<&'a [u8]>
        ensures { option_map (λ info. info.now) result ≡ information_of_ui self.now }
    {
        match self.kind {
            FrameKind::Ui => Some(self.info),
            _ => None,
        }
    }
}
