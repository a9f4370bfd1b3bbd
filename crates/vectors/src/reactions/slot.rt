// What stands on the line in a turn.
ghost use Rattle.std.specs.Prelude.{◌≡◌, ◌≤◌, length, IfSome};
ghost use Rattle.xid_params.specs.Offers.{IsAllowed};
ghost use Rattle.link_account.specs.Numbers.{HasNumbers, IsNumbered};

use frame_check::Info;
use lapm_frames::{Frame, Seen};
use lapm_link::{Arrived, Sent};
use xid_params::{Offer, default_offer, write_offer};

/// What stands on the line in a turn: a frame by the fields of V.42, or what stands there without one. A P or F that isn't named
/// is 0.
#[derive(Clone, Copy)]
pub(super) enum Slot {
    Mark,
    Odp,
    Adp,
    Flags,
    /// A segment of one octet, with N(S), N(R) and P.
    I(u8, u8, bool),
    /// A supervisory frame, with N(R) and P or F.
    S(Supervisory, Kind, u8, bool),
    Sabme(bool),
    Disc(bool),
    Ua(bool),
    Dm(bool),
    Frmr(bool),
    Ui(Kind, bool, Says),
    Xid(Kind, Says),
    Test(Kind),
}

#[derive(Clone, Copy)]
pub(super) enum Supervisory {
    Rr,
    Rnr,
    Rej,
    Srej,
}

#[derive(Clone, Copy)]
pub(super) enum Kind {
    Command,
    Response,
}

/// What an information field says.
#[derive(Clone, Copy)]
pub(super) enum Says {
    /// It is empty, and is refused in a UI or XID frame.
    Nothing,
    /// A break of this number and length.
    Brk(u8, u8),
    /// The answer to one.
    BrkAck(u8, u8),
    /// The default offer.
    Offer,
    /// The default offer, and SREJ.
    OfferWithSrej,
    /// The default offer, and the check of 32 bits.
    OfferWithCheck,
}

/// What is heard in the table, by names as texts of frames have them. Flags alone are nothing.
pub(super) const ARRIVALS: &[(&str, Slot)] = &[
    ("flags", Slot::Flags),
    ("odp", Slot::Odp),
    ("adp", Slot::Adp),
    ("i s=0 r=0 p=0", Slot::I(0, 0, false)),
    ("i s=1 r=0 p=0", Slot::I(1, 0, false)),
    ("i s=2 r=0 p=0", Slot::I(2, 0, false)),
    ("i s=3 r=0 p=0", Slot::I(3, 0, false)),
    ("i s=127 r=0 p=0", Slot::I(127, 0, false)),
    ("i s=0 r=0 p=1", Slot::I(0, 0, true)),
    ("i s=1 r=0 p=1", Slot::I(1, 0, true)),
    ("i s=0 r=1 p=0", Slot::I(0, 1, false)),
    ("i s=1 r=1 p=0", Slot::I(1, 1, false)),
    (
        "rr cmd r=0 p=0",
        Slot::S(Supervisory::Rr, Kind::Command, 0, false),
    ),
    (
        "rr cmd r=0 p=1",
        Slot::S(Supervisory::Rr, Kind::Command, 0, true),
    ),
    (
        "rr cmd r=1 p=0",
        Slot::S(Supervisory::Rr, Kind::Command, 1, false),
    ),
    (
        "rr cmd r=1 p=1",
        Slot::S(Supervisory::Rr, Kind::Command, 1, true),
    ),
    (
        "rr rsp r=0 p=0",
        Slot::S(Supervisory::Rr, Kind::Response, 0, false),
    ),
    (
        "rr rsp r=0 p=1",
        Slot::S(Supervisory::Rr, Kind::Response, 0, true),
    ),
    (
        "rr rsp r=1 p=0",
        Slot::S(Supervisory::Rr, Kind::Response, 1, false),
    ),
    (
        "rr rsp r=1 p=1",
        Slot::S(Supervisory::Rr, Kind::Response, 1, true),
    ),
    (
        "rnr cmd r=0 p=0",
        Slot::S(Supervisory::Rnr, Kind::Command, 0, false),
    ),
    (
        "rnr cmd r=0 p=1",
        Slot::S(Supervisory::Rnr, Kind::Command, 0, true),
    ),
    (
        "rnr cmd r=1 p=0",
        Slot::S(Supervisory::Rnr, Kind::Command, 1, false),
    ),
    (
        "rnr cmd r=1 p=1",
        Slot::S(Supervisory::Rnr, Kind::Command, 1, true),
    ),
    (
        "rnr rsp r=0 p=0",
        Slot::S(Supervisory::Rnr, Kind::Response, 0, false),
    ),
    (
        "rnr rsp r=0 p=1",
        Slot::S(Supervisory::Rnr, Kind::Response, 0, true),
    ),
    (
        "rnr rsp r=1 p=0",
        Slot::S(Supervisory::Rnr, Kind::Response, 1, false),
    ),
    (
        "rnr rsp r=1 p=1",
        Slot::S(Supervisory::Rnr, Kind::Response, 1, true),
    ),
    (
        "rej cmd r=0 p=0",
        Slot::S(Supervisory::Rej, Kind::Command, 0, false),
    ),
    (
        "rej cmd r=0 p=1",
        Slot::S(Supervisory::Rej, Kind::Command, 0, true),
    ),
    (
        "rej cmd r=1 p=0",
        Slot::S(Supervisory::Rej, Kind::Command, 1, false),
    ),
    (
        "rej cmd r=1 p=1",
        Slot::S(Supervisory::Rej, Kind::Command, 1, true),
    ),
    (
        "rej rsp r=0 p=0",
        Slot::S(Supervisory::Rej, Kind::Response, 0, false),
    ),
    (
        "rej rsp r=0 p=1",
        Slot::S(Supervisory::Rej, Kind::Response, 0, true),
    ),
    (
        "rej rsp r=1 p=0",
        Slot::S(Supervisory::Rej, Kind::Response, 1, false),
    ),
    (
        "rej rsp r=1 p=1",
        Slot::S(Supervisory::Rej, Kind::Response, 1, true),
    ),
    (
        "srej cmd r=0 p=0",
        Slot::S(Supervisory::Srej, Kind::Command, 0, false),
    ),
    (
        "srej cmd r=0 p=1",
        Slot::S(Supervisory::Srej, Kind::Command, 0, true),
    ),
    (
        "srej cmd r=1 p=0",
        Slot::S(Supervisory::Srej, Kind::Command, 1, false),
    ),
    (
        "srej cmd r=1 p=1",
        Slot::S(Supervisory::Srej, Kind::Command, 1, true),
    ),
    (
        "srej rsp r=0 p=0",
        Slot::S(Supervisory::Srej, Kind::Response, 0, false),
    ),
    (
        "srej rsp r=0 p=1",
        Slot::S(Supervisory::Srej, Kind::Response, 0, true),
    ),
    (
        "srej rsp r=1 p=0",
        Slot::S(Supervisory::Srej, Kind::Response, 1, false),
    ),
    (
        "srej rsp r=1 p=1",
        Slot::S(Supervisory::Srej, Kind::Response, 1, true),
    ),
    ("sabme p=0", Slot::Sabme(false)),
    ("sabme p=1", Slot::Sabme(true)),
    ("disc p=0", Slot::Disc(false)),
    ("disc p=1", Slot::Disc(true)),
    ("ua p=0", Slot::Ua(false)),
    ("ua p=1", Slot::Ua(true)),
    ("dm p=0", Slot::Dm(false)),
    ("dm p=1", Slot::Dm(true)),
    ("frmr p=0", Slot::Frmr(false)),
    ("frmr p=1", Slot::Frmr(true)),
    (
        "ui cmd p=0 brk 0 30",
        Slot::Ui(Kind::Command, false, Says::Brk(0, 30)),
    ),
    (
        "ui cmd p=0 brk 1 0",
        Slot::Ui(Kind::Command, false, Says::Brk(1, 0)),
    ),
    (
        "ui rsp p=1 brk 0 30",
        Slot::Ui(Kind::Response, true, Says::Brk(0, 30)),
    ),
    (
        "ui cmd p=0 brkack 0 30",
        Slot::Ui(Kind::Command, false, Says::BrkAck(0, 30)),
    ),
    (
        "ui cmd p=0 of nothing",
        Slot::Ui(Kind::Command, false, Says::Nothing),
    ),
    (
        "ui cmd p=0 of an offer",
        Slot::Ui(Kind::Command, false, Says::Offer),
    ),
    ("xid cmd of an offer", Slot::Xid(Kind::Command, Says::Offer)),
    (
        "xid cmd of nothing",
        Slot::Xid(Kind::Command, Says::Nothing),
    ),
    (
        "xid rsp of an offer",
        Slot::Xid(Kind::Response, Says::Offer),
    ),
    (
        "xid rsp of nothing",
        Slot::Xid(Kind::Response, Says::Nothing),
    ),
    (
        "xid cmd brk 0 30",
        Slot::Xid(Kind::Command, Says::Brk(0, 30)),
    ),
    ("test cmd", Slot::Test(Kind::Command)),
    ("test rsp", Slot::Test(Kind::Response)),
];

/// The offer of an end that names nothing but these functions, where it has them.
pub(super) fn offer(srej: bool, check32: bool) -> Offer
    ensures { IsAllowed result }
{
    Offer {
        srej,
        check32,
        ..default_offer()
    }
}

fn spelled(srej: bool, check32: bool) -> Info {
    let mut info = Info::new();
    write_offer(&offer(srej, check32), &mut info);
    info
}

fn info(octets: &[u8]) -> Info
    requires { length octets.now ≤ 128 }
{
    let mut info = Info::new();
    info.extend(octets);
    info
}

impl Says {
    fn info(self) -> Info {
        match self {
            Says::Nothing => Info::new(),
            Says::Brk(number, length) => info(&[0x40, number, length]),
            Says::BrkAck(number, length) => info(&[0x60, number, length]),
            Says::Offer => spelled(false, false),
            Says::OfferWithSrej => spelled(true, false),
            Says::OfferWithCheck => spelled(false, true),
        }
    }
}

impl Kind {
    fn is_command(self) -> bool {
        matches!(self, Kind::Command)
    }
}

impl Supervisory {
    fn frame(self, command: bool, nr: u8, pf: bool) -> Frame
        ensures { HasNumbers result }
    {
        let nr = nr % 128;
        match self {
            Supervisory::Rr => Frame::Rr { command, nr, pf },
            Supervisory::Rnr => Frame::Rnr { command, nr, pf },
            Supervisory::Rej => Frame::Rej { command, nr, pf },
            Supervisory::Srej => Frame::Srej { command, nr, pf },
        }
    }
}

fn segment(ns: u8, nr: u8, pf: bool, octet: u8) -> Frame
    ensures { HasNumbers result }
{
    Frame::I {
        ns: ns % 128,
        nr: nr % 128,
        pf,
        info: info(&[octet]),
    }
}

impl Slot {
    /// The frame in this slot. The information of an I frame is this octet.
    fn frame(self, octet: u8) -> Option<Frame>
        ensures { IfSome result HasNumbers }
    {
        match self {
            Slot::Mark | Slot::Odp | Slot::Adp | Slot::Flags => None,
            Slot::I(ns, nr, pf) => Some(segment(ns, nr, pf, octet)),
            Slot::S(name, kind, nr, pf) => Some(name.frame(kind.is_command(), nr, pf)),
            Slot::Sabme(pf) => Some(Frame::Sabme { pf }),
            Slot::Disc(pf) => Some(Frame::Disc { pf }),
            Slot::Ua(pf) => Some(Frame::Ua { pf }),
            Slot::Dm(pf) => Some(Frame::Dm { pf }),
            Slot::Frmr(pf) => Some(Frame::Frmr {
                pf,
                info: Info::new(),
            }),
            Slot::Ui(kind, pf, says) => Some(Frame::Ui {
                command: kind.is_command(),
                pf,
                info: says.info(),
            }),
            Slot::Xid(kind, says) => Some(Frame::Xid {
                command: kind.is_command(),
                pf: false,
                info: says.info(),
            }),
            Slot::Test(kind) => Some(Frame::Test {
                command: kind.is_command(),
                pf: false,
                info: Info::new(),
            }),
        }
    }

    /// The slot as an end hears it. The information of an I frame is this octet.
    pub(super) fn arrived(self, octet: u8) -> Arrived
        ensures { IsNumbered result }
    {
        match self {
            Slot::Odp => Arrived::Pattern(Seen::Odp),
            Slot::Adp => Arrived::Pattern(Seen::Adp),
            _ => match self.frame(octet) {
                None => Arrived::Nothing,
                Some(frame) => Arrived::Frame(frame),
            },
        }
    }

    /// The slot as an end sends it whose file is this octet.
    pub(super) fn sent(self, file: u8) -> Sent {
        match self {
            Slot::Mark => Sent::Mark,
            Slot::Odp => Sent::Odp,
            Slot::Adp => Sent::Adp,
            _ => match self.frame(file) {
                None => Sent::Flags,
                Some(frame) => Sent::Frame(frame),
            },
        }
    }
}
