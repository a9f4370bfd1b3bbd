// Each kind of frame, read and written, and each fault at its first place.
use super::assert_row;
use frame_check::{INFO, Info, Whole};
use lapm_frames::{Frame, FrameFault, FrameKind, read, write};
use shared_terms::Role;

const ORIGINATOR: Role = Role::Originator;

const ANSWERER: Role = Role::Answerer;

/// The fields of a frame, in the order of `Frame`.
enum Fields {
    I(u8, u8, bool, &'static [u8]),
    Rr(bool, u8, bool),
    Rnr(bool, u8, bool),
    Rej(bool, u8, bool),
    Srej(bool, u8, bool),
    Sabme(bool),
    Disc(bool),
    Ua(bool),
    Dm(bool),
    Frmr(bool, &'static [u8]),
    Ui(bool, bool, &'static [u8]),
    Xid(bool, bool, &'static [u8]),
    Test(bool, bool, &'static [u8]),
}

/// The information of these octets.
fn info_of(octets: &[u8]) -> Info {
    let mut info = Info::new();
    if octets.len() <= INFO {
        info.extend(octets);
    }
    info
}

/// The frame of these fields.
fn frame_of(fields: &Fields) -> Frame {
    match *fields {
        Fields::I(ns, nr, pf, octets) => Frame::I {
            ns,
            nr,
            pf,
            info: info_of(octets),
        },
        Fields::Rr(command, nr, pf) => Frame::Rr { command, nr, pf },
        Fields::Rnr(command, nr, pf) => Frame::Rnr { command, nr, pf },
        Fields::Rej(command, nr, pf) => Frame::Rej { command, nr, pf },
        Fields::Srej(command, nr, pf) => Frame::Srej { command, nr, pf },
        Fields::Sabme(pf) => Frame::Sabme { pf },
        Fields::Disc(pf) => Frame::Disc { pf },
        Fields::Ua(pf) => Frame::Ua { pf },
        Fields::Dm(pf) => Frame::Dm { pf },
        Fields::Frmr(pf, octets) => Frame::Frmr {
            pf,
            info: info_of(octets),
        },
        Fields::Ui(command, pf, octets) => Frame::Ui {
            command,
            pf,
            info: info_of(octets),
        },
        Fields::Xid(command, pf, octets) => Frame::Xid {
            command,
            pf,
            info: info_of(octets),
        },
        Fields::Test(command, pf, octets) => Frame::Test {
            command,
            pf,
            info: info_of(octets),
        },
    }
}

/// Frames, who sends them on which channel, and their octets.
const FRAMES: &[(&str, Fields, Role, u8, &[u8])] = &[
    (
        "information of the originator",
        Fields::I(5, 9, true, b"ab"),
        ORIGINATOR,
        0,
        b"\x03\x0a\x13ab",
    ),
    (
        "information of the answerer",
        Fields::I(5, 9, true, b"ab"),
        ANSWERER,
        0,
        b"\x01\x0a\x13ab",
    ),
    (
        "a command RR",
        Fields::Rr(true, 127, false),
        ORIGINATOR,
        0,
        b"\x03\x01\xfe",
    ),
    (
        "a command RNR",
        Fields::Rnr(true, 127, false),
        ANSWERER,
        0,
        b"\x01\x05\xfe",
    ),
    (
        "a response REJ",
        Fields::Rej(false, 1, true),
        ORIGINATOR,
        0,
        b"\x01\x09\x03",
    ),
    (
        "a response SREJ",
        Fields::Srej(false, 1, true),
        ANSWERER,
        0,
        b"\x03\x0d\x03",
    ),
    ("SABME", Fields::Sabme(true), ORIGINATOR, 0, b"\x03\x7f"),
    (
        "SABME on another channel",
        Fields::Sabme(true),
        ORIGINATOR,
        63,
        b"\xff\x7f",
    ),
    ("DISC", Fields::Disc(true), ANSWERER, 0, b"\x01\x53"),
    ("UA", Fields::Ua(true), ANSWERER, 0, b"\x03\x73"),
    ("DM", Fields::Dm(false), ORIGINATOR, 0, b"\x01\x0f"),
    (
        "FRMR",
        Fields::Frmr(false, b"\x00"),
        ANSWERER,
        0,
        b"\x03\x87\x00",
    ),
    (
        "a command UI",
        Fields::Ui(true, false, b"\x40\x00\x1e"),
        ORIGINATOR,
        0,
        b"\x03\x03\x40\x00\x1e",
    ),
    (
        "a command XID",
        Fields::Xid(true, false, b"\x82"),
        ORIGINATOR,
        0,
        b"\x03\xaf\x82",
    ),
    (
        "a response TEST",
        Fields::Test(false, true, b""),
        ORIGINATOR,
        0,
        b"\x01\xf3",
    ),
];

/// Whether octets are read as the frame of these fields, and it is written as these octets.
fn spells(fields: &Fields, sender: Role, channel: u8, octets: &[u8]) -> bool {
    let channel = channel % 64;
    let Ok(frame) = read(octets, sender, channel) else {
        return false;
    };
    let mut written = Whole::new();
    write(&frame, sender, channel, &mut written);
    frame == frame_of(fields) && written.as_slice() == octets
}

#[test]
fn frames_by_their_octets(rt: HostRuntime) {
    for (name, fields, sender, channel, octets) in FRAMES {
        assert_row(&rt, name, spells(fields, *sender, *channel, octets));
    }
}

/// The kinds of frames by their names in texts, with the control octets of ITU-T V.42 without N(S) and P/F.
const KINDS: &[(&str, u8)] = &[
    ("i", 0x00),
    ("rr", 0x01),
    ("rnr", 0x05),
    ("rej", 0x09),
    ("srej", 0x0d),
    ("sabme", 0x6f),
    ("disc", 0x43),
    ("ua", 0x63),
    ("dm", 0x0f),
    ("frmr", 0x87),
    ("xid", 0xaf),
    ("test", 0xe3),
    ("ui", 0x03),
];

/// Names and octets of no kind: with P/F, of an I frame with a number, and of the mode without extended numbers.
const NO_KINDS: &[(&str, u8)] = &[
    ("", 0x11),
    ("r", 0x7f),
    ("rrr", 0x02),
    ("sabm", 0x2f),
    ("I", 0xff),
];

/// Whether it is the kind with this name and this octet.
fn is_kind(kind: Option<FrameKind>, name: &str, control: u8) -> bool {
    match kind {
        Some(kind) => {
            let parts = kind.parts(true, 0, 0, false, &[]);
            parts.name == name.as_bytes() && parts.control == control
        }
        None => false,
    }
}

#[test]
fn kinds_by_their_names_and_octets(rt: HostRuntime) {
    for (name, control) in KINDS {
        let named = is_kind(FrameKind::named(name.as_bytes()), name, *control);
        let found = is_kind(FrameKind::with_control(*control), name, *control);
        assert_row(&rt, name, named && found);
    }
    for (name, control) in NO_KINDS {
        let named = FrameKind::named(name.as_bytes()).is_some();
        let found = FrameKind::with_control(*control).is_some();
        assert_row(&rt, name, !named && !found);
    }
}

/// Octets that are no frame of this sender on this channel, and their first fault.
const FAULTS: &[(&str, &[u8], Role, u8, FrameFault)] = &[
    ("no octets", b"", ORIGINATOR, 0, FrameFault::Short),
    (
        "the address before the control octet",
        b"\x02\x0b",
        ORIGINATOR,
        0,
        FrameFault::Address { octet: 0x02 },
    ),
    (
        "the address before the length",
        b"\x07",
        ORIGINATOR,
        0,
        FrameFault::Address { octet: 0x07 },
    ),
    (
        "another channel's address",
        b"\x03\x7f",
        ORIGINATOR,
        63,
        FrameFault::Address { octet: 0x03 },
    ),
    (
        "an address alone",
        b"\x03",
        ORIGINATOR,
        0,
        FrameFault::Short,
    ),
    (
        "a control octet of no kind",
        b"\x03\x0b\x00",
        ORIGINATOR,
        0,
        FrameFault::Control { octet: 0x0b },
    ),
    (
        "a SABME as a response",
        b"\x03\x7f",
        ANSWERER,
        0,
        FrameFault::Control { octet: 0x7f },
    ),
    (
        "information as a response",
        b"\x01\x00\x00",
        ORIGINATOR,
        0,
        FrameFault::Control { octet: 0x00 },
    ),
    (
        "information without a number",
        b"\x03\x00",
        ORIGINATOR,
        0,
        FrameFault::Short,
    ),
    (
        "an RR without a number",
        b"\x03\x01",
        ORIGINATOR,
        0,
        FrameFault::Short,
    ),
    (
        "a SABME with an octet more",
        b"\x03\x7f\x00",
        ORIGINATOR,
        0,
        FrameFault::Long { len: 3 },
    ),
    (
        "an RR with an octet more",
        b"\x03\x01\x00\x00",
        ORIGINATOR,
        0,
        FrameFault::Long { len: 4 },
    ),
];

/// Whether octets are no frame, and have this first fault.
fn have_fault(octets: &[u8], sender: Role, channel: u8, fault: FrameFault) -> bool {
    read(octets, sender, channel % 64) == Err(fault)
}

#[test]
fn first_faults_of_octets(rt: HostRuntime) {
    for &(name, octets, sender, channel, fault) in FAULTS {
        assert_row(&rt, name, have_fault(octets, sender, channel, fault));
    }
}

/// The octets of an I frame with the most information, and with one octet more.
const MOST: usize = INFO + 3;

const MORE: usize = INFO + 4;

const LONGEST: &Fields = &Fields::I(0, 0, false, &[0; INFO]);

#[test]
fn information_has_a_most(rt: HostRuntime) {
    let mut most = [0; MOST];
    most[0] = 0x03;
    assert_row(&rt, "most", spells(LONGEST, ORIGINATOR, 0, &most));
    let mut more = [0; MORE];
    more[0] = 0x03;
    let fault = FrameFault::Long { len: MORE };
    assert_row(&rt, "I", have_fault(&more, ORIGINATOR, 0, fault));
    more[1] = 0xaf;
    assert_row(&rt, "XID", have_fault(&more, ORIGINATOR, 0, fault));
}
