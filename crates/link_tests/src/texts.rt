// The text of each kind of frame, lines of a trace, and numbers as texts.
use super::assert_row;
use frame_check::Octets;
use lapm_frames::{Frame, Heard, Sent, read};
use line_texts::{FrameText, LineText, TraceLine, put_decimal, write_frame_text, write_line};
use shared_terms::Role;

/// The octets of a frame of the originator, and its text.
const FRAMES: &[(&[u8], &str)] = &[
    (b"\x03\xfe\x01ab", "i s=127 r=0 p=1 n=2"),
    (b"\x03\x02\x14", "i s=1 r=10 p=0 n=0"),
    (b"\x03\x01\x01", "rr cmd r=0 p=1"),
    (b"\x01\x01\x0a", "rr rsp r=5 p=0"),
    (b"\x01\x05\x14", "rnr rsp r=10 p=0"),
    (b"\x01\x09\x06", "rej rsp r=3 p=0"),
    (b"\x03\x0d\xff", "srej cmd r=127 p=1"),
    (b"\x03\x7f", "sabme cmd p=1"),
    (b"\x03\x43", "disc cmd p=0"),
    (b"\x01\x73", "ua rsp p=1"),
    (b"\x01\x0f", "dm rsp p=0"),
    (b"\x01\x87a", "frmr rsp p=0 n=1"),
    (b"\x03\x03abc", "ui cmd p=0 n=3"),
    (b"\x03\x03@\x00\x1e", "ui cmd p=0 brk 0 30"),
    (b"\x01\x13`\x01\xff", "ui rsp p=1 brkack 1 255"),
    (b"\x03\x03@\x02\x1e", "ui cmd p=0 n=3"),
    (b"\x01\x13", "ui rsp p=1 n=0"),
    (b"\x03\xe3@\x00\x1e", "test cmd p=0 n=3"),
    (b"\x03\xafabcdefghijkl", "xid cmd p=0 n=12"),
    (b"\x03\xaf\x82", "xid cmd p=0 n=1"),
    (b"\x01\xaf", "xid rsp p=0 n=0"),
    (b"\x03\xf3ab", "test cmd p=1 n=2"),
];

/// Whether these octets of the originator are a frame of that text.
fn has_text(octets: &[u8], text: &str) -> bool {
    let Ok(frame) = read(octets, Role::Originator, 0) else {
        return false;
    };
    let mut out = FrameText::new();
    write_frame_text(&frame, &mut out);
    out.as_slice() == text.as_bytes()
}

#[test]
fn each_kind_has_its_text(rt: HostRuntime) {
    for &(octets, text) in FRAMES {
        assert_row(&rt, text, has_text(octets, text));
    }
}

/// These octets of the originator as they are sent: flags, where they are no frame.
fn sent(octets: &[u8]) -> Sent {
    match read(octets, Role::Originator, 0) {
        Ok(frame) => Sent::Frame(frame),
        Err(_) => Sent::Flags,
    }
}

fn silent_line() -> TraceLine {
    TraceLine {
        turn: 0,
        role: Role::Answerer,
        arrived: Heard::Nothing,
        sent: Some(Sent::Mark),
        given: None,
    }
}

fn break_line() -> TraceLine {
    TraceLine {
        turn: 8,
        role: Role::Answerer,
        arrived: Heard::Passed(sent(b"\x03\x03@\x00\x1e")),
        sent: Some(sent(b"\x03\x03`\x00\x1e")),
        given: Some(30),
    }
}

fn last_line() -> TraceLine {
    TraceLine {
        turn: 120,
        role: Role::Originator,
        arrived: Heard::Lost(Sent::Adp),
        sent: None,
        given: None,
    }
}

fn chance_line() -> TraceLine {
    TraceLine {
        turn: 1,
        role: Role::Originator,
        arrived: Heard::Chance,
        sent: None,
        given: None,
    }
}

/// Whether a line of a trace has that text.
fn line_is(line: TraceLine, text: &[u8]) -> bool {
    let mut out = LineText::new();
    write_line(&line, &mut out);
    out.as_slice() == text
}

#[test]
fn lines_of_a_trace_have_their_texts(rt: HostRuntime) {
    assert_row(&rt, "silent", line_is(silent_line(), b"0 answ - > mark\n"));
    let broken = line_is(
        break_line(),
        b"8 answ ui cmd p=0 brk 0 30 > ui cmd p=0 brkack 0 30 break=30\n",
    );
    assert_row(&rt, "broken", broken);
    assert_row(
        &rt,
        "last",
        line_is(last_line(), b"120 orig lost adp > none\n"),
    );
    assert_row(&rt, "chance", line_is(chance_line(), b"1 orig chance\n"));
}

#[test]
fn numbers_stand_behind_what_is_there(rt: HostRuntime) {
    let mut octets = Octets::<64>::new();
    octets.extend(b"a ");
    put_decimal(&mut octets, 0);
    octets.push(b' ');
    put_decimal(&mut octets, u64::MAX);
    assert!(rt; octets.as_slice() == b"a 0 18446744073709551615".as_slice());
}
