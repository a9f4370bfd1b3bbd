// Recordings of an octet in both modes, at both rates.
use super::{Row, assert_rows};
use recordings::{Rate, header_octets};
use scramblers::Mode;
use signal_commands::encode::Recorder;
use std::alloc::Global;

/// The header of the recordings of a rate and a mode.
struct Header(Rate, Mode, &'static [u8]);

impl Row for Header {
    fn holds(&self, _alloc: Global) -> bool {
        header_octets(self.0, self.1).as_slice() == self.2
    }
}

const HEADERS: &[(&str, Header)] = &[
    ("call", Header(Rate::Trellis, Mode::Call, b"V32R\0\0\0\0")),
    (
        "answer",
        Header(Rate::Trellis, Mode::Answer, b"V32R\x01\0\0\0"),
    ),
    (
        "call at 4800",
        Header(Rate::Quarters, Mode::Call, b"V32R\x02\0\0\0"),
    ),
    (
        "answer at 4800",
        Header(Rate::Quarters, Mode::Answer, b"V32R\x03\0\0\0"),
    ),
];

#[test]
fn headers_name_the_mode_and_the_rate(rt: HostRuntime) {
    assert_rows(&rt, rt.alloc(), HEADERS);
}

/// What an octet becomes at a rate and in a mode: two samples, or four at the second rate.
struct Recorded(Rate, Mode, u8, &'static [u8]);

impl Row for Recorded {
    fn holds(&self, _alloc: Global) -> bool {
        Recorder::new(self.0, self.1).push(self.2).as_slice() == self.3
    }
}

const RECORDED: &[(&str, Recorded)] = &[
    (
        "00 in call mode",
        Recorded(
            Rate::Trellis,
            Mode::Call,
            0x00,
            b"\x00\xe0\x00\x08\x00\xe0\x00\x08",
        ),
    ),
    (
        "01 in call mode",
        Recorded(
            Rate::Trellis,
            Mode::Call,
            0x01,
            b"\x00\xf0\x00\x18\x00\xf0\x00\x18",
        ),
    ),
    (
        "01 in answer mode",
        Recorded(
            Rate::Trellis,
            Mode::Answer,
            0x01,
            b"\x00\xf0\x00\x18\x00\x10\x00\xe8",
        ),
    ),
    (
        "01 in call mode at 4800",
        Recorded(
            Rate::Quarters,
            Mode::Call,
            0x01,
            b"\x00\x08\x00\xe8\x00\x08\x00\xe8\x00\x08\x00\xe8\x00\x08\x00\xe8",
        ),
    ),
];

#[test]
fn octets_become_samples(rt: HostRuntime) {
    assert_rows(&rt, rt.alloc(), RECORDED);
}
