// The samples of some octets, whose low four bits come first.
use super::{Row, assert_rows};
use line_coding::Modulator;
use scramblers::Mode;
use std::alloc::Global;
use symbol_map::Sample;

/// A mode, an octet, and the points of its two symbols.
struct Sent(Mode, u8, (i16, i16), (i16, i16));

impl Row for Sent {
    fn holds(&self, _alloc: Global) -> bool {
        let mut modulator = Modulator::new(self.0);
        let first = modulator.push(self.1 % 16);
        let second = modulator.push(self.1 / 16);
        (first.re, first.im) == self.2 && (second.re, second.im) == self.3
    }
}

const OCTETS: &[(&str, Sent)] = &[
    (
        "00 in call mode",
        Sent(Mode::Call, 0x00, (-8192, 2048), (-8192, 2048)),
    ),
    (
        "01 in call mode",
        Sent(Mode::Call, 0x01, (-4096, 6144), (-4096, 6144)),
    ),
    (
        "01 in answer mode",
        Sent(Mode::Answer, 0x01, (-4096, 6144), (4096, -6144)),
    ),
];

#[test]
fn octets_in_both_modes(rt: HostRuntime) {
    assert_rows(&rt, rt.alloc(), OCTETS);
}
