// The bits of the labels that octets are coded as.
use super::{Row, assert_rows};
use line_coding::{Demodulate, Demodulator};
use scramblers::Mode;
use std::alloc::Global;

/// A mode, and two labels that give the octet 01.
struct OctetOne(Mode, u8, u8);

impl Row for OctetOne {
    fn holds(&self, _alloc: Global) -> bool {
        let mut demodulator = Demodulator::new(self.0);
        demodulator.push(self.1 % 32) == 1 && demodulator.push(self.2 % 32) == 0
    }
}

const LABELS: &[(&str, OctetOne)] = &[
    ("in call mode (-2, 3) twice", OctetOne(Mode::Call, 8, 8)),
    (
        "in answer mode (-2, 3) and (2, -3)",
        OctetOne(Mode::Answer, 8, 12),
    ),
];

#[test]
fn labels_give_the_octet_one_back(rt: HostRuntime) {
    assert_rows(&rt, rt.alloc(), LABELS);
}
