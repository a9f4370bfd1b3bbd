// Quads coded and read again, and the code's states.
ghost use Rattle.std.specs.Prelude.{◌≡◌, length};

use super::{Row, assert_rows};
use std::alloc::Global;
use symbol_map::Sample;
use trellis_tables::{Encoder, LabelReader, TrellisCode, V32Code, rotate_state};

/// Quads, each with the point that it is coded as.
struct Coded(&'static [(u8, (i16, i16))]);

impl Row for Coded {
    /// The quads are read back from their labels.
    fn holds(&self, _alloc: Global) -> bool {
        let mut encoder = Encoder::new();
        let mut reader = LabelReader::new();
        for &(quad, (re, im)) in self.0 {
            let label = encoder.push(quad % 16);
            if V32Code.point(label) != (Sample { re, im }) || reader.push(label) != quad {
                return false;
            }
        }
        true
    }
}

const CODED: &[(&str, Coded)] = &[
    (
        "the octet 00 in call mode",
        Coded(&[(0x0, (-8192, 2048)), (0x0, (-8192, 2048))]),
    ),
    (
        "the octet 01 in call mode",
        Coded(&[(0x1, (-4096, 6144)), (0x0, (-4096, 6144))]),
    ),
    (
        "the octet 01 in answer mode, scrambled",
        Coded(&[(0x1, (-4096, 6144)), (0x2, (4096, -6144))]),
    ),
    (
        "the first symbol of a detection pattern",
        Coded(&[(0x2, (8192, -2048))]),
    ),
];

#[test]
fn quads_become_points(rt: HostRuntime) {
    assert_rows(&rt, rt.alloc(), CODED);
}

#[test]
fn uncoded_bits_are_read(rt: HostRuntime) {
    let mut reader = LabelReader::new();
    assert!(rt; reader.push(0) == 0x0 && reader.push(2) == 0x4);
}

// Whether each branch is found again from its end, whatever the code.
fn are_found<const STATES: usize, const LABELS: usize, C: TrellisCode<STATES, LABELS>>(
    code: &C,
) -> bool {
    for state in 0..STATES {
        for label in 0..LABELS {
            if let Some(to) = code.next(state as u8, label as u8) {
                if code.before(to, label as u8) != Some(state as u8) {
                    return false;
                }
            }
        }
    }
    true
}

// Whether two equal symbols lead on, and a label that leads nowhere does not.
fn lead_on() -> bool {
    V32Code.next(0, 8) == Some(2)
        && V32Code.next(2, 8) == Some(3)
        && V32Code.before(3, 8) == Some(2)
        && V32Code.next(3, 8) == None
}

/// A state, and what it is after a clockwise quarter turn of all points.
struct Rotated(u8, u8);

impl Row for Rotated {
    fn holds(&self, _alloc: Global) -> bool {
        rotate_state(self.0 % 8) == self.1
    }
}

const ROTATED: &[(&str, Rotated)] = &[
    ("state 0", Rotated(0, 5)),
    ("state 1", Rotated(1, 6)),
    ("state 2", Rotated(2, 7)),
    ("state 3", Rotated(3, 4)),
    ("state 4", Rotated(4, 1)),
    ("state 5", Rotated(5, 2)),
    ("state 6", Rotated(6, 3)),
    ("state 7", Rotated(7, 0)),
];

#[test]
fn states_and_branches(rt: HostRuntime) {
    assert_rows(&rt, rt.alloc(), ROTATED);
    assert!(rt; lead_on() && are_found(&V32Code) && <V32Code as TrellisCode<8, 32>>::REACH == 2);
}
