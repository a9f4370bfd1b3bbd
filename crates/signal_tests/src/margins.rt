// How much noise there is between an octet and its two samples.
use super::{Row, assert_rows};
use noise_bound::Margin;
use scramblers::Mode;
use std::alloc::Global;
use symbol_map::Sample;

/// The re of the first sample of the octet 0 in call mode, what the noise on it costs, and whether the octet is sure.
struct Noisy(i16, u64, bool);

impl Row for Noisy {
    fn holds(&self, _alloc: Global) -> bool {
        let mut margin = Margin::new(Mode::Call);
        let first = Sample {
            re: self.0,
            im: 2048,
        };
        let second = Sample {
            re: -8192,
            im: 2048,
        };
        margin.push(0x00, first, second);
        margin.cost() == self.1 && margin.sure() == self.2
    }
}

const MARGINS: &[(&str, Noisy)] = &[
    ("as it was sent", Noisy(-8192, 0, true)),
    ("as far as is sure", Noisy(-8192 + 3238, 10_484_644, true)),
    ("a unit farther", Noisy(-8192 + 3239, 10_491_121, false)),
];

#[test]
fn a_sample_a_unit_farther_is_not_sure(rt: HostRuntime) {
    assert_rows(&rt, rt.alloc(), MARGINS);
}
