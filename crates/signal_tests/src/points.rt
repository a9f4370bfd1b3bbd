// Points, distances and nearest labels.
use super::{Row, assert_rows};
use std::alloc::Global;
use symbol_map::{Sample, distance, nearest_of, point};

/// A label and its point of the map.
struct Corner(u8, i16, i16);

impl Row for Corner {
    fn holds(&self, _alloc: Global) -> bool {
        let Sample { re, im } = point(self.0 % 32);
        re == self.1 && im == self.2
    }
}

const CORNERS: &[(&str, Corner)] = &[
    ("label 0", Corner(0, -8192, 2048)),
    ("label 3", Corner(3, 8192, 2048)),
    ("label 8", Corner(8, -4096, 6144)),
    ("label 24", Corner(24, 2048, 8192)),
    ("label 31", Corner(31, -2048, 8192)),
];

#[test]
fn corners_of_the_map(rt: HostRuntime) {
    assert_rows(&rt, rt.alloc(), CORNERS);
}

/// A sample on the axis, a Y0 and a y, and of the four labels with these the nearest, of equally near ones the smallest.
struct OfSubset(i16, u8, u8, u8);

impl Row for OfSubset {
    fn holds(&self, _alloc: Global) -> bool {
        let sample = Sample { re: self.0, im: 0 };
        nearest_of(sample, self.1 % 2, self.2 % 4) == self.3
    }
}

const NEAREST: &[(&str, OfSubset)] = &[
    ("label 2", OfSubset(0, 0, 0, 2)),
    ("label 17", OfSubset(0, 1, 0, 17)),
    ("label 11", OfSubset(32_767, 0, 1, 11)),
];

#[test]
fn nearest_of_a_subset_and_of_a_tie(rt: HostRuntime) {
    assert_rows(&rt, rt.alloc(), NEAREST);
}

#[test]
fn farthest_samples(rt: HostRuntime) {
    let low = Sample {
        re: i16::MIN,
        im: i16::MIN,
    };
    let high = Sample {
        re: i16::MAX,
        im: i16::MAX,
    };
    assert!(rt; distance(low, high) == 2 * 65_535 * 65_535 && distance(high, high) == 0);
}
