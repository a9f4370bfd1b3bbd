// Ties, losses and the states of small codes.
ghost use Rattle.std.specs.Prelude.{◌≡◌, ◌+◌, ◌≤◌, ◌<◌, [], None, IfOk, IsTrue, All};

use super::{Row, assert_rows};
use exact_decoder::{Decoder, Lost, ViterbiStep};
use rate_4800::Rate4800;
use std::alloc::Global;
use symbol_map::{Sample, distance};
use trellis_tables::{LabelReader, TrellisCode, V32Code, Way};

const MIDDLE: Sample = Sample { re: 0, im: 0 };

type Line = Decoder<V32Code, 8, 32, 128>;

// Whether this label alone is released, or none.
fn gives<
    const STATES: usize,
    const LABELS: usize,
    const DEPTH: usize,
    C: ViterbiStep<STATES, LABELS> + Drop,
>(decoder: &mut Decoder<C, STATES, LABELS, DEPTH>, label: Option<u8>) -> bool
    ensures taken { IsTrue result → decoder.new.pending ≡ [] }
    ensures count { decoder.new.count ≡ decoder.old.count }
    ensures lost { decoder.new.lost ≡ decoder.old.lost }
{
    if label.is_some() && decoder.take() != label {
        return false;
    }
    decoder.take() == None && decoder.pending() == 0
}

// Whether a sample is taken, and then this label alone is released, or none.
fn releases<
    const STATES: usize,
    const LABELS: usize,
    const DEPTH: usize,
    C: ViterbiStep<STATES, LABELS> + Drop,
>(decoder: &mut Decoder<C, STATES, LABELS, DEPTH>, sample: Sample, label: Option<u8>) -> bool
    requires taken { decoder.old.pending ≡ [] }
    requires few { decoder.old.count ≤ 128 }
    ensures taken { IsTrue result → decoder.new.pending ≡ [] }
    ensures count { decoder.new.count ≤ decoder.old.count + 1 }
    ensures lost { IsTrue result → decoder.new.lost ≡ None }
{
    decoder.push(sample).is_ok() && gives(decoder, label)
}

// The label of the nearest of four points, of equally near ones the least, by all distances.
fn nearest_of_four(sample: Sample) -> u8
    ensures { result < 4 }
{
    let mut least = (u64::MAX, 0);
    for label in 0..4u8 {
        let far = distance(Rate4800.point(label), sample);
        if far < least.0 {
            least = (far, label);
        }
    }
    least.1 % 4
}

// Whether a row of samples, half a unit of the map or less apart, is read at once, each as the nearest point.
fn reads_row(decoder: &mut Decoder<Rate4800, 1, 4, 128>, im: i16) -> bool
    requires count { decoder.old.count ≡ 0 }
    requires taken { decoder.old.pending ≡ [] }
    requires lost { decoder.old.lost ≡ None }
    ensures taken { IsTrue result → decoder.new.pending ≡ [] }
    ensures lost { IsTrue result → decoder.new.lost ≡ None }
{
    for place in 0..128u32 {
        let re = (512 * place as i32 - 32768) as i16;
        let sample = Sample { re, im };
        if !releases(decoder, sample, Some(nearest_of_four(sample))) {
            return false;
        }
    }
    true
}

/// The im of a row of samples that are read by the nearest of four points.
struct ByFour(i16);

impl Row for ByFour {
    fn holds(&self, alloc: Global) -> bool {
        match Decoder::new(alloc, Rate4800, 0) {
            Ok(mut decoder) => reads_row(&mut decoder, self.0) && ends_with(decoder, &[]),
            Err(_) => false,
        }
    }
}

const ROWS: &[(&str, ByFour)] = &[
    ("-32768", ByFour(-32768)),
    ("-6144", ByFour(-6144)),
    ("-2049", ByFour(-2049)),
    ("-2048", ByFour(-2048)),
    ("-1", ByFour(-1)),
    ("0", ByFour(0)),
    ("1", ByFour(1)),
    ("1024", ByFour(1024)),
    ("2048", ByFour(2048)),
    ("6145", ByFour(6145)),
    ("32767", ByFour(32767)),
];

#[test]
fn four_points_are_read_by_the_nearest(rt: HostRuntime) {
    assert_rows(&rt, rt.alloc(), ROWS);
}

// Whether these are the labels of a nearest sequence that were not released.
fn ends_with<
    const STATES: usize,
    const LABELS: usize,
    const DEPTH: usize,
    C: ViterbiStep<STATES, LABELS> + Drop,
>(decoder: Decoder<C, STATES, LABELS, DEPTH>, labels: &[u8]) -> bool
    requires taken { decoder.pending ≡ [] }
    requires lost { decoder.lost ≡ None }
{
    decoder.finish().as_slice() == labels
}

// Whether the labels carry these quads.
fn carry(labels: &[u8], quads: &[u8]) -> bool
    requires { All (λ label. label < 32) labels.now }
{
    let mut reader = LabelReader::new();
    let mut left = quads;
    for label in labels {
        let Some((quad, behind)) = left.split_first() else {
            return false;
        };
        if reader.push(*label) != *quad {
            return false;
        }
        left = behind;
    }
    left.is_empty()
}

// Whether what isn't released yet carries these quads.
fn ends_carrying(decoder: Line, quads: &[u8]) -> bool
    requires taken { decoder.pending ≡ [] }
    requires lost { decoder.lost ≡ None }
{
    carry(decoder.finish().as_slice(), quads)
}

/// Two points, and the quads that their labels carry.
struct Points((i16, i16), (i16, i16), [u8; 2]);

impl Points {
    fn are_heard(&self, mut decoder: Line) -> bool
        requires count { decoder.count ≡ 0 }
        requires taken { decoder.pending ≡ [] }
    {
        let (re, im) = self.0;
        let first = Sample { re, im };
        let (re, im) = self.1;
        releases(&mut decoder, first, None)
            && releases(&mut decoder, Sample { re, im }, None)
            && ends_carrying(decoder, &self.2)
    }
}

impl Row for Points {
    fn holds(&self, alloc: Global) -> bool {
        match Decoder::new(alloc, V32Code, 0) {
            Ok(decoder) => self.are_heard(decoder),
            Err(_) => false,
        }
    }
}

const POINTS: &[(&str, Points)] = &[
    (
        "the quads 0 and 4",
        Points((-8192, 2048), (0, 2048), [0, 4]),
    ),
    (
        "an octet of zeros",
        Points((-8192, 2048), (-8192, 2048), [0, 0]),
    ),
    (
        "the octet one",
        Points((-4096, 6144), (-4096, 6144), [1, 0]),
    ),
    (
        "the octet one, scrambled",
        Points((-4096, 6144), (4096, -6144), [1, 2]),
    ),
];

#[test]
fn two_points(rt: HostRuntime) {
    assert_rows(&rt, rt.alloc(), POINTS);
}

// Whether nothing is released of 128 samples in the middle of the map. After these all survivors tie.
fn ties(decoder: &mut Line) -> bool
    requires count { decoder.old.count ≡ 0 }
    requires taken { decoder.old.pending ≡ [] }
    requires lost { decoder.old.lost ≡ None }
    ensures count { decoder.new.count ≤ 128 }
    ensures taken { IsTrue result → decoder.new.pending ≡ [] }
    ensures lost { IsTrue result → decoder.new.lost ≡ None }
{
    for symbol in 0..128u32 {
        if !releases(decoder, MIDDLE, None) {
            return false;
        }
    }
    true
}

/// The least of the tied survivors is that of the smallest state.
fn smallest_is_least(mut decoder: Line) -> bool
    requires count { decoder.count ≡ 0 }
    requires taken { decoder.pending ≡ [] }
    requires lost { decoder.lost ≡ None }
{
    ties(&mut decoder) && ends_carrying(decoder, &[4; 128])
}

#[test]
fn of_ties_the_smallest_end_state(rt: HostRuntime) {
    let holds = match Decoder::new(rt.alloc(), V32Code, 0) {
        Ok(decoder) => smallest_is_least(decoder),
        Err(_) => false,
    };
    assert!(rt; holds);
}

// Whether the line is lost with this symbol, as often as a sample is pushed.
fn loses(decoder: &mut Line, symbol: u64) -> bool
    requires taken { decoder.old.pending ≡ [] }
    requires few { decoder.old.count ≤ 129 }
    ensures taken { IsTrue result → decoder.new.pending ≡ [] }
    ensures count { decoder.new.count ≤ decoder.old.count + 1 }
{
    let lost = Lost { symbol };
    decoder.push(MIDDLE) == Err(lost) && decoder.pending() == 0 && decoder.lost() == Some(lost)
}

// Whether a line of ties is lost with the symbol after the depth.
fn is_lost(decoder: &mut Line) -> bool
    requires count { decoder.old.count ≡ 0 }
    requires taken { decoder.old.pending ≡ [] }
    requires lost { decoder.old.lost ≡ None }
{
    ties(decoder) && decoder.lost() == None && loses(decoder, 128) && loses(decoder, 128)
}

#[test]
fn lost_with_the_symbol_after_the_depth(rt: HostRuntime) {
    let holds = match Decoder::new(rt.alloc(), V32Code, 0) {
        Ok(mut decoder) => is_lost(&mut decoder),
        Err(_) => false,
    };
    assert!(rt; holds);
}

/// A code of two states, one of whose two labels changes the state.
#[derive(Clone, Copy)]
struct Flips;

impl TrellisCode<2, 2> for Flips {
    ghost use Rattle.std.proofs.Common.{lit≤, refl};
    ghost use Rattle.signal_tests.specs.Flips.{flips_next, flips_point, flips_differ, flips_bounded, flips_within, flips_enters_once, flips_reaches, flips_before, flips_subset, flips_ways_within, flips_ways_lead, flips_ways_all};

    const REACH: usize = 1;

    ghost REACH = { 1 };

    const PARALLEL: usize = 1;

    ghost PARALLEL = { 1 };

    const SUBSETS: usize = 2;

    ghost SUBSETS = { 2 };

    const WAYS: usize = 2;

    ghost WAYS = { 2 };

    ghost way_before = { flips_before };

    ghost way_subset = { flips_subset };

    ghost table = { flips_next };

    ghost points = { flips_point };

    fn next(&self, state: u8, label: u8) -> Option<u8> {
        Some((state + label) % 2)
    }

    fn before(&self, state: u8, label: u8) -> Option<u8> {
        Some((state + label) % 2)
    }

    fn point(&self, label: u8) -> Sample {
        if label == 0 {
            Sample { re: -1000, im: 0 }
        } else {
            Sample { re: 1000, im: 0 }
        }
    }

    fn way(&self, state: u8, place: u8) -> Way {
        Way {
            before: (state + place) % 2,
            subset: place,
        }
    }

    ghost states_few = { (lit≤ tt, lit≤ tt) };

    ghost labels_few = { (lit≤ tt, lit≤ tt) };

    ghost reach_some = { lit≤ tt };

    ghost reach_few = { lit≤ tt };

    ghost bounded = { flips_bounded };

    ghost within = { flips_within };

    ghost enters_once = { flips_enters_once };

    ghost reaches = { flips_reaches };

    ghost points_differ = { flips_differ };

    ghost parallel_some = { lit≤ tt };

    ghost ways_some = { lit≤ tt };

    ghost ways_few = { lit≤ tt };

    ghost subsets_fill = { refl };

    ghost ways_within = { flips_ways_within };

    ghost ways_lead = { flips_ways_lead };

    ghost ways_all = { flips_ways_all };
}

impl ViterbiStep<2, 2> for Flips {}

const LEFT: Sample = Sample { re: -900, im: 0 };

const RIGHT: Sample = Sample { re: 900, im: 0 };

// Survivors of both starts have the same labels and never meet in a state.
fn of_any_start(any: &mut Decoder<Flips, 2, 2, 3>) -> bool
    requires count { any.old.count ≡ 0 }
    requires taken { any.old.pending ≡ [] }
{
    releases(any, LEFT, Some(0)) && releases(any, RIGHT, Some(1))
}

// Those of one start part with the first label.
fn of_one_start(mut one: Decoder<Flips, 2, 2, 3>) -> bool
    requires count { one.count ≡ 0 }
    requires taken { one.pending ≡ [] }
{
    releases(&mut one, RIGHT, None) && ends_with(one, &[1])
}

// Whether labels are released so of decoders of any start and of one.
fn starts_differ(alloc: Global) -> bool {
    let Ok(mut any) = Decoder::new_any(alloc, Flips) else {
        return false;
    };
    if !of_any_start(&mut any) {
        return false;
    }
    match Decoder::new(alloc, Flips, 1) {
        Ok(one) => of_one_start(one),
        Err(_) => false,
    }
}

#[test]
fn labels_of_two_starts_are_released(rt: HostRuntime) {
    assert!(rt; starts_differ(rt.alloc()));
}

/// A code of 80 states in a circle. Each of its 80 labels leads as many states on.
#[derive(Clone, Copy)]
struct Laps;

impl TrellisCode<80, 80> for Laps {
    ghost use Rattle.std.proofs.Common.{lit≤, refl};
    ghost use Rattle.signal_tests.specs.Laps.{laps_next, laps_bounded, laps_within, laps_enters_once, laps_reaches, laps_before, laps_subset, laps_ways_within, laps_ways_lead, laps_ways_all, laps_point, laps_differ};

    const REACH: usize = 1;

    ghost REACH = { 1 };

    const PARALLEL: usize = 1;

    ghost PARALLEL = { 1 };

    const SUBSETS: usize = 80;

    ghost SUBSETS = { 80 };

    const WAYS: usize = 80;

    ghost WAYS = { 80 };

    ghost way_before = { laps_before };

    ghost way_subset = { laps_subset };

    ghost table = { laps_next };

    ghost points = { laps_point };

    fn next(&self, state: u8, label: u8) -> Option<u8> {
        Some((state + label) % 80)
    }

    fn before(&self, state: u8, label: u8) -> Option<u8> {
        Some((state + 80 - label) % 80)
    }

    fn point(&self, label: u8) -> Sample {
        let re = if label == 79 {
            10_000
        } else {
            i16::from(label)
        };
        Sample { re, im: 0 }
    }

    fn way(&self, state: u8, place: u8) -> Way {
        Way {
            before: (state + 80 - place) % 80,
            subset: place,
        }
    }

    ghost states_few = { (lit≤ tt, lit≤ tt) };

    ghost labels_few = { (lit≤ tt, lit≤ tt) };

    ghost reach_some = { lit≤ tt };

    ghost reach_few = { lit≤ tt };

    ghost bounded = { laps_bounded };

    ghost within = { laps_within };

    ghost enters_once = { laps_enters_once };

    ghost reaches = { laps_reaches };

    ghost points_differ = { laps_differ };

    ghost parallel_some = { lit≤ tt };

    ghost ways_some = { lit≤ tt };

    ghost ways_few = { lit≤ tt };

    ghost subsets_fill = { refl };

    ghost ways_within = { laps_ways_within };

    ghost ways_lead = { laps_ways_lead };

    ghost ways_all = { laps_ways_all };
}

impl ViterbiStep<80, 80> for Laps {}

// Each end state but one has one label that was not sent, and of equal costs that is the last one; so all labels but the last are released.
fn releases_all_but_one(mut decoder: Decoder<Laps, 80, 80, 2>) -> bool
    requires count { decoder.count ≡ 0 }
    requires taken { decoder.pending ≡ [] }
{
    let sent = Sample { re: 10_000, im: 0 };
    releases(&mut decoder, sent, None)
        && releases(&mut decoder, sent, Some(79))
        && releases(&mut decoder, sent, Some(79))
        && ends_with(decoder, &[79])
}

// More states than a word has bits.
#[test]
fn codes_may_have_many_states(rt: HostRuntime) {
    let holds = match Decoder::new(rt.alloc(), Laps, 70) {
        Ok(decoder) => releases_all_but_one(decoder),
        Err(_) => false,
    };
    assert!(rt; holds);
}
