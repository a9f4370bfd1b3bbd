// The step of the four-point code: the one survivor goes on by the nearest point.
ghost use Rattle.std.specs.Prelude.{◌≡◌, ℕ, ◌+◌, ◌*◌, ◌<◌, ◌≤◌, ◌^◌, length, slice_index};
ghost use Rattle.exact_decoder.specs.Traced.{choices_of};
ghost use Rattle.exact_decoder.specs.Advances.{Advances};
ghost use Rattle.exact_decoder.specs.Lines.{coordinate, least_four};
ghost use Rattle.rate_4800.specs.Code.{point_of, way_before, way_subset};
ghost use Rattle.rate_4800.specs.Nearest.{IsNearestLabel};

use crate::code::Rate4800;
use exact_decoder::{Column, ViterbiStep, advance_plainly};
use symbol_map::Sample;

/// A coordinate that is counted from the least one.
#[inline(always)]
fn counted(value: i16) -> u32
    ensures value { coordinate result ≡ value }
    ensures bound { result < 65536 }
{
    (i32::from(value) + 32768) as u32
}

/// A number with a label below it.
#[inline(always)]
fn key(number: u32, label: u32) -> u32
    requires number { number ≤ 262144 }
    requires label { label < 4 }
    ensures { result ≡ 4 * number + label }
{
    4 * number + label
}

/// The least of four.
#[inline(always)]
fn least_of(a: u32, b: u32, c: u32, d: u32) -> u32
    ensures { result ≡ least_four a b c d }
{
    a.min(b).min(c.min(d))
}

/// The label of the nearest point, of equally near ones the least.
#[inline(always)]
fn nearest_label(sample: Sample) -> u8
    ensures { IsNearestLabel sample result }
{
    // All points are equally far from the middle, so that the nearest one has the largest product with the sample. Here are those with the
    // points 0 and 1, counted from the least; the points 2 and 3 are opposite.
    let (x, y) = (counted(sample.re), counted(sample.im));
    let first = 3 * x + y;
    let second = 196_608 + x - 3 * y;
    let least = least_of(
        key(262_144 - first, 0),
        key(262_144 - second, 1),
        key(first, 2),
        key(second, 3),
    );
    (least % 4) as u8
}

/// One sample more where the sum is not 0. It is 0 after each sample, since the least sum is taken off.
#[cold]
#[inline(never)]
fn advance_from_far(sample: Sample, sums: &mut [u64], column: &mut Column<1>)
    requires long { length sums.old ≡ 1 }
    requires small { (s : ℕ) → s < 1 → slice_index sums.old s < 2 ^ 62 }
    ensures { Advances point_of 1 1 4 4 way_before way_subset sample sums.old sums.new (choices_of column.new) }
{
    advance_plainly::<1, 4, Rate4800>(&Rate4800, sample, sums, column);
}

impl ViterbiStep<1, 4> for Rate4800 {
    fn advance(&self, sample: Sample, sums: &mut [u64], column: &mut Column<1>) {
        if sums[0] == 0 {
            *column = Column {
                before: [0],
                labels: [nearest_label(sample)],
            };
        } else {
            advance_from_far(sample, sums, column);
        }
    }

    fn go_back(&self, column: &Column<1>, live: &mut [u8; 1]) -> Option<u8> {
        *live = column.before;
        Some(column.labels[0])
    }
}
