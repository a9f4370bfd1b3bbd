// The step of the eight-state code by vectors: a lane has a state's key, of 32 bits.
ghost use Rattle.std.specs.Prelude.{◌≡◌, ℕ, ℤ, ◌<◌, ◌≤◌, ◌+◌, ◌-◌, ◌*◌, ◌/◌, ◌%◌, ◌^◌, min, nat_eq, ◌&&◌, true, List, [], ◌∷◌, length, slice_index};
ghost use Rattle.std.specs.Simd.Lanes.{Each1};
ghost use Rattle.symbol_map.specs.Points.{point_of};
ghost use Rattle.trellis_tables.specs.Ways.{way_before, way_subset};
ghost use Rattle.exact_decoder.specs.Settled.{choice_at};
ghost use Rattle.exact_decoder.specs.Traced.{choices_of};
ghost use Rattle.exact_decoder.specs.Advances.{Advances};
ghost use Rattle.exact_decoder.specs.Lines.{coordinate, least_four, words, IsNarrow};

use crate::column::Column;
use crate::lines::{both_ways, lesser, nearest_others, nearest_squares};
use crate::step::{ViterbiStep, advance_plainly};
use std::simd::prelude::*;
use symbol_map::Sample;
use trellis_tables::V32Code;

/// The bits of a sum that are not in a key of 32 bits. The squared distances of one sample from points of the map differ by multiples of
/// 4,096.
const WIDE: u64 = 0xfff8_0000_0fff_0000;

/// Whether keys of 32 bits have all of these sums. They do as soon as a sequence leads to each state.
#[inline(always)]
fn are_narrow(sums: &[u64]) -> bool
    requires long { length sums.now ≡ 8 }
    requires states { (s : ℕ) → s < 8 → slice_index sums.now s % 65536 ≡ s }
    requires small { (s : ℕ) → s < 8 → slice_index sums.now s < 2 ^ 62 }
    ensures { result ≡ true → (s : ℕ) → s < 8 → IsNarrow (slice_index sums.now s) s }
{
    (u64x8::from_slice(sums) & u64x8::splat(WIDE))
        .simd_eq(u64x8::splat(0))
        .all()
}

/// A coordinate that is counted from the least one.
#[inline(always)]
fn counted(value: i16) -> u32
    ensures value { coordinate result ≡ value }
    ensures bound { result < 65536 }
{
    (i32::from(value) + 32768) as u32
}

/// Sums as keys of 32 bits, each with its state.
#[inline(always)]
fn keys_of(sums: &[u64]) -> u32x8
    requires long { length sums.now ≡ 8 }
    requires narrow { (s : ℕ) → s < 8 → IsNarrow (slice_index sums.now s) s }
    ensures { (a b c d e f g h : ℕ) → sums.now ≡ words a b c d e f g h
        → a < 2 ^ 23 → b < 2 ^ 23 → c < 2 ^ 23 → d < 2 ^ 23 → e < 2 ^ 23 → f < 2 ^ 23 → g < 2 ^ 23 → h < 2 ^ 23
        → result ≡ ((256 * a + 0) ∷ (256 * b + 1) ∷ (256 * c + 2) ∷ (256 * d + 3) ∷ (256 * e + 4) ∷ (256 * f + 5) ∷ (256 * g + 6) ∷ (256 * h + 7) ∷ []) }
{
    (u64x8::from_slice(sums) >> 20).cast::<u32>() + u32x8::from_array([0, 1, 2, 3, 4, 5, 6, 7])
}

/// The sums in each lane.
#[inline(always)]
fn plus(x: u32x4, y: u32x4) -> u32x4
    ensures { (a b c d p q r s : ℕ) → x ≡ (a ∷ b ∷ c ∷ d ∷ []) → y ≡ (p ∷ q ∷ r ∷ s ∷ [])
        → a + p < 2 ^ 32 → b + q < 2 ^ 32 → c + r < 2 ^ 32 → d + s < 2 ^ 32
        → result ≡ ((a + p) ∷ (b + q) ∷ (c + r) ∷ (d + s) ∷ []) }
{
    x + y
}

/// The least keys of the ways into states 0 to 3.
#[inline(always)]
fn enter_first(even: u32x4, squares: u32x4, others: u32x4) -> u32x4
    ensures { (a b c d k l m n p q r s : ℕ) → even ≡ (a ∷ b ∷ c ∷ d ∷ []) → squares ≡ (k ∷ l ∷ m ∷ n ∷ []) → others ≡ (p ∷ q ∷ r ∷ s ∷ [])
        → a < 2 ^ 31 → b < 2 ^ 31 → c < 2 ^ 31 → d < 2 ^ 31 → k < 2 ^ 31 → l < 2 ^ 31 → p < 2 ^ 31 → q < 2 ^ 31
        → result ≡ (least_four (a + p) (d + q) (c + k) (b + l) ∷ least_four (b + p) (c + q) (d + k) (a + l)
        ∷ least_four (c + p) (b + q) (a + k) (d + l) ∷ least_four (d + p) (a + q) (b + k) (c + l) ∷ []) }
{
    lesser(
        lesser(
            plus(even, others.swizzle([0, 0, 0, 0])),
            plus(even.swizzle([3, 2, 1, 0]), others.swizzle([1, 1, 1, 1])),
        ),
        lesser(
            plus(even.swizzle([2, 3, 0, 1]), squares.swizzle([0, 0, 0, 0])),
            plus(even.swizzle([1, 0, 3, 2]), squares.swizzle([1, 1, 1, 1])),
        ),
    )
}

/// The least keys of the ways into states 4 to 7.
#[inline(always)]
fn enter_second(odd: u32x4, squares: u32x4, others: u32x4) -> u32x4
    ensures { (a b c d k l m n p q r s : ℕ) → odd ≡ (a ∷ b ∷ c ∷ d ∷ []) → squares ≡ (k ∷ l ∷ m ∷ n ∷ []) → others ≡ (p ∷ q ∷ r ∷ s ∷ [])
        → a < 2 ^ 31 → b < 2 ^ 31 → c < 2 ^ 31 → d < 2 ^ 31 → m < 2 ^ 31 → n < 2 ^ 31 → r < 2 ^ 31 → s < 2 ^ 31
        → result ≡ (least_four (a + m) (d + n) (b + r) (c + s) ∷ least_four (d + m) (a + n) (c + r) (b + s)
        ∷ least_four (c + m) (b + n) (d + r) (a + s) ∷ least_four (b + m) (c + n) (a + r) (d + s) ∷ []) }
{
    lesser(
        lesser(
            plus(odd.swizzle([0, 3, 2, 1]), squares.swizzle([2, 2, 2, 2])),
            plus(odd.swizzle([3, 0, 1, 2]), squares.swizzle([3, 3, 3, 3])),
        ),
        lesser(
            plus(odd.swizzle([1, 2, 3, 0]), others.swizzle([2, 2, 2, 2])),
            plus(odd.swizzle([2, 1, 0, 3]), others.swizzle([3, 3, 3, 3])),
        ),
    )
}

/// The least of all keys, in each lane.
#[inline(always)]
fn least_in(low: u32x4, high: u32x4) -> u32x4
    ensures { (a b c d p q r s : ℕ) → low ≡ (a ∷ b ∷ c ∷ d ∷ []) → high ≡ (p ∷ q ∷ r ∷ s ∷ [])
        → (z : ℕ) × (z ≡ min (min (min a p) (min c r)) (min (min b q) (min d s))) × (result ≡ (z ∷ z ∷ z ∷ z ∷ [])) }
{
    let of_two = lesser(low, high);
    let of_four = lesser(of_two, of_two.swizzle([2, 3, 0, 1]));
    lesser(of_four, of_four.swizzle([1, 0, 3, 2]))
}

/// The bits of each lane that are in a mask.
#[inline(always)]
fn low_bits(lanes: u32x8, mask: u32) -> u8x8
    requires few { mask < 256 }
    requires long { length lanes ≡ 8 }
    ensures { (k : ℕ) (a b c d e f g h : ℕ) → mask ≡ 2 ^ k - 1 → lanes ≡ (a ∷ b ∷ c ∷ d ∷ e ∷ f ∷ g ∷ h ∷ [])
        → result ≡ (a % 2 ^ k ∷ b % 2 ^ k ∷ c % 2 ^ k ∷ d % 2 ^ k ∷ e % 2 ^ k ∷ f % 2 ^ k ∷ g % 2 ^ k ∷ h % 2 ^ k ∷ []) }
{
    (lanes & u32x8::splat(mask)).cast::<u8>()
}

/// Sums without the least one, each with its state.
#[inline(always)]
fn lowered(keys: u32x8, least: u32x8) -> u64x8
    ensures { (a b c d e f g h z : ℕ) → keys ≡ (a ∷ b ∷ c ∷ d ∷ e ∷ f ∷ g ∷ h ∷ []) → least ≡ (z ∷ z ∷ z ∷ z ∷ z ∷ z ∷ z ∷ z ∷ [])
        → z ≤ a → z ≤ b → z ≤ c → z ≤ d → z ≤ e → z ≤ f → z ≤ g → z ≤ h
        → a < 2 ^ 32 → b < 2 ^ 32 → c < 2 ^ 32 → d < 2 ^ 32 → e < 2 ^ 32 → f < 2 ^ 32 → g < 2 ^ 32 → h < 2 ^ 32
        → result ≡ words (a / 256 - z / 256) (b / 256 - z / 256) (c / 256 - z / 256) (d / 256 - z / 256) (e / 256 - z / 256) (f / 256 - z / 256)
        (g / 256 - z / 256) (h / 256 - z / 256) }
{
    (((keys >> 8) - (least >> 8)).cast::<u64>() << 28) + u64x8::from_array([0, 1, 2, 3, 4, 5, 6, 7])
}

/// One sample more, where keys of 32 bits have all sums.
#[inline(always)]
fn advance_by_vectors(sample: Sample, sums: &mut [u64], column: &mut Column<8>)
    requires long { length sums.old ≡ 8 }
    requires narrow { (s : ℕ) → s < 8 → IsNarrow (slice_index sums.old s) s }
    ensures { Advances point_of 8 4 8 4 way_before way_subset sample sums.old sums.new (choices_of column.new) }
{
    let at = both_ways(counted(sample.re), counted(sample.im));
    let squares = nearest_squares(at);
    let others = nearest_others(at);
    let before = keys_of(sums);
    let first = enter_first(before.swizzle([0, 2, 4, 6]), squares, others);
    let second = enter_second(before.swizzle([1, 3, 5, 7]), squares, others);
    let least = least_in(first, second);
    let keys = first.shuffle(second, [0, 1, 2, 3, 4, 5, 6, 7]);
    lowered(keys, least.swizzle([0, 0, 0, 0, 0, 0, 0, 0])).copy_to_slice(sums);
    low_bits(keys, 7).copy_to_slice(&mut column.before);
    low_bits(keys >> 3, 31).copy_to_slice(&mut column.labels);
}

/// The first samples, while there are states to which no sequence leads. A function apart, so that the arrays of `advance_plainly` are laid out
/// only there.
#[cold]
#[inline(never)]
fn advance_first(sample: Sample, sums: &mut [u64], column: &mut Column<8>)
    requires long { length sums.old ≡ 8 }
    requires small { (s : ℕ) → s < 8 → slice_index sums.old s < 2 ^ 62 }
    ensures { Advances point_of 8 4 8 4 way_before way_subset sample sums.old sums.new (choices_of column.new) }
{
    advance_plainly::<8, 32, V32Code>(&V32Code, sample, sums, column);
}

/// A column in one vector: the states before, and then the labels.
#[inline(always)]
fn table_of(column: &Column<8>) -> u8x16
    ensures before { (s : ℕ) → s < 8 → slice_index result s ≡ (choice_at (choices_of column.now) s).before }
    ensures labels { (s : ℕ) → s < 8 → slice_index result (s + 8) ≡ (choice_at (choices_of column.now) s).label }
    ensures long { length result ≡ 16 }
{
    u8x8::from_slice(&column.before).shuffle(
        u8x8::from_slice(&column.labels),
        [0, 1, 2, 3, 4, 5, 6, 7, 8, 9, 10, 11, 12, 13, 14, 15],
    )
}

/// The places of the states before and of the labels of these states in such a vector.
#[inline(always)]
fn places_of(live: u8x8) -> u8x16
    ensures { (a b c d e f g h : ℕ) → live ≡ (a ∷ b ∷ c ∷ d ∷ e ∷ f ∷ g ∷ h ∷ [])
        → a < 8 → b < 8 → c < 8 → d < 8 → e < 8 → f < 8 → g < 8 → h < 8
        → result ≡ (a ∷ b ∷ c ∷ d ∷ e ∷ f ∷ g ∷ h ∷ (a + 8) ∷ (b + 8) ∷ (c + 8) ∷ (d + 8) ∷ (e + 8) ∷ (f + 8) ∷ (g + 8) ∷ (h + 8) ∷ []) }
{
    live.swizzle([0, 1, 2, 3, 4, 5, 6, 7, 0, 1, 2, 3, 4, 5, 6, 7])
        + u8x16::from_array([0, 0, 0, 0, 0, 0, 0, 0, 8, 8, 8, 8, 8, 8, 8, 8])
}

/// The lanes of a vector at these places.
#[inline(always)]
fn looked_up(table: u8x16, places: u8x16) -> u8x16
    requires long { length places ≡ 16 }
    requires within { Each1 (λ place. place < 16) places }
    ensures each { (i : ℕ) → i < 16 → slice_index result i ≡ slice_index table (slice_index places i) }
    ensures long { length result ≡ 16 }
{
    table.swizzle_dyn(places)
}

/// The states before those of a list in a column, and behind them the labels there.
#[inline(always)]
fn taken_at(column: &Column<8>, live: &[u8]) -> u8x16
    requires long { length live.now ≡ 8 }
    requires within { (s : ℕ) → s < 8 → slice_index live.now s < 8 }
    ensures before { (s : ℕ) → s < 8 → slice_index result s ≡ (choice_at (choices_of column.now) (slice_index live.now s)).before }
    ensures labels { (s : ℕ) → s < 8 → slice_index result (s + 8) ≡ (choice_at (choices_of column.now) (slice_index live.now s)).label }
    ensures long { length result ≡ 16 }
{
    looked_up(table_of(column), places_of(u8x8::from_slice(live)))
}

/// Whether all lanes have one number: each has that of the next.
#[inline(always)]
fn is_one(labels: u8x8) -> bool
    ensures { (a b c d e f g h : ℕ) → labels ≡ (a ∷ b ∷ c ∷ d ∷ e ∷ f ∷ g ∷ h ∷ [])
        → result ≡ (nat_eq a b && (nat_eq b c && (nat_eq c d && (nat_eq d e && (nat_eq e f && (nat_eq f g && (nat_eq g h && nat_eq h a))))))) }
{
    labels
        .simd_eq(labels.swizzle([1, 2, 3, 4, 5, 6, 7, 0]))
        .to_bitmask()
        == 255
}

impl ViterbiStep<8, 32> for V32Code {
    fn advance(&self, sample: Sample, sums: &mut [u64], column: &mut Column<8>) {
        if are_narrow(sums) {
            advance_by_vectors(sample, sums, column);
        } else {
            advance_first(sample, sums, column);
        }
    }

    fn go_back(&self, column: &Column<8>, live: &mut [u8; 8]) -> Option<u8> {
        let taken = taken_at(column, live);
        taken.swizzle([0, 1, 2, 3, 4, 5, 6, 7]).copy_to_slice(live);
        let labels = taken.swizzle([8, 9, 10, 11, 12, 13, 14, 15]);
        if is_one(labels) {
            Some(labels.to_array()[0])
        } else {
            None
        }
    }

    fn have_met(&self, live: &[u8; 8]) -> bool {
        is_one(u8x8::from_slice(live))
    }
}
