// The nearest label of each subset of the 32-point map, by vectors: the points of a subset lie on few lines, so that a distance is a sum of two of
// a line's numbers. What all labels have in common is left out, and so keys have 32 bits.
ghost use Rattle.std.specs.Prelude.{◌≡◌, ℕ, ◌<◌, ◌+◌, ◌-◌, ◌*◌, ◌^◌, min, [], ◌∷◌};
ghost use Rattle.std.specs.Simd.Lanes.{zip2};
ghost use Rattle.exact_decoder.specs.Lines.{nearest_000, nearest_001, nearest_010, nearest_011, nearest_100, nearest_101, nearest_110, nearest_111};

use std::simd::prelude::*;

/// The lesser of two in each lane.
#[inline(always)]
pub fn lesser(a: u32x4, b: u32x4) -> u32x4
    ensures { result ≡ zip2 min a b }
{
    a.simd_min(b)
}

/// In each lane a coordinate so many times, and a number more.
#[inline(always)]
fn line(x: u32x4, times: u32x4, more: u32x4) -> u32x4
    ensures { (a b c d p q r s k l m n : ℕ) → x ≡ (a ∷ b ∷ c ∷ d ∷ []) → times ≡ (p ∷ q ∷ r ∷ s ∷ []) → more ≡ (k ∷ l ∷ m ∷ n ∷ [])
        → a * p + k < 2 ^ 32 → b * q + l < 2 ^ 32 → c * r + m < 2 ^ 32 → d * s + n < 2 ^ 32
        → result ≡ ((a * p + k) ∷ (b * q + l) ∷ (c * r + m) ∷ (d * s + n) ∷ []) }
{
    x * times + more
}

/// How far a coordinate is from both ends, along the map and across it. Coordinates are counted from the least one.
#[inline(always)]
pub fn both_ways(x: u32, y: u32) -> u32x4
    requires { (x < 2 ^ 16) × (y < 2 ^ 16) }
    ensures { result ≡ x ∷ (65535 - x) ∷ y ∷ (65535 - y) ∷ [] }
{
    u32x4::from_array([x, 65535 - x, y, 65535 - y])
}

/// The keys of the subsets that are squares: 010, 011, 100 and 101. The least is that of the nearest line each way.
#[inline(always)]
pub fn nearest_squares(at: u32x4) -> u32x4
    ensures { (x y : ℕ) → at ≡ (x ∷ (65535 - x) ∷ y ∷ (65535 - y) ∷ []) → x < 2 ^ 16 → y < 2 ^ 16
        → result ≡ nearest_010 x y ∷ nearest_011 x y ∷ nearest_100 x y ∷ nearest_101 x y ∷ [] }
{
    // Each vector has a factor that is no power of two: by powers of two alone the compiler shifts each pair of lanes apart.
    let left = line(
        at.swizzle([0, 1, 0, 0]),
        u32x4::from_array([512, 512, 768, 256]),
        u32x4::from_array([17_825_856, 17_826_400, 10_748_032, 25_428_136]),
    );
    let right = line(
        at.swizzle([1, 0, 1, 1]),
        u32x4::from_array([512, 512, 256, 768]),
        u32x4::from_array([17_826_384, 17_825_904, 25_428_360, 10_748_832]),
    );
    let above = line(
        at.swizzle([3, 3, 2, 3]),
        u32x4::from_array([768, 256, 512, 512]),
        u32x4::from_array([10_748_672, 25_428_232, 17_825_792, 17_826_304]),
    );
    let below = line(
        at.swizzle([2, 2, 3, 2]),
        u32x4::from_array([256, 768, 512, 512]),
        u32x4::from_array([25_427_976, 10_747_904, 17_826_320, 17_825_808]),
    );
    lesser(left, right) + lesser(above, below)
}

/// The keys of the other subsets: 000, 001, 110 and 111. Three points are on a long line, at its ends and in its middle, and one is beside it.
#[inline(always)]
pub fn nearest_others(at: u32x4) -> u32x4
    ensures { (x y : ℕ) → at ≡ (x ∷ (65535 - x) ∷ y ∷ (65535 - y) ∷ []) → x < 2 ^ 16 → y < 2 ^ 16
        → result ≡ nearest_000 x y ∷ nearest_001 x y ∷ nearest_110 x y ∷ nearest_111 x y ∷ [] }
{
    let first = line(
        at.swizzle([0, 1, 3, 2]),
        u32x4::from_array([1024, 1024, 1024, 1024]),
        u32x4::from_array([4_194_304, 4_195_360, 4_195_520, 4_194_528]),
    );
    let last = line(
        at.swizzle([1, 0, 2, 3]),
        u32x4::from_array([1024, 1024, 1024, 1024]),
        u32x4::from_array([4_195_352, 4_194_360, 4_194_520, 4_195_576]),
    );
    let middle = u32x4::from_array([33_554_448, 33_554_480, 33_554_640, 33_554_672]);
    let across = line(
        at.swizzle([3, 2, 1, 0]),
        u32x4::from_array([256, 256, 256, 256]),
        u32x4::from_array([25_428_224, 25_427_968, 25_428_224, 25_427_968]),
    );
    let beside = line(
        at.swizzle([2, 3, 0, 1]),
        u32x4::from_array([768, 768, 768, 768]),
        u32x4::from_array([44_302_344, 44_303_144, 44_302_536, 44_303_336]),
    );
    lesser(lesser(lesser(first, last), middle) + across, beside)
}
