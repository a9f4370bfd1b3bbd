// Offsets of samples, as the lines of a script give them.
ghost use Rattle.std.specs.Prelude.{◌≡◌, ◌-◌, ◌<◌, ◌^◌, ◌&&◌};
ghost use Rattle.std.specs.List.{list_any};
ghost use Rattle.noise_script.specs.Offsets.{plus, IsWithin, drawn, drawn_offset, covers, meets};
ghost use Rattle.shared_terms.specs.Role.{same_role};

use crate::{Hit, Noise};
use shared_terms::Role;

/// What the line adds to a sample, in the units of samples.
#[derive(Clone, Copy, PartialEq, Eq)]
pub struct Offset {
    /// Units of a sample.
    pub re: i32,
    /// Units of a sample.
    pub im: i32,
}

pub(crate) const NOTHING: Offset = Offset { re: 0, im: 0 };

/// Whether a place is one of `count` places from `from` on.
pub(crate) fn covers(from: u64, count: u32, place: u64) -> bool
    ensures { result ≡ covers from count place }
{
    from <= place && place - from < u64::from(count)
}

/// Whether one of `count` places from `from` on is one of `most` places from `start` on.
fn meets(from: u64, count: u32, start: u64, most: u32) -> bool
    ensures { result ≡ meets from count start most }
{
    if from <= start {
        start - from < u64::from(count)
    } else {
        from - start < u64::from(most)
    }
}

/// The sum of two offsets that are far from overflowing.
pub(crate) fn plus(a: Offset, b: Offset) -> Offset
    requires a { IsWithin (2 ^ 30 - 1) a }
    requires b { IsWithin (2 ^ 30) b }
    ensures { result ≡ plus a b }
{
    Offset {
        re: a.re + b.re,
        im: a.im + b.im,
    }
}

/// What a hit line adds to each symbol that it covers.
pub(crate) fn offset_of_hit(hit: &Hit) -> Offset
    ensures re { result.re ≡ hit.now.re }
    ensures im { result.im ≡ hit.now.im }
    ensures small { IsWithin 32768 result }
{
    Offset {
        re: i32::from(hit.re),
        im: i32::from(hit.im),
    }
}

/// A part of an offset from half a word, at most `amplitude` from zero.
fn drawn(amplitude: u16, half: u32) -> i32
    requires { half < 65536 }
    ensures { result ≡ drawn amplitude half }
{
    (half % (2 * u32::from(amplitude) + 1)) as i32 - i32::from(amplitude)
}

/// An offset from a word: re by its low half, im by its high half.
pub(crate) fn drawn_offset(amplitude: u16, word: u32) -> Offset
    requires { amplitude < 32768 }
    ensures value { result ≡ drawn_offset amplitude word }
    ensures small { IsWithin 32767 result }
{
    Offset {
        re: drawn(amplitude, word % 65536),
        im: drawn(amplitude, word / 65536),
    }
}

/// Whether a hit line reaches one of `count` symbols of a role.
pub(crate) fn some_hit(hits: &[Hit], sender: Role, from: u64, count: u32) -> bool
    ensures { result ≡ list_any (λ hit. same_role hit.role sender && meets hit.from hit.count from count) hits.now }
{
    hits.iter().any(|hit| hit.role == sender && meets(hit.from, hit.count, from, count))
}

/// Whether a noise line does.
pub(crate) fn some_noise(noises: &[Noise], sender: Role, from: u64, count: u32) -> bool
    ensures { result ≡ list_any (λ noise. same_role noise.role sender && meets noise.from noise.count from count) noises.now }
{
    noises.iter().any(|noise| noise.role == sender && meets(noise.from, noise.count, from, count))
}
