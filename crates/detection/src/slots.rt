// Slots of patterns and of ones.
ghost use Rattle.std.specs.Prelude.{◌≡◌, ◌+◌, ◌-◌, ◌*◌, ◌<◌, ◌≤◌, All, [], ◌++◌, length};
ghost use Rattle.bit_stuffing.specs.BitSlot.{line_bits};
ghost use Rattle.bit_stuffing.specs.Slots.{IsPlain};
ghost use Rattle.detection.specs.Patterns.{ones};
ghost use Rattle.detection.specs.Slots.{pattern, patterns, pattern_bits};

use crate::Seen;
use bit_stuffing::{BitSlot, HEAD, TAIL};
use frame_check::SLOT;

/// How many patterns a slot has.
const PATTERNS: u16 = 10;

/// The quads of a pattern: a character, nine ones, the other character and nine ones.
fn quads(seen: Seen) -> [u8; 9]
    ensures bits { line_bits result ≡ pattern seen }
    ensures small { All (λ quad. quad < 16) result }
{
    match seen {
        Seen::Odp => [2, 2, 14, 15, 11, 8, 12, 15, 15],
        Seen::Adp => [10, 8, 14, 15, 11, 1, 10, 15, 15],
    }
}

/// Writes a pattern.
fn write_pattern(seen: Seen, out: &mut BitSlot)
    requires { length out.old + 9 ≤ SLOT }
    ensures bits { line_bits out.new ≡ line_bits out.old ++ pattern seen }
    ensures count { length out.new ≡ length out.old + 9 }
{
    for quad in quads(seen) {
        out.push(quad);
    }
}

/// Writes ones until the slot has so many symbols.
fn fill_with_ones(symbols: u16, out: &mut BitSlot)
    requires room { length out.old ≤ symbols }
    requires few { symbols ≤ SLOT }
    ensures { line_bits out.new ≡ line_bits out.old ++ ones (4 * (symbols - length out.old)) }
{
    for _ in out.len()..usize::from(symbols) {
        out.push(15);
    }
}

/// Writes a slot of so many symbols: ten patterns, and ones to its end.
pub fn pattern_slot(seen: Seen, symbols: u16, out: &mut BitSlot)
    requires empty { out.old ≡ [] }
    requires low { HEAD + TAIL < symbols }
    requires high { symbols ≤ SLOT }
    ensures bits { line_bits out.new ≡ pattern_bits (4 * symbols) seen }
    ensures plain { IsPlain (4 * symbols) (line_bits out.new) }
{
    for _ in 0..PATTERNS {
        write_pattern(seen, out);
    }
    fill_with_ones(symbols, out);
}

/// Writes a slot of so many symbols of ones.
pub fn mark_slot(symbols: u16, out: &mut BitSlot)
    requires empty { out.old ≡ [] }
    requires low { HEAD + TAIL < symbols }
    requires high { symbols ≤ SLOT }
    ensures bits { line_bits out.new ≡ ones (4 * symbols) }
    ensures plain { IsPlain (4 * symbols) (line_bits out.new) }
{
    fill_with_ones(symbols, out);
}
