// Lines that are turned by quarters, from their beginning and picked up in their middle.
ghost use Rattle.std.specs.Prelude.{◌≡◌, [], IsTrue};

use super::{Row, assert_rows};
use line_coding::{LineReader, MiddleReader, Modulator, Taken};
use scramblers::Mode;
use std::alloc::Global;
use symbol_map::Sample;
use trellis_tables::V32Code;

/// Quads that are read, each compared with the one that counts on from a number, modulo 16, but for the first ones. A plain value, so that nothing
/// is to be dropped.
#[derive(Clone, Copy)]
struct Read<'a> {
    first: &'a [u8],
    from: u8,
    count: usize,
    are_right: bool,
}

impl<'a> Read<'a> {
    fn new(first: &'a [u8], from: u8) -> Read<'a> {
        Read {
            first,
            from,
            count: 0,
            are_right: true,
        }
    }

    fn push(&mut self, quad: u8) {
        let sent = ((self.count % 16) as u8 + self.from % 16) % 16;
        let wanted = *self.first.get(self.count).unwrap_or(&sent);
        self.are_right = self.are_right && quad == wanted;
        self.count = self.count.saturating_add(1);
    }

    /// Whether more than 50 quads are right.
    fn count_on(&self) -> bool {
        self.are_right && self.count > 50
    }
}

// Takes the quads behind the first ones that the labels give.
fn take_fours(reader: &mut MiddleReader<128>, fours: &mut Read<'_>) -> bool
    ensures pending { IsTrue result → reader.new.reading.decoder.pending ≡ [] }
    ensures count { reader.new.reading.decoder.count ≡ reader.old.reading.decoder.count }
{
    for _ in 0..reader.pending() {
        if let Some(Taken::Four(four)) = reader.take() {
            fours.push(four);
        }
    }
    reader.pending() == 0
}

// A sample after so many clockwise quarter turns, up to three.
fn turned(quarters: u8, sample: Sample) -> Sample {
    let (re, im) = (sample.re, sample.im);
    match quarters {
        0 => sample,
        1 => Sample {
            re: im,
            im: 0i16.wrapping_sub(re),
        },
        2 => Sample {
            re: 0i16.wrapping_sub(re),
            im: 0i16.wrapping_sub(im),
        },
        _ => Sample {
            re: 0i16.wrapping_sub(im),
            im: re,
        },
    }
}

// Whether 100 quads are read from the sixth sample on.
fn reads_from_the_middle(reader: &mut MiddleReader<128>, quarters: u8, fours: &mut Read<'_>) -> bool
    requires count { reader.old.reading.decoder.count ≡ 0 }
    requires pending { reader.old.reading.decoder.pending ≡ [] }
{
    let mut modulator = Modulator::new(Mode::Call);
    for quad in 0..5u8 {
        let _ = modulator.push(quad);
    }
    for symbol in 5..100u8 {
        let sample = modulator.push(symbol % 16);
        if reader.push(turned(quarters, sample)).is_err() || !take_fours(reader, fours) {
            return false;
        }
    }
    true
}

/// Quarter turns of a line that is picked up in its middle. The quads that are read are those that were sent, from the thirteenth on. After a
/// turn a few more or fewer are released: ties are settled otherwise.
struct Middle(u8);

impl Row for Middle {
    fn holds(&self, alloc: Global) -> bool {
        let mut fours = Read::new(&[], 12);
        match MiddleReader::new(alloc, Mode::Call) {
            Ok(mut reader) => {
                reads_from_the_middle(&mut reader, self.0, &mut fours) && fours.count_on()
            }
            Err(_) => false,
        }
    }
}

const MIDDLES: &[(&str, Middle)] = &[("no turn", Middle(0)), ("a quarter turn", Middle(1))];

#[test]
fn bits_of_the_middle_are_read_whatever_the_turn(rt: HostRuntime) {
    assert_rows(&rt, rt.alloc(), MIDDLES);
}

// Takes all quads that are released.
fn take_quads(reader: &mut LineReader<128>, quads: &mut Read<'_>) -> bool
    ensures pending { IsTrue result → reader.new.decoder.pending ≡ [] }
    ensures count { reader.new.decoder.count ≡ reader.old.decoder.count }
{
    for _ in 0..reader.pending() {
        if let Some(quad) = reader.take() {
            quads.push(quad);
        }
    }
    reader.pending() == 0
}

// Whether 100 quads are read, 0 to 15 and again.
fn reads_quads(reader: &mut LineReader<128>, quarters: u8, quads: &mut Read<'_>) -> bool
    requires count { reader.old.decoder.count ≡ 0 }
    requires pending { reader.old.decoder.pending ≡ [] }
{
    let mut modulator = Modulator::new(Mode::Call);
    for symbol in 0..100u8 {
        let sample = modulator.push(symbol % 16);
        if reader.push(turned(quarters, sample)).is_err() || !take_quads(reader, quads) {
            return false;
        }
    }
    true
}

/// Quarter turns of a line, and its first quads from whatever state they start in: bits 0, 18 and 23 are others, or 1, 19 and 24, or these six.
/// By a program apart.
struct TurnedLine(u8, &'static [u8]);

impl Row for TurnedLine {
    fn holds(&self, alloc: Global) -> bool {
        let mut quads = Read::new(self.1, 0);
        match LineReader::new_any(alloc, V32Code, Mode::Call) {
            Ok(mut reader) => reads_quads(&mut reader, self.0, &mut quads) && quads.count_on(),
            Err(_) => false,
        }
    }
}

const TURNED: &[(&str, TurnedLine)] = &[
    ("no turn", TurnedLine(0, &[0, 1, 2, 3, 4, 5, 6])),
    ("a quarter", TurnedLine(1, &[1, 1, 2, 3, 0, 13, 6])),
    ("a half", TurnedLine(2, &[2, 1, 2, 3, 12, 5, 7])),
    ("three quarters", TurnedLine(3, &[3, 1, 2, 3, 8, 13, 7])),
];

#[test]
fn six_bits_of_a_turned_line_are_others(rt: HostRuntime) {
    assert_rows(&rt, rt.alloc(), TURNED);
}
