// The octets of a sample, both ways. In a coordinate 2048 is a unit of the map.
ghost use Rattle.std.specs.Prelude.{◌≡◌, ◌≤◌, ◌+◌, ◌*◌, ◌++◌, length, slice_index};
ghost use Rattle.recordings.specs.Recording.{sample_octets};
ghost use Rattle.recordings.specs.Samples.{coordinate, sample_at};

use byteorder::{ByteOrder, LittleEndian};
use symbol_map::Sample;

/// How many octets a sample has.
pub const SAMPLE: usize = 4;

/// The octets of a sample: both coordinates as 16 bits, the low octet first.
pub fn octets_of(sample: Sample) -> [u8; 4]
    ensures { result ≡ sample_octets sample }
{
    let mut octets = [0; 4];
    LittleEndian::write_i16(&mut octets, sample.re);
    LittleEndian::write_i16(&mut octets[2..], sample.im);
    octets
}

/// The octets of two samples.
pub fn octets_of_two(first: Sample, second: Sample) -> [u8; 8]
    ensures { result ≡ sample_octets first ++ sample_octets second }
{
    let mut octets = [0; 8];
    LittleEndian::write_i16_into(&[first.re, first.im, second.re, second.im], &mut octets);
    octets
}

/// The coordinate that two octets from a place on are, the low one first.
fn coordinate_at(octets: &[u8], place: usize) -> i16
    requires { place + 2 ≤ length octets.now }
    ensures { result ≡ coordinate (slice_index octets.now place) (slice_index octets.now (place + 1)) }
{
    LittleEndian::read_i16(&[octets[place], octets[place + 1]])
}

/// The sample at a place, counted in samples.
pub fn sample_at(octets: &[u8], place: usize) -> Sample
    requires { 4 * place + 4 ≤ length octets.now }
    ensures { result ≡ sample_at octets.now place }
{
    let from = SAMPLE * place;
    Sample {
        re: coordinate_at(octets, from),
        im: coordinate_at(octets, from + 2),
    }
}
