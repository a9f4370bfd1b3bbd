// A recording's header, both ways.
ghost use Rattle.std.specs.Prelude.{◌≡◌, ◌<◌, ◌≤◌, IfOk, IfErr, length};
ghost use Rattle.recordings.specs.Recording.{mode_number, header_at};
ghost use Rattle.recordings.specs.Headers.{fits, IsBadHeader};

use crate::rate::Rate;
use frame_check::Octets;
use scramblers::Mode;

/// How many octets a header has.
pub const HEADER: usize = 8;

/// The number of a rate and a mode: 0 call, 1 answer; 2 and 3 at 4800 bit/s.
fn mode_number(rate: Rate, mode: Mode) -> u8
    ensures { result ≡ mode_number rate mode }
{
    match (rate, mode) {
        (Rate::Trellis, Mode::Call) => 0,
        (Rate::Trellis, Mode::Answer) => 1,
        (Rate::Quarters, Mode::Call) => 2,
        (Rate::Quarters, Mode::Answer) => 3,
    }
}

/// The first octets of a recording: the letters V32R, the number of its rate and mode, and three zeros.
pub fn header_octets(rate: Rate, mode: Mode) -> Octets<HEADER>
    ensures { result ≡ header_at rate mode }
{
    let mut octets = Octets::new();
    octets.extend(b"V32R");
    octets.extend(&[mode_number(rate, mode), 0, 0, 0]);
    octets
}

/// The place of the octet that tells the mode.
const MODE: usize = 4;

/// Whether a header at this rate may have this octet at this place.
fn fits(rate: Rate, place: usize, octet: u8) -> bool
    requires { place < HEADER }
    ensures { result ≡ fits rate place octet }
{
    octet == header_octets(rate, Mode::Call).as_slice()[place]
        || (place == MODE && octet == mode_number(rate, Mode::Answer))
}

/// The mode that the first octets of a recording at this rate tell, or the first place where they are no header of one.
pub fn read_header(rate: Rate, octets: &[u8]) -> Result<Mode, u64>
    requires { length octets.now ≤ HEADER }
    ensures ok { IfOk result (λ mode. octets.now ≡ header_at rate mode) }
    ensures err { IfErr result (IsBadHeader rate octets.now) }
{
    for place in 0..HEADER {
        match octets.get(place) {
            Some(octet) if fits(rate, place, *octet) => {}
            _ => return Err(place as u64),
        }
    }
    if octets[MODE] == mode_number(rate, Mode::Answer) {
        Ok(Mode::Answer)
    } else {
        Ok(Mode::Call)
    }
}
