// The rate of 4800 bit/s.
ghost use Rattle.std.specs.Prelude.{◌≡◌, ◌≤◌, []};

use line_coding::Demodulate;
use rate_4800::{Demodulator, Modulator, QuarterReader, Rate4800};
use scramblers::Mode;
use std::alloc::Global;
use symbol_map::Sample;

const SECOND: Sample = Sample {
    re: 2048,
    im: -6144,
};

/// The bits of the octet 01, two by two.
const TWOS: &[u8] = &[1, 0, 0, 0];

/// Labels, and the bits that they carry.
const LABELS: &[(u8, u8)] = &[(1, 1), (1, 0), (0, 3)];

/// Whether the bits of an octet become its samples.
fn become_samples(twos: &[u8]) -> bool {
    let mut modulator = Modulator::new(Mode::Call);
    for two in twos {
        if modulator.push(*two % 4) != SECOND {
            return false;
        }
    }
    true
}

/// Whether labels carry their bits.
fn carry_turns(labels: &[(u8, u8)]) -> bool {
    let mut demodulator = Demodulator::new(Mode::Call);
    for &(label, bits) in labels {
        if demodulator.push(label % 4) != bits {
            return false;
        }
    }
    true
}

#[test]
fn an_octet_becomes_four_samples_and_labels_carry_turns(rt: HostRuntime) {
    assert!(rt; become_samples(TWOS) && carry_turns(LABELS));
}

/// Whether a sample 4579 units from its point gives its bits at once, and the point behind it.
fn are_read_at_once(reader: &mut QuarterReader<128>) -> bool
    requires few { reader.old.decoder.count ≤ 1 }
    requires taken { reader.old.decoder.pending ≡ [] }
{
    let far = Sample {
        re: 2048 + 3238,
        im: -6144 + 3238,
    };
    reader.push(far).is_ok()
        && reader.take() == Some(1)
        && reader.take() == None
        && reader.push(SECOND).is_ok()
        && reader.take() == Some(0)
        && reader.pending() == 0
}

/// Samples up to 4579 units from their point, half the way to the next one, give their bits at once.
#[test]
fn near_samples_are_read_at_once(rt: HostRuntime) {
    let are_read = match QuarterReader::new(rt.alloc(), Rate4800, 0, Mode::Call) {
        Ok(mut reader) => are_read_at_once(&mut reader),
        Err(_) => false,
    };
    assert!(rt; are_read);
}
