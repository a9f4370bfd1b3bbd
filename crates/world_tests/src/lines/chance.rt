// Offsets that turn one slot into another.
use super::*;
use bit_stuffing::SlotWriter;
use line_coding::Modulator;
use scramblers::Mode;
use symbol_map::Sample;

/// Puts the line into a script that moves an originator's symbol from one point to another. Whether there is memory.
fn write_hit(text: &mut String, symbol: usize, from: Sample, to: Sample) -> bool {
    let re = i32::from(to.re) - i32::from(from.re);
    let im = i32::from(to.im) - i32::from(from.im);
    writeln!(text, "hit orig {symbol} 1 {re} {im}").is_ok()
}

/// Writes the script that turns an originator's first slot into another: a line moves each symbol from one point to another.
fn write_hits(text: &mut String, from: &BitSlot, to: &BitSlot) -> bool {
    let mut before = Modulator::new(Mode::Call);
    let mut after = Modulator::new(Mode::Call);
    for place in 0..from.len().min(to.len()) {
        let point = before.push(from.quad(place));
        if !write_hit(text, place, point, after.push(to.quad(place))) {
            return false;
        }
    }
    true
}

/// A ready frame of the originator's, a response, with its check.
const READY: &[u8] = b"\x01\x01\x00\xc8\x85";

/// Whether flags that are turned into a ready frame are a chance match.
fn is_chance(alloc: Global) -> bool {
    let mut flags = BitSlot::new();
    SlotWriter::new(SYMBOLS).slot(None, &mut flags);
    let mut ready = BitSlot::new();
    SlotWriter::new(SYMBOLS).slot(Some(READY), &mut ready);
    let mut text = String::new(alloc);
    write_hits(&mut text, &flags, &ready)
        && flags_through(alloc, text.as_bytes()) == Some(Ok(Outcome::Chance))
}

#[test]
fn a_frame_that_was_not_sent_is_chance(rt: HostRuntime) {
    assert!(rt; is_chance(rt.alloc()));
}
