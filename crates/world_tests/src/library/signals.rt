// Samples to bits and back, and a meter.

use bit_stuffing::Piece;
use frame_check::Check;
use gateway::{
    DecoderStop, Encoded, FrameReader, FrameStop, LAST_BITS, LineKind, LockMeter, Pushed,
    SampleDecoder, SampleEncoder,
};
use scramblers::Mode;
use shared_terms::Role;
use std::alloc::Global;

/// Two symbols of the octet 00, as the modem that called sends them.
const ZEROS: [i16; 4] = [-8192, 2048, -8192, 2048];

/// The symbols of the octets 7E 03 DF 3E B9 FA F9, as the modem that called sends them: by a program apart from this one.
const SABME: [i16; 28] = [
    -8192, -2048, 2048, 0, -8192, 2048, -8192, 2048, -2048, 0, -4096, 6144, 2048, -8192, -6144, 0,
    4096, 6144, 6144, 0, 0, -6144, 2048, -8192, -8192, -2048, -6144, -4096,
];

/// Their bits.
const BITS: [u8; 56] = [
    0, 1, 1, 1, 1, 1, 1, 0, 1, 1, 0, 0, 0, 0, 0, 0, 1, 1, 1, 1, 1, 0, 1, 1, 0, 1, 1, 1, 1, 1, 0, 0,
    1, 0, 0, 1, 1, 1, 0, 1, 0, 1, 0, 1, 1, 1, 1, 1, 1, 0, 0, 1, 1, 1, 1, 1,
];

/// Whether a push has these counts and stops so.
fn is_push(pushed: &Pushed, read: usize, written: usize, stop: DecoderStop) -> bool {
    pushed.read == read && pushed.written == written && pushed.stop == stop
}

/// How many bits the end of a line gives.
fn bits_at_end(decoder: SampleDecoder, bits: &mut [u8]) -> Option<usize> {
    decoder.finish(bits).ok()
}

/// Whether two symbols of a line give the bits of their octet at its end, and nothing is written behind these.
fn become_bits(alloc: Global) -> bool {
    let Ok(mut decoder) = SampleDecoder::new(alloc, LineKind::Begun, Mode::Call) else {
        return false;
    };
    let mut bits = [9; LAST_BITS];
    let pushed = decoder.push(&ZEROS, &mut bits);
    bits_at_end(decoder, &mut bits) == Some(8)
        && is_push(&pushed, 2, 0, DecoderStop::All)
        && &bits[..9] == [0, 0, 0, 0, 0, 0, 0, 0, 9].as_slice()
}

#[test]
fn samples_become_bits(rt: HostRuntime) {
    assert!(rt; become_bits(rt.alloc()));
}

/// Whether two symbols are read at once, and then the bits of both wait for room.
fn bits_wait(decoder: &mut SampleDecoder) -> bool {
    let mut bits = [9; 4];
    let full = decoder.push(&ZEROS, &mut bits[..3]);
    let first = decoder.push(&ZEROS[4..], &mut bits);
    let second = decoder.push(&ZEROS[4..], &mut bits);
    is_push(&full, 2, 0, DecoderStop::Full)
        && is_push(&first, 0, 2, DecoderStop::Full)
        && is_push(&second, 0, 2, DecoderStop::All)
}

#[test]
fn a_push_without_room_is_full(rt: HostRuntime) {
    let holds = match SampleDecoder::new(rt.alloc(), LineKind::Quarters, Mode::Call) {
        Ok(mut decoder) => bits_wait(&mut decoder),
        Err(_) => false,
    };
    assert!(rt; holds);
}

/// Whether all is read, 28 bits, and seven samples are written.
fn is_half(encoded: &Encoded) -> bool {
    encoded.read == 28 && encoded.written == 7 && encoded.all
}

#[test]
fn bits_become_samples(rt: HostRuntime) {
    let mut encoder = SampleEncoder::begun(Mode::Call);
    let mut parts = [0; 28];
    // Two bits make no symbol.
    let first = encoder.push(&BITS[..30], &mut parts[..14]);
    let second = encoder.push(&BITS[28..], &mut parts[14..]);
    assert!(rt; is_half(&first) && is_half(&second) && parts == SABME);
}

/// Whether bits are a frame's up to its closing flag, and the frame has these octets.
fn are_frame(bits: &[u8], octets: &[u8]) -> bool {
    let mut reader = FrameReader::new(Role::Originator, Check::Sixteen);
    reader.push(bits) == (50, FrameStop::Piece(Piece::Whole))
        && reader.heard() == 50
        && reader.octets() == octets
}

/// Whether the symbols of a frame give its bits, and these the frame.
fn become_a_frame(alloc: Global) -> bool {
    let Ok(mut decoder) = SampleDecoder::new(alloc, LineKind::Begun, Mode::Call) else {
        return false;
    };
    let mut bits = [9; 1000];
    let pushed = decoder.push(&SABME, &mut bits);
    let (_given, rest) = bits.split_at_mut(pushed.written);
    let Some(count) = bits_at_end(decoder, rest) else {
        return false;
    };
    let (bits, _room) = bits.split_at(bits.len().min(56));
    pushed.read == 14
        && pushed.stop == DecoderStop::All
        && pushed.written.saturating_add(count) == 56
        && bits == BITS.as_slice()
        && are_frame(bits, b"\x03\x7f\x5f\xae")
}

#[test]
fn samples_become_frames(rt: HostRuntime) {
    assert!(rt; become_a_frame(rt.alloc()));
}

#[test]
fn what_was_sent_costs_nothing(rt: HostRuntime) {
    let (meter, octets) = LockMeter::new(Mode::Call).push(&BITS, &SABME);
    let reading = meter.reading();
    assert!(rt; octets == Some(7) && reading.cost == 0 && reading.symbols == 14 && reading.sure);
}
