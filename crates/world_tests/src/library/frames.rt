// Frames to bits and back, and patterns.

use bit_stuffing::Piece;
use frame_check::Check;
use gateway::{
    FRAME_BITS, FrameReader, FrameStop, FrameWriter, PatternDetector, SlotStop, Told, frame_bits,
};
use lapm_frames::{CheckedFault, Seen};
use shared_terms::Role;

/// A SABME command of the originator with its check.
const SABME: [u8; 4] = [0x03, 0x7f, 0x5f, 0xae];

/// The first so many bits.
fn front(bits: &[u8], count: usize) -> &[u8] {
    let (front, _rest) = bits.split_at(bits.len().min(count));
    front
}

/// Whether a reader hears a frame, and then an abort seven ones behind it.
fn hears_both(reader: &mut FrameReader, bits: &[u8]) -> bool {
    reader.push(bits) == (74, FrameStop::Piece(Piece::Whole))
        && reader.octets() == SABME.as_slice()
        && reader.push(&[1; 10]) == (7, FrameStop::Piece(Piece::Aborted))
        && reader.heard() == 81
}

/// Whether a reader hears a frame, and refuses it.
fn refuses(reader: &mut FrameReader, bits: &[u8]) -> bool {
    reader.push(bits) == (74, FrameStop::Piece(Piece::Whole))
        && matches!(reader.frame(), Err(CheckedFault::Refused(_)))
}

#[test]
fn a_frame_alone_is_read_again(rt: HostRuntime) {
    let mut bits = [0; FRAME_BITS];
    // Four flags, 34 bits with two zeros put in, and the closing flag.
    assert!(rt; frame_bits(&SABME, &mut bits) == Ok(74));
    let bits = front(&bits, 74);
    let mut reader = FrameReader::new(Role::Originator, Check::Sixteen);
    assert!(rt; hears_both(&mut reader, bits));
    let mut other = FrameReader::new(Role::Answerer, Check::Sixteen);
    assert!(rt;
        refuses(&mut other, bits),
        "the other end refuses its address"
    );
}

#[test]
fn what_no_deframer_takes_is_not_written(rt: HostRuntime) {
    let mut bits = [0; FRAME_BITS];
    let bad = frame_bits(&SABME[..3], &mut bits) == Err(SlotStop::BadFrame);
    assert!(rt; bad && frame_bits(&SABME, &mut bits[1..]) == Err(SlotStop::Full));
}

/// Whether a slot of a pattern is written, and the pattern is seen in it.
fn is_seen(seen: Seen) -> bool {
    let Some(mut writer) = FrameWriter::new(464) else {
        return false;
    };
    let mut bits = [0; 1856];
    let written = writer.slot(&Told::Pattern(seen), &mut bits);
    // Two patterns of 36 bits, up to the eighth one behind the last character: its stop bit is the first of nine.
    written == Ok(1856) && PatternDetector::new().push(&bits) == (71, Some(seen))
}

#[test]
fn a_pattern_is_seen(rt: HostRuntime) {
    assert!(rt; is_seen(Seen::Adp));
}

/// Whether slots may have so many symbols.
fn may_have(symbols: u16) -> bool {
    FrameWriter::new(symbols).is_some()
}

#[test]
fn a_slot_has_bounds(rt: HostRuntime) {
    assert!(rt; !may_have(138) && may_have(139) && may_have(2615) && !may_have(2616));
}
