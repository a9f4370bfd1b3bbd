// The lines that print what pieces are.
ghost use Rattle.std.specs.Prelude.{◌≡◌, ◌≤◌, ◌<◌, ◌+◌, ◌++◌, [], length};
ghost use Rattle.bit_stuffing.specs.Found.{Found};
ghost use Rattle.command_base.specs.Readings.{hex_digit, hex_octet, fault_words, reading_of, reading_line, IsLine};

use bit_stuffing::Piece;
use frame_check::Check;
use lapm_frames::{CheckedFault, FrameFault, LentFrame, read_checked_lent};
use line_texts::{LineText, TEXT, put_decimal, put_frame_text};
use shared_terms::Role;

/// A digit below sixteen, as a character.
fn digit(value: u8) -> u8
    requires { value < 16 }
    ensures { result ≡ hex_digit value }
{
    if value < 10 {
        b'0' + value
    } else {
        b'a' - 10 + value
    }
}

/// Puts an octet, as two hexadecimal digits.
fn put_octet(octet: u8, line: &mut LineText)
    requires { length line.old + 2 ≤ TEXT }
    ensures text { line.new ≡ line.old ++ hex_octet octet }
    ensures room { length line.new ≡ length line.old + 2 }
{
    line.push(digit(octet / 16));
    line.push(digit(octet % 16));
}

/// Puts why octets are no frame.
fn put_fault(fault: FrameFault, line: &mut LineText)
    requires { length line.old + 25 ≤ TEXT }
    ensures text { line.new ≡ line.old ++ fault_words fault }
    ensures room { length line.new ≤ length line.old + 25 }
{
    match fault {
        FrameFault::Address { octet } => {
            line.extend(b"address ");
            put_octet(octet, line);
        }
        FrameFault::Control { octet } => {
            line.extend(b"control ");
            put_octet(octet, line);
        }
        FrameFault::Short => line.extend(b"short"),
        FrameFault::Long { len } => {
            line.extend(b"long ");
            put_decimal(line, len as u64);
        }
    }
}

/// Puts what was read of a whole piece of so many octets.
fn put_read(read: &Result<LentFrame<'_>, CheckedFault>, octets: usize, line: &mut LineText)
    requires { line.old ≡ [] }
    ensures { line.new ≡ reading_line (reading_of read.now octets) }
{
    match read {
        Ok(frame) => {
            line.extend(b"frame ");
            put_frame_text(frame, line);
        }
        Err(CheckedFault::Refused(fault)) => {
            line.extend(b"refused ");
            put_fault(*fault, line);
        }
        Err(CheckedFault::BadCheck) => {
            line.extend(b"bad check ");
            put_decimal(line, octets as u64);
        }
    }
    line.extend(b"\n");
}

/// Puts the line of a piece, of these octets where it is whole, whose frame has the check of 16 bits.
pub(crate) fn put_piece(piece: Piece, octets: &[u8], sender: Role, line: &mut LineText)
    requires { line.old ≡ [] }
    ensures { (found : Found) → found.piece ≡ piece → found.octets ≡ octets.now → IsLine sender found line.new }
{
    match piece {
        Piece::Whole => {
            let read = read_checked_lent(octets, Check::Sixteen, sender, 0);
            put_read(&read, octets.len(), line);
        }
        Piece::Ragged => line.extend(b"ragged\n"),
        Piece::Aborted => line.extend(b"aborted\n"),
        Piece::TooLong => line.extend(b"too long\n"),
        Piece::TooShort => line.extend(b"too short\n"),
    }
}
