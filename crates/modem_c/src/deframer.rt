// Bits to frames.
ghost use Rattle.std.specs.Prelude.{◌≡◌, ◌≢◌, ◌≤◌, ◌<ℤ◌, ◌++◌, [], Bool, List, None, Some, pos, length};
ghost use Rattle.shared_terms.specs.declared.role.Role.{Role};
ghost use Rattle.frame_check.specs.declared.check.Check.{Check};
ghost use Rattle.lapm_frames.specs.declared.frame.Frame.{Frame};
ghost use Rattle.bit_stuffing.specs.Found.{lent_of};
ghost use Rattle.gateway.specs.Frames.{HasHeard};
ghost use Rattle.gateway.specs.Given.{heard};
ghost use Rattle.modem_c.specs.Answered.{Answered, AnswersKind, Puts};
ghost use Rattle.modem_c.specs.Codes as codes;
ghost use Rattle.modem_c.specs.Deframers.{Deframes, Lends, MakesDeframer, Pushed, SetsCheck, Tells, TellsFault, TellsFrame, TellsNoFrame, nothing_found};
ghost use Rattle.modem_c.specs.Led.{deframer_in};

use crate::codes::{
    BAD_ARGUMENT, DONE, EMPTY, FULL, LATE, NOTHING, WRONG_KIND, check_of, put_octets, role_of,
};
use crate::frame::{FrameFields, NO_NUMBER, fields_of};
use crate::handle::{Handle, make, put, take};
use crate::machine::Machine;
use bit_stuffing::Piece;
use frame_check::INFO;
use gateway::{FrameReader, FrameStop};
use lapm_frames::{CheckedFault, FrameFault, LentFrame};
use std::alloc::Global;

/// What a push found.
#[repr(C)]
#[derive(Clone, Copy)]
pub struct Found {
    /// Bits of this push that were read: where a piece ended, up to and with its last one.
    pub read: usize,
    /// Bits that were heard since the deframer was made, with these.
    pub ended: u64,
    /// Octets of information, at the beginning of the room.
    pub info: usize,
    /// What ended: 0 nothing, 1 a frame, 2 no stuffing of whole octets, 3 an abort, 4 more than 1031 octets, 5 fewer than four, 6 octets
    /// whose check doesn't pass, 7 octets whose check passes and which are no frame.
    pub piece: u8,
    /// Why they are no frame: 1 their address, 2 their control octet, 3 they are too few, 4 too many.
    pub fault: u8,
    /// The address or the control octet that is refused.
    pub octet: u8,
    /// The fields of a frame.
    pub frame: FrameFields,
}

/// Nothing, before anything is read.
fn nothing() -> Found
    ensures { result ≡ nothing_found }
{
    Found {
        read: 0,
        ended: 0,
        info: 0,
        piece: 0,
        fault: 0,
        octet: 0,
        frame: FrameFields {
            control: 0,
            command: 0,
            pf: 0,
            ns: NO_NUMBER,
            nr: NO_NUMBER,
        },
    }
}

/// Reports a frame, and copies its information.
fn tell_frame(frame: &LentFrame<'_>, room: &mut [u8], found: &mut Found)
    requires room { INFO ≤ length room.old }
    requires fresh { TellsNoFrame found.old 0 0 0 }
    ensures tells { TellsFrame frame.now found.new room.old room.new }
    ensures info { found.new.info ≤ length room.new }
    ensures read { found.new.read ≡ found.old.read }
    ensures ended { found.new.ended ≡ found.old.ended }
{
    let parts = frame.parts();
    let info = parts.info.unwrap_or(&[]);
    put_octets(info, room);
    found.piece = 1;
    found.frame = fields_of(&parts);
    found.info = info.len();
}

/// Reports why octets are no frame.
fn tell_fault(fault: CheckedFault, found: &mut Found)
    requires { TellsNoFrame found.old 0 0 0 }
    ensures tells { TellsFault fault found.new }
    ensures info { found.new.info ≡ found.old.info }
    ensures read { found.new.read ≡ found.old.read }
    ensures ended { found.new.ended ≡ found.old.ended }
{
    match fault {
        CheckedFault::BadCheck => found.piece = 6,
        CheckedFault::Refused(fault) => {
            found.piece = 7;
            match fault {
                FrameFault::Address { octet } => {
                    found.fault = 1;
                    found.octet = octet;
                }
                FrameFault::Control { octet } => {
                    found.fault = 2;
                    found.octet = octet;
                }
                FrameFault::Short => found.fault = 3,
                FrameFault::Long { len: _ } => found.fault = 4,
            }
        }
    }
}

/// Reports the piece that ended with the last bit.
fn tell_piece(reader: &FrameReader, piece: Piece, room: &mut [u8], found: &mut Found)
    requires room { INFO ≤ length room.old }
    requires fresh { TellsNoFrame found.old 0 0 0 }
    requires info { found.old.info ≡ 0 }
    ensures tells { (sender : Role) (check : Check) (bits : List Bool) → HasHeard sender check reader.now bits
        → Tells sender check bits piece found.new room.old room.new }
    ensures info { found.new.info ≤ length room.new }
    ensures read { found.new.read ≡ found.old.read }
    ensures ended { found.new.ended ≡ found.old.ended }
{
    match piece {
        Piece::Whole => match reader.frame() {
            Ok(frame) => tell_frame(&frame, room, found),
            Err(fault) => tell_fault(fault, found),
        },
        Piece::Ragged => found.piece = 2,
        Piece::Aborted => found.piece = 3,
        Piece::TooLong => found.piece = 4,
        Piece::TooShort => found.piece = 5,
    }
}

/// Goes on by bits up to the end of a piece, and reports what that is.
fn hear(reader: &mut FrameReader, bits: &[u8], room: &mut [u8], found: &mut Found) -> i32
    ensures reads { (sender : Role) (check : Check) (past : List Bool) → HasHeard sender check reader.old past
        → HasHeard sender check reader.new (past ++ heard found.new.read bits.now) }
    ensures pushed { (sender : Role) (check : Check) (past : List Bool) → HasHeard sender check reader.old past
        → Pushed sender check past bits.now found.new room.old room.new result }
    ensures stays { result <ℤ pos 0 → reader.new ≡ reader.old }
    ensures kind { (result ≢ EMPTY) × (result ≢ WRONG_KIND) }
    ensures read { found.new.read ≤ length bits.now }
    ensures info { found.new.info ≤ length room.new }
{
    *found = nothing();
    if room.len() < INFO {
        return FULL;
    }
    let (read, stop) = reader.push(bits);
    found.read = read;
    found.ended = reader.heard();
    match stop {
        FrameStop::Nothing => NOTHING,
        FrameStop::Late => LATE,
        FrameStop::Piece(piece) => {
            tell_piece(reader, piece, room, found);
            DONE
        }
    }
}

/// Pushes bits into what a handle leads to.
fn push(machine: &mut Machine, bits: &[u8], room: &mut [u8], found: &mut Found) -> i32
    requires { found.old ≡ nothing_found }
    ensures deframes { (sender : Role) (check : Check) (past : List Bool) → Deframes sender check (Some machine.old) past
        → Deframes sender check (Some machine.new) (past ++ heard found.new.read bits.now) }
    ensures pushed { (sender : Role) (check : Check) (past : List Bool) → Deframes sender check (Some machine.old) past
        → Pushed sender check past bits.now found.new room.old room.new result }
    ensures kind { AnswersKind (Some machine.old) (deframer_in (Some machine.old)) result }
    ensures none { deframer_in (Some machine.old) ≡ None → (found.new ≡ nothing_found) × (room.new ≡ room.old) }
    ensures stays { result <ℤ pos 0 → machine.new ≡ machine.old }
    ensures read { found.new.read ≤ length bits.now }
    ensures info { found.new.info ≤ length room.new }
{
    match machine {
        Machine::Deframer(reader) => hear(reader, bits, room, found),
        _ => WRONG_KIND,
    }
}

/// A deframer before the first bit of what that end sends, where I frames and S frames have a check of 16 bits, or of 32.
#[unsafe(no_mangle)]
pub extern "C" fn modem_deframer_new(
    alloc: Global,
    handle: &mut Handle,
    sender: u8,
    check32: u8,
) -> i32
    ensures { MakesDeframer (codes.role_of sender) (codes.check_of check32) handle.old.value handle.new.value result }
{
    let (Some(sender), Some(check)) = (role_of(sender), check_of(check32)) else {
        return BAD_ARGUMENT;
    };
    make(
        alloc,
        handle,
        Machine::Deframer(FrameReader::new(sender, check)),
    )
}

/// Sets the check of what a handle leads to.
fn set_check(machine: &mut Machine, check32: u8) -> i32
    ensures answers { Answered (deframer_in (Some machine.old)) (Some machine.old) (Some machine.new) result
        (λ reader. SetsCheck (codes.check_of check32) reader (Some machine.old) (Some machine.new) result) }
    ensures checks { (sender : Role) (before check : Check) (past : List Bool) → Deframes sender before (Some machine.old) past
        → codes.check_of check32 ≡ Some check → Deframes sender check (Some machine.new) past }
{
    let Machine::Deframer(reader) = machine else {
        return WRONG_KIND;
    };
    let Some(check) = check_of(check32) else {
        return BAD_ARGUMENT;
    };
    reader.set_check(check);
    DONE
}

/// I frames and S frames have a check of 16 bits, or of 32, from now on: also one that has begun.
#[unsafe(no_mangle)]
pub extern "C" fn modem_deframer_set_check(alloc: Global, handle: &mut Handle, check32: u8) -> i32
    ensures answers { Answered (deframer_in handle.old.value) handle.old.value handle.new.value result
        (λ reader. SetsCheck (codes.check_of check32) reader handle.old.value handle.new.value result) }
    ensures checks { (sender : Role) (before check : Check) (past : List Bool) → Deframes sender before handle.old.value past
        → codes.check_of check32 ≡ Some check → Deframes sender check handle.new.value past }
{
    let Some(mut machine) = take(alloc, handle) else {
        return EMPTY;
    };
    let code = set_check(machine.as_mut(), check32);
    put(alloc, handle, machine);
    code
}

/// Bits more, an octet each of which the lowest bit counts, up to the one with which a piece ends. There is to be room for 1024 octets of
/// information.
#[unsafe(no_mangle)]
pub extern "C" fn modem_deframer_push(
    alloc: Global,
    handle: &mut Handle,
    bits: &[u8],
    room: &mut [u8],
    found: &mut Found,
) -> i32
    ensures deframes { (sender : Role) (check : Check) (past : List Bool) → Deframes sender check handle.old.value past
        → Deframes sender check handle.new.value (past ++ heard found.new.read bits.now) }
    ensures pushed { (sender : Role) (check : Check) (past : List Bool) → Deframes sender check handle.old.value past
        → Pushed sender check past bits.now found.new room.old room.new result }
    ensures kind { AnswersKind handle.old.value (deframer_in handle.old.value) result }
    ensures none { deframer_in handle.old.value ≡ None → (found.new ≡ nothing_found) × (room.new ≡ room.old) }
    ensures stays { result <ℤ pos 0 → handle.new.value ≡ handle.old.value }
    ensures length { length room.new ≡ length room.old }
    ensures read { found.new.read ≤ length bits.now }
    ensures info { found.new.info ≤ length room.new }
{
    *found = nothing();
    let Some(mut machine) = take(alloc, handle) else {
        return EMPTY;
    };
    let code = push(machine.as_mut(), bits, room, found);
    put(alloc, handle, machine);
    code
}

/// Copies the octets to the room, where there are any, and there is room.
fn lend(octets: &[u8], room: &mut [u8], count: &mut usize) -> i32
    requires { count.old ≡ 0 }
    ensures lends { Lends octets.now room.old room.new count.new result }
    ensures kind { (result ≢ EMPTY) × (result ≢ WRONG_KIND) }
    ensures within { count.new ≤ length room.new }
{
    if octets.is_empty() {
        return NOTHING;
    }
    if room.len() < octets.len() {
        return FULL;
    }
    put_octets(octets, room);
    *count = octets.len();
    DONE
}

/// The octets of the piece that ended with the last bit, with their check, where it was whole: as `modem_link_receive` takes them. There are
/// at most 1031.
#[unsafe(no_mangle)]
pub extern "C" fn modem_deframer_octets(
    alloc: Global,
    handle: &mut Handle,
    room: &mut [u8],
    count: &mut usize,
) -> i32
    ensures lends { (sender : Role) (check : Check) (past : List Bool) → Deframes sender check handle.old.value past
        → Lends (lent_of past) room.old room.new count.new result }
    ensures kind { AnswersKind handle.old.value (deframer_in handle.old.value) result }
    ensures none { deframer_in handle.old.value ≡ None → Puts [] room.old room.new count.new }
    ensures stays { handle.new.value ≡ handle.old.value }
    ensures length { length room.new ≡ length room.old }
    ensures within { count.new ≤ length room.new }
{
    *count = 0;
    let Some(machine) = take(alloc, handle) else {
        return EMPTY;
    };
    let code = match machine.as_ref() {
        Machine::Deframer(reader) => lend(reader.octets(), room, count),
        _ => WRONG_KIND,
    };
    put(alloc, handle, machine);
    code
}
