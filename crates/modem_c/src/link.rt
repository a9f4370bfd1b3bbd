// An end of the link, turn by turn.
ghost use Rattle.std.specs.Prelude.{◌≡◌, ◌≤◌, ◌<◌, length, MatchOption, MatchResult, None, Some};
ghost use Rattle.frame_check.specs.declared.sizes.TheConstants.{INFO, WHOLE};
ghost use Rattle.link_account.specs.Account.{Account};
ghost use Rattle.lapm_link.specs.Stands.{StandsFor};
ghost use Rattle.gateway.specs.declared.link.Endpoint.{Endpoint};
ghost use Rattle.gateway.specs.Endpoints.{wanted_length};
ghost use Rattle.modem_c.specs.CodeNumbers.{done};
ghost use Rattle.modem_c.specs.Answers.{AnswersOf, astray, flag_of};
ghost use Rattle.modem_c.specs.Led.{link_in};
ghost use Rattle.modem_c.specs.Links.{setup_of, AnswersSetup, unbroken, broke_by, code_of, why_of, length_given, Carries, AnswersHearing, AnswersDelivery, WantedAs, IsOffered, IsAsked, AnswersBusy, phase_number, standing_of, silence, said_of, room_said, AnswersSpeaking};

use crate::codes::{
    BAD_ARGUMENT, BROKEN, DONE, EMPTY, FULL, LATE, NO_MEMORY, NOTHING, ORDER, WRONG_KIND, flag_of,
    put_octets, role_of,
};
use crate::handle::{Handle, fill, make, take};
use crate::machine::Machine;
use crate::xid::OfferFields;
use frame_check::{Check, INFO, Info, WHOLE};
use gateway::{BreakAsked, Carried, Endpoint, LinkStop, Told};
use lapm_frames::Seen;
use lapm_link::{LinkFault, Phase, Setup};
use std::alloc::Global;
use std::mem;
use xid_params::Offer as LinkOffer;

/// How an end is set up.
#[repr(C)]
#[derive(Clone, Copy)]
pub struct SetupFields {
    /// What the end offers.
    pub offer: OfferFields,
    /// Turns that it waits for an answer, 1 to 65,535 [T401].
    pub period: u32,
    /// How often it tries, 1 to 20 [N400].
    pub tries: u8,
    /// 0 for the end that called, 1 for the one that answered.
    pub role: u8,
}

/// Why a link broke. What the cause says nothing of is 0.
#[repr(C)]
#[derive(Clone, Copy)]
pub struct Broke {
    /// 0 it didn't, 1 the other end answered no pattern, 2 all tries are spent, 3 an acknowledgement of a number that wasn't sent, 4 the other
    /// end began anew, or sent FRMR, 5 it refused or hung up.
    pub cause: u32,
    /// The number of a bad acknowledgement, below 128.
    pub nr: u8,
    /// The lowest number that it could have been, modulo 128.
    pub low: u8,
    /// The highest, modulo 128.
    pub high: u8,
    /// How many segments are acknowledged, where tries are spent or an end began anew.
    pub acknowledged: u64,
    /// How many segments were taken, where an end began anew.
    pub taken: u64,
    /// The turn in which the first of the periods began, where tries are spent.
    pub since: u64,
}

/// What an end transmits in a turn.
#[repr(C)]
#[derive(Clone, Copy)]
pub struct Said {
    /// 0 ones, 1 the originator's pattern, 2 the answerer's, 3 a frame, 4 flags.
    pub kind: u32,
    /// How many octets the frame has with its check; 0 for what is no frame.
    pub octets: usize,
}

/// How an end stands.
#[repr(C)]
#[derive(Clone, Copy)]
pub struct Standing {
    /// 0 detecting, 1 negotiating, 2 establishing, 3 connected, 4 releasing, 5 closed.
    pub phase: u32,
    /// 1 while it is connected, its file has ended, and all of it is acknowledged, else 0.
    pub whole: u32,
    /// 1 where the frames with numbers that it sends and hears now have a check of 32 bits, else 0.
    pub check32: u32,
}

/// Takes the end out of the handle, with the block that it stands in. The code where there is none.
fn take_end(alloc: Global, handle: &mut Handle) -> Result<(Box<Machine>, Endpoint), i32>
    ensures { MatchResult result (λ taken. link_in handle.old.value ≡ Some taken.1)
        (λ code. (link_in handle.old.value ≡ None) × (code ≡ astray handle.old.value) × (handle.new.value ≡ handle.old.value)) }
{
    let Some(mut machine) = take(alloc, handle) else {
        return Err(EMPTY);
    };
    match mem::replace(machine.as_mut(), Machine::Spent) {
        Machine::Link(end) => Ok((machine, end)),
        other => {
            fill(alloc, handle, machine, other);
            Err(WRONG_KIND)
        }
    }
}

/// Puts an end into the handle, in that block.
fn put_end(alloc: Global, handle: &mut Handle, block: Box<Machine>, end: Endpoint)
    ensures { link_in handle.new.value ≡ Some end }
{
    fill(alloc, handle, block, Machine::Link(end));
}

/// The setup that these numbers say.
fn setup_of(fields: &SetupFields) -> Option<Setup>
    ensures { result ≡ setup_of fields.now }
{
    Some(Setup {
        role: role_of(fields.role)?,
        offer: LinkOffer {
            srej: flag_of(fields.offer.srej)?,
            check32: flag_of(fields.offer.check32)?,
            tx_len: fields.offer.tx_len,
            rx_len: fields.offer.rx_len,
            tx_window: fields.offer.tx_window,
            rx_window: fields.offer.rx_window,
        },
        tries: fields.tries,
        period: fields.period,
    })
}

fn unbroken() -> Broke
    ensures { result ≡ unbroken }
{
    Broke {
        cause: 0,
        nr: 0,
        low: 0,
        high: 0,
        acknowledged: 0,
        taken: 0,
        since: 0,
    }
}

fn broke_by(fault: LinkFault) -> Broke
    ensures { result ≡ broke_by fault }
{
    let mut broke = unbroken();
    match fault {
        LinkFault::NotDetected => broke.cause = 1,
        LinkFault::Spent { segment, since } => {
            broke.cause = 2;
            broke.acknowledged = segment;
            broke.since = since;
        }
        LinkFault::BadAck { nr, va, high } => {
            broke.cause = 3;
            broke.nr = nr;
            broke.low = va;
            broke.high = high;
        }
        LinkFault::PeerReset { va, vr } => {
            broke.cause = 4;
            broke.acknowledged = va;
            broke.taken = vr;
        }
        LinkFault::PeerRefused => broke.cause = 5,
    }
    broke
}

/// The code of a stop, and why the link broke.
fn code_of(stop: LinkStop, why: &mut Broke) -> i32
    requires { why.old ≡ unbroken }
    ensures code { result ≡ code_of stop }
    ensures why { why.new ≡ why_of stop }
{
    match stop {
        LinkStop::Order => ORDER,
        LinkStop::Late => LATE,
        LinkStop::Broken(fault) => {
            *why = broke_by(fault);
            BROKEN
        }
    }
}

/// An end before its first turn. BAD_ARGUMENT where these numbers set up none.
#[unsafe(no_mangle)]
pub extern "C" fn modem_link_new(alloc: Global, handle: &mut Handle, setup: &SetupFields) -> i32
    ensures { AnswersSetup (setup_of setup.now) handle.old.value handle.new.value result }
{
    let Some(setup) = setup_of(setup) else {
        return BAD_ARGUMENT;
    };
    match Endpoint::new(alloc, setup) {
        Ok(Some(end)) => make(alloc, handle, Machine::Link(end)),
        Ok(None) => BAD_ARGUMENT,
        Err(_) => NO_MEMORY,
    }
}

/// What this number says that a line carries.
fn carried_by(kind: u32, octets: &[u8]) -> Option<Carried<'_>>
    ensures { MatchOption result (4 < kind) (λ carried. Carries kind octets.now carried) }
{
    match kind {
        0 | 4 => Some(Carried::Nothing),
        1 => Some(Carried::Pattern(Seen::Odp)),
        2 => Some(Carried::Pattern(Seen::Adp)),
        3 => Some(Carried::Octets(octets)),
        _ => None,
    }
}

fn hear(
    end: Endpoint,
    kind: u32,
    octets: &[u8],
    given: &mut i32,
    why: &mut Broke,
) -> (Endpoint, i32)
    requires given { given.old ≡ length_given None }
    requires why { why.old ≡ unbroken }
    ensures { AnswersHearing kind octets.now end result.0 result.1 given.new why.new }
{
    let Some(carried) = carried_by(kind, octets) else {
        return (end, BAD_ARGUMENT);
    };
    let (end, heard) = end.hear(&carried);
    let code = match heard {
        Ok(None) => DONE,
        Ok(Some(length)) => {
            *given = i32::from(length);
            DONE
        }
        Err(stop) => code_of(stop, why),
    };
    (end, code)
}

/// It hears what came in this turn: 0 ones, 1 the originator's pattern, 2 the answerer's, 3 a frame's octets with their check, 4 flags; octets that
/// are no frame are nothing. `given` is the length of the other end's break in units of 10 ms, where one is given, or -1.
#[unsafe(no_mangle)]
pub extern "C" fn modem_link_receive(
    alloc: Global,
    handle: &mut Handle,
    kind: u32,
    octets: &[u8],
    given: &mut i32,
    why: &mut Broke,
) -> i32
    ensures { AnswersOf link_in handle.old.value handle.new.value result ((given.new ≡ length_given None) × (why.new ≡ unbroken))
        (λ old new. AnswersHearing kind octets.now old new result given.new why.new) }
{
    *given = -1;
    *why = unbroken();
    let (block, end) = match take_end(alloc, handle) {
        Ok(taken) => taken,
        Err(code) => return code,
    };
    let (end, code) = hear(end, kind, octets, given, why);
    put_end(alloc, handle, block, end);
    code
}

fn deliver(end: &mut Endpoint, room: &mut [u8], taken: &mut usize) -> i32
    requires { taken.old ≡ 0 }
    ensures { AnswersDelivery end.old end.new room.old room.new taken.new result }
{
    if room.len() < INFO {
        return FULL;
    }
    let mut segment = Info::new();
    if !end.deliver(&mut segment) {
        return NOTHING;
    }
    put_octets(segment.as_slice(), room);
    *taken = segment.len();
    DONE
}

/// The next segment in order, with its length; NOTHING where none is left. FULL where there is no room for 1024 octets.
#[unsafe(no_mangle)]
pub extern "C" fn modem_link_deliver(
    alloc: Global,
    handle: &mut Handle,
    room: &mut [u8],
    taken: &mut usize,
) -> i32
    ensures answers { AnswersOf link_in handle.old.value handle.new.value result ((taken.new ≡ 0) × (room.new ≡ room.old))
        (λ old new. AnswersDelivery old new room.old room.new taken.new result) }
    ensures room { length room.new ≡ length room.old }
    ensures within { taken.new ≤ length room.new }
{
    *taken = 0;
    let (block, mut end) = match take_end(alloc, handle) {
        Ok(taken) => taken,
        Err(code) => return code,
    };
    let code = deliver(&mut end, room, taken);
    put_end(alloc, handle, block, end);
    code
}

/// The length of the longest piece that it takes next, where it wants one; NOTHING where it wants none.
#[unsafe(no_mangle)]
pub extern "C" fn modem_link_wants(alloc: Global, handle: &mut Handle, length: &mut usize) -> i32
    ensures { AnswersOf link_in handle.old.value handle.new.value result (length.new ≡ 0)
        (λ old new. (new ≡ old) × ((a : Account) → StandsFor old.link a → WantedAs (wanted_length a) length.new result)) }
{
    *length = 0;
    let (block, end) = match take_end(alloc, handle) {
        Ok(taken) => taken,
        Err(code) => return code,
    };
    let code = match end.wants() {
        Some(wanted) => {
            *length = usize::from(wanted);
            DONE
        }
        None => NOTHING,
    };
    put_end(alloc, handle, block, end);
    code
}

/// It takes the next piece of the file. A shorter one than it wants ends the file, and an empty one ends it without a segment. BAD_ARGUMENT
/// where it wants none, or none that is so long.
#[unsafe(no_mangle)]
pub extern "C" fn modem_link_offer(alloc: Global, handle: &mut Handle, piece: &[u8]) -> i32
    ensures { AnswersOf link_in handle.old.value handle.new.value result (Unit {0}) (λ old new. IsOffered old new piece.now result) }
{
    let (block, mut end) = match take_end(alloc, handle) {
        Ok(taken) => taken,
        Err(code) => return code,
    };
    let code = if end.offer(piece) { DONE } else { BAD_ARGUMENT };
    put_end(alloc, handle, block, end);
    code
}

/// It asks for a break of this length, in units of 10 ms; NOTHING where it isn't connected, one waits, or the rest after the last one isn't
/// over.
#[unsafe(no_mangle)]
pub extern "C" fn modem_link_ask_break(alloc: Global, handle: &mut Handle, length: u8) -> i32
    ensures { AnswersOf link_in handle.old.value handle.new.value result (Unit {0}) (λ old new. IsAsked old new length result) }
{
    let (block, mut end) = match take_end(alloc, handle) {
        Ok(taken) => taken,
        Err(code) => return code,
    };
    let code = match end.ask_break(length) {
        BreakAsked::Taken => DONE,
        BreakAsked::Refused => NOTHING,
        BreakAsked::Late => LATE,
    };
    put_end(alloc, handle, block, end);
    code
}

fn tell_busy(end: &mut Endpoint, busy: u8) -> i32
    ensures { AnswersBusy (flag_of busy) end.old end.new result }
{
    match flag_of(busy) {
        Some(busy) => {
            end.set_busy(busy);
            DONE
        }
        None => BAD_ARGUMENT,
    }
}

/// Whether its user asks for a pause from now on: 1, or 0.
#[unsafe(no_mangle)]
pub extern "C" fn modem_link_set_busy(alloc: Global, handle: &mut Handle, busy: u8) -> i32
    ensures { AnswersOf link_in handle.old.value handle.new.value result (Unit {0}) (λ old new. AnswersBusy (flag_of busy) old new result) }
{
    let (block, mut end) = match take_end(alloc, handle) {
        Ok(taken) => taken,
        Err(code) => return code,
    };
    let code = tell_busy(&mut end, busy);
    put_end(alloc, handle, block, end);
    code
}

fn phase_number(phase: Phase) -> u32
    ensures { result ≡ phase_number phase }
{
    match phase {
        Phase::Detecting => 0,
        Phase::Negotiating => 1,
        Phase::Establishing => 2,
        Phase::Connected => 3,
        Phase::Releasing => 4,
        Phase::Closed => 5,
    }
}

fn standing_of(end: &Endpoint) -> Standing
    ensures { (a : Account) → StandsFor end.now.link a → result ≡ standing_of a }
{
    let check32 = match end.check() {
        Check::Sixteen => 0,
        Check::ThirtyTwo => 1,
    };
    Standing {
        phase: phase_number(end.phase()),
        whole: u32::from(end.is_whole()),
        check32,
    }
}

/// How it stands.
#[unsafe(no_mangle)]
pub extern "C" fn modem_link_standing(
    alloc: Global,
    handle: &mut Handle,
    standing: &mut Standing,
) -> i32
    ensures { AnswersOf link_in handle.old.value handle.new.value result (standing.new ≡ standing.old)
        (λ old new. (result ≡ done) × (new ≡ old) × ((a : Account) → StandsFor old.link a → standing.new ≡ standing_of a)) }
{
    let (block, end) = match take_end(alloc, handle) {
        Ok(taken) => taken,
        Err(code) => return code,
    };
    *standing = standing_of(&end);
    put_end(alloc, handle, block, end);
    DONE
}

/// What is transmitted, and a frame's octets copied.
fn say(told: &Told, room: &mut [u8]) -> Said
    requires { WHOLE ≤ length room.old }
    ensures said { result ≡ said_of told.now }
    ensures room { room.new ≡ room_said told.now room.old }
{
    let kind = match told {
        Told::Mark => 0,
        Told::Pattern(Seen::Odp) => 1,
        Told::Pattern(Seen::Adp) => 2,
        Told::Octets(octets) => {
            put_octets(octets.as_slice(), room);
            return Said {
                kind: 3,
                octets: octets.len(),
            };
        }
        Told::Flags => 4,
    };
    Said { kind, octets: 0 }
}

fn speak(
    end: Endpoint,
    release: u8,
    room: &mut [u8],
    said: &mut Said,
    why: &mut Broke,
) -> (Endpoint, i32)
    requires said { said.old ≡ silence }
    requires why { why.old ≡ unbroken }
    ensures { AnswersSpeaking (flag_of release) end result.0 result.1 room.old room.new said.new why.new }
{
    let Some(release) = flag_of(release) else {
        return (end, BAD_ARGUMENT);
    };
    if room.len() < WHOLE {
        return (end, FULL);
    }
    let (end, told) = end.speak(release);
    let code = match told {
        Ok(told) => {
            *said = say(&told, room);
            DONE
        }
        Err(stop) => code_of(stop, why),
    };
    (end, code)
}

/// What it transmits in this turn; the turn ends. `release` of 1 tells a connected originator to take the link down. FULL where there is no room for
/// 1031 octets.
#[unsafe(no_mangle)]
pub extern "C" fn modem_link_send(
    alloc: Global,
    handle: &mut Handle,
    release: u8,
    room: &mut [u8],
    said: &mut Said,
    why: &mut Broke,
) -> i32
    ensures answers { AnswersOf link_in handle.old.value handle.new.value result
        ((said.new ≡ silence) × (why.new ≡ unbroken) × (room.new ≡ room.old))
        (λ old new. AnswersSpeaking (flag_of release) old new result room.old room.new said.new why.new) }
    ensures room { length room.new ≡ length room.old }
    ensures within { said.new.octets ≤ length room.new }
{
    *said = Said { kind: 0, octets: 0 };
    *why = unbroken();
    let (block, end) = match take_end(alloc, handle) {
        Ok(taken) => taken,
        Err(code) => return code,
    };
    let (end, code) = speak(end, release, room, said, why);
    put_end(alloc, handle, block, end);
    code
}
