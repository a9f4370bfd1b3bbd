// Both ends of two lines of one turn's delay, each against what the other one sends, and an end by itself.
ghost use Rattle.lapm_link.specs.Fits.{IsSetUp};

use super::end::Standing;
use super::slot::Kind::{Command, Response};
use super::slot::Says::Offer;
use super::slot::Slot::{self, *};
use super::slot::Supervisory::Rr;
use super::slot::offer;
use super::stage::Stage;
use frame_check::Info;
use lapm_link::{AnyEnd, Closed, LinkFault, Phase, Sent, Setup};
use shared_terms::Role;
use std::alloc::Global;

/// What the originator and the answerer send in each turn, where each has a file of one octet.
const LINES: &[(Slot, Slot)] = &[
    (Odp, Mark),
    (Odp, Adp),
    (Xid(Command, Offer), Adp),
    (Flags, Xid(Response, Offer)),
    (Sabme(true), Flags),
    (Flags, Ua(true)),
    (S(Rr, Command, 0, true), Flags),
    (Flags, S(Rr, Response, 0, true)),
    (I(0, 0, false), I(0, 0, false)),
    (S(Rr, Response, 1, false), S(Rr, Response, 1, false)),
    (Disc(true), Flags),
    (Flags, Ua(true)),
    (Flags, Flags),
];

/// From this turn on both files are whole, and the originator is told to release.
const RELEASE: usize = 10;

fn setup(role: Role) -> Setup
    ensures { IsSetUp result }
{
    Setup {
        role,
        offer: offer(false, false),
        tries: 5,
        period: 20,
    }
}

/// An end behind a turn in which it hears this of the other one, if it then sends its line.
fn behind(
    standing: Standing,
    release: bool,
    (heard, other): (Slot, u8),
    (sends, file): (Slot, u8),
    got: &mut Info,
) -> Option<Standing> {
    let mut sent = Sent::Mark;
    let heard = heard.arrived(other);
    let next = standing.turn(&heard, &[file], release, false, got, &mut sent)?;
    if sent == sends.sent(file) {
        Some(next)
    } else {
        None
    }
}

/// How many lines an end of this file sends where it hears those of the other one, each in the turn behind it; and one more if it then has the other
/// one's file, and is Closed where it was told to release.
fn right_turns(alloc: Global, role: Role, file: u8, other: u8) -> usize {
    let Ok(mut standing) = Standing::new(alloc, setup(role)) else {
        return 0;
    };
    let is_originator = matches!(role, Role::Originator);
    let mut got = Info::new();
    let mut heard = Mark;
    let mut turn = 0usize;
    for &(line_o, line_a) in LINES {
        let (sends, next) = if is_originator {
            (line_o, line_a)
        } else {
            (line_a, line_o)
        };
        let release = is_originator && turn >= RELEASE;
        match behind(standing, release, (heard, other), (sends, file), &mut got) {
            Some(it) => standing = it,
            None => return turn,
        }
        heard = next;
        turn = turn.saturating_add(1);
    }
    let is_over = !is_originator || standing.end.phase() == Phase::Closed;
    if is_over && got.as_slice() == [other].as_slice() {
        turn.saturating_add(1)
    } else {
        turn
    }
}

#[test]
fn two_files_of_one_octet(rt: HostRuntime) {
    let originator = right_turns(rt.alloc(), Role::Originator, b'a', b'b');
    assert!(rt;
        originator == LINES.len() + 1,
        "originator, turn {originator}"
    );
    let answerer = right_turns(rt.alloc(), Role::Answerer, b'b', b'a');
    assert!(rt; answerer == LINES.len() + 1, "answerer, turn {answerer}");
}

/// Whether a closed end stays Closed, and sends flags.
fn stays_closed(end: Closed) -> bool {
    let mut sent = Sent::Mark;
    match AnyEnd::Closed(end).speak(9, false, &mut sent) {
        Ok(closed) => closed.phase() == Phase::Closed && sent == Sent::Flags,
        Err(_) => false,
    }
}

/// Whether an end that has sent no segment breaks its link by the acknowledgement of one.
fn is_broken_by_acknowledgement(alloc: Global) -> Option<bool> {
    let fault = LinkFault::BadAck {
        nr: 5,
        va: 0,
        high: 0,
    };
    let broken = Standing::at(alloc, Stage::PollSent)?.broken_by(I(0, 5, false))?;
    Some(broken.fault == fault && stays_closed(broken.end))
}

#[test]
fn an_acknowledgement_of_what_was_not_sent_breaks_the_link(rt: HostRuntime) {
    assert!(rt; is_broken_by_acknowledgement(rt.alloc()) == Some(true));
}

/// Whether an end takes on one break, and no second one while it waits.
fn takes_one_break(alloc: Global) -> Option<bool> {
    let mut end = Standing::at(alloc, Stage::PollSent)?.end;
    Some(end.ask_break(3, 30) && end.break_waiting() && !end.ask_break(4, 31))
}

#[test]
fn one_break_waits_at_a_time(rt: HostRuntime) {
    assert!(rt; takes_one_break(rt.alloc()) == Some(true));
}
