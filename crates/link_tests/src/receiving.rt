// Segments in and out of order.
ghost use Rattle.std.specs.Prelude.{◌≡◌, ◌≤◌};

use super::assert_row;
use frame_check::Info;
use lapm_receiver::{Receiver, Took};
use std::alloc::Global;
use std::process::Abort;

/// What a receiver does with a window of four, and what it then answers.
enum Step {
    /// A segment of this number and octet comes, before any was taken in its turn.
    Take(u8, u8, Took),
    /// The segment of this number is asked for, or none is.
    Ask(Option<u8>),
    /// So many segments aren't delivered yet.
    Undelivered(usize),
    /// The next segment that is delivered has this octet.
    Deliver(u8),
    /// The next one that is expected has this number.
    Number(u8),
    /// Whether an acknowledgement is owed.
    Owed(bool),
    /// The other end is told.
    Tell,
}

/// What becomes of a segment of this number and octet, where none was taken in its turn before.
fn taken(receiver: &mut Receiver, ns: u8, octet: u8) -> Option<Took>
    requires { 1 ≤ receiver.old.window }
    ensures { receiver.new.window ≡ receiver.old.window }
{
    if receiver.undelivered() != 0 || receiver.taken() != 0 {
        return None;
    }
    let mut segment = Info::new();
    segment.push(octet);
    Some(receiver.take(ns % 128, &segment))
}

/// The number of the segment that is asked for.
fn asked(receiver: &mut Receiver) -> Option<u8>
    ensures { receiver.new.window ≡ receiver.old.window }
{
    let asked = receiver.ask();
    if asked.is_some() {
        receiver.asked();
    }
    asked
}

/// Whether the next segment that is delivered has this octet.
fn delivers(receiver: &mut Receiver, octet: u8) -> bool
    ensures { receiver.new.window ≡ receiver.old.window }
{
    let mut segment = Info::new();
    receiver.deliver(&mut segment) && segment.as_slice() == [octet].as_slice()
}

/// Whether a step goes as it says.
fn holds(receiver: &mut Receiver, step: &Step) -> bool
    requires { 1 ≤ receiver.old.window }
    ensures { receiver.new.window ≡ receiver.old.window }
{
    match *step {
        Step::Take(ns, octet, took) => taken(receiver, ns, octet) == Some(took),
        Step::Ask(number) => asked(receiver) == number,
        Step::Undelivered(count) => receiver.undelivered() == count,
        Step::Deliver(octet) => delivers(receiver, octet),
        Step::Number(nr) => receiver.nr() == nr,
        Step::Owed(owed) => receiver.owed() == owed,
        Step::Tell => {
            receiver.told();
            true
        }
    }
}

/// Receivers, each with room for so many segments and with SREJ or without it.
const RECEIVERS: &[(&str, u8, bool, &[Step])] = &[
    (
        "segments are taken in order",
        127,
        false,
        &[
            Step::Take(0, b'a', Took::InOrder),
            Step::Undelivered(1),
            Step::Deliver(b'a'),
            Step::Number(1),
            Step::Owed(true),
            Step::Tell,
            Step::Owed(false),
        ],
    ),
    (
        "a gap asks once",
        4,
        false,
        &[
            Step::Take(1, b'b', Took::Gap),
            Step::Ask(Some(0)),
            Step::Take(2, b'c', Took::Gap),
            Step::Ask(None),
            Step::Take(127, b'z', Took::Repeat),
        ],
    ),
    (
        "held segments follow",
        4,
        true,
        &[
            Step::Take(1, b'b', Took::Kept),
            Step::Ask(Some(0)),
            Step::Ask(None),
            Step::Take(1, b'b', Took::Repeat),
            Step::Take(0, b'a', Took::InOrder),
            Step::Deliver(b'a'),
            Step::Deliver(b'b'),
            Step::Number(2),
        ],
    ),
];

/// A receiver with such a room.
fn begun(rt: &impl Abort, alloc: Global, room: u8, srej: bool) -> Receiver
    ensures { 1 ≤ result.window }
{
    assert!(rt; 4 <= room && room <= 127);
    let Ok(mut receiver) = Receiver::new(alloc, room) else {
        panic!(rt; "no memory");
    };
    receiver.begin(4, srej);
    receiver
}

#[test]
fn segments_in_and_out_of_order(rt: HostRuntime) {
    for (name, room, srej, steps) in RECEIVERS {
        let mut receiver = begun(&rt, rt.alloc(), *room, *srej);
        for step in *steps {
            assert_row(&rt, name, holds(&mut receiver, step));
        }
    }
}
