// Segments sent, acknowledged, asked for again and timed out.
ghost use Rattle.std.specs.Prelude.{◌≡◌, ◌≤◌};

use super::assert_row;
use frame_check::{INFO, Info};
use lapm_sender::{BadAck, Sender, Spent};
use std::alloc::Global;
use std::process::Abort;

/// What a sender does with a window of two and one try, and what it then answers.
enum Step {
    /// The piece of this number is wanted, or none is.
    Want(Option<u64>),
    /// The piece that is wanted is offered.
    Offer(&'static [u8]),
    /// Whether a segment is ready to be sent.
    Ready(bool),
    /// The next segment to be sent has this number modulo 128 and these octets.
    Next(u8, &'static [u8]),
    /// Whether segments that were sent aren't acknowledged.
    Outstanding(bool),
    /// An acknowledgement with this number comes, and moves the front or not.
    Acknowledge(u8, Result<bool, BadAck>),
    /// The segment of this number is asked for again.
    Select(u8),
    /// All from this number on are asked for again.
    Reject(u8),
    /// So many segments are acknowledged.
    Front(u64),
    /// The file is sent and acknowledged.
    Whole,
    /// The time is over for what was sent.
    Expire(Result<(), Spent>),
    /// The other end, which was polled, awaits the segment that was sent.
    Reply,
}

/// Offers the piece that is wanted, where one is.
fn offers(sender: &mut Sender, piece: &[u8]) -> bool
    ensures { sender.new.window ≡ sender.old.window }
{
    match sender.wants() {
        Some(number) if number < 1 << 40 && piece.len() <= usize::from(sender.size()) => {
            sender.offer(piece);
            true
        }
        _ => false,
    }
}

/// Whether the next segment to be sent has this number modulo 128 and these octets.
fn sends(sender: &mut Sender, ns: u8, octets: &[u8]) -> bool
    ensures { sender.new.window ≡ sender.old.window }
{
    let mut out = Info::new();
    sender.next(&mut out) == Some(ns) && out.as_slice() == octets
}

/// Whether the other end is awaited, and its reply moves no front.
fn is_replied(sender: &mut Sender) -> bool
    ensures { sender.new.window ≡ sender.old.window }
{
    sender.awaiting() && sender.replied(0) == Ok(false)
}

/// Whether a step goes as it says.
fn holds(sender: &mut Sender, step: &Step) -> bool
    requires { 1 ≤ sender.old.window }
    ensures { sender.new.window ≡ sender.old.window }
{
    match *step {
        Step::Want(number) => sender.wants() == number,
        Step::Offer(piece) => offers(sender, piece),
        Step::Ready(ready) => sender.ready() == ready,
        Step::Next(ns, octets) => sends(sender, ns, octets),
        Step::Outstanding(outstanding) => sender.outstanding() == outstanding,
        Step::Acknowledge(nr, answer) => sender.acked(nr) == answer,
        Step::Select(nr) => sender.selected(nr) == Ok(()),
        Step::Reject(nr) => sender.rejected(nr) == Ok(true),
        Step::Front(front) => sender.front() == front,
        Step::Whole => sender.whole(),
        Step::Expire(answer) => sender.expire() == answer,
        Step::Reply => is_replied(sender),
    }
}

/// Senders, each with room for so many segments of so many octets at most.
const SENDERS: &[(&str, u8, u16, &[Step])] = &[
    (
        "segments go in order",
        127,
        4,
        &[
            Step::Want(Some(0)),
            Step::Offer(b"abcd"),
            Step::Ready(true),
            Step::Want(Some(1)),
            Step::Offer(b"ef"),
            Step::Want(None),
            Step::Next(0, b"abcd"),
            Step::Next(1, b"ef"),
            Step::Outstanding(true),
            Step::Acknowledge(2, Ok(true)),
            Step::Front(2),
            Step::Whole,
        ],
    ),
    (
        "segments go again",
        2,
        1,
        &[
            Step::Want(Some(0)),
            Step::Offer(b"a"),
            Step::Want(Some(1)),
            Step::Offer(b"b"),
            Step::Next(0, b"a"),
            Step::Next(1, b"b"),
            Step::Select(0),
            Step::Next(0, b"a"),
            Step::Ready(false),
            Step::Reject(1),
            Step::Next(1, b"b"),
            Step::Acknowledge(
                3,
                Err(BadAck {
                    nr: 3,
                    va: 1,
                    high: 2,
                }),
            ),
        ],
    ),
    (
        "tries are spent",
        2,
        1,
        &[
            Step::Want(Some(0)),
            Step::Offer(b"a"),
            Step::Next(0, b"a"),
            Step::Expire(Ok(())),
            Step::Reply,
            Step::Next(0, b"a"),
            Step::Expire(Err(Spent { segment: 0 })),
        ],
    ),
];

/// A sender with such a room, which wants nothing before it is begun.
fn begun(rt: &impl Abort, alloc: Global, room: u8, size: u16) -> Sender
    ensures { 1 ≤ result.window }
{
    assert!(rt; 2 <= room && room <= 127 && 1 <= size && usize::from(size) <= INFO);
    let Ok(mut sender) = Sender::new(alloc, room) else {
        panic!(rt; "no memory");
    };
    assert!(rt; sender.wants() == None);
    sender.begin(2, size, 1, false);
    sender
}

#[test]
fn segments_sent_and_acknowledged(rt: HostRuntime) {
    for (name, room, size, steps) in SENDERS {
        let mut sender = begun(&rt, rt.alloc(), *room, *size);
        for step in *steps {
            assert_row(&rt, name, holds(&mut sender, step));
        }
    }
}
