// Frames through a line and back.
ghost use Rattle.lapm_frames.specs.Sendable.{IsSendable};

use super::*;
use frame_check::{INFO, Info};
use lapm_frames::Frame;

/// What the lines are sent.
pub(super) enum Message {
    Mark,
    Odp,
    Adp,
    Flags,
    /// The longest I frame, of octets like this one, with N(S), N(R) and P.
    Longest(u8, u8, u8, bool),
    /// An I frame of a few octets.
    Noise,
    /// A response RR with this N(R).
    Ready(u8),
    /// A command REJ, a poll, with this N(R).
    Reject(u8),
    /// A command XID.
    Offer,
}

/// What is sent, as an end hands it to its line.
pub(super) fn sent(message: &Message) -> Sent
    ensures { IsSendable result }
{
    let mut info = Info::new();
    match *message {
        Message::Mark => Sent::Mark,
        Message::Odp => Sent::Odp,
        Message::Adp => Sent::Adp,
        Message::Flags => Sent::Flags,
        Message::Longest(octet, ns, nr, pf) => {
            info.extend(&[octet; INFO]);
            // for the prover: what the type says is known of what was looked at
            let _octets = info.as_slice();
            Sent::Frame(Frame::I {
                ns: ns % 128,
                nr: nr % 128,
                pf,
                info,
            })
        }
        Message::Noise => {
            info.extend(b"noise");
            Sent::Frame(Frame::I {
                ns: 1,
                nr: 2,
                pf: false,
                info,
            })
        }
        Message::Ready(nr) => Sent::Frame(Frame::Rr {
            command: false,
            nr: nr % 128,
            pf: false,
        }),
        Message::Reject(nr) => Sent::Frame(Frame::Rej {
            command: true,
            nr: nr % 128,
            pf: true,
        }),
        Message::Offer => {
            info.extend(b"\x82\x80\x00\x00");
            Sent::Frame(Frame::Xid {
                command: true,
                pf: false,
                info,
            })
        }
    }
}

/// Of the most octets, whose ones need the most zeros put in.
const LONGEST: Message = Message::Longest(0xff, 127, 3, true);

const READY: Message = Message::Ready(5);

/// A message in a line's first slot, whichever role sends it, the checks by which it is coded and judged, whether the slot is one that a line
/// of the script loses, and what becomes of it.
struct Slot {
    message: Message,
    coded: Check,
    judged: Check,
    loses: bool,
    outcome: Outcome,
}

/// Whether this becomes of the first slot of a sender's line, which isn't lost itself.
fn becomes(alloc: Global, script: &Script, sender: Role, slot: &Slot) -> Result<bool, NoMemory> {
    let mut coder = Coder::new(sender, SLOT as u16);
    let mut line = Line::new(alloc, sender, SLOT as u16)?;
    let outcome = message_through(
        &mut coder,
        &mut line,
        script,
        &slot.message,
        slot.coded,
        slot.judged,
        slot.loses,
    );
    Ok(outcome == Ok(slot.outcome) && line.decoder().lost().is_none())
}

impl Row for Slot {
    fn holds(&self, alloc: Global) -> bool {
        match read_script(alloc, b"") {
            Ok(script) => {
                matches!(becomes(alloc, &script, Role::Originator, self), Ok(true))
                    && matches!(becomes(alloc, &script, Role::Answerer, self), Ok(true))
            }
            Err(_) => false,
        }
    }
}

const SLOTS: &[(&str, Slot)] = &[
    (
        "information passes by the check of 16 bits",
        Slot {
            message: LONGEST,
            coded: Check::Sixteen,
            judged: Check::Sixteen,
            loses: false,
            outcome: Outcome::AsSent,
        },
    ),
    (
        "information passes by the check of 32 bits",
        Slot {
            message: LONGEST,
            coded: Check::ThirtyTwo,
            judged: Check::ThirtyTwo,
            loses: false,
            outcome: Outcome::AsSent,
        },
    ),
    (
        "a supervisory frame takes the agreed check",
        Slot {
            message: READY,
            coded: Check::ThirtyTwo,
            judged: Check::ThirtyTwo,
            loses: false,
            outcome: Outcome::AsSent,
        },
    ),
    (
        "a supervisory frame is lost by another check",
        Slot {
            message: READY,
            coded: Check::ThirtyTwo,
            judged: Check::Sixteen,
            loses: false,
            outcome: Outcome::Lost,
        },
    ),
    (
        "an XID keeps the check of 16 bits",
        Slot {
            message: Message::Offer,
            coded: Check::ThirtyTwo,
            judged: Check::Sixteen,
            loses: false,
            outcome: Outcome::AsSent,
        },
    ),
    (
        "an XID is judged by the check of 16 bits",
        Slot {
            message: Message::Offer,
            coded: Check::ThirtyTwo,
            judged: Check::ThirtyTwo,
            loses: false,
            outcome: Outcome::AsSent,
        },
    ),
    (
        "what is lost is not heard",
        Slot {
            message: Message::Odp,
            coded: Check::Sixteen,
            judged: Check::Sixteen,
            loses: true,
            outcome: Outcome::Lost,
        },
    ),
    (
        "of flags nothing is lost",
        Slot {
            message: Message::Flags,
            coded: Check::Sixteen,
            judged: Check::Sixteen,
            loses: true,
            outcome: Outcome::AsSent,
        },
    ),
];

#[test]
fn frames_pass_by_their_checks(rt: HostRuntime) {
    assert_rows(&rt, rt.alloc(), SLOTS);
}
