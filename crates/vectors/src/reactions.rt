// What an end does in its next turn, for each state that it can be in and each thing that it can hear.
use std::alloc::Global;

mod answerer;
mod checks;
mod end;
mod originator;
mod slot;
mod stage;
mod two_ends;

use end::{Observed, Standing};
use lapm_link::{LinkFault, Phase, Setup};
use shared_terms::Role;
use slot::{ARRIVALS, Slot};
use stage::{STAGES, Stage};
use xid_params::Offer;

/// What an end does in a turn by what it hears: the phase that it is then in and what it sends, or why it gives its link up.
#[derive(Clone, Copy)]
enum Reaction {
    Sends(Phase, Slot),
    Breaks(LinkFault),
}

fn bad_ack(nr: u8, va: u8, high: u8) -> Reaction {
    Reaction::Breaks(LinkFault::BadAck { nr, va, high })
}

fn reset(va: u64, vr: u64) -> Reaction {
    Reaction::Breaks(LinkFault::PeerReset { va, vr })
}

/// What the rules ask for, not what the code was seen to do.
fn expected(stage: Stage, heard: Slot) -> Reaction {
    match stage {
        Stage::OriginatorDetecting => originator::detecting(heard),
        Stage::OfferSent => originator::offer_sent(heard),
        Stage::SabmeSent => originator::sabme_sent(heard),
        Stage::PollSent => originator::poll_sent(heard),
        Stage::SegmentSent => originator::segment_sent(heard),
        Stage::PollSentAgain => originator::poll_sent_again(heard),
        Stage::PollHeldBack => originator::poll_held_back(heard),
        Stage::SegmentAcknowledged => originator::segment_acknowledged(heard),
        Stage::Paused => originator::paused(heard),
        Stage::DiscSent => originator::disc_sent(heard),
        Stage::AnswererDetecting => answerer::detecting(heard),
        Stage::OfferAnswered => answerer::offer_answered(heard),
        Stage::NothingHeard => answerer::nothing_heard(heard),
        Stage::SegmentTaken => answerer::segment_taken(heard),
        Stage::RejSent => answerer::rej_sent(heard),
        Stage::RejHeldBack => answerer::rej_held_back(heard),
        Stage::BreakAnswered => answerer::break_answered(heard),
        Stage::SrejAgreed => answerer::srej_agreed(heard),
        Stage::SrejSent => answerer::srej_sent(heard),
        Stage::Busy => answerer::busy(heard),
        Stage::BusyUntold => answerer::busy_untold(heard),
        Stage::OriginatorClosed | Stage::AnswererClosed => closed(heard),
    }
}

/// The link is over, at either end.
fn closed(heard: Slot) -> Reaction {
    match heard {
        Slot::Disc(pf) => Reaction::Sends(Phase::Closed, Slot::Dm(pf)),
        _ => Reaction::Sends(Phase::Closed, Slot::Flags),
    }
}

/// Whether an end does in this state at what it hears what the rules ask for.
fn is_as_expected(alloc: Global, stage: Stage, heard: Slot) -> bool {
    let Some(standing) = Standing::at(alloc, stage) else {
        return false;
    };
    // where its user asks for a pause on the way to the state, it still does
    let is_busy = matches!(stage, Stage::Busy | Stage::BusyUntold);
    standing.react(heard, is_busy) == Observed::of(expected(stage, heard))
}

#[test]
fn each_state_at_each_arrival(rt: HostRuntime) {
    for &(state, stage) in STAGES {
        for &(arrival, heard) in ARRIVALS {
            let holds = is_as_expected(rt.alloc(), stage, heard);
            assert!(rt; holds, "{state} at {arrival}");
        }
    }
}

/// Whether there is memory for an end's widest windows.
fn has_widest_windows(alloc: Global, role: Role) -> bool {
    let setup = Setup {
        role,
        offer: Offer {
            tx_window: 127,
            rx_window: 127,
            tx_len: 128,
            rx_len: 128,
            srej: false,
            check32: false,
        },
        tries: 5,
        period: 60,
    };
    Standing::new(alloc, setup).is_ok()
}

#[test]
fn ends_have_windows_of_127_segments(rt: HostRuntime) {
    assert!(rt; has_widest_windows(rt.alloc(), Role::Originator));
    assert!(rt; has_widest_windows(rt.alloc(), Role::Answerer));
}
