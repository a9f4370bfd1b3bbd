// The states that an end is in before it hears what the table names.
ghost use Rattle.lapm_link.specs.Fits.{IsSetUp};

use super::slot::{Kind, Says, Slot, Supervisory, offer};
use lapm_link::Setup;
use shared_terms::Role;

/// A state of an end. Its file is one segment, where nothing else is said.
#[derive(Clone, Copy)]
pub(super) enum Stage {
    OriginatorDetecting,
    /// Negotiating: the XID command is out.
    OfferSent,
    /// Establishing: the SABME is out.
    SabmeSent,
    /// Connected: the poll is out, and no segment was sent.
    PollSent,
    /// Connected: the poll was answered, and the segment is out.
    SegmentSent,
    /// Connected: the segment's timer has expired, and the poll is out.
    PollSentAgain,
    /// Connected: the segment's timer has expired, and the reply to the other end's poll went before the own poll.
    PollHeldBack,
    /// Connected: the segment is acknowledged, and one of the other end's is taken.
    SegmentAcknowledged,
    /// Connected: the poll was answered by RNR, and no segment was sent.
    Paused,
    /// Releasing: the DISC is out.
    DiscSent,
    OriginatorClosed,
    AnswererDetecting,
    /// Negotiating: the XID command was answered.
    OfferAnswered,
    /// Connected: no I frame and no supervisory frame was heard.
    NothingHeard,
    /// Connected: a segment is taken. The file is empty.
    SegmentTaken,
    /// Connected: the second segment was heard without the first one, and the REJ is out. The file is empty.
    RejSent,
    /// Connected: the same, but the reply to a poll went before the REJ. The file is empty.
    RejHeldBack,
    /// Connected: a break was heard, and the BRKACK is out; no I frame and no supervisory frame was heard. The file is empty.
    BreakAnswered,
    /// Connected with SREJ: a poll was answered. The file is empty.
    SrejAgreed,
    /// Connected with SREJ: the second segment is held, and the first one was asked for. The file is empty.
    SrejSent,
    /// Connected and busy: a poll was answered. The file is empty.
    Busy,
    /// Connected: a poll was answered before the end became busy. The file is empty.
    BusyUntold,
    AnswererClosed,
}

pub(super) const STAGES: &[(&str, Stage)] = &[
    ("originator detecting", Stage::OriginatorDetecting),
    ("offer sent", Stage::OfferSent),
    ("sabme sent", Stage::SabmeSent),
    ("poll sent", Stage::PollSent),
    ("segment sent", Stage::SegmentSent),
    ("poll sent again", Stage::PollSentAgain),
    ("poll held back", Stage::PollHeldBack),
    ("segment acknowledged", Stage::SegmentAcknowledged),
    ("paused", Stage::Paused),
    ("disc sent", Stage::DiscSent),
    ("originator closed", Stage::OriginatorClosed),
    ("answerer detecting", Stage::AnswererDetecting),
    ("offer answered", Stage::OfferAnswered),
    ("nothing heard", Stage::NothingHeard),
    ("segment taken", Stage::SegmentTaken),
    ("rej sent", Stage::RejSent),
    ("rej held back", Stage::RejHeldBack),
    ("break answered", Stage::BreakAnswered),
    ("srej agreed", Stage::SrejAgreed),
    ("srej sent", Stage::SrejSent),
    ("busy", Stage::Busy),
    ("busy untold", Stage::BusyUntold),
    ("answerer closed", Stage::AnswererClosed),
];

/// Timers expire three turns after they were set.
const PERIOD: u32 = 3;

const NONE: Slot = Slot::Flags;

const ADP: Slot = Slot::Adp;

const OFFER: Slot = Slot::Xid(Kind::Command, Says::Offer);

const OFFER_WITH_SREJ: Slot = Slot::Xid(Kind::Command, Says::OfferWithSrej);

const ANSWER: Slot = Slot::Xid(Kind::Response, Says::Offer);

const SABME: Slot = Slot::Sabme(true);

const DISC: Slot = Slot::Disc(true);

const UA: Slot = Slot::Ua(true);

const POLL: Slot = Slot::S(Supervisory::Rr, Kind::Command, 0, true);

const REPLY: Slot = Slot::S(Supervisory::Rr, Kind::Response, 0, true);

const BUSY_REPLY: Slot = Slot::S(Supervisory::Rnr, Kind::Response, 0, true);

const BREAK: Slot = Slot::Ui(Kind::Command, false, Says::Brk(0, 20));

const FIRST: Slot = Slot::I(0, 0, false);

const SECOND: Slot = Slot::I(1, 0, false);

const SECOND_WITH_POLL: Slot = Slot::I(1, 0, true);

const ACKNOWLEDGING: Slot = Slot::I(0, 1, false);

impl Stage {
    pub(super) fn role(self) -> Role {
        match self {
            Stage::AnswererDetecting
            | Stage::OfferAnswered
            | Stage::NothingHeard
            | Stage::SegmentTaken
            | Stage::RejSent
            | Stage::RejHeldBack
            | Stage::BreakAnswered
            | Stage::SrejAgreed
            | Stage::SrejSent
            | Stage::Busy
            | Stage::BusyUntold
            | Stage::AnswererClosed => Role::Answerer,
            _ => Role::Originator,
        }
    }

    pub(super) fn setup(self) -> Setup
        ensures { IsSetUp result }
    {
        Setup {
            role: self.role(),
            offer: offer(matches!(self, Stage::SrejAgreed | Stage::SrejSent), false),
            tries: 5,
            period: PERIOD,
        }
    }

    pub(super) fn file(self) -> &'static [u8] {
        match self {
            Stage::SegmentTaken
            | Stage::RejSent
            | Stage::RejHeldBack
            | Stage::BreakAnswered
            | Stage::SrejAgreed
            | Stage::SrejSent
            | Stage::Busy
            | Stage::BusyUntold => b"",
            _ => b"f",
        }
    }

    /// The turn from which on the end's user asks for a pause, or none that comes.
    pub(super) fn busy_from(self) -> u64 {
        match self {
            Stage::Busy => 0,
            Stage::BusyUntold => self.heard().len() as u64,
            _ => u64::MAX,
        }
    }

    /// Whether the end is told to release as soon as it is Connected.
    pub(super) fn releases(self) -> bool {
        matches!(self, Stage::DiscSent | Stage::OriginatorClosed)
    }

    /// What the end has heard in each turn, from the first on.
    pub(super) fn heard(self) -> &'static [Slot] {
        match self {
            Stage::OriginatorDetecting | Stage::AnswererDetecting => &[NONE],
            Stage::OfferSent => &[NONE, ADP],
            Stage::SabmeSent => &[NONE, ADP, ANSWER],
            Stage::PollSent | Stage::DiscSent => &[NONE, ADP, ANSWER, UA],
            Stage::OriginatorClosed => &[NONE, ADP, ANSWER, UA, UA],
            Stage::SegmentSent => &[NONE, ADP, ANSWER, UA, REPLY],
            Stage::PollSentAgain => &[NONE, ADP, ANSWER, UA, REPLY, NONE, NONE, NONE],
            Stage::PollHeldBack => &[NONE, ADP, ANSWER, UA, REPLY, NONE, NONE, POLL],
            Stage::SegmentAcknowledged => &[NONE, ADP, ANSWER, UA, REPLY, ACKNOWLEDGING],
            Stage::Paused => &[NONE, ADP, ANSWER, UA, BUSY_REPLY],
            Stage::OfferAnswered => &[NONE, OFFER],
            Stage::NothingHeard => &[NONE, OFFER, SABME],
            Stage::SegmentTaken => &[NONE, OFFER, SABME, FIRST],
            Stage::RejSent => &[NONE, OFFER, SABME, SECOND],
            Stage::RejHeldBack => &[NONE, OFFER, SABME, SECOND_WITH_POLL],
            Stage::BreakAnswered => &[NONE, OFFER, SABME, BREAK],
            Stage::SrejAgreed => &[NONE, OFFER_WITH_SREJ, SABME, POLL],
            Stage::SrejSent => &[NONE, OFFER_WITH_SREJ, SABME, POLL, SECOND],
            Stage::Busy | Stage::BusyUntold => &[NONE, OFFER, SABME, POLL],
            Stage::AnswererClosed => &[NONE, OFFER, SABME, DISC],
        }
    }
}
