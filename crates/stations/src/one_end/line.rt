// The line of a turn in the trace.
ghost use Rattle.std.specs.Prelude.{◌≡◌};
ghost use Rattle.line_texts.specs.LineText.{line_text, trace_line};
ghost use Rattle.stations.specs.OneEnd.Peer.{heard_as};

use lapm_frames::{Arrived, Heard, Seen, Sent};
use line_texts::TraceLine;
use shared_terms::Role;

/// What is heard of a peer, as a trace names it.
fn heard_as(arrived: Arrived) -> Heard
    ensures { result ≡ heard_as arrived }
{
    match arrived {
        Arrived::Nothing => Heard::Nothing,
        Arrived::Pattern(Seen::Odp) => Heard::Passed(Sent::Odp),
        Arrived::Pattern(Seen::Adp) => Heard::Passed(Sent::Adp),
        Arrived::Frame(frame) => Heard::Passed(Sent::Frame(frame)),
    }
}

/// What an end heard, sent and gave its user in a turn.
#[derive(Drop)]
pub(crate) struct TurnWords {
    /// What the end heard.
    pub arrived: Arrived,
    /// None in the last turn of a run, in which nothing more is sent.
    pub sent: Option<Sent>,
    /// The length of a break, in hundredths of a second.
    pub given: Option<u8>,
}

/// The line of a turn.
pub(crate) fn peer_line(turn: u64, role: Role, words: TurnWords) -> TraceLine
    ensures { line_text result ≡ trace_line turn role (heard_as words.arrived) words.sent words.given }
{
    TraceLine {
        turn,
        role,
        arrived: heard_as(words.arrived),
        sent: words.sent,
        given: words.given,
    }
}
