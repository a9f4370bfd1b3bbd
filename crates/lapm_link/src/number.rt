// What the number of a frame tells the sender.
ghost use Rattle.std.specs.Prelude.{◌≡◌, ◌<◌, MatchResult};
ghost use Rattle.lapm_sender.specs.Outgoing.{Outgoing};
ghost use Rattle.lapm_sender.specs.Sending.{StandsOut, Advances, RefusesAck, SameTerms};
ghost use Rattle.lapm_link.specs.Taking.{taken_as, readied};

use lapm_sender::{BadAck, Sender};

/// What N(R) of a frame means.
#[derive(Clone, Copy)]
pub(crate) enum Meaning {
    /// All segments before it came.
    Acknowledges,
    /// The segments below the number came, and the poll that is awaited is answered.
    Replies,
    /// The segments below the number came, and sending goes on from it.
    Rejects,
    /// The segment of the number alone is to be sent again.
    Selects,
}

/// What a frame says of the end that sent it.
#[derive(Clone, Copy)]
pub(crate) enum Readiness {
    /// Nothing.
    Unsaid,
    /// The other end takes segments.
    Ready,
    /// The other end asks for a pause.
    Busy,
}

/// The sender takes the number: true where the front advanced.
fn taken(sender: &mut Sender, nr: u8, meaning: Meaning) -> Result<bool, BadAck>
    requires { nr < 128 }
    ensures answer { (o : Outgoing) → StandsOut sender.old o
        → MatchResult result (Advances sender.new o (taken_as meaning nr o)) (RefusesAck nr o (taken_as meaning nr o)) }
    ensures terms { SameTerms sender.old sender.new }
{
    match meaning {
        Meaning::Acknowledges => sender.acked(nr),
        Meaning::Replies => sender.replied(nr),
        Meaning::Rejects => sender.rejected(nr),
        Meaning::Selects => match sender.selected(nr) {
            Ok(()) => Ok(false),
            Err(bad) => Err(bad),
        },
    }
}

/// The sender takes the number, and then what the frame says of the end that sent it: true where the front advanced.
pub(crate) fn heard(
    sender: &mut Sender,
    nr: u8,
    meaning: Meaning,
    readiness: Readiness,
) -> Result<bool, BadAck>
    requires { nr < 128 }
    ensures answer { (o : Outgoing) → StandsOut sender.old o
        → MatchResult result (Advances sender.new o (readied readiness (taken_as meaning nr o))) (RefusesAck nr o (readied readiness (taken_as meaning nr o))) }
    ensures terms { SameTerms sender.old sender.new }
{
    let advanced = taken(sender, nr, meaning)?;
    match readiness {
        Readiness::Unsaid => {}
        Readiness::Ready => sender.resumed(),
        Readiness::Busy => sender.pause(),
    }
    Ok(advanced)
}
