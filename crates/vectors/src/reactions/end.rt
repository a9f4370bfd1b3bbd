// An end that is taken to a state, and what it then does.
ghost use Rattle.std.specs.Prelude.{◌≡◌, ◌+◌, ◌*◌, ◌≤◌, None, IfOk, IfSome};
ghost use Rattle.lapm_link.specs.Fits.{IsSetUp};
ghost use Rattle.lapm_link.specs.Stands.{TakesNothing, taken_of, undelivered_of, waiting_of};
ghost use Rattle.link_account.specs.Numbers.{IsNumbered};
ghost use Rattle.vectors.specs.declared.reactions.end.TheConstants.{LATEST};

use super::Reaction;
use super::slot::Slot;
use super::stage::Stage;
use frame_check::Info;
use lapm_link::{AnyEnd, Arrived, Broken, Detecting, LinkFault, Phase, Sent, Setup};
use shared_terms::NoMemory;
use std::alloc::Global;

/// What an end was seen to do, with the words of a `Reaction`.
#[derive(Drop, PartialEq, Eq)]
pub(super) enum Observed {
    Sent(Phase, Sent),
    Broke(LinkFault),
}

impl Observed {
    pub(super) fn of(reaction: Reaction) -> Observed {
        match reaction {
            Reaction::Sends(phase, slot) => Observed::Sent(phase, slot.sent(b'f')),
            Reaction::Breaks(fault) => Observed::Broke(fault),
        }
    }
}

/// No end is taken through more turns.
const LATEST: u64 = 16;

/// An end that has spoken in the turn before this one.
#[derive(Drop)]
pub(super) struct Standing {
    pub(super) end: AnyEnd,
    turn: u64,
    ghost early: { turn ≤ LATEST },
    ghost counted: { taken_of end ≤ 128 * turn },
    ghost delivered: { undelivered_of end ≡ 0 },
    ghost given: { waiting_of end ≡ None },
}

/// Takes what is delivered, which is one segment at the most.
fn take(end: &mut AnyEnd, got: &mut Info) -> Option<()>
    ensures takes_nothing { TakesNothing end.old end.new }
    ensures delivered { IfSome result (λ _. undelivered_of end.new ≡ 0) }
{
    if !end.deliver(got) {
        return Some(());
    }
    if !end.deliver(got) {
        return Some(());
    }
    None
}

/// Offers the file, where it is wanted.
fn feed(end: &mut AnyEnd, file: &[u8])
    ensures { TakesNothing end.old end.new }
{
    if let Some(number) = end.wants() {
        if number < 1 << 40 && file.len() <= usize::from(end.piece()) {
            end.offer(file);
        }
    }
}

/// What an end is once it has heard: of what it answers only how many segments it has taken.
fn hear(end: AnyEnd, turn: u64, arrived: &Arrived) -> Result<AnyEnd, Broken>
    requires early { turn ≤ LATEST }
    requires numbers { IsNumbered arrived.now }
    requires counted { taken_of end ≤ 128 * turn }
    requires delivered { undelivered_of end ≡ 0 }
    requires given { waiting_of end ≡ None }
    ensures { IfOk result (λ heard. taken_of heard ≤ 128 * turn + 128) }
{
    end.hear(turn, arrived)
}

/// Takes the break that is given, offers the file, and tells the end whether its user is busy.
fn serve(end: &mut AnyEnd, file: &[u8], busy: bool)
    ensures takes_nothing { TakesNothing end.old end.new }
    ensures given { waiting_of end.new ≡ None }
{
    let _ = end.given_break();
    feed(end, file);
    end.set_busy(busy);
}

/// What an end is once it has spoken, which takes nothing.
fn speak(end: AnyEnd, turn: u64, release: bool, sent: &mut Sent) -> Result<AnyEnd, Broken>
    requires { turn ≤ LATEST }
    ensures { IfOk result (TakesNothing end) }
{
    end.speak(turn, release, sent)
}

impl Standing {
    pub(super) fn new(alloc: Global, setup: Setup) -> Result<Standing, NoMemory>
        requires { IsSetUp setup }
    {
        Ok(Standing {
            end: AnyEnd::Detecting(Detecting::new(alloc, setup)?),
            turn: 0,
        })
    }

    /// An end that has spoken in each turn in which it heard what leads to this state.
    pub(super) fn at(alloc: Global, stage: Stage) -> Option<Standing> {
        let mut standing = Standing::new(alloc, stage.setup()).ok()?;
        for heard in stage.heard() {
            let busy = stage.busy_from() <= standing.turn;
            standing = standing.behind(*heard, stage.file(), stage.releases(), busy)?;
        }
        Some(standing)
    }

    /// The end behind a turn in which it hears this, whatever it gets and sends then.
    pub(super) fn behind(
        self,
        heard: Slot,
        file: &[u8],
        release: bool,
        busy: bool,
    ) -> Option<Standing> {
        let mut got = Info::new();
        let mut sent = Sent::Mark;
        self.turn(
            &heard.arrived(b'h'),
            file,
            release,
            busy,
            &mut got,
            &mut sent,
        )
    }

    /// Hears, takes what is delivered and given, is offered its file where it wants that, and speaks.
    pub(super) fn turn(
        self,
        arrived: &Arrived,
        file: &[u8],
        release: bool,
        busy: bool,
        got: &mut Info,
        sent: &mut Sent,
    ) -> Option<Standing>
        requires { IsNumbered arrived.now }
    {
        let Standing { end, turn } = self;
        let Ok(mut end) = hear(end, turn, arrived) else {
            return None;
        };
        take(&mut end, got)?;
        serve(&mut end, file, busy);
        let Ok(end) = speak(end, turn, release, sent) else {
            return None;
        };
        if turn >= LATEST {
            return None;
        }
        Some(Standing {
            end,
            turn: turn + 1,
        })
    }

    /// How the link breaks by what the end hears in this turn.
    pub(super) fn broken_by(self, heard: Slot) -> Option<Broken> {
        hear(self.end, self.turn, &heard.arrived(b'h')).err()
    }

    /// What the end does in this turn.
    pub(super) fn react(self, heard: Slot, busy: bool) -> Observed {
        let Standing { end, turn } = self;
        let mut end = match hear(end, turn, &heard.arrived(b'h')) {
            Ok(end) => end,
            Err(broken) => return Observed::Broke(broken.fault),
        };
        end.set_busy(busy);
        let mut sent = Sent::Mark;
        match speak(end, turn, false, &mut sent) {
            Ok(end) => Observed::Sent(end.phase(), sent),
            Err(broken) => Observed::Broke(broken.fault),
        }
    }
}
