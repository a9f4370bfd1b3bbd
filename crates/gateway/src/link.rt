// An end of the link, turn by turn. What its calls ask is kept by the type, or tested.
ghost use Rattle.std.specs.Prelude.{◌≡◌, ◌*◌, ◌≤◌, ◌↔◌, IsTrue, None, MatchResult};
ghost use Rattle.std.specs.Bool.{OnFalse};
ghost use Rattle.std.specs.Option.{MatchOption};
ghost use Rattle.lapm_link.specs.Fits.{IsSetUp};
ghost use Rattle.lapm_link.specs.Stands.{taken_of, undelivered_of, waiting_of};
ghost use Rattle.gateway.specs.TurnStates.{times_heard, most_turns};

use crate::turns::{Carried, Told, arrived_of, told_of};
use frame_check::{Check, Info};
use lapm_link::{AnyEnd, Detecting, LinkFault, Phase, Sent, Setup};
use shared_terms::{NoMemory, Role};
use std::alloc::Global;

/// No end has more turns.
const MOST_TURNS: u64 = 1 << 40;

/// No file has more pieces.
const MOST_PIECES: u64 = 1 << 56;

/// Why an end doesn't hear or speak, or ends its link.
#[derive(Clone, Copy, PartialEq, Eq)]
pub enum LinkStop {
    /// A call is out of turn: an end hears, all that it took is delivered, and it speaks.
    Order,
    /// No end has more turns than 2^40.
    Late,
    /// The link broke.
    Broken(LinkFault),
}

/// What an end answers that is asked for a break.
#[derive(Clone, Copy, PartialEq, Eq)]
pub enum BreakAsked {
    /// The end takes the break, and will signal it to the other one.
    Taken,
    /// The end isn't connected, a break waits for its answer, or the rest after the last one isn't over.
    Refused,
    /// The end has no turn left.
    Late,
}

/// Where an end is in its turns.
#[derive(Clone, Copy)]
pub struct TurnState {
    /// How many turns are over.
    pub turn: u64,
    /// Whether it has heard in this turn.
    pub heard: bool,
    /// Whether all that it took is delivered.
    pub delivered: bool,
}

impl TurnState {
    ghost use Rattle.gateway.specs.TurnStates.{may_hear};

    fn may_hear(self) -> bool
        ensures { result ≡ may_hear self }
    {
        !self.heard && self.delivered
    }
}

/// An end of the link.
#[derive(Drop)]
pub struct Endpoint {
    link: AnyEnd,
    role: Role,
    state: TurnState,
    ghost early: { times_heard state ≤ most_turns },
    ghost counted: { taken_of link ≤ 128 * times_heard state },
    ghost all_delivered: { IsTrue state.delivered → undelivered_of link ≡ 0 },
    ghost given: { waiting_of link ≡ None },
}

/// Whether an end may be set up so.
fn is_set_up(setup: &Setup) -> bool
    ensures { IsTrue result ↔ IsSetUp setup.now }
{
    1 <= setup.offer.tx_len
        && setup.offer.tx_len <= 1024
        && 1 <= setup.offer.rx_len
        && setup.offer.rx_len <= 1024
        && 1 <= setup.offer.tx_window
        && setup.offer.tx_window <= 127
        && 1 <= setup.offer.rx_window
        && setup.offer.rx_window <= 127
        && 1 <= setup.tries
        && setup.tries <= 20
        && 1 <= setup.period
        && setup.period <= 65535
}

impl Endpoint {
    ghost use Rattle.std.specs.Prelude.{Some, if◌then◌else◌};
    ghost use Rattle.link_account.specs.Account.{Account, is_done, check_of};
    ghost use Rattle.lapm_link.specs.Stands.{StandsFor, wanted_of, piece_of};
    ghost use Rattle.gateway.specs.Endpoints.{IsNew, HearsTurn, Delivers, Offers, IsToldBusy, longest_wanted, wanted_length, AnswersBreak, SpeaksTurn};

    /// An end before its first turn; none where it may not be set up so. All memory is taken here.
    pub fn new(alloc: Global, setup: Setup) -> Result<Option<Endpoint>, NoMemory>
        ensures { MatchResult result (λ made. MatchOption made (IsSetUp setup → ⊥) (λ end. IsSetUp setup × IsNew setup end)) (λ _. IsSetUp setup) }
    {
        if !is_set_up(&setup) {
            return Ok(None);
        }
        Ok(Some(Endpoint {
            link: AnyEnd::Detecting(Detecting::new(alloc, setup)?),
            role: setup.role,
            state: TurnState {
                turn: 0,
                heard: false,
                delivered: true,
            },
        }))
    }

    /// It hears what came in this turn: the length of the other end's break in units of 10 ms, where one is given. After a break of the link
    /// it goes on as a closed end.
    pub fn hear(self, carried: &Carried<'_>) -> (Endpoint, Result<Option<u8>, LinkStop>)
        ensures { HearsTurn self carried.now result.0 result.1 }
    {
        if !self.state.may_hear() {
            return (self, Err(LinkStop::Order));
        }
        if self.state.turn >= MOST_TURNS {
            return (self, Err(LinkStop::Late));
        }
        let Endpoint { link, role, state } = self;
        let arrived = arrived_of(carried, link.check(), role.other());
        match link.hear(state.turn, &arrived) {
            Ok(mut link) => {
                let given = link.given_break();
                let state = TurnState {
                    turn: state.turn,
                    heard: true,
                    delivered: false,
                };
                (Endpoint { link, role, state }, Ok(given))
            }
            Err(broken) => {
                let link = AnyEnd::Closed(broken.end);
                let state = TurnState {
                    turn: state.turn,
                    heard: true,
                    delivered: true,
                };
                let stop = LinkStop::Broken(broken.fault);
                (Endpoint { link, role, state }, Err(stop))
            }
        }
    }

    /// Copies the next segment in order, in place of what was there. False where none is left.
    pub fn deliver(&mut self, segment: &mut Info) -> bool
        ensures delivers { Delivers self.old self.new (if result then Some segment.new else None) }
        ensures unchanged { OnFalse result (segment.new ≡ segment.old) }
    {
        let is_delivered = self.link.deliver(segment);
        if !is_delivered {
            self.state.delivered = true;
        }
        is_delivered
    }

    /// The length of the longest piece that it takes next, where it wants one, in octets.
    pub fn wants(&self) -> Option<u16>
        ensures value { result ≡ longest_wanted (wanted_of self.now.link) (piece_of self.now.link) }
        ensures account { (a : Account) → StandsFor self.now.link a → result ≡ wanted_length a }
    {
        match self.link.wants() {
            Some(number) if number < MOST_PIECES => Some(self.link.piece()),
            _ => None,
        }
    }

    /// Takes the next piece of the file. A shorter one ends the file, and an empty one ends it without a segment. False where it wants none,
    /// or none that is so long.
    pub fn offer(&mut self, piece: &[u8]) -> bool
        ensures { Offers self.old self.new piece.now result }
    {
        match self.wants() {
            Some(longest) if piece.len() <= usize::from(longest) => {
                self.link.offer(piece);
                true
            }
            _ => false,
        }
    }

    /// Asks for a break of this length, in units of 10 ms.
    pub fn ask_break(&mut self, length: u8) -> BreakAsked
        ensures { AnswersBreak self.old length self.new result }
    {
        if self.state.turn >= MOST_TURNS {
            return BreakAsked::Late;
        }
        if self.link.ask_break(self.state.turn, length) {
            BreakAsked::Taken
        } else {
            BreakAsked::Refused
        }
    }

    /// Whether its user asks for a pause from now on.
    pub fn set_busy(&mut self, busy: bool)
        ensures { IsToldBusy self.old self.new busy }
    {
        self.link.set_busy(busy);
    }

    /// Whether it is connected, its file has ended, and all of it is acknowledged.
    pub fn is_whole(&self) -> bool
        ensures { (a : Account) → StandsFor self.now.link a → result ≡ is_done a }
    {
        self.link.whole()
    }

    /// The phase that it is in.
    pub fn phase(&self) -> Phase
        ensures { (a : Account) → StandsFor self.now.link a → result ≡ a.phase }
    {
        self.link.phase()
    }

    /// The check of the frames with numbers that it sends and hears now.
    pub fn check(&self) -> Check
        ensures { (a : Account) → StandsFor self.now.link a → result ≡ check_of a }
    {
        self.link.check()
    }

    /// What it transmits in this turn, and the turn ends. `release` tells a connected originator to take the link down. After a break of the link
    /// it goes on as a closed end.
    pub fn speak(self, release: bool) -> (Endpoint, Result<Told, LinkStop>)
        ensures { SpeaksTurn self release result.0 result.1 }
    {
        if !self.state.heard {
            return (self, Err(LinkStop::Order));
        }
        let Endpoint { link, role, state } = self;
        let mut sent = Sent::Mark;
        match link.speak(state.turn, release, &mut sent) {
            Ok(link) => {
                let told = told_of(&sent, link.check(), role);
                let state = TurnState {
                    turn: state.turn + 1,
                    heard: false,
                    delivered: state.delivered,
                };
                (Endpoint { link, role, state }, Ok(told))
            }
            Err(broken) => {
                let link = AnyEnd::Closed(broken.end);
                let state = TurnState {
                    turn: state.turn + 1,
                    heard: false,
                    delivered: true,
                };
                let stop = LinkStop::Broken(broken.fault);
                (Endpoint { link, role, state }, Err(stop))
            }
        }
    }
}
