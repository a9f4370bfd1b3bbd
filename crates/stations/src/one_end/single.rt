// Turns of one end against a peer's bits.
ghost use Rattle.std.specs.Prelude.{◌≡◌, ℕ, ◌+◌, ◌<◌, ◌≤◌, ◌^◌, [], ◌∷◌, true, false, List, length, Err, IfOk, IfErr, OnOk, OnErr};
ghost use Rattle.std.specs.List.{concat};
ghost use Rattle.outside_calls.specs.Folder.{OnlyReads, OnlyWrites, Adds, Appended, PartlyAppended};
ghost use Rattle.outside_calls.specs.Outputs.{AreApartFrom, OnlyPuts};
ghost use Rattle.lapm_frames.specs.declared.arrived.Arrived.{Arrived};
ghost use Rattle.lapm_link.specs.Fits.{IsSetUp};
ghost use Rattle.link_account.specs.Account.{Account, fresh, given_break};
ghost use Rattle.link_run.specs.End.{deliveries, is_closed};
ghost use Rattle.link_run.specs.Alone.{hangs_up};
ghost use Rattle.line_texts.specs.LineText.{trace_line};
ghost use Rattle.stations.specs.Station.{IsIdle, IsCounted};
ghost use Rattle.stations.specs.declared.one_end.limits.TheConstants.{SLOT_OCTETS};
ghost use Rattle.stations.specs.OneEnd.Peer.{Past, Closed, heard_as, setup_of};

use crate::fault::folder_fault;
use crate::one_end::ear::hear_slot;
use crate::one_end::limits::SLOT_OCTETS;
use crate::one_end::line::{TurnWords, peer_line};
use crate::one_end::step::{SingleFault, SingleStep};
use crate::{Station, append_line};
use detection::Ear;
use lapm_frames::{Arrived, Sent};
use lapm_link::{Phase, Setup};
use link_run::laws::{one_lone_run, the_file_of_one_counts_as_far_as_it_was_read};
use outside_calls::Folder;
use shared_terms::{FILE_LIMIT, LinkFault, NoMemory, Role};
use std::alloc::Global;
use xid_params::default_offer;

/// One end of the link with its user, who hears recorded bits of any peer.
pub struct Single {
    /// Which end it is.
    role: Role,
    /// The end, its file and its breaks.
    station: Station,
    /// Hears the peer.
    ear: Ear,
    /// How many turns were made.
    turn: u64,
}

impl Drop for Single {
    // for the prover: so it is dropped by a call, and its fields are not dropped anew wherever one is.
    fn drop(self) {
        let Single {
            role: _,
            station: _,
            ear: _,
            turn: _,
        } = self;
    }
}

/// An end that breaks as it hears: what it heard, and why.
#[derive(Drop)]
pub(crate) struct HeardBreak {
    /// What the end heard in that turn.
    pub arrived: Arrived,
    /// Why it breaks.
    pub fault: LinkFault,
}

/// How an end of this role is set up.
fn setup(role: Role) -> Setup
    ensures value { result ≡ setup_of role }
    ensures set_up { IsSetUp result }
{
    Setup {
        role,
        offer: default_offer(),
        tries: 5,
        period: 20,
    }
}

/// Whether an end in that phase is closed.
fn is_closed(phase: Phase) -> bool
    ensures { result ≡ is_closed phase }
{
    match phase {
        Phase::Closed => true,
        _ => false,
    }
}

impl Single {
    ghost use Rattle.stations.specs.declared.one_end.single.Single.{Single};
    ghost use Rattle.stations.specs.OneEnd.Single.{IsReady, SingleAfter, file_limit, inputs_of, named, outputs_of, role_of, turn_of};
    ghost use Rattle.stations.specs.OneEnd.Turn.{Counts, TurnAnswers, turns_made};
    ghost use Rattle.stations.specs.OneEnd.Mid.{AddsLine, AddsPart, BreaksOff, EndsLine, HearsTurn, InTurn, IsReading, IsWriting};
    ghost use Rattle.stations.specs.OneEnd.Mid.{Serves, SpeaksTurn, handed, served_with};

    /// A single end before its first turn. It takes all memory that its turns need.
    pub fn new(alloc: Global, role: Role) -> Result<Single, NoMemory>
        ensures role { IfOk result (λ s. role_of s ≡ role) }
        ensures turn { IfOk result (λ s. turn_of s ≡ 0) }
        ensures ready { IfOk result IsReady }
        ensures single { IfOk result
            (λ s. (file : List ℕ) → SingleAfter s (record { file = file; slots = []; turns = []; account = fresh (setup_of role) })) }
    {
        Ok(Single {
            role,
            station: Station::new(alloc, setup(role))?,
            ear: Ear::new(),
            turn: 0,
        })
    }

    /// How many turns were made.
    pub fn turn_number(&self) -> u64
        ensures { result ≡ turn_of self.now }
    {
        self.turn
    }

    /// The end hears what is heard in a slot.
    fn hear(&mut self, slot: &[u8]) -> Result<Arrived, HeardBreak>
        requires ready { IsReady self.old }
        requires early { self.old.turn < 2 ^ 40 }
        requires short { length slot.now ≤ SLOT_OCTETS }
        ensures hears { (p : Past) → SingleAfter self.old p → HearsTurn self.new p slot.now result }
        ensures counted { OnOk result (IsCounted self.new.station (self.old.turn + 1) self.old.turn) }
        ensures turn { self.new.turn ≡ self.old.turn }
        ensures role { self.new.role ≡ self.old.role }
    {
        let arrived = hear_slot(&mut self.ear, slot, self.role.other());
        match self.station.hear(self.turn, &arrived) {
            Ok(()) => Ok(arrived),
            Err(fault) => Err(HeardBreak { arrived, fault }),
        }
    }

    /// What the end took is handed over: octets to the user's output, and to the user the length of a break that came.
    fn hand_over<F: Folder>(&mut self, folder: &mut F, got: &str) -> Result<Option<u8>, SingleFault>
        ensures stands { IfOk result
            (λ given. (p : Past) (slot : List ℕ) (arrived : Arrived) (mid : Account) → InTurn self.old p slot arrived mid mid
            → InTurn self.new p slot arrived mid (handed mid)) }
        ensures given { IfOk result
            (λ given. (p : Past) (slot : List ℕ) (arrived : Arrived) (mid : Account) → InTurn self.old p slot arrived mid mid
            → given ≡ given_break mid) }
        ensures adds { OnOk result ((p : Past) (slot : List ℕ) (arrived : Arrived) (mid : Account) → InTurn self.old p slot arrived mid mid
            → Adds (F.state folder.old) (F.state folder.new) got.now (concat (deliveries mid))) }
        ensures part { OnErr result ((p : Past) (slot : List ℕ) (arrived : Arrived) (mid : Account) → InTurn self.old p slot arrived mid mid
            → PartlyAppended (F.state folder.old) (F.state folder.new) got.now (concat (deliveries mid))) }
        ensures idle { OnOk result (IsIdle self.new.station) }
        ensures counted { OnOk result
            ((heard asked : ℕ) → IsCounted self.old.station heard asked → IsCounted self.new.station heard asked) }
        ensures turn { self.new.turn ≡ self.old.turn }
        ensures role { self.new.role ≡ self.old.role }
        ensures only { OnlyWrites (F.state folder.old) (F.state folder.new) got.now }
        ensures counts { Counts (F.state folder.old) (F.state folder.new) [] (got.now ∷ []) result }
        ensures write { IfErr result IsWriting }
        ensures came { F.came folder.old folder.new }
    {
        match self.station.deliver(folder, got) {
            Ok(()) => Ok(self.station.given_break()),
            Err(fault) => Err(folder_fault(SingleFault::WriteFault, SingleFault::NoMemory, fault)),
        }
    }

    /// Whether the end is a closed originator, which has nothing left to do.
    fn hangs_up(&self) -> bool
        ensures { (p : Past) (slot : List ℕ) (arrived : Arrived) (mid : Account) → InTurn self.now p slot arrived mid (handed mid)
            → result ≡ hangs_up mid }
    {
        the_file_of_one_counts_as_far_as_it_was_read();
        match self.role {
            Role::Originator => is_closed(self.station.phase()),
            Role::Answerer => false,
        }
    }

    /// The end is offered what it wants of its user's file, and told that its user is not busy: it is then to speak.
    fn serve<F: Folder>(&mut self, folder: &mut F, file: &str) -> Result<(), SingleFault>
        requires stands { (p : Past) × (slot : List ℕ) × (arrived : Arrived) × (mid : Account) × InTurn self.old p slot arrived mid
            (handed mid) × (length p.file ≤ file_limit) }
        ensures serves { OnOk result
            ((p : Past) (slot : List ℕ) (arrived : Arrived) (mid : Account) → InTurn self.old p slot arrived mid (handed mid)
            → length p.file ≤ file_limit → Serves self.new (F.state folder.old) file.now p slot arrived mid) }
        ensures idle { OnOk result (IsIdle self.old.station → IsIdle self.new.station) }
        ensures counted { OnOk result
            ((heard asked : ℕ) → IsCounted self.old.station heard asked → IsCounted self.new.station heard asked) }
        ensures turn { self.new.turn ≡ self.old.turn }
        ensures role { self.new.role ≡ self.old.role }
        ensures only { OnlyReads (F.state folder.old) (F.state folder.new) }
        ensures counts { Counts (F.state folder.old) (F.state folder.new) (file.now ∷ []) [] result }
        ensures read { IfErr result IsReading }
        ensures came { F.came folder.old folder.new }
    {
        the_file_of_one_counts_as_far_as_it_was_read();
        match self.station.supply(folder, file, FILE_LIMIT) {
            Ok(()) => {}
            Err(fault) => return Err(folder_fault(
                SingleFault::ReadFault,
                SingleFault::NoMemory,
                fault,
            )),
        }
        self.station.set_busy(false);
        Ok(())
    }

    /// Appends the line of this turn to the trace.
    fn write<F: Folder>(
        &self,
        folder: &mut F,
        trace: &str,
        words: TurnWords,
    ) -> Result<(), SingleFault>
        ensures ok { OnOk result
            (Appended (F.state folder.old) (F.state folder.new) trace.now
            (trace_line self.now.turn self.now.role (heard_as words.arrived) words.sent words.given)) }
        ensures err { OnErr result
            (PartlyAppended (F.state folder.old) (F.state folder.new) trace.now
            (trace_line self.now.turn self.now.role (heard_as words.arrived) words.sent words.given)) }
        ensures only { OnlyWrites (F.state folder.old) (F.state folder.new) trace.now }
        ensures counts { Counts (F.state folder.old) (F.state folder.new) [] (trace.now ∷ []) result }
        ensures write { IfErr result IsWriting }
        ensures came { F.came folder.old folder.new }
    {
        let line = peer_line(self.turn, self.role, words);
        match append_line(folder, trace, &line) {
            Ok(()) => Ok(()),
            Err(fault) => Err(folder_fault(SingleFault::WriteFault, SingleFault::NoMemory, fault)),
        }
    }

    /// The end broke as it heard: nothing is sent, and the turn's line goes out.
    fn break_off<F: Folder>(&self, folder: &mut F, trace: &str, breaking: HeardBreak) -> SingleFault
        ensures ends { (p : Past) (slot : List ℕ) → BreaksOff self.now p slot breaking.arrived breaking.fault
            → EndsLine self.now (F.state folder.old) (F.state folder.new) trace.now p slot [] result }
        ensures only { OnlyWrites (F.state folder.old) (F.state folder.new) trace.now }
        ensures counts { Counts {T = Unit {0}} (F.state folder.old) (F.state folder.new) [] (trace.now ∷ []) (Err result) }
        ensures came { F.came folder.old folder.new }
    {
        let words = TurnWords {
            arrived: breaking.arrived,
            sent: None,
            given: None,
        };
        match self.write(folder, trace, words) {
            Ok(()) => SingleFault::Link(breaking.fault),
            Err(fault) => fault,
        }
    }

    /// The originator is closed: nothing is sent in this last turn, and its line goes out.
    fn finish<F: Folder>(
        &self,
        folder: &mut F,
        trace: &str,
        arrived: Arrived,
        given: Option<u8>,
    ) -> Result<(), SingleFault>
        ensures adds { OnOk result
            ((p : Past) (slot : List ℕ) (mid : Account) → InTurn self.now p slot arrived mid (handed mid) → hangs_up mid ≡ true
            → given ≡ given_break mid
            → AddsLine self.now (F.state folder.old) (F.state folder.new) trace.now p slot (concat (deliveries mid)) Closed) }
        ensures part { OnErr result
            ((p : Past) (slot : List ℕ) (mid : Account) → InTurn self.now p slot arrived mid (handed mid) → hangs_up mid ≡ true
            → given ≡ given_break mid
            → AddsPart self.now (F.state folder.old) (F.state folder.new) trace.now p slot (concat (deliveries mid))) }
        ensures only { OnlyWrites (F.state folder.old) (F.state folder.new) trace.now }
        ensures counts { Counts (F.state folder.old) (F.state folder.new) [] (trace.now ∷ []) result }
        ensures write { IfErr result IsWriting }
        ensures came { F.came folder.old folder.new }
    {
        let words = TurnWords {
            arrived,
            sent: None,
            given,
        };
        match self.write(folder, trace, words) {
            Ok(()) => Ok(()),
            Err(fault) => Err(fault),
        }
    }

    /// The end speaks, and the turn's line goes out. An originator that needs the link no more takes it down. Where the end breaks nothing
    /// is sent.
    fn speak<F: Folder>(
        &mut self,
        folder: &mut F,
        trace: &str,
        arrived: Arrived,
        given: Option<u8>,
    ) -> Result<(), SingleFault>
        requires early { self.old.turn < 2 ^ 40 }
        ensures speaks { (p : Past) (slot : List ℕ) (mid : Account) → InTurn self.old p slot arrived mid (served_with p.file mid)
            → hangs_up mid ≡ false → given ≡ given_break mid
            → SpeaksTurn self.new (F.state folder.old) (F.state folder.new) trace.now p slot (concat (deliveries mid)) result }
        ensures idle { OnOk result (IsIdle self.old.station → IsIdle self.new.station) }
        ensures counted { OnOk result
            ((heard asked : ℕ) → IsCounted self.old.station heard asked → IsCounted self.new.station heard asked) }
        ensures turn { OnOk result (self.new.turn ≡ self.old.turn + 1) }
        ensures halts { OnErr result (self.new.turn ≡ self.old.turn) }
        ensures role { self.new.role ≡ self.old.role }
        ensures only { OnlyWrites (F.state folder.old) (F.state folder.new) trace.now }
        ensures counts { Counts (F.state folder.old) (F.state folder.new) [] (trace.now ∷ []) result }
        ensures came { F.came folder.old folder.new }
    {
        let release = self.station.is_finished(self.turn, None);
        let mut sent = Sent::Flags;
        match self.station.speak(self.turn, release, &mut sent) {
            Ok(()) => {
                let words = TurnWords {
                    arrived,
                    sent: Some(sent),
                    given,
                };
                match self.write(folder, trace, words) {
                    Ok(()) => {
                        self.turn += 1;
                        Ok(())
                    }
                    Err(fault) => Err(fault),
                }
            }
            Err(fault) => {
                let words = TurnWords {
                    arrived,
                    sent: None,
                    given,
                };
                match self.write(folder, trace, words) {
                    Ok(()) => Err(SingleFault::Link(fault)),
                    Err(failed) => Err(failed),
                }
            }
        }
    }

    /// One turn, against the octets of a slot's bits: the end hears what is heard in it, what it took is written to `got`, it is offered
    /// what it wants of `file`, it speaks, and the turn's line is written to `trace`. A slot of fewer octets is filled with ones, and the
    /// file ends at [`FILE_LIMIT`] octets. The names of all turns are the same.
    pub fn turn<F: Folder>(
        &mut self,
        folder: &mut F,
        file: &str,
        got: &str,
        trace: &str,
        bits: &[u8],
    ) -> Result<SingleStep, SingleFault>
        requires ready { IsReady self.old }
        requires few { turn_of self.old < 2 ^ 40 }
        requires short { length bits.now ≤ SLOT_OCTETS }
        requires apart { AreApartFrom (inputs_of (named file.now got.now trace.now)) (outputs_of (named file.now got.now trace.now)) }

        // A turn is one of the run that the file and the slots make, and adds to each output what that turn gives.
        ensures turn { (p : Past) → SingleAfter self.old p → length p.file ≤ file_limit
            → TurnAnswers self.new (F.state folder.old) (F.state folder.new) (named file.now got.now trace.now) p bits.now result }
        ensures role { role_of self.new ≡ role_of self.old }
        ensures ready { result ≡ Ok SingleStep.Going → IsReady self.new }
        ensures number { turn_of self.new ≡ turns_made (turn_of self.old) result }

        // It touches the outputs alone, and a fault has its cause.
        ensures only { OnlyPuts (F.state folder.old) (F.state folder.new) (outputs_of (named file.now got.now trace.now)) }
        ensures counts { Counts (F.state folder.old) (F.state folder.new) (inputs_of (named file.now got.now trace.now))
            (outputs_of (named file.now got.now trace.now)) result }
        ensures came { F.came folder.old folder.new }
    {
        one_lone_run();
        let arrived = match self.hear(bits) {
            Ok(arrived) => arrived,
            Err(breaking) => return Err(self.break_off(folder, trace, breaking)),
        };
        let given = match self.hand_over(folder, got) {
            Ok(given) => given,
            Err(fault) => return Err(fault),
        };
        if self.hangs_up() {
            return match self.finish(folder, trace, arrived, given) {
                Ok(()) => Ok(SingleStep::Closed),
                Err(fault) => Err(fault),
            };
        }
        match self.serve(folder, file) {
            Ok(()) => {}
            Err(fault) => return Err(fault),
        }
        match self.speak(folder, trace, arrived, given) {
            Ok(()) => Ok(SingleStep::Going),
            Err(fault) => Err(fault),
        }
    }
}
