// Turns of a tap.
ghost use Rattle.std.specs.Prelude.{◌≡◌, ℕ, ◌+◌, ◌*◌, ◌<◌, ◌≤◌, ◌^◌, List, [], ◌∷◌, ◌++◌, length, take, vec_len, Option, Some, None, true, false, IfOk, OnOk, OnErr, IfErr};
ghost use Rattle.outside_calls.specs.Folder.{FolderState, Appended, PartlyAppended, OnlyReads, OnlyWrites, CountsStand};
ghost use Rattle.link_run.specs.Trace.{turn_text};
ghost use Rattle.outside_calls.specs.Outputs.{AddEach, AddPart, AreApartFrom, OnlyPuts};
ghost use Rattle.command_base.specs.Stops.{EndCounts, StopCounts, ReadFails, WriteFails};
ghost use Rattle.line_texts.specs.LineText.{chance_line};
ghost use Rattle.link_run.specs.Run.{Turn};
ghost use Rattle.link_run.specs.Listened.{given_to};
ghost use Rattle.line_run.specs.Sampled as line_ends;
ghost use Rattle.noise_script.specs.Script.{IsInLimits};
ghost use Rattle.shared_terms.specs.Both.{Both as BothValue};
ghost use Rattle.line_tap.specs.Tapping.{Tapping, Tells, tapping};
ghost use Rattle.line_tap.specs.Ends.{EndsLine};
ghost use Rattle.line_tap.specs.Names.{named, inputs_of, outputs_of, recordings_of};
ghost use Rattle.line_tap.specs.EndListener.{IsIdle, HasTaken};
ghost use Rattle.line_tap.specs.Turn.{no_octets};

use crate::end::TappedEnd;
use crate::limits::{DLCI, TAP_LIMIT};
use crate::names::TapWords;
use crate::pieces::read_pieces;
use crate::step::TapStep;
use command_base::{Status, Stop};
use lapm_frames::{Heard, Sent};
use lapm_receiver::laws::keeps_taken;
use line_run::direction::{codable_slots_fit, slots_that_fit_follow_one_another};
use line_run::laws::{scripts_make_links, slots_are_due_alone, slots_have_room};
use line_world::{Directions, LineEnd, slot_symbols};
use noise_script::Script;
use outside_calls::{Folder, FolderFault};
use recordings::HEADER;
use sample_line::LabelSlot;
use shared_terms::{Both, NoMemory, Role};
use stations::{append_chance, append_turn};
use std::alloc::Global;
use xid_params::agree;

/// What both ends hear in a turn, and the lengths of the breaks that their users are given by it, in units of 10 ms.
#[derive(Drop)]
pub struct Hearing {
    /// What arrives.
    pub heard: Both<Heard>,
    /// The breaks.
    pub given: Both<Option<u8>>,
}

/// Nothing was read of either recording.
fn are_none(counts: &Both<usize>) -> bool
    ensures orig { result ≡ true → counts.now.orig ≡ 0 }
    ensures answ { result ≡ true → counts.now.answ ≡ 0 }
    ensures some { result ≡ false → counts.now.orig ≡ 0 → counts.now.answ ≡ 0 → ⊥ }
{
    counts.orig == 0 && counts.answ == 0
}

/// Two recordings of a line, read beside its script.
pub struct Tap {
    /// What the line does.
    script: Script,
    /// Both directions of the line.
    lines: Directions,
    /// The originator.
    orig: TappedEnd,
    /// The answerer.
    answ: TappedEnd,
    /// The place in both recordings up to which they were read.
    at: u64,
    /// How many turns were made.
    turn: u64,
}

impl Drop for Tap {
    // for the prover: so it is dropped by a call, and its fields are not dropped anew wherever one is.
    fn drop(self) {
        let Tap {
            script: _,
            lines: _,
            orig: _,
            answ: _,
            at: _,
            turn: _,
        } = self;
    }
}

impl Tap {
    ghost use Rattle.line_tap.specs.declared.tapping.Tap.{Tap};
    ghost use Rattle.line_tap.specs.Tap.{IsReady, IsBehind, TapAfter, HasHeard, InTurn, HearsTurn, LooksAt, AreReadTo, HasReadPieces, TurnAnswers, TurnStops, HearsSo, IsToGo, slots_as, going_in, got_pieces, read_of, silent_in};

    /// A tap before the first turn: both recordings are read up to behind their headers. It takes all its memory.
    pub fn new(alloc: Global, script: Script) -> Result<Tap, NoMemory>
        ensures script { IfOk result (λ tap. tap.script ≡ script) }
        ensures ready { IfOk result IsReady }
        ensures first { IfOk result (λ tap. TapAfter tap (tapping script no_octets) []) }
    {
        scripts_make_links();
        slots_have_room();
        script.is_in_limits();
        let terms = agree(
            &script.offer(Role::Originator),
            &script.offer(Role::Answerer),
        );
        let symbols = slot_symbols(&script);
        let lines = Directions::new(alloc, &script, 1)?;
        let orig = TappedEnd::new(alloc, Role::Originator, &terms, symbols)?;
        let answ = TappedEnd::new(alloc, Role::Answerer, &terms, symbols)?;
        Ok(Tap {
            script,
            lines,
            orig,
            answ,
            at: HEADER as u64,
            turn: 0,
        })
    }

    /// Both ends hear what arrives, or the line ends the reading.
    fn hear(&mut self) -> Result<Hearing, LineEnd>
        requires { IsReady self.old }
        ensures hears { (x : Tapping) (ts : List Turn) → TapAfter self.old x ts → HearsTurn self.new x ts result }
        ensures orig { OnOk result (HasTaken self.new.orig.listener (self.old.turn + 1)) }
        ensures answ { OnOk result (HasTaken self.new.answ.listener (self.old.turn + 1)) }
        ensures turn { self.new.turn ≡ self.old.turn }
        ensures at { self.new.at ≡ self.old.at }
        ensures script { self.new.script ≡ self.old.script }
    {
        scripts_make_links();
        slots_are_due_alone();
        let checks = Both {
            orig: self.orig.listener.check(),
            answ: self.answ.listener.check(),
        };
        match self.lines.arrive(&self.script, self.turn, &checks, DLCI) {
            Ok(heard) => {
                let given = Both {
                    orig: self.orig.listener.hear(&heard.orig),
                    answ: self.answ.listener.hear(&heard.answ),
                };
                Ok(Hearing { heard, given })
            }
            Err(end) => Err(end),
        }
    }

    /// What both ends took is appended to the received files, the originator's first.
    fn deliver<F: Folder>(
        &mut self,
        folder: &mut F,
        names: &TapWords<'_>,
    ) -> Result<(), FolderFault>
        requires { AreApartFrom (inputs_of (named names.now)) (outputs_of (named names.now)) }
        ensures stands { OnOk result ((x : Tapping) (ts : List Turn) (heard : BothValue Heard) → HasHeard self.old x ts heard → InTurn self.new x ts heard) }
        ensures ok { OnOk result ((x : Tapping) (ts : List Turn) (heard : BothValue Heard) → HasHeard self.old x ts heard
            → AddEach (F.state folder.old) (F.state folder.new) (outputs_of (named names.now)) (got_pieces x ts heard)) }
        ensures err { OnErr result ((x : Tapping) (ts : List Turn) (heard : BothValue Heard) → HasHeard self.old x ts heard
            → AddPart (F.state folder.old) (F.state folder.new) (outputs_of (named names.now)) (got_pieces x ts heard)) }
        ensures orig { OnOk result ((turns : ℕ) → HasTaken self.old.orig.listener turns → IsIdle self.new.orig.listener turns) }
        ensures answ { OnOk result ((turns : ℕ) → HasTaken self.old.answ.listener turns → IsIdle self.new.answ.listener turns) }
        ensures turn { self.new.turn ≡ self.old.turn }
        ensures at { self.new.at ≡ self.old.at }
        ensures script { self.new.script ≡ self.old.script }
        ensures only { OnlyPuts (F.state folder.old) (F.state folder.new) (outputs_of (named names.now)) }
        ensures stand { OnOk result (CountsStand (F.state folder.old) (F.state folder.new)) }
        ensures fails { IfErr result (WriteFails (F.state folder.old) (F.state folder.new) (outputs_of (named names.now))) }
    {
        match self.orig.listener.deliver(folder, names.got_o) {
            Ok(()) => {}
            Err(fault) => return Err(fault),
        }
        match self.answ.listener.deliver(folder, names.got_a) {
            Ok(()) => Ok(()),
            Err(fault) => Err(fault),
        }
    }

    /// Both pieces are read, the originator's first: how many octets each is.
    fn read<F: Folder>(
        &mut self,
        folder: &mut F,
        names: &TapWords<'_>,
    ) -> Result<Both<usize>, FolderFault>
        requires { self.old.at ≤ TAP_LIMIT }
        ensures pieces { (start : FolderState) (x : Tapping) (ts : List Turn) (heard : BothValue Heard) → InTurn self.old x ts heard
            → AreReadTo start (F.state folder.old) (named names.now) x.bodies
            → IfOk result (λ counts. HasReadPieces self.new start (F.state folder.new) (named names.now) x ts heard counts) }
        ensures stands { (x : Tapping) (ts : List Turn) (heard : BothValue Heard) → InTurn self.old x ts heard → InTurn self.new x ts heard }
        ensures orig_few { IfOk result (λ counts. counts.orig ≤ length self.new.orig.piece.items) }
        ensures answ_few { IfOk result (λ counts. counts.answ ≤ length self.new.answ.piece.items) }
        ensures within { IfOk result (λ counts. self.old.at + counts.orig ≤ TAP_LIMIT) }
        ensures orig { self.new.orig.listener ≡ self.old.orig.listener }
        ensures answ { self.new.answ.listener ≡ self.old.answ.listener }
        ensures turn { self.new.turn ≡ self.old.turn }
        ensures at { self.new.at ≡ self.old.at }
        ensures script { self.new.script ≡ self.old.script }
        ensures reads { OnlyReads (F.state folder.old) (F.state folder.new) }
        ensures stand { OnOk result (CountsStand (F.state folder.old) (F.state folder.new)) }
        ensures fails { IfErr result (ReadFails (F.state folder.old) (F.state folder.new) (recordings_of (named names.now))) }
    {
        match read_pieces(
            folder,
            names,
            self.at,
            &mut self.orig.piece,
            &mut self.answ.piece,
        ) {
            Ok(counts) => Ok(counts),
            Err(fault) => Err(fault),
        }
    }

    /// What is sent in both slots of the turn, of which so many octets were read, and their labels, the originator's first; or the first role whose
    /// slot is refused.
    fn look(
        &mut self,
        counts: &Both<usize>,
        labels: &mut Both<LabelSlot>,
    ) -> Result<Both<Sent>, Role>
        requires limits { IsInLimits self.old.script }
        requires orig { counts.now.orig ≤ length self.old.orig.piece.items }
        requires answ { counts.now.answ ≤ length self.old.answ.piece.items }
        requires stands { (x : Tapping) × (ts : List Turn) × (heard : BothValue Heard) × InTurn self.old x ts heard }
        ensures looks { (x : Tapping) (ts : List Turn) (heard : BothValue Heard) → InTurn self.old x ts heard
            → LooksAt self.new (tapping x.script (read_of self.old x counts.now)) ts labels.new result }
        ensures orig { self.new.orig.listener ≡ self.old.orig.listener }
        ensures answ { self.new.answ.listener ≡ self.old.answ.listener }
        ensures orig_piece { self.new.orig.piece ≡ self.old.orig.piece }
        ensures answ_piece { self.new.answ.piece ≡ self.old.answ.piece }
        ensures turn { self.new.turn ≡ self.old.turn }
        ensures at { self.new.at ≡ self.old.at }
        ensures script { self.new.script ≡ self.old.script }
    {
        codable_slots_fit();
        slots_that_fit_follow_one_another();
        let orig = match self.orig.read(counts.orig, &mut labels.orig) {
            Some(sent) => sent,
            None => return Err(Role::Originator),
        };
        match self.answ.read(counts.answ, &mut labels.answ) {
            Some(answ) => Ok(Both { orig, answ }),
            None => Err(Role::Answerer),
        }
    }

    /// Both recordings end here: nothing is sent in this last turn, and its lines go out.
    fn finish<F: Folder>(
        &self,
        folder: &mut F,
        names: &TapWords<'_>,
        hearing: &Hearing,
    ) -> Result<(), FolderFault>
        ensures ok { OnOk result ((x : Tapping) (ts : List Turn) → self.now.turn ≡ length ts → HearsSo x ts hearing.now
            → Appended (F.state folder.old) (F.state folder.new) (named names.now).trace (turn_text (length ts) (silent_in x ts hearing.now.heard))) }
        ensures err { OnErr result ((x : Tapping) (ts : List Turn) → self.now.turn ≡ length ts → HearsSo x ts hearing.now
            → PartlyAppended (F.state folder.old) (F.state folder.new) (named names.now).trace (turn_text (length ts) (silent_in x ts hearing.now.heard))) }
        ensures only { OnlyWrites (F.state folder.old) (F.state folder.new) (named names.now).trace }
        ensures stand { OnOk result (CountsStand (F.state folder.old) (F.state folder.new)) }
        ensures fails { IfErr result (WriteFails (F.state folder.old) (F.state folder.new) (outputs_of (named names.now))) }
    {
        match append_turn(
            folder,
            names.trace,
            self.turn,
            &hearing.heard,
            &hearing.given,
            None,
        ) {
            Ok(()) => Ok(()),
            Err(fault) => Err(fault),
        }
    }

    /// Both slots were read: the lines of the turn go out, and the slots go on the line.
    fn go_on<F: Folder>(
        &mut self,
        folder: &mut F,
        names: &TapWords<'_>,
        hearing: &Hearing,
        sent: Both<Sent>,
        labels: Both<LabelSlot>,
    ) -> Result<(), FolderFault>
        requires early { self.old.turn < 2 ^ 40 }
        requires within { self.old.at ≤ TAP_LIMIT }
        requires stands { (x : Tapping) × (ts : List Turn) × IsToGo self.old x ts hearing.now (slots_as sent labels) }
        ensures ok { OnOk result ((x : Tapping) (ts : List Turn) → IsToGo self.old x ts hearing.now (slots_as sent labels)
            → TapAfter self.new x (going_in x ts hearing.now.heard (slots_as sent labels) ∷ ts)
            × Appended (F.state folder.old) (F.state folder.new) (named names.now).trace (turn_text (length ts) (going_in x ts hearing.now.heard (slots_as sent labels)))) }
        ensures err { OnErr result ((x : Tapping) (ts : List Turn) → IsToGo self.old x ts hearing.now (slots_as sent labels)
            → PartlyAppended (F.state folder.old) (F.state folder.new) (named names.now).trace (turn_text (length ts) (going_in x ts hearing.now.heard (slots_as sent labels)))) }
        ensures orig { self.new.orig.listener ≡ self.old.orig.listener }
        ensures answ { self.new.answ.listener ≡ self.old.answ.listener }
        ensures turn { OnOk result (self.new.turn ≡ self.old.turn + 1) }
        ensures at { OnOk result (self.new.at ≡ self.old.at + length self.old.orig.piece.items) }
        ensures script { self.new.script ≡ self.old.script }
        ensures only { OnlyWrites (F.state folder.old) (F.state folder.new) (named names.now).trace }
        ensures stand { OnOk result (CountsStand (F.state folder.old) (F.state folder.new)) }
        ensures fails { IfErr result (WriteFails (F.state folder.old) (F.state folder.new) (outputs_of (named names.now))) }
    {
        codable_slots_fit();
        match append_turn(
            folder,
            names.trace,
            self.turn,
            &hearing.heard,
            &hearing.given,
            Some(&sent),
        ) {
            Ok(()) => {}
            Err(fault) => return Err(fault),
        }
        self.lines.from_orig.put(sent.orig, labels.orig);
        self.lines.from_answ.put(sent.answ, labels.answ);
        self.turn += 1;
        self.at += self.orig.piece.len() as u64;
        Ok(())
    }

    /// A slot that arrives is a chance match: its one line goes out.
    fn meet_chance<F: Folder>(&self, folder: &mut F, names: &TapWords<'_>, role: Role) -> Stop
        requires { AreApartFrom (inputs_of (named names.now)) (outputs_of (named names.now)) }
        ensures meets { (start : FolderState) (x : Tapping) (ts : List Turn) → self.now.turn ≡ length ts → Tells x ts
            → EndsLine x ts (line_ends.ChanceMatch role) → AreReadTo start (F.state folder.old) (named names.now) x.bodies
            → TurnStops start (F.state folder.old) (F.state folder.new) (named names.now) x ts result }
        ensures only { OnlyPuts (F.state folder.old) (F.state folder.new) (outputs_of (named names.now)) }
        ensures counts { StopCounts (F.state folder.old) (F.state folder.new) (recordings_of (named names.now)) (outputs_of (named names.now)) result }
    {
        match append_chance(folder, names.trace, self.turn, role) {
            Ok(()) => Stop::Own(Status::ChanceMatch {
                role,
                turn: self.turn,
            }),
            Err(fault) => Stop::Write(fault),
        }
    }

    /// One turn: both ends hear, what they took is written, and both slots of it are read and go on the line. The names of all turns are the same.
    pub fn turn<F: Folder>(&mut self, folder: &mut F, names: &TapWords<'_>) -> Result<TapStep, Stop>
        requires ready { IsReady self.old }
        requires apart { AreApartFrom (inputs_of (named names.now)) (outputs_of (named names.now)) }

        // A turn is one of those that the script and the recordings show, and adds to each output what that turn gives.
        ensures turn { (start : FolderState) (x : Tapping) (ts : List Turn) → TapAfter self.old x ts → AreReadTo start (F.state folder.old) (named names.now) x.bodies
            → TurnAnswers self.new start (F.state folder.old) (F.state folder.new) (named names.now) x ts result }
        ensures script { self.new.script ≡ self.old.script }
        ensures ready { result ≡ Ok TapStep.Going → IsReady self.new }
        ensures nearer { result ≡ Ok TapStep.Going → self.old.at < self.new.at }

        // It touches the outputs alone, and a fault has its cause.
        ensures only { OnlyPuts (F.state folder.old) (F.state folder.new) (outputs_of (named names.now)) }
        ensures counts { EndCounts (F.state folder.old) (F.state folder.new) (recordings_of (named names.now)) (outputs_of (named names.now)) result }
    {
        keeps_taken();
        slots_have_room();
        // Made before the first call: behind one the compiler would clear their room twice.
        let mut labels = Both {
            orig: LabelSlot::new(),
            answ: LabelSlot::new(),
        };
        let hearing = match self.hear() {
            Ok(hearing) => hearing,
            Err(LineEnd::Lost { role, symbol }) => {
                return Err(Stop::Own(Status::LineLost { role, symbol }));
            }
            Err(LineEnd::Chance { role }) => return Err(self.meet_chance(folder, names, role)),
        };
        match self.deliver(folder, names) {
            Ok(()) => {}
            Err(fault) => return Err(Stop::Write(fault)),
        }
        let counts = match self.read(folder, names) {
            Ok(counts) => counts,
            Err(fault) => return Err(Stop::Read(fault)),
        };
        if are_none(&counts) {
            return match self.finish(folder, names, &hearing) {
                Ok(()) => Ok(TapStep::Done {
                    turns: self.turn + 1,
                }),
                Err(fault) => Err(Stop::Write(fault)),
            };
        }
        let sent = match self.look(&counts, &mut labels) {
            Ok(sent) => sent,
            Err(role) => {
                return Err(Stop::Own(Status::BadTap {
                    role,
                    turn: self.turn,
                }));
            }
        };
        match self.go_on(folder, names, &hearing, sent, labels) {
            Ok(()) => Ok(TapStep::Going),
            Err(fault) => Err(Stop::Write(fault)),
        }
    }
}
