// A link's turn, over a line that is lent to it.
ghost use Rattle.std.specs.Prelude.{◌≡◌, ℕ, ◌+◌, ◌<◌, ◌^◌, ◌∷◌, [], true, false, List, length, Option, OnOk, OnErr, IfOk, IfErr};
ghost use Rattle.shared_terms.specs.declared.role.Role.{Role};
ghost use Rattle.shared_terms.specs.Both.{Both};
ghost use Rattle.detection.specs.Slots.{Signal};
ghost use Rattle.lapm_frames.specs.declared.heard.Heard.{Heard};
ghost use Rattle.link_run.specs.Run.{Accounts, Turn, start};
ghost use Rattle.link_run.specs.End.{is_closed};
ghost use Rattle.link_run.specs.Outcomes.{Done};
ghost use Rattle.line_run.specs.Sampled.{Wire, EndsLine};
ghost use Rattle.line_run.specs.Sampled as line_ends;
ghost use Rattle.line_run.specs.Scripted.{wire_at, link_of};
ghost use Rattle.line_run.specs.Stream.{Carried};
ghost use Rattle.line_world.specs.Lines.{LinesWait, HaveArrived, AreDue};
ghost use Rattle.line_world.specs.declared.lines.Lines.{Lines};
ghost use Rattle.line_run.specs.Names.{inputs_of, outputs_of, written};
ghost use Rattle.line_world.specs.Link.{AreCounted, AreIdle, AreWithin, LinkStands, octets_of};
ghost use Rattle.outside_calls.specs.Folder.{OnlyReads, OnlyWrites};
ghost use Rattle.outside_calls.specs.Outputs.{AddPart, AreApartFrom, OnlyPuts};
ghost use Rattle.link_account.specs.Account.{check_of, given_break};
ghost use Rattle.noise_script.specs.Script.{IsInLimits};

use crate::step::Step;
use crate::tally::Counts;
use crate::turn_text::{link_fault, write_chance, write_turn};
use crate::{LineEnd, Lines, Link, Names};
use frame_check::Check;
use line_run::RunFault;
use line_run::laws::{
    line_runs_end_soon, samples_are_carried, scripts_make_links, slots_have_room,
};
use link_run::laws::{
    each_turn_is_made, ends_break_for_want_alone, files_count_as_far_as_they_were_read,
    segments_are_counted_by_their_numbers,
};
use noise_script::Script;
use outside_calls::Folder;
use sample_line::Heard;
use shared_terms::{Both, NoMemory, Role};
use stations::folder_fault;
use std::alloc::Global;

/// Two ends of a link with their users, as a turn takes them.
pub struct Modems {
    /// Both ends with their users.
    link: Link,
    /// The channel of their frames.
    dlci: u8,
    /// How many turns were made.
    turn: u64,
    /// What the turns so far show in numbers.
    tally: Counts,
    /// The checks of both ends once they had heard in the last turn.
    heard_by: Both<Check>,
    /// Both sent in the last turn.
    spoke: bool,
}

impl Drop for Modems {
    // for the prover: so it is dropped by a call, and its fields are not dropped anew wherever one is.
    fn drop(self) {
        let Modems {
            link: _,
            dlci: _,
            turn: _,
            tally: _,
            heard_by: _,
            spoke: _,
        } = self;
    }
}

impl Modems {
    ghost use Rattle.line_world.specs.declared.modems.Modems.{Modems};
    ghost use Rattle.line_world.specs.Tally.{IsFew};
    ghost use Rattle.line_world.specs.Modems.{AreKept, AreReady, IsWireOf, ModemsAfter};
    ghost use Rattle.line_world.specs.Mid.{AddsLines, AddsPart, HearsTurn, InTurn, HandsOver, IsToSpeak, SameBeside, Serves, SpeaksTurn, handed};
    ghost use Rattle.line_world.specs.Turn.{EndsBy, FaultCounts, HearsNone, IsReading, IsWriting, TurnAnswers, TurnCounts, goes_on, turns_made};

    /// Both ends of a script's link before their first turn, on this channel. They take all their memory.
    pub fn new(alloc: Global, script: &Script, dlci: u8) -> Result<Modems, NoMemory>
        requires { dlci < 64 }
        ensures kept { IfOk result AreKept }
        ensures channel { IfOk result (λ m. m.dlci ≡ dlci) }
        ensures turn { IfOk result (λ m. m.turn ≡ 0) }
        ensures after { IfOk result (λ m. (c : Wire) (files : Both (List ℕ)) → c.script ≡ script.now → ModemsAfter m c files [] (start (link_of script.now files))) }
    {
        let link = Link::new(alloc, script)?;
        let heard_by = link.checks();
        Ok(Modems {
            link,
            dlci,
            turn: 0,
            tally: Counts::new(),
            heard_by,
            spoke: false,
        })
    }

    /// Both ends hear what arrives, or the line ends the run.
    fn hear(&mut self, lines: &mut Lines, script: &Script) -> Result<Both<Heard>, LineEnd>
        requires ready { AreReady self.old script.now lines.old }
        ensures hears { (c : Wire) (links : ℕ) (streams : Both (List Carried)) (files : Both (List ℕ)) (ts : List Turn) (ends : Accounts)
            → c.script ≡ script.now → c.dlci ≡ self.old.dlci → ModemsAfter self.old c files ts ends → LinesWait lines.old c links streams
            → AreDue c links ts streams
            → HearsTurn self.new lines.new c links streams files ts ends result }
        ensures counted { OnOk result (AreCounted self.new.link (self.old.turn + 1) self.old.turn) }
        ensures few { OnOk result (IsFew self.new.tally (self.old.turn + 1) self.old.turn) }
        ensures turn { self.new.turn ≡ self.old.turn }
        ensures dlci { self.new.dlci ≡ self.old.dlci }
        ensures spoke { self.new.spoke ≡ false }
    {
        samples_are_carried();
        scripts_make_links();
        ends_break_for_want_alone();
        line_runs_end_soon();
        self.spoke = false;
        let checks = self.link.checks();
        let heard = match lines.arrive(script, self.turn, &checks, self.dlci) {
            Ok(heard) => heard,
            Err(end) => return Err(end),
        };
        self.tally.hear(&heard);
        self.link.hear(self.turn, &heard);
        self.heard_by = self.link.checks();
        Ok(heard)
    }

    /// What both ends took is handed over: segments to the received files, and to the users the lengths of the breaks that came.
    fn hand_over<F: Folder>(
        &mut self,
        folder: &mut F,
        names: &Names<'_>,
    ) -> Result<Both<Option<u8>>, RunFault>
        requires apart { AreApartFrom (inputs_of (written names.now)) (outputs_of (written names.now)) }
        ensures hands { IfOk result (λ given. (c : Wire) (files : Both (List ℕ)) (ts : List Turn) (ends : Accounts) (heard : Both Heard) (mid : Accounts) → InTurn self.old c files ts ends heard mid mid
            → HandsOver self.new c (F.state folder.old) (F.state folder.new) (written names.now) files ts ends heard mid given) }
        ensures part { OnErr result ((c : Wire) (files : Both (List ℕ)) (ts : List Turn) (ends : Accounts) (heard : Both Heard) (mid : Accounts) → InTurn self.old c files ts ends heard mid mid
            → AddPart (F.state folder.old) (F.state folder.new) (outputs_of (written names.now)) (octets_of mid)) }
        ensures idle { OnOk result (AreIdle self.new.link) }
        ensures counted { OnOk result ((heard asked : ℕ) → AreCounted self.old.link heard asked → AreCounted self.new.link heard asked) }
        ensures beside { SameBeside self.old self.new }
        ensures only { OnlyPuts (F.state folder.old) (F.state folder.new) (outputs_of (written names.now)) }
        ensures came { F.came folder.old folder.new }
        ensures counts { TurnCounts (F.state folder.old) (F.state folder.new) (written names.now) result }
        ensures write { IfErr result IsWriting }
    {
        match self.link.deliver(folder, names) {
            Ok(()) => Ok(self.link.given_breaks()),
            Err(fault) => Err(folder_fault(RunFault::WriteFault, RunFault::NoMemory, fault)),
        }
    }

    /// Both ends are offered what they want of their users' files, and served otherwise: they are then to speak.
    fn serve<F: Folder>(
        &mut self,
        script: &Script,
        folder: &mut F,
        names: &Names<'_>,
    ) -> Result<(), RunFault>
        requires early { self.old.turn < 2 ^ 40 }
        requires counted { AreCounted self.old.link (self.old.turn + 1) self.old.turn }
        requires limits { IsInLimits script.now }
        requires stands { (c : Wire) × (files : Both (List ℕ)) × (ts : List Turn) × (ends : Accounts) × (heard : Both Heard) × (mid : Accounts)
            × (c.script ≡ script.now) × InTurn self.old c files ts ends heard mid (handed mid) × AreWithin files }
        ensures serves { OnOk result ((c : Wire) (files : Both (List ℕ)) (ts : List Turn) (ends : Accounts) (heard : Both Heard) (mid : Accounts)
            → c.script ≡ script.now → InTurn self.old c files ts ends heard mid (handed mid) → AreWithin files
            → Serves self.new c (F.state folder.old) (written names.now) files ts ends heard mid) }
        ensures idle { OnOk result (AreIdle self.old.link → AreIdle self.new.link) }
        ensures counted { OnOk result (AreCounted self.new.link (self.old.turn + 1) (self.old.turn + 1)) }
        ensures beside { SameBeside self.old self.new }
        ensures only { OnlyReads (F.state folder.old) (F.state folder.new) }
        ensures came { F.came folder.old folder.new }
        ensures counts { TurnCounts (F.state folder.old) (F.state folder.new) (written names.now) result }
        ensures read { IfErr result IsReading }
    {
        files_count_as_far_as_they_were_read();
        match self.link.supply(folder, names) {
            Ok(()) => {}
            Err(fault) => return Err(folder_fault(RunFault::ReadFault, RunFault::NoMemory, fault)),
        }
        self.link.serve(script, self.turn);
        Ok(())
    }

    /// Both ends speak: both lines of the turn go out, and what they send is counted and put on the line. In a turn in which the run ends
    /// nothing is sent.
    fn speak<F: Folder>(
        &mut self,
        lines: &mut Lines,
        script: &Script,
        folder: &mut F,
        names: &Names<'_>,
        heard: &Both<Heard>,
        given: &Both<Option<u8>>,
    ) -> Result<(), RunFault>
        requires early { self.old.turn < 2 ^ 40 }
        requires channel { self.old.dlci < 64 }
        requires limits { IsInLimits script.now }
        requires few { IsFew self.old.tally (self.old.turn + 1) self.old.turn }
        requires stands { (c : Wire) × (links : ℕ) × (streams : Both (List Carried)) × (files : Both (List ℕ)) × (ts : List Turn) × (ends : Accounts) × (mid : Accounts)
            × IsWireOf c script.now self.old.dlci × IsToSpeak self.old c files ts ends heard.now mid × HaveArrived lines.old c links streams }
        ensures speaks { (c : Wire) (links : ℕ) (streams : Both (List Carried)) (files : Both (List ℕ)) (ts : List Turn) (ends mid : Accounts)
            → IsWireOf c script.now self.old.dlci → IsToSpeak self.old c files ts ends heard.now mid → HaveArrived lines.old c links streams
            → given.now.orig ≡ given_break mid.orig → given.now.answ ≡ given_break mid.answ
            → SpeaksTurn self.new lines.new c links streams (F.state folder.old) (F.state folder.new) (written names.now) files ts ends heard.now mid result }
        ensures idle { OnOk result (AreIdle self.old.link → AreIdle self.new.link) }
        ensures counted { OnOk result ((heard asked : ℕ) → AreCounted self.old.link heard asked → AreCounted self.new.link heard asked) }
        ensures few { OnOk result (IsFew self.new.tally (self.old.turn + 1) (self.old.turn + 1)) }
        ensures turn { OnOk result (self.new.turn ≡ self.old.turn + 1) }
        ensures spoke { OnOk result (self.new.spoke ≡ true) }
        ensures dlci { self.new.dlci ≡ self.old.dlci }
        ensures beside { OnErr result (SameBeside self.old self.new) }
        ensures line { OnErr result (lines.new ≡ lines.old) }
        ensures only { OnlyWrites (F.state folder.old) (F.state folder.new) (written names.now).trace }
        ensures came { F.came folder.old folder.new }
        ensures counts { TurnCounts (F.state folder.old) (F.state folder.new) (written names.now) result }
    {
        samples_are_carried();
        scripts_make_links();
        slots_have_room();
        each_turn_is_made();
        segments_are_counted_by_their_numbers();
        match self.link.speak(script, self.turn) {
            Ok(sent) => {
                let checks = self.link.checks();
                match write_turn(folder, names, self.turn, heard, given, Some(&sent)) {
                    Ok(()) => {}
                    Err(fault) => return Err(fault),
                }
                self.tally.send(&sent);
                lines.send(sent, &checks, self.dlci);
                self.turn += 1;
                self.spoke = true;
                Ok(())
            }
            Err(breaking) => match write_turn(folder, names, self.turn, heard, given, None) {
                Ok(()) => Err(link_fault(self.turn, breaking)),
                Err(fault) => Err(fault),
            },
        }
    }

    /// The run is done: nothing is sent in this last turn, and its lines go out.
    fn finish<F: Folder>(
        &self,
        folder: &mut F,
        names: &Names<'_>,
        heard: &Both<Heard>,
        given: &Both<Option<u8>>,
    ) -> Result<(), RunFault>
        ensures adds { OnOk result ((c : Wire) (files : Both (List ℕ)) (ts : List Turn) (ends mid : Accounts) → InTurn self.now c files ts ends heard.now mid (handed mid) → is_closed mid.orig.phase ≡ true
            → given.now.orig ≡ given_break mid.orig → given.now.answ ≡ given_break mid.answ
            → AddsLines c (F.state folder.old) (F.state folder.new) (written names.now) files ts ends heard.now mid Done) }
        ensures part { OnErr result ((c : Wire) (files : Both (List ℕ)) (ts : List Turn) (ends mid : Accounts) → InTurn self.now c files ts ends heard.now mid (handed mid) → is_closed mid.orig.phase ≡ true
            → given.now.orig ≡ given_break mid.orig → given.now.answ ≡ given_break mid.answ
            → AddsPart c (F.state folder.old) (F.state folder.new) (written names.now) files ts ends heard.now mid) }
        ensures only { OnlyWrites (F.state folder.old) (F.state folder.new) (written names.now).trace }
        ensures came { F.came folder.old folder.new }
        ensures counts { TurnCounts (F.state folder.old) (F.state folder.new) (written names.now) result }
        ensures write { IfErr result IsWriting }
    {
        match write_turn(folder, names, self.turn, heard, given, None) {
            Ok(()) => Ok(()),
            Err(fault) => Err(fault),
        }
    }

    /// A slot is a chance match: its one line goes out.
    fn meet_chance<F: Folder>(&self, folder: &mut F, names: &Names<'_>, role: Role) -> RunFault
        requires apart { AreApartFrom (inputs_of (written names.now)) (outputs_of (written names.now)) }
        ensures meets { (l : Lines) (c : Wire) (links : ℕ) (streams : Both (List Carried)) (ts : List Turn) (ends : Accounts) → self.now.turn ≡ length ts
            → EndsLine c ts ends (line_ends.ChanceMatch role) → HearsNone self.now ts → (files : Both (List ℕ))
            → EndsBy self.now l c links streams (F.state folder.old) (F.state folder.new) (written names.now) files ts ends result }
        ensures only { OnlyWrites (F.state folder.old) (F.state folder.new) (written names.now).trace }
        ensures came { F.came folder.old folder.new }
        ensures counts { FaultCounts (F.state folder.old) (F.state folder.new) (written names.now) result }
    {
        match write_chance(folder, names, self.turn, role) {
            Ok(()) => RunFault::ChanceMatch {
                role,
                turn: self.turn,
            },
            Err(fault) => fault,
        }
    }

    /// One turn, over a line that is lent to it, which other links may share: both ends hear, what they took is written, they are offered what
    /// they want and served, and they speak. The names, the line and the script of all turns are the same. A file that is sent ends at
    /// [`RUN_FILE_LIMIT`](shared_terms::RUN_FILE_LIMIT) octets.
    pub fn turn<F: Folder>(
        &mut self,
        lines: &mut Lines,
        script: &Script,
        folder: &mut F,
        names: &Names<'_>,
    ) -> Result<Step, RunFault>
        requires ready { AreReady self.old script.now lines.old }
        requires apart { AreApartFrom (inputs_of (written names.now)) (outputs_of (written names.now)) }

        // A turn is one of the run that the script and the files make over the line, whatever goes beside, and adds to each output what that
        // turn gives. What both ends send in it goes behind what was sent before.
        ensures turn { (beside : Role → ℕ → Option Signal) (links : ℕ) (streams : Both (List Carried)) (files : Both (List ℕ)) (ts : List Turn) (ends : Accounts)
            → ModemsAfter self.old (wire_at script.now self.old.dlci beside) files ts ends → AreWithin files
            → LinesWait lines.old (wire_at script.now self.old.dlci beside) links streams → AreDue (wire_at script.now self.old.dlci beside) links ts streams
            → TurnAnswers self.new lines.new (wire_at script.now self.old.dlci beside) links streams (F.state folder.old) (F.state folder.new) (written names.now) files ts ends result }
        ensures kept { result ≡ Ok Step.Going → AreKept self.new }
        ensures number { self.new.turn ≡ turns_made self.old.turn result }
        ensures channel { self.new.dlci ≡ self.old.dlci }
        ensures spoke { self.new.spoke ≡ goes_on result }

        // It touches the outputs alone, and a fault has its cause.
        ensures only { OnlyPuts (F.state folder.old) (F.state folder.new) (outputs_of (written names.now)) }
        ensures came { F.came folder.old folder.new }
        ensures counts { TurnCounts (F.state folder.old) (F.state folder.new) (written names.now) result }
    {
        samples_are_carried();
        scripts_make_links();
        each_turn_is_made();
        line_runs_end_soon();
        let heard = match self.hear(lines, script) {
            Ok(heard) => heard,
            Err(LineEnd::Lost { role, symbol }) => {
                return Err(RunFault::LineLost { role, symbol });
            }
            Err(LineEnd::Chance { role }) => return Err(self.meet_chance(folder, names, role)),
        };
        let given = match self.hand_over(folder, names) {
            Ok(given) => given,
            Err(fault) => return Err(fault),
        };
        if self.link.is_closed() {
            return match self.finish(folder, names, &heard, &given) {
                Ok(()) => Ok(Step::Done { turn: self.turn }),
                Err(fault) => Err(fault),
            };
        }
        match self.serve(script, folder, names) {
            Ok(()) => {}
            Err(fault) => return Err(fault),
        }
        match self.speak(lines, script, folder, names, &heard, &given) {
            Ok(()) => Ok(Step::Going),
            Err(fault) => Err(fault),
        }
    }

    /// How many turns were made.
    pub fn turn_number(&self) -> u64
        ensures { result ≡ self.now.turn }
    {
        self.turn
    }

    /// The checks of both ends once they had heard in the last turn, also where the run ended in it.
    pub fn heard_by(&self) -> &Both<Check>
        ensures { result.now ≡ self.now.heard_by }
    {
        &self.heard_by
    }

    /// Whether the last turn was made to its end: both ends sent in it.
    pub fn spoke(&self) -> bool
        ensures { result ≡ self.now.spoke }
    {
        self.spoke
    }

    /// How many slots were lost in the turns so far.
    pub fn lost(&self) -> u64
        ensures { result ≡ self.now.tally.lost }
    {
        self.tally.lost
    }

    /// How many I frames were sent in the turns so far whose segment had been sent before.
    pub fn again(&self) -> u64
        ensures { result ≡ self.now.tally.again }
    {
        self.tally.again
    }
}
