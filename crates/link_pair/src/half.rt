// A link of a pair, in its part of a round.
ghost use Rattle.std.specs.Prelude.{◌≡◌, ℕ, ◌<◌, [], ◌∷◌, is_some, true, List, Option, None, OnOk, OnErr, IfOk, IfErr};
ghost use Rattle.shared_terms.specs.declared.role.Role.{Role};
ghost use Rattle.shared_terms.specs.Both.{Both};
ghost use Rattle.detection.specs.Slots.{Signal};
ghost use Rattle.line_run.specs.Sampled.{Wire};
ghost use Rattle.line_run.specs.Scripted.{wire_at};
ghost use Rattle.line_run.specs.Stream.{Carried, and_sent};
ghost use Rattle.outside_calls.specs.Outputs.{AreApartFrom, OnlyPuts};
ghost use Rattle.line_world.specs.Lines.{LinesWait, HaveArrived};
ghost use Rattle.line_world.specs.Turn.{CountsOver};
ghost use Rattle.line_run.specs.Names.{inputs_of, outputs_of, written};
ghost use Rattle.link_pair.specs.Pairs.Beside.{idle_turn};
ghost use Rattle.link_pair.specs.Pairs.Pair.{Progress};
ghost use Rattle.link_pair.specs.Half as halves;

use frame_check::Check;
use lapm_frames::Sent;
use line_run::RunFault;
use line_run::laws::scripts_make_links;
use line_world::{LineEnd, Lines, Modems, Names, Step, write_chance};
use link_run::laws::turns_deliver_what_came;
use noise_script::Script;
use outside_calls::Folder;
use shared_terms::{Both, NoMemory, Role};
use std::alloc::Global;

/// How a link of a pair ended, and in which turn.
#[derive(Clone, Copy)]
pub enum LinkEnd {
    /// Both files have crossed.
    Done { turn: u64 },
    /// The tries of the end of that role are spent; its first segment that wasn't acknowledged is this one.
    LinkLost { role: Role, segment: u64, turn: u64 },
    /// The originator saw no pattern of the answerer's.
    NotDetected { turn: u64 },
}

/// A link of a pair: its ends, and how it ended where it has.
pub(crate) struct Half {
    /// The link's ends with their users.
    modems: Modems,
    /// The channel of its frames.
    dlci: u8,
    /// How it ended.
    ended: Option<LinkEnd>,
}

impl Drop for Half {
    // for the prover: so it is dropped by a call, and its fields are not dropped anew wherever one is.
    fn drop(self) {
        let Half {
            modems: _,
            dlci: _,
            ended: _,
        } = self;
    }
}

/// What a turn comes to for a pair: nothing where the link goes on, how the link ended, or why the pair ends, by the folder or the line.
fn sorted(answer: Result<Step, RunFault>) -> Result<Option<LinkEnd>, RunFault>
    ensures { result ≡ halves.sorted answer }
{
    match answer {
        Ok(Step::Going) => Ok(None),
        Ok(Step::Done { turn }) => Ok(Some(LinkEnd::Done { turn })),
        Err(
            RunFault::LinkLost {
                role,
                segment,
                turn,
            },
        ) => Ok(Some(LinkEnd::LinkLost {
            role,
            segment,
            turn,
        })),
        Err(RunFault::NotDetected { turn }) => Ok(Some(LinkEnd::NotDetected { turn })),
        Err(fault) => Err(fault),
    }
}

/// Both ends of a link that has ended send flags.
fn send_flags(lines: &mut Lines, dlci: u8)
    requires channel { dlci < 64 }
    requires room { (c : Wire) × (links : ℕ) × (streams : Both (List Carried)) × HaveArrived lines.old c links streams }
    ensures { (c : Wire) (links : ℕ) (streams : Both (List Carried)) → HaveArrived lines.old c links streams → c.dlci ≡ dlci
        → LinesWait lines.new c links (and_sent streams c.dlci idle_turn) }
{
    let flags = Both {
        orig: Sent::Flags,
        answ: Sent::Flags,
    };
    let checks = Both {
        orig: Check::Sixteen,
        answ: Check::Sixteen,
    };
    lines.send(flags, &checks, dlci);
}

impl Half {
    ghost use Rattle.link_pair.specs.declared.half.Half.{Half};
    ghost use Rattle.link_pair.specs.Half.{HalfAnswers, HalfAt, HalfIsReady, StandsFirst};

    /// A link of a script's pair before its first turn, on this channel. It takes all memory of its ends.
    pub fn new(alloc: Global, script: &Script, dlci: u8) -> Result<Half, NoMemory>
        requires { dlci < 64 }
        ensures channel { IfOk result (λ half. half.dlci ≡ dlci) }
        ensures first { IfOk result (λ half. StandsFirst half script.now) }
    {
        Ok(Half {
            modems: Modems::new(alloc, script, dlci)?,
            dlci,
            ended: None,
        })
    }

    /// How the link ended, where it has.
    pub fn ended(&self) -> Option<LinkEnd>
        ensures { result ≡ self.now.ended }
    {
        self.ended
    }

    /// A turn of a link that goes on. Where it ends in it, its ends send flags in that same turn.
    fn go_on<F: Folder>(
        &mut self,
        lines: &mut Lines,
        script: &Script,
        folder: &mut F,
        names: &Names<'_>,
    ) -> Result<(), RunFault>
        requires going { self.old.ended ≡ None }
        requires ready { (round : ℕ) × HalfIsReady self.old lines.old script.now (F.state folder.old) (written names.now) round }
        requires apart { AreApartFrom (inputs_of (written names.now)) (outputs_of (written names.now)) }
        ensures turn { (beside : Role → ℕ → Option Signal) (links : ℕ) (streams : Both (List Carried)) (files : Both (List ℕ)) (round : ℕ) (p : Progress)
            → HalfAt self.old lines.old (F.state folder.old) (written names.now) script.now beside links streams files round p
            → HalfAnswers self.new lines.new (wire_at script.now self.old.dlci beside) links streams (F.state folder.new) (written names.now) files round p result }
        ensures channel { self.new.dlci ≡ self.old.dlci }
        ensures only { OnlyPuts (F.state folder.old) (F.state folder.new) (outputs_of (written names.now)) }
        ensures came { F.came folder.old folder.new }
        ensures counts { CountsOver (F.state folder.old) (F.state folder.new) (inputs_of (written names.now)) (outputs_of (written names.now)) result }
    {
        turns_deliver_what_came();
        scripts_make_links();
        match sorted(self.modems.turn(lines, script, folder, names)) {
            Ok(None) => Ok(()),
            Ok(Some(end)) => {
                self.ended = Some(end);
                send_flags(lines, self.dlci);
                Ok(())
            }
            Err(fault) => Err(fault),
        }
    }

    /// A round of a link that has ended: what arrives of its slots may end the pair, and its ends send flags.
    fn idle<F: Folder>(
        &mut self,
        lines: &mut Lines,
        script: &Script,
        round: u64,
        folder: &mut F,
        names: &Names<'_>,
    ) -> Result<(), RunFault>
        requires ended { is_some self.old.ended ≡ true }
        requires ready { HalfIsReady self.old lines.old script.now (F.state folder.old) (written names.now) round }
        requires apart { AreApartFrom (inputs_of (written names.now)) (outputs_of (written names.now)) }
        ensures turn { (beside : Role → ℕ → Option Signal) (links : ℕ) (streams : Both (List Carried)) (files : Both (List ℕ)) (p : Progress)
            → HalfAt self.old lines.old (F.state folder.old) (written names.now) script.now beside links streams files round p
            → HalfAnswers self.new lines.new (wire_at script.now self.old.dlci beside) links streams (F.state folder.new) (written names.now) files round p result }
        ensures channel { self.new.dlci ≡ self.old.dlci }
        ensures only { OnlyPuts (F.state folder.old) (F.state folder.new) (outputs_of (written names.now)) }
        ensures came { F.came folder.old folder.new }
        ensures counts { CountsOver (F.state folder.old) (F.state folder.new) (inputs_of (written names.now)) (outputs_of (written names.now)) result }
    {
        match lines.arrive(script, round, self.modems.heard_by(), self.dlci) {
            Ok(_) => {
                send_flags(lines, self.dlci);
                Ok(())
            }
            Err(LineEnd::Lost { role, symbol }) => Err(RunFault::LineLost { role, symbol }),
            Err(LineEnd::Chance { role }) => {
                match write_chance(folder, names, round, role) {
                    Ok(()) => Err(RunFault::ChanceMatch { role, turn: round }),
                    Err(fault) => Err(fault),
                }
            }
        }
    }

    /// The link's part of a round, over a line that is lent to it. The names, the line and the script of all rounds are the same.
    pub fn turn<F: Folder>(
        &mut self,
        lines: &mut Lines,
        script: &Script,
        round: u64,
        folder: &mut F,
        names: &Names<'_>,
    ) -> Result<(), RunFault>
        requires ready { HalfIsReady self.old lines.old script.now (F.state folder.old) (written names.now) round }
        requires apart { AreApartFrom (inputs_of (written names.now)) (outputs_of (written names.now)) }

        // The link comes farther by one turn, as the script and its files make it over the line, whatever goes beside, and its outputs hold
        // what its turns leave; or it ends the pair.
        ensures turn { (beside : Role → ℕ → Option Signal) (links : ℕ) (streams : Both (List Carried)) (files : Both (List ℕ)) (p : Progress)
            → HalfAt self.old lines.old (F.state folder.old) (written names.now) script.now beside links streams files round p
            → HalfAnswers self.new lines.new (wire_at script.now self.old.dlci beside) links streams (F.state folder.new) (written names.now) files round p result }
        ensures channel { self.new.dlci ≡ self.old.dlci }

        // It touches its outputs alone, and a fault has its cause.
        ensures only { OnlyPuts (F.state folder.old) (F.state folder.new) (outputs_of (written names.now)) }
        ensures came { F.came folder.old folder.new }
        ensures counts { CountsOver (F.state folder.old) (F.state folder.new) (inputs_of (written names.now)) (outputs_of (written names.now)) result }
    {
        match self.ended {
            None => self.go_on(lines, script, folder, names),
            Some(_) => self.idle(lines, script, round, folder, names),
        }
    }
}
