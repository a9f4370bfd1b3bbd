// Turns of the world.
ghost use Rattle.std.specs.Prelude.{◌≡◌, ℕ, [], ◌∷◌, List, Option, false, None, option_copied, IfOk};
ghost use Rattle.shared_terms.specs.Both.{Both};
ghost use Rattle.link_run.specs.Run.{Accounts, Turn, start};
ghost use Rattle.line_run.specs.Scripted.{wire_of, link_of};
ghost use Rattle.line_run.specs.Stream.{both_sent_by};
ghost use Rattle.line_world.specs.Lines.{HaveArrived};
ghost use Rattle.line_run.specs.Names.{inputs_of, outputs_of, written};
ghost use Rattle.line_world.specs.Link.{AreWithin};
ghost use Rattle.outside_calls.specs.Outputs.{AreApartFrom, OnlyPuts};

use crate::step::Step;
use crate::{Lines, Modems, Names};
use bit_stuffing::BitSlot;
use line_run::RunFault;
use line_run::laws::{line_runs_end_soon, scripts_make_links, slots_are_due_alone};
use noise_script::Script;
use outside_calls::Folder;
use sample_line::Line;
use shared_terms::{NoMemory, Role};
use std::alloc::Global;

/// Two ends with their users, and the line between them.
pub struct World {
    /// Both ends with their users.
    modems: Modems,
    /// Both directions of the line.
    lines: Lines,
    /// What the line and the users do.
    script: Script,
}

impl Drop for World {
    // for the prover: so it is dropped by a call, and its fields are not dropped anew wherever one is.
    fn drop(self) {
        let World {
            modems: _,
            lines: _,
            script: _,
        } = self;
    }
}

impl World {
    ghost use Rattle.line_world.specs.declared.world.World.{World};
    ghost use Rattle.line_world.specs.World.{IsReady, WorldAfter, HasPassed, HasPassedToo, HasSent, script_of, modems_of, lines_of, turn_of, lost_of, again_of, spoke_of};
    ghost use Rattle.line_world.specs.Turn.{TurnAnswers, TurnCounts, goes_on, turns_made};

    /// A world before its first turn. It takes all memory of its ends and its lines.
    pub fn new(alloc: Global, script: Script) -> Result<World, NoMemory>
        ensures script { IfOk result (λ w. script_of w ≡ script) }
        ensures turn { IfOk result (λ w. turn_of w ≡ 0) }
        ensures ready { IfOk result IsReady }
        ensures world { IfOk result (λ w. (files : Both (List ℕ)) → WorldAfter w files [] (start (link_of script files))) }
    {
        script.is_in_limits();
        Ok(World {
            modems: Modems::new(alloc, &script, 0)?,
            lines: Lines::new(alloc, &script, 1)?,
            script,
        })
    }

    /// How many turns were made.
    pub fn turn_number(&self) -> u64
        ensures { result ≡ turn_of self.now }
    {
        self.modems.turn_number()
    }

    /// One turn: both ends hear, what they took is written, they are offered what they want and served, and they speak. The names of all
    /// turns are the same. A file that is sent ends at [`RUN_FILE_LIMIT`](shared_terms::RUN_FILE_LIMIT) octets.
    pub fn turn<F: Folder>(&mut self, folder: &mut F, names: &Names<'_>) -> Result<Step, RunFault>
        requires ready { IsReady self.old }
        requires apart { AreApartFrom (inputs_of (written names.now)) (outputs_of (written names.now)) }

        // A turn is one of the run that the script and the files make, and adds to each output what that turn gives.
        ensures turn { (files : Both (List ℕ)) (ts : List Turn) (ends : Accounts) → WorldAfter self.old files ts ends → AreWithin files
            → TurnAnswers (modems_of self.new) (lines_of self.new) (wire_of (script_of self.new)) 1 (both_sent_by 0 ts) (F.state folder.old) (F.state folder.new) (written names.now) files ts ends result }
        ensures script { script_of self.new ≡ script_of self.old }
        ensures ready { result ≡ Ok Step.Going → IsReady self.new }
        ensures number { turn_of self.new ≡ turns_made (turn_of self.old) result }
        ensures spoke { spoke_of self.new ≡ goes_on result }

        // It touches the outputs alone, and a fault has its cause.
        ensures only { OnlyPuts (F.state folder.old) (F.state folder.new) (outputs_of (written names.now)) }
        ensures came { F.came folder.old folder.new }
        ensures counts { TurnCounts (F.state folder.old) (F.state folder.new) (written names.now) result }
    {
        scripts_make_links();
        slots_are_due_alone();
        line_runs_end_soon();
        self.modems
            .turn(&mut self.lines, &self.script, folder, names)
    }

    /// The direction in which this role sends. Its decoder has heard the samples of exactly the slots that have arrived, also of those that the
    /// script loses, and also once the run is done.
    pub fn line(&self, role: Role) -> &Line
        ensures passed { (files : Both (List ℕ)) (ts : List Turn) (ends : Accounts) → WorldAfter self.now files ts ends → HasPassed result.now (script_of self.now) role ts }
        ensures arrived { (ts : List Turn) → HaveArrived (lines_of self.now) (wire_of (script_of self.now)) 1 (both_sent_by 0 ts) → HasPassedToo result.now (script_of self.now) role ts }
    {
        self.lines.line(role)
    }

    /// The bits of the slot that this role sent in the last turn. It is None before the first turn, and where the run ended in the last one, since
    /// nothing is sent in that.
    pub fn sent(&self, role: Role) -> Option<&BitSlot>
        ensures none { spoke_of self.now ≡ false → option_copied result ≡ None }
        ensures sent { (files : Both (List ℕ)) (ts : List Turn) (t : Turn) (ends : Accounts) → WorldAfter self.now files (t ∷ ts) ends
            → HasSent (option_copied result) (script_of self.now) role ts t }
    {
        slots_are_due_alone();
        if self.modems.spoke() {
            Some(self.lines.newest(role))
        } else {
            None
        }
    }

    /// How many slots were lost in the turns so far.
    pub fn lost(&self) -> u64
        ensures { result ≡ lost_of self.now }
    {
        self.modems.lost()
    }

    /// How many I frames were sent in the turns so far whose segment had been sent before.
    pub fn again(&self) -> u64
        ensures { result ≡ again_of self.now }
    {
        self.modems.again()
    }
}
