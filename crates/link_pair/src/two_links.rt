// Both links of a pair, and a round of them.
ghost use Rattle.std.specs.Prelude.{◌≡◌, Option, Result, IfOk};
ghost use Rattle.outside_calls.specs.Outputs.{AreApartFrom, OnlyPuts};
ghost use Rattle.line_run.specs.Names.{written};
ghost use Rattle.line_world.specs.Turn.{CountsOver};
ghost use Rattle.link_pair.specs.Pairs.Ends.{First, Second};

use crate::pair_laws::{pairs_have_few_rounds, slots_are_due};
use crate::{Half, LinkEnd};
use line_run::RunFault;
use line_run::laws::scripts_make_links;
use line_world::{Lines, Names};
use noise_script::Script;
use outside_calls::Folder;
use shared_terms::NoMemory;
use std::alloc::Global;

/// The names of a pair's files: those of the first link, and those of the second.
#[derive(Clone, Copy)]
pub struct PairNames<'a> {
    /// The files of the link on channel 0.
    pub first: Names<'a>,
    /// The files of the link on channel 32.
    pub second: Names<'a>,
}

/// One of the two links.
#[derive(Clone, Copy)]
enum WhichLink {
    /// The link on channel 0.
    First,
    /// The link on channel 32.
    Second,
}

/// How both links of a pair ended.
#[derive(Clone, Copy)]
pub struct Endings {
    /// The first one.
    pub first: LinkEnd,
    /// The second one.
    pub second: LinkEnd,
}

/// Two links, and the line that they share.
pub struct Pair {
    /// The link on channel 0.
    first: Half,
    /// The link on channel 32.
    second: Half,
    /// Both directions of the line.
    lines: Lines,
    /// What the line and the users do.
    script: Script,
    /// How many rounds were made.
    round: u64,
}

impl Drop for Pair {
    // for the prover: so it is dropped by a call, and its fields are not dropped anew wherever one is.
    fn drop(self) {
        let Pair {
            first: _,
            second: _,
            lines: _,
            script: _,
            round: _,
        } = self;
    }
}

impl Pair {
    ghost use Rattle.link_pair.specs.declared.two_links.Pair.{Pair};
    ghost use Rattle.link_pair.specs.Pair.{Awaits, Comes, IsFirst, inputs_in, outputs_in, ended_of, script_of, round_of, which};

    /// A pair before its first round. It takes all memory of its ends and its lines.
    pub fn new(alloc: Global, script: Script) -> Result<Pair, NoMemory>
        ensures script { IfOk result (λ pair. script_of pair ≡ script) }
        ensures round { IfOk result (λ pair. round_of pair ≡ 0) }
        ensures first { IfOk result IsFirst }
    {
        script.is_in_limits();
        Ok(Pair {
            first: Half::new(alloc, &script, 0)?,
            second: Half::new(alloc, &script, 32)?,
            lines: Lines::new(alloc, &script, 2)?,
            script,
            round: 0,
        })
    }

    /// How both links ended, where both have.
    fn endings(&self) -> Option<Endings>
        ensures { result ≡ ended_of self.now }
    {
        match (self.first.ended(), self.second.ended()) {
            (Some(first), Some(second)) => Some(Endings { first, second }),
            _ => None,
        }
    }

    /// A link's turn of a round, and with the second one's the round. The pair ends in it where both have ended then.
    fn turn_of<F: Folder>(
        &mut self,
        link: WhichLink,
        folder: &mut F,
        names: &PairNames<'_>,
    ) -> Result<Option<Endings>, RunFault>
        requires ready { Awaits self.old (F.state folder.old) (written names.now.first) (written names.now.second) (which link) }
        requires apart { AreApartFrom (inputs_in names.now) (outputs_in names.now) }
        ensures comes { Comes (script_of self.old) (round_of self.old) (which link) self.new (F.state folder.new) (written names.now.first) (written names.now.second) result }
        ensures script { script_of self.new ≡ script_of self.old }
        ensures only { OnlyPuts (F.state folder.old) (F.state folder.new) (outputs_in names.now) }
        ensures came { F.came folder.old folder.new }
        ensures counts { CountsOver (F.state folder.old) (F.state folder.new) (inputs_in names.now) (outputs_in names.now) result }
    {
        scripts_make_links();
        slots_are_due();
        pairs_have_few_rounds();
        match link {
            WhichLink::First => match self.first.turn(
                &mut self.lines,
                &self.script,
                self.round,
                folder,
                &names.first,
            ) {
                Ok(()) => Ok(self.endings()),
                Err(fault) => Err(fault),
            },
            WhichLink::Second => match self.second.turn(
                &mut self.lines,
                &self.script,
                self.round,
                folder,
                &names.second,
            ) {
                Ok(()) => {
                    self.round += 1;
                    Ok(self.endings())
                }
                Err(fault) => Err(fault),
            },
        }
    }

    /// A round: the first link's turn, and then the second's, unless the pair ends in the first's. `None` is answered where there is a next
    /// round. The names of all rounds are the same.
    pub fn round<F: Folder>(
        &mut self,
        folder: &mut F,
        names: &PairNames<'_>,
    ) -> Result<Option<Endings>, RunFault>
        requires ready { Awaits self.old (F.state folder.old) (written names.now.first) (written names.now.second) First }
        requires apart { AreApartFrom (inputs_in names.now) (outputs_in names.now) }

        // The round is that of the pair which the script and the files make, and the outputs hold what its turns leave.
        ensures comes { Comes (script_of self.old) (round_of self.old) Second self.new (F.state folder.new) (written names.now.first) (written names.now.second) result }
        ensures script { script_of self.new ≡ script_of self.old }

        // It touches the outputs alone, and a fault has its cause.
        ensures only { OnlyPuts (F.state folder.old) (F.state folder.new) (outputs_in names.now) }
        ensures came { F.came folder.old folder.new }
        ensures counts { CountsOver (F.state folder.old) (F.state folder.new) (inputs_in names.now) (outputs_in names.now) result }
    {
        match self.turn_of(WhichLink::First, folder, names) {
            Ok(None) => self.turn_of(WhichLink::Second, folder, names),
            Ok(Some(endings)) => Ok(Some(endings)),
            Err(fault) => Err(fault),
        }
    }
}
