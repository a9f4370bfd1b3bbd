// Rounds, up to the end of a pair.
ghost use Rattle.std.specs.Prelude.{◌≡◌, IfOk, IfErr};
ghost use Rattle.outside_calls.specs.Outputs.{AreApartFrom, Creates, OnlyPuts};
ghost use Rattle.line_run.specs.Names.{written};
ghost use Rattle.line_world.specs.Turn.{CountsOver};
ghost use Rattle.link_pair.specs.Pair.{FaultEnds, HaveEnded, IsFirst, inputs_in, outputs_in, script_of};

use crate::pair_laws::pairs_have_few_rounds;
use crate::{Endings, Pair, PairNames};
use line_run::RunFault;
use outside_calls::Folder;

/// Rounds are made until the pair ends: how both links ended, or why it ended before, by the folder or the line. A symbol of the line counts
/// those of both links, and a turn is the round.
pub fn pair_rounds<F: Folder>(
    pair: &mut Pair,
    folder: &mut F,
    names: &PairNames<'_>,
) -> Result<Endings, RunFault>
    requires first { IsFirst pair.old }
    requires apart { AreApartFrom (inputs_in names.now) (outputs_in names.now) }
    requires created { Creates (F.state folder.old) (outputs_in names.now) }

    ensures ended { IfOk result (HaveEnded (script_of pair.old) (F.state folder.new) (written names.now.first) (written names.now.second)) }
    ensures fault { IfErr result (FaultEnds (script_of pair.old) (F.state folder.new) (written names.now.first) (written names.now.second)) }
    ensures only { OnlyPuts (F.state folder.old) (F.state folder.new) (outputs_in names.now) }
    ensures came { F.came folder.old folder.new }
    ensures counts { CountsOver (F.state folder.old) (F.state folder.new) (inputs_in names.now) (outputs_in names.now) result }
{
    pairs_have_few_rounds();
    loop {
        match pair.round(folder, names) {
            Ok(None) => {}
            Ok(Some(endings)) => return Ok(endings),
            Err(fault) => return Err(fault),
        }
    }
}
