// Turns, up to the end of a tap.
ghost use Rattle.std.specs.Prelude.{◌≡◌, [], List, ℕ};
ghost use Rattle.outside_calls.specs.Folder.{FolderState};
ghost use Rattle.outside_calls.specs.Outputs.{AreApartFrom, Creates, OnlyPuts};
ghost use Rattle.command_base.specs.Stops.{EndCounts};
ghost use Rattle.line_tap.specs.Tapping.{tapping};
ghost use Rattle.line_tap.specs.Names.{named, inputs_of, outputs_of, recordings_of};
ghost use Rattle.line_tap.specs.Tap.{IsReady, TapAfter, AreReadTo};
ghost use Rattle.line_tap.specs.Turns.{TurnsEnd};
ghost use Rattle.line_tap.specs.Turn.{no_octets};

use crate::names::TapWords;
use crate::step::TapStep;
use crate::tapping::Tap;
use command_base::Stop;
use lapm_receiver::laws::keeps_taken;
use line_run::laws::slots_have_room;
use outside_calls::Folder;

/// Turns are made until the reading ends: how many they are.
pub fn tap_turns<F: Folder>(
    tap: &mut Tap,
    folder: &mut F,
    names: &TapWords<'_>,
) -> Result<u64, Stop>
    requires ready { IsReady tap.old }
    requires first { TapAfter tap.old (tapping tap.old.script no_octets) [] }
    requires apart { AreApartFrom (inputs_of (named names.now)) (outputs_of (named names.now)) }
    requires created { Creates (F.state folder.old) (outputs_of (named names.now)) }
    ensures ends { (start : FolderState) → AreReadTo start (F.state folder.old) (named names.now) no_octets
        → TurnsEnd tap.old.script start (F.state folder.new) (named names.now) result }
    ensures only { OnlyPuts (F.state folder.old) (F.state folder.new) (outputs_of (named names.now)) }
    ensures counts { EndCounts (F.state folder.old) (F.state folder.new) (recordings_of (named names.now)) (outputs_of (named names.now)) result }
{
    keeps_taken();
    slots_have_room();
    loop {
        match tap.turn(folder, names) {
            Ok(TapStep::Going) => {}
            Ok(TapStep::Done { turns }) => return Ok(turns),
            Err(stop) => return Err(stop),
        }
    }
}
