//! Theorems over the definitions alone: each theorem is a contract. The functions do nothing but name the theorems that they rest on.
ghost use Rattle.std.specs.Prelude.{◌<◌, ◌^◌};
ghost use Rattle.line_world.specs.World.{IsReady, turn_of};
ghost use Rattle.line_world.specs.declared.world.World.{World};

use line_run::laws::line_runs_end_soon;

/// A world that is ready for a turn has made fewer turns than an end can count.
pub fn turns_are_few()
    ensures { (w : World) → IsReady w → turn_of w < 2 ^ 40 }
{
    line_runs_end_soon();
}
