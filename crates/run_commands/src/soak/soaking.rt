// The run of a seed, in a folder of its own.
ghost use Rattle.std.specs.Prelude.{◌≡◌, [], List, ℕ};
ghost use Rattle.shared_terms.specs.Both.{Both};
ghost use Rattle.link_run.specs.Run.{start};
ghost use Rattle.line_run.specs.Scripted.{link_of};
ghost use Rattle.line_world.specs.World.{IsReady, WorldAfter, script_of};
ghost use Rattle.noise_script.specs.Script.{IsInLimits};
ghost use Rattle.program_folders.specs.Sure.{sure_folder};
ghost use Rattle.run_commands.specs.Soaking.Soak.{soak_script};
ghost use Rattle.run_commands.specs.Soaking.Ends.{Ends, soak_stop};
ghost use Rattle.run_commands.specs.Soaking.Folder.{HoldsFiles};

use crate::soak::counts::SoakCounts;
use crate::soak::folder::{make_outputs, soak_folder, soak_names};
use crate::soak::script::soak_script;
use command_base::Stop;
use line_run::RunFault;
use line_world::{World, run_turns};
use program_folders::SureFolder;
use run_inputs::stop_of;
use std::alloc::Global;

/// Why a soak stops whose turns end by this fault: all that its folder can lack is memory.
fn soak_stop(fault: RunFault) -> Stop
    ensures { result ≡ soak_stop fault }
{
    match fault {
        RunFault::NoMemory => Stop::NoMemory,
        fault => stop_of(fault),
    }
}

/// The outputs are made, and turns follow to the end of the run.
fn soak_world(world: &mut World, folder: &mut SureFolder) -> Result<SoakCounts, Stop>
    requires ready { IsReady world.old }
    requires first { (files : Both (List ℕ)) → WorldAfter world.old files [] (start (link_of (script_of world.old) files)) }
    requires limits { IsInLimits (script_of world.old) }
    ensures { (seed : ℕ) → script_of world.old ≡ soak_script seed → HoldsFiles (sure_folder folder.old) seed → Ends seed result }
{
    match make_outputs(folder) {
        Ok(()) => {}
        Err(_) => return Err(Stop::NoMemory),
    }
    let mut tapes = None;
    match run_turns(world, folder, &soak_names(), &mut tapes) {
        Ok(turn) => Ok(SoakCounts {
            turn,
            lost: world.lost(),
            again: world.again(),
        }),
        Err(fault) => Err(soak_stop(fault)),
    }
}

/// The run of a seed: its last turn, and what its turns show.
pub(crate) fn soak_run(alloc: Global, seed: u64) -> Result<SoakCounts, Stop>
    ensures { Ends seed result }
{
    let mut folder = match soak_folder(alloc, seed) {
        Ok(folder) => folder,
        Err(_) => return Err(Stop::NoMemory),
    };
    let script = match soak_script(alloc, seed) {
        Ok(script) => script,
        Err(_) => return Err(Stop::NoMemory),
    };
    script.is_in_limits();
    let mut world = match World::new(alloc, script) {
        Ok(world) => world,
        Err(_) => return Err(Stop::NoMemory),
    };
    soak_world(&mut world, &mut folder)
}
