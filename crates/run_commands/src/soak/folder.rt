// The folder of a soak.
ghost use Rattle.std.specs.Prelude.{◌≡◌, IfOk, OnOk, length, true};
ghost use Rattle.std.specs.FinMap as finite;
ghost use Rattle.line_run.specs.Names.{written};
ghost use Rattle.outside_calls.specs.Outputs.{OnlyOutputs, Creates};
ghost use Rattle.program_folders.specs.Sure.{sure_folder};
ghost use Rattle.run_commands.specs.Soaking.Soak.{soak_file};
ghost use Rattle.run_commands.specs.Soaking.Folder.{HoldsFiles, soak_names, soak_outputs};

use crate::soak::files::soak_file;
use command_base::create_outputs;
use line_world::Names;
use outside_calls::FolderFault;
use program_folders::SureFolder;
use shared_terms::{NoMemory, Role};
use std::alloc::Global;

/// The names that the soak's folder has.
pub(crate) fn soak_names() -> Names<'static>
    ensures { written result ≡ soak_names }
{
    Names {
        orig: "orig",
        answ: "answ",
        got_o: "got_o",
        got_a: "got_a",
        trace: "trace",
    }
}

/// Puts a role's file into the folder.
fn put_file(
    alloc: Global,
    folder: &mut SureFolder,
    name: &str,
    seed: u64,
    role: Role,
) -> Result<(), NoMemory>
    ensures file { OnOk result (folder.new.held ≡ finite.insert folder.old.held name.now (soak_file seed role)) }
    ensures size { OnOk result (length (soak_file seed role) ≡ 65536) }
{
    let file = soak_file(alloc, seed, role)?;
    folder.put(name, &file)
}

/// A folder that holds both files of a seed.
pub(crate) fn soak_folder(alloc: Global, seed: u64) -> Result<SureFolder, NoMemory>
    ensures { IfOk result (λ folder. HoldsFiles (sure_folder folder) seed) }
{
    let mut folder = SureFolder::new(alloc);
    put_file(alloc, &mut folder, "orig", seed, Role::Originator)?;
    put_file(alloc, &mut folder, "answ", seed, Role::Answerer)?;
    Ok(folder)
}

/// The outputs are made. This folder never fails, so there may be no memory, and nothing worse.
pub(crate) fn make_outputs(folder: &mut SureFolder) -> Result<(), NoMemory>
    ensures made { OnOk result (Creates (sure_folder folder.new) soak_outputs) }
    ensures only { OnlyOutputs (sure_folder folder.old) (sure_folder folder.new) soak_outputs }
{
    match create_outputs(folder, &["got_o", "got_a", "trace"]) {
        Ok(()) => Ok(()),
        Err(FolderFault::NoMemory) => Err(NoMemory),
        Err(FolderFault::Failed) => unreachable!(),
    }
}
