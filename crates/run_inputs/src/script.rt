// A run's script.
ghost use Rattle.std.specs.Prelude.{◌≤◌, ◌∷◌, [], List, ℕ, IfOk, IfErr};
ghost use Rattle.outside_calls.specs.Folder.{OnlyReads};
ghost use Rattle.command_base.specs.Stops.{EndCounts};
ghost use Rattle.noise_script.specs.declared.limits.TheConstants.{SCRIPT_OCTETS};
ghost use Rattle.run_inputs.specs.Scripts.{IsSpelled, ReadsScript, RefusesScript};

use command_base::{Status, Stop, read_file, within_limit};
use noise_script::{Script, ScriptFault, read_script};
use outside_calls::Folder;
use std::alloc::Global;

/// The script of that name: its length is looked at, it is read up to its limit, and understood. Where it is too long, the answer
/// names this word.
pub(crate) fn open_script<F: Folder>(
    alloc: Global,
    folder: &mut F,
    name: &str,
    limit: u64,
    word: usize,
) -> Result<Script, Stop>
    requires { limit ≤ SCRIPT_OCTETS }
    ensures opened { IfOk result (ReadsScript limit (F.state folder.old) name.now) }
    ensures spelled { IfOk result IsSpelled }
    ensures refused { IfErr result (RefusesScript limit (F.state folder.old) name.now word) }
    ensures reads { OnlyReads (F.state folder.old) (F.state folder.new) }
    ensures counts { (outputs : List (List ℕ)) → EndCounts (F.state folder.old) (F.state folder.new) (name.now ∷ []) outputs result }
{
    match within_limit(folder, name, limit, word) {
        Ok(()) => {}
        Err(stop) => return Err(stop),
    }
    let text = match read_file(alloc, folder, name, limit) {
        Ok(text) => text,
        Err(stop) => return Err(stop),
    };
    match read_script(alloc, &text) {
        Ok(script) => Ok(script),
        Err(ScriptFault::Line { line, cause }) => {
            Err(Stop::Own(Status::BadScript { line, cause }))
        }
        Err(ScriptFault::NoMemory) => Err(Stop::NoMemory),
    }
}
