// A run's inputs, taken in order.
ghost use Rattle.std.specs.Prelude.{◌≤◌, ◌<◌, ◌+◌, ◌^◌, ◌++◌, ◌∷◌, [], List, ℕ, IfOk, IfErr, length, map};
ghost use Rattle.outside_calls.specs.Folder.{OnlyReads};
ghost use Rattle.command_base.specs.Stops.{EndCounts};
ghost use Rattle.noise_script.specs.declared.limits.TheConstants.{SCRIPT_OCTETS};
ghost use Rattle.run_inputs.specs.Inputs.{Opens, Refuses};
ghost use Rattle.run_inputs.specs.Scripts.{IsSpelled};

use crate::lengths::check_lengths;
use crate::limits::Limits;
use crate::script::open_script;
use command_base::Stop;
use noise_script::Script;
use outside_calls::Folder;
use std::alloc::Global;

/// The inputs are taken in order: the script, and then the lengths of the files, of which nothing else is read. The script's name comes with its
/// place among the words, and the first file's name is the word of that number, each other one the next.
pub fn open_inputs<F: Folder>(
    alloc: Global,
    folder: &mut F,
    script: (&str, usize),
    files: &[&str],
    first: usize,
    limits: Limits,
) -> Result<Script, Stop>
    requires script { limits.script ≤ SCRIPT_OCTETS }
    requires words { first + length files.now < 2 ^ 32 }
    ensures opened { IfOk result (Opens limits (F.state folder.old) script.entry.0.now (map (λ name. name.now) files.now)) }
    ensures spelled { IfOk result IsSpelled }
    ensures refused { IfErr result (Refuses limits (F.state folder.old) (F.state folder.new) script.entry.0.now script.entry.1 (map (λ name. name.now) files.now) first) }
    ensures reads { OnlyReads (F.state folder.old) (F.state folder.new) }
    ensures counts { (outputs : List (List ℕ)) → EndCounts (F.state folder.old) (F.state folder.new) (map (λ name. name.now) files.now ++ script.entry.0.now ∷ []) outputs result }
{
    let (name, word) = script;
    let script = match open_script(alloc, folder, name, limits.script, word) {
        Ok(script) => script,
        Err(stop) => return Err(stop),
    };
    match check_lengths(folder, files, limits.file, first) {
        Ok(()) => Ok(script),
        Err(stop) => Err(stop),
    }
}
