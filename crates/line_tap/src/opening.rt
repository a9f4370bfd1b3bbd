// The inputs of a tap.
ghost use Rattle.std.specs.Prelude.{◌≡◌, ℕ, List, [], ◌∷◌, IfOk, IfErr};
ghost use Rattle.outside_calls.specs.Folder.{FolderState, OnlyReads};
ghost use Rattle.command_base.specs.Stops.{EndCounts};
ghost use Rattle.line_tap.specs.Names.{named, inputs_of};
ghost use Rattle.line_tap.specs.declared.limits.TheConstants.{LIMITS};
ghost use Rattle.line_tap.specs.Outcomes.{IsBegun, IsRefused};

use crate::TapWords;
use crate::header::open_header;
use crate::limits::LIMITS;
use command_base::Stop;
use noise_script::Script;
use outside_calls::Folder;
use run_inputs::open_inputs;
use scramblers::Mode;
use std::alloc::Global;

/// The place of the first recording's name among the words.
const REC_O: usize = 1;

/// The place of the script's name.
const SCRIPT: usize = 3;

/// The inputs are taken in order: the script, the lengths of both recordings, and their headers, the originator's first.
pub(crate) fn open<F: Folder>(
    alloc: Global,
    folder: &mut F,
    words: &TapWords<'_>,
) -> Result<Script, Stop>
    ensures opened { IfOk result (IsBegun LIMITS (F.state folder.old) (F.state folder.new) (named words.now)) }
    ensures refused { IfErr result (IsRefused LIMITS (F.state folder.old) (F.state folder.new) (named words.now)) }
    ensures reads { OnlyReads (F.state folder.old) (F.state folder.new) }
    ensures counts { (outputs : List (List ℕ)) → EndCounts (F.state folder.old) (F.state folder.new) (inputs_of (named words.now)) outputs result }
{
    let recordings = [words.rec_o, words.rec_a];
    let script = match open_inputs(
        alloc,
        folder,
        (words.script, SCRIPT),
        &recordings,
        REC_O,
        LIMITS,
    ) {
        Ok(script) => script,
        Err(stop) => return Err(stop),
    };
    match open_header(folder, words.rec_o, Mode::Call) {
        Ok(()) => {}
        Err(stop) => return Err(stop),
    }
    match open_header(folder, words.rec_a, Mode::Answer) {
        Ok(()) => Ok(script),
        Err(stop) => Err(stop),
    }
}
