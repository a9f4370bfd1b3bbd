//! What every answer of a tap promises, and its limits as numbers. The functions do nothing but name the theorems that they rest on: each theorem is a
//! contract.
ghost use Rattle.std.specs.Prelude.{◌≡◌, List, ℕ};
ghost use Rattle.outside_calls.specs.Folder.{FolderState};
ghost use Rattle.command_base.specs.declared.status.Status.{Status};
ghost use Rattle.command_base.specs.Job.{Answers};
ghost use Rattle.line_tap.specs.Names.{TapNames};
ghost use Rattle.line_tap.specs.declared.limits.TheConstants.{LIMITS, TAP_LIMIT};
ghost use Rattle.line_tap.specs.Outcomes.{tap_job};
ghost use Rattle.line_tap.specs.Headline.{Headline};
ghost use Rattle.line_tap.specs.Completes.{Completes};

use crate::laws::recordings_tell_once;
use noise_script::laws::one_answer;

/// A script has at most 65,536 octets, and a recording at most 268,435,456; it is read up to there.
pub fn limits_of_a_tap()
    ensures script { LIMITS.script ≡ 65536 }
    ensures file { LIMITS.file ≡ 268435456 }
    ensures place { TAP_LIMIT ≡ LIMITS.file }
{}

/// Whatever a tap answers, its headline holds.
pub(crate) fn answers_keep_the_headline()
    ensures { (words : List (List ℕ)) (old new : FolderState) (n : TapNames) (s : Status) → Answers (tap_job n) words old new s → Headline old new n s }
{}

/// Where the inputs are right and the folder is sound, the answer is that to how their reading ends, but for lack of memory.
pub(crate) fn right_taps_are_told()
    ensures { (words : List (List ℕ)) (old new : FolderState) (n : TapNames) (s : Status) → Answers (tap_job n) words old new s → Completes old new n s }
{
    recordings_tell_once();
    one_answer();
}
