// What every answer of a soak promises. The functions do nothing but name the theorems that they rest on: each theorem is a contract.
ghost use Rattle.std.specs.Prelude.{List, ℕ};
ghost use Rattle.outside_calls.specs.Folder.{FolderState};
ghost use Rattle.command_base.specs.declared.status.Status.{Status};
ghost use Rattle.command_base.specs.Job.{Answers};
ghost use Rattle.run_commands.specs.Soaking.Ends.{soak_job};
ghost use Rattle.run_commands.specs.Soaking.Headline.{Headline};
ghost use Rattle.run_commands.specs.Soaking.Completes.{Completes};

use line_ends::laws::{line_runs_end_soon, lost_links_were_starved};
use line_run::laws::{one_result, runs_leave_prefixes, scripts_make_links};

/// Whatever a soak answers, its headline holds.
pub(crate) fn answers_keep_the_headline()
    ensures { (words : List (List ℕ)) (old new : FolderState) (seed : ℕ) (s : Status) → Answers (soak_job seed) words old new s → Headline old new seed s }
{
    scripts_make_links();
    runs_leave_prefixes();
    line_runs_end_soon();
    lost_links_were_starved();
}

/// Where printing doesn't fail, the answer is that to how the seed's run ends, but for lack of memory; where the line carries it to its end, it is
/// done.
pub(crate) fn carried_soaks_are_done()
    ensures { (words : List (List ℕ)) (old new : FolderState) (seed : ℕ) (s : Status) → Answers (soak_job seed) words old new s → Completes old new seed s }
{
    one_result();
    lost_links_were_starved();
}
