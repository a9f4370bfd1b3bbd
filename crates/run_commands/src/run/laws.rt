// What every answer of a run promises. The functions do nothing but name the theorems that they rest on: each theorem is a contract.
ghost use Rattle.std.specs.Prelude.{List, ℕ};
ghost use Rattle.outside_calls.specs.Folder.{FolderState};
ghost use Rattle.command_base.specs.declared.status.Status.{Status};
ghost use Rattle.command_base.specs.Job.{Answers};
ghost use Rattle.run_inputs.specs.Words.{RunNames};
ghost use Rattle.run_commands.specs.Running.Ends.{run_job};
ghost use Rattle.run_commands.specs.Running.Headline.{Headline};
ghost use Rattle.run_commands.specs.Running.Completes.{Completes};

use exact_decoder::survivors::released_labels_begin_a_least_sequence;
use line_ends::laws::{
    line_runs_end_soon, lost_links_were_starved, undisturbed_runs_complete, unstarved_runs_complete,
};
use line_run::laws::{one_result, runs_leave_prefixes, samples_are_carried, scripts_make_links};
use link_run::laws::{prefixes, turns_deliver_what_came};
use noise_script::laws::{one_answer, spelled_scripts_are_in_limits};

/// Whatever a run answers, its headline holds.
pub(crate) fn answers_keep_the_headline()
    ensures { (words : List (List ℕ)) (old new : FolderState) (n : RunNames) (s : Status) → Answers (run_job n) words old new s → Headline old new n s }
{
    scripts_make_links();
    samples_are_carried();
    prefixes();
    turns_deliver_what_came();
    runs_leave_prefixes();
    line_runs_end_soon();
    lost_links_were_starved();
    released_labels_begin_a_least_sequence();
}

/// Where the inputs are right and the folder is sound, the answer is that to how their run ends, but for lack of memory; where besides the
/// run is carried to its end, or its losses are few, it is done.
pub(crate) fn right_runs_are_done()
    ensures { (words : List (List ℕ)) (old new : FolderState) (n : RunNames) (s : Status) → Answers (run_job n) words old new s → Completes old new n s }
{
    one_result();
    one_answer();
    spelled_scripts_are_in_limits();
    lost_links_were_starved();
    unstarved_runs_complete();
    undisturbed_runs_complete();
}
