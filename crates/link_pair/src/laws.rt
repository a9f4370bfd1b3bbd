//! What every answer of a pair promises. The functions do nothing but name the theorems that they rest on: each theorem is a contract.
ghost use Rattle.std.specs.Prelude.{List, ℕ};
ghost use Rattle.outside_calls.specs.Folder.{FolderState};
ghost use Rattle.command_base.specs.declared.status.Status.{Status};
ghost use Rattle.command_base.specs.Job.{Answers};
ghost use Rattle.link_pair.specs.Words.{Names};
ghost use Rattle.link_pair.specs.Ends.{pair_job};
ghost use Rattle.link_pair.specs.Headline.{Headline};
ghost use Rattle.link_pair.specs.Completes.{Completes};

use crate::pair_laws::{one_pair_result, pairs_are_isolated, pairs_complete, pairs_leave_prefixes};
use exact_decoder::survivors::released_labels_begin_a_least_sequence;
use line_ends::laws::{
    few_losses_keep_links, lost_links_were_starved, undisplaced_runs_have_faint_noise,
    undisturbed_runs_complete,
};
use line_run::laws::{
    line_runs_end_soon, runs_leave_prefixes, samples_are_carried, scripts_make_links,
};
use link_run::laws::{prefixes, turns_deliver_what_came, what_passed_is_taken};
use noise_script::laws::{one_answer, spelled_scripts_are_in_limits};

/// Whatever a pair answers, its headline holds.
pub(crate) fn answers_keep_the_headline()
    ensures { (words : List (List ℕ)) (old new : FolderState) (n : Names) (s : Status) → Answers (pair_job n) words old new s → Headline old new n s }
{
    scripts_make_links();
    samples_are_carried();
    prefixes();
    turns_deliver_what_came();
    what_passed_is_taken();
    runs_leave_prefixes();
    pairs_leave_prefixes();
    pairs_are_isolated();
    spelled_scripts_are_in_limits();
    line_runs_end_soon();
    lost_links_were_starved();
    released_labels_begin_a_least_sequence();
}

/// Where the inputs are right and the folder is sound, the answer is that to how their pair ends, but for lack of memory; where besides
/// both links are carried to their ends, or their losses are few, they are done.
pub(crate) fn right_pairs_are_done()
    ensures { (words : List (List ℕ)) (old new : FolderState) (n : Names) (s : Status) → Answers (pair_job n) words old new s → Completes old new n s }
{
    one_pair_result();
    one_answer();
    spelled_scripts_are_in_limits();
    pairs_complete();
    pairs_are_isolated();
    few_losses_keep_links();
    undisplaced_runs_have_faint_noise();
    undisturbed_runs_complete();
}
