//! What every answer of an audit promises. The functions do nothing but name the theorems that they rest on: each theorem is a contract.
ghost use Rattle.std.specs.Prelude.{List, ℕ};
ghost use Rattle.outside_calls.specs.Folder.{FolderState};
ghost use Rattle.command_base.specs.declared.status.Status.{Status};
ghost use Rattle.command_base.specs.Job.{Answers};
ghost use Rattle.trace_audit.specs.Words.{AuditNames};
ghost use Rattle.trace_audit.specs.Verdict.{VerdictsAreOne};
ghost use Rattle.trace_audit.specs.Ends.{audit_job};
ghost use Rattle.trace_audit.specs.Headline.{Headline, YesIsTheTrace};
ghost use Rattle.trace_audit.specs.Completes.{Completes};

use crate::laws::{differences_are_one, texts_have_one_cut};
use line_run::laws::one_result;
use noise_script::laws::one_answer;

/// An audit of octets beside a text finds one thing: that they are it, or one first difference.
pub fn one_verdict()
    ensures { VerdictsAreOne }
{
    differences_are_one();
    texts_have_one_cut();
}

/// Where an audit is done and its inputs are known, the trace is the text of the run of exactly these files and of this script, up to its end.
pub fn a_yes_is_the_trace()
    ensures { YesIsTheTrace }
{}

/// Whatever an audit answers, its headline holds.
pub(crate) fn answers_keep_the_headline()
    ensures { (words : List (List ℕ)) (old new : FolderState) (n : AuditNames) (s : Status) → Answers (audit_job n) words old new s → Headline old new n s }
{}

/// Where the inputs are right and the folder is sound, the answer is the one to the text of their run, but for lack of memory.
pub(crate) fn right_traces_are_judged()
    ensures { (words : List (List ℕ)) (old new : FolderState) (n : AuditNames) (s : Status) → Answers (audit_job n) words old new s → Completes old new n s }
{
    one_result();
    one_answer();
    differences_are_one();
    texts_have_one_cut();
}
