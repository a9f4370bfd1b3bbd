// Names for what a run writes, which is nothing that an audit keeps.
ghost use Rattle.std.specs.Prelude.{◌≡◌, ◌+◌, ◌∷◌, [], IfOk, length, string_bytes};
ghost use Rattle.outside_calls.specs.Outputs.{AreApartFrom};
ghost use Rattle.line_run.specs.Names.{written};
ghost use Rattle.trace_audit.specs.Made.{names_written};

use crate::AuditWords;
use line_world::Names;
use shared_terms::NoMemory;
use std::alloc::Global;

/// The names of the three outputs that a run would write. They differ from one another and from all names of the audit, since they are
/// longer.
#[derive(Drop)]
pub(crate) struct MadeNames {
    /// For what the originator receives.
    got_o: String,
    /// For what the answerer receives.
    got_a: String,
    /// For the trace.
    trace: String,
}

/// A name that is longer than all names of the audit together by that much.
fn longer_name(alloc: Global, words: &AuditWords<'_>, tail: &str) -> Result<String, NoMemory>
    ensures { IfOk result (λ name. length (string_bytes name) ≡ length words.now.orig.now + length words.now.answ.now + length words.now.trace.now + length tail.now) }
{
    let mut name = String::new(alloc);
    name.push_str(words.orig)?;
    name.push_str(words.answ)?;
    name.push_str(words.trace)?;
    name.push_str(tail)?;
    Ok(name)
}

impl MadeNames {
    ghost use Rattle.trace_audit.specs.Made.{made_outputs};

    /// Names for an audit of these.
    pub(crate) fn new(alloc: Global, words: &AuditWords<'_>) -> Result<MadeNames, NoMemory>
        ensures { IfOk result (λ made. AreApartFrom (words.now.orig.now ∷ words.now.answ.now ∷ []) (made_outputs made)) }
    {
        Ok(MadeNames {
            got_o: longer_name(alloc, words, "1")?,
            got_a: longer_name(alloc, words, "11")?,
            trace: longer_name(alloc, words, "111")?,
        })
    }
}

/// The names that turns use.
pub(crate) fn turn_names<'a>(orig: &'a str, answ: &'a str, made: &'a MadeNames) -> Names<'a>
    ensures { written result ≡ names_written orig.now answ.now made.now }
{
    Names {
        orig,
        answ,
        got_o: made.got_o.as_str(),
        got_a: made.got_a.as_str(),
        trace: made.trace.as_str(),
    }
}
