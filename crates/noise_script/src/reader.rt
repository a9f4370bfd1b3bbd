// Reading a whole text.
ghost use Rattle.std.specs.Prelude.{◌≡◌, ◌⊎◌, ◌≤◌, ◌<◌, ◌+◌, [], ℕ, List, OnOk, length, IfOk, IfErr, MatchResult};
ghost use Rattle.noise_script.specs.Grammar.{ScriptSpelling, FirstFault, IsFaultOf, AreAllowed};
ghost use Rattle.noise_script.specs.Script.{ScriptValue};
ghost use Rattle.noise_script.specs.Draft.{Holds, HoldsLine, IsLineFault, HoldsUpTo, draft_script};
ghost use Rattle.noise_script.specs.Lines.{words_of};
ghost use Rattle.noise_script.specs.declared.entry.Entry.{Entry};
ghost use Rattle.shared_terms.specs.declared.cause.Cause.{Cause};

use crate::draft::Draft;
use crate::lines::next_line;
use crate::reading::read_line;
use crate::{SCRIPT_OCTETS, Script, ScriptFault};
use std::alloc::Global;

/// Adds what the line of that number says.
fn add_line(draft: &mut Draft, number: u32, line: &[u8]) -> Result<(), ScriptFault>
    ensures ok { (said : List Entry) → Holds draft.old said → AreAllowed said → OnOk result (HoldsLine said (words_of line.now) draft.new) }
    ensures fault { (said : List Entry) → Holds draft.old said → AreAllowed said → IfErr result (IsLineFault said (words_of line.now) number) }
{
    let entry = match read_line(line) {
        Ok(Some(entry)) => entry,
        Ok(None) => return Ok(()),
        Err(cause) => {
            return Err(ScriptFault::Line {
                line: number,
                cause,
            });
        }
    };
    if draft.is_full(entry) {
        return Err(ScriptFault::Line {
            line: number,
            cause: entry.form().bound().too_many(),
        });
    }
    draft.add(entry)?;
    Ok(())
}

/// What all lines of a text say.
fn read_draft(alloc: Global, text: &[u8]) -> Result<Draft, ScriptFault>
    requires { length text.now ≤ SCRIPT_OCTETS }
    ensures ok { IfOk result (λ draft. (number : ℕ) × HoldsUpTo text.now [] number draft) }
    ensures fault { IfErr result (IsFaultOf text.now) }
{
    let mut draft = Draft::new(alloc);
    let mut rest = text;
    let mut number: u32 = 0;
    while !rest.is_empty() {
        let (line, behind) = next_line(rest);
        number += 1;
        add_line(&mut draft, number, line)?;
        rest = behind;
    }
    Ok(draft)
}

/// Reads a script from a text.
///
/// Lines end with a line feed, which the last may lack, and one carriage return before it is dropped. Words are separated by
/// spaces and tabs. A line without words, or whose first word begins with `#`, is passed over. The others are
/// `delay THERE BACK`, `k ROLE N`, `n401 ROLE N`, `n400 N`, `srej ROLE`, `check32 ROLE`, `lose ROLE FROM COUNT`,
/// `hit ROLE FROM COUNT RE IM`, `noise ROLE FROM COUNT AMP SEED`, `break ROLE TURN LENGTH` and `busy ROLE FROM COUNT`,
/// where ROLE is `orig` or `answ`.
pub fn read_script(alloc: Global, text: &[u8]) -> Result<Script, ScriptFault>
    requires { length text.now ≤ SCRIPT_OCTETS }

    // A script is read exactly where the text spells one.
    ensures ok { IfOk result (ScriptSpelling text.now) }
    ensures all { (script : ScriptValue) → ScriptSpelling text.now script → MatchResult result (λ read. read ≡ script) (λ fault. fault ≡ ScriptFault.NoMemory) }

    // Else the answer is the first faulty line, with its first cause.
    ensures fault { IfErr result (IsFaultOf text.now) }
    ensures first { (line : ℕ) (cause : Cause) → FirstFault text.now line cause → MatchResult result (λ _. ⊥) (λ fault. (fault ≡ ScriptFault.Line line cause) ⊎ (fault ≡ ScriptFault.NoMemory)) }
{
    let draft = read_draft(alloc, text)?;
    Ok(draft.finish())
}
