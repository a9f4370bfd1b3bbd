// Lines of a run, compared with the octets of a name.
ghost use Rattle.std.specs.Prelude.{◌≡◌, ◌≤◌, ◌<◌, ◌+◌, ◌++◌, ◌∷◌, [], List, ℕ, IsTrue, None, Ok, IfOk, IfErr, OnOk, drop, length, take};
ghost use Rattle.outside_calls.specs.Folder.{OnlyReads};
ghost use Rattle.command_base.specs.Stops.{EndCounts};
ghost use Rattle.trace_audit.specs.Differences.{is_no_feed, IsCut, text_of};
ghost use Rattle.trace_audit.specs.Compared.{Compared, HasWindow, IsFew, audited, place_of};
ghost use Rattle.trace_audit.specs.Cutting.{front_of, rest_of};
ghost use Rattle.trace_audit.specs.Lines.{AreLines};
ghost use Rattle.trace_audit.specs.Turns.{HasFew, IsReading};

use crate::command::TRACE_LIMIT;
use crate::{Comparison, WINDOW, cut_line};
use command_base::{Stop, read_part};
use outside_calls::Folder;

/// Fills the front of the window with the octets of a trace from the place on where it is to be read on, and answers how many. A trace ends at its
/// limit, also where it grew since its length was looked at. Once a difference was found nothing is read.
pub(crate) fn read_on<F: Folder>(
    folder: &mut F,
    trace: &str,
    comparison: &Comparison,
    window: &mut [u8],
) -> Result<usize, Stop>
    ensures window { IfOk result (λ count. IsTrue ((F.state folder.old).tells trace.now)
        → HasWindow (audited (F.state folder.old) trace.now) comparison.now (length window.old) (take count window.new)) }
    ensures bound { IfOk result (λ count. count ≤ length window.new) }
    ensures unread { place_of comparison.now ≡ None → F.state folder.new ≡ F.state folder.old }
    ensures none { place_of comparison.now ≡ None → result ≡ Ok 0 }
    ensures stops { IfErr result IsReading }
    ensures reads { OnlyReads (F.state folder.old) (F.state folder.new) }
    ensures counts { EndCounts (F.state folder.old) (F.state folder.new) (trace.now ∷ []) [] result }
{
    match comparison.place() {
        None => Ok(0),
        Some(at) => {
            if TRACE_LIMIT < at {
                return Ok(0);
            }
            match read_part(folder, trace, TRACE_LIMIT, at, window) {
                Ok(count) => Ok(count),
                Err(fault) => Err(Stop::Read(fault)),
            }
        }
    }
}

/// One line is compared.
fn compare_line<F: Folder>(
    folder: &mut F,
    trace: &str,
    line: &[u8],
    comparison: &mut Comparison,
) -> Result<(), Stop>
    requires lines { AreLines (line.now ∷ []) }
    requires few { HasFew 1 comparison.old }
    ensures compared { (lines : List (List ℕ)) → IsTrue ((F.state folder.old).tells trace.now) → Compared (audited (F.state folder.old) trace.now) lines comparison.old
        → OnOk result (Compared (audited (F.state folder.old) trace.now) (lines ++ line.now ∷ []) comparison.new) }
    ensures few { (n : ℕ) → IsFew n comparison.old → OnOk result (IsFew (n + 1) comparison.new) }
    ensures unread { place_of comparison.old ≡ None → F.state folder.new ≡ F.state folder.old }
    ensures stops { IfErr result IsReading }
    ensures reads { OnlyReads (F.state folder.old) (F.state folder.new) }
    ensures counts { EndCounts (F.state folder.old) (F.state folder.new) (trace.now ∷ []) [] result }
{
    let mut window = [0; WINDOW];
    match read_on(folder, trace, comparison, &mut window) {
        Ok(count) => {
            comparison.compare(line, &window[..count]);
            Ok(())
        }
        Err(stop) => Err(stop),
    }
}

/// The first line of a text, and what stands behind its line feed.
fn first_line(text: &[u8]) -> (&[u8], &[u8])
    ensures line { result.0.now ≡ front_of is_no_feed text.now }
    ensures rest { result.1.now ≡ drop 1 (rest_of is_no_feed text.now) }
{
    let (line, rest) = cut_line(text);
    match rest.split_first() {
        Some((_, behind)) => (line, behind),
        None => (line, &[]),
    }
}

/// The lines of a text are compared.
pub(crate) fn compare_text<F: Folder>(
    folder: &mut F,
    trace: &str,
    text: &[u8],
    comparison: &mut Comparison,
) -> Result<(), Stop>
    requires { (lines : List (List ℕ)) × (text.now ≡ text_of lines) × AreLines lines × HasFew (length lines) comparison.old }
    ensures compared { (before lines : List (List ℕ)) → IsCut text.now lines → IsTrue ((F.state folder.old).tells trace.now) → Compared (audited (F.state folder.old) trace.now) before comparison.old
        → OnOk result (Compared (audited (F.state folder.old) trace.now) (before ++ lines) comparison.new) }
    ensures few { (n : ℕ) (lines : List (List ℕ)) → IsCut text.now lines → IsFew n comparison.old → OnOk result (IsFew (n + length lines) comparison.new) }
    ensures stops { IfErr result IsReading }
    ensures reads { OnlyReads (F.state folder.old) (F.state folder.new) }
    ensures counts { EndCounts (F.state folder.old) (F.state folder.new) (trace.now ∷ []) [] result }
{
    let mut rest = text;
    while !rest.is_empty() {
        let (line, behind) = first_line(rest);
        match compare_line(folder, trace, line, comparison) {
            Ok(()) => rest = behind,
            Err(stop) => return Err(stop),
        }
    }
    Ok(())
}
