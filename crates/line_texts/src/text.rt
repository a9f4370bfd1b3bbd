// Frames as texts.
ghost use Rattle.std.specs.Prelude.{◌≡◌, ◌≤◌, ◌+◌, ◌++◌, [], length, IfSome};
ghost use Rattle.std.specs.Option.{option_map};
ghost use Rattle.frame_check.specs.declared.sizes.TheConstants.{INFO};
ghost use Rattle.line_texts.specs.FrameText.{break_in, frame_text, information_words};
ghost use Rattle.line_texts.specs.declared.words.TheConstants.{TEXT};

use crate::words::{put_break, put_count, put_direction, put_number, put_poll};
use crate::{FrameText, LineText};
use break_signals::{BreakWord, read_break};
use lapm_frames::{Frame, LentFrame};

/// The break's word that a frame carries.
fn break_in(frame: &LentFrame<'_>) -> Option<BreakWord>
    ensures { result ≡ break_in frame.now }
{
    match frame.information_of_ui() {
        Some(info) => match read_break(info) {
            Ok(word) => Some(word),
            Err(_) => None,
        },
        None => None,
    }
}

/// Puts what a frame's information is: a break's word, or so many octets.
fn put_information(word: Option<BreakWord>, info: Option<&[u8]>, out: &mut LineText)
    requires info { IfSome info (λ info. length info.now ≤ INFO) }
    requires room { length out.old + 40 ≤ TEXT }
    ensures text { out.new ≡ out.old ++ information_words word (option_map (λ info. info.now) info.entry) }
    ensures short { length out.new ≤ length out.old + 17 }
{
    match word {
        Some(word) => put_break(word, out),
        None => put_count(info, out),
    }
}

/// Puts the text of a frame behind the octets: its kind, whether it is a command or a response where that isn't the kind's, its numbers
/// N(S) and N(R), its poll or final bit, and how many octets of information it has or, in a UI that carries a break or its answer, which one.
pub fn put_frame_text(frame: &LentFrame<'_>, out: &mut LineText)
    requires room { length out.old + 70 ≤ TEXT }
    ensures text { out.new ≡ out.old ++ frame_text frame.now }
    ensures short { length out.new ≤ length out.old + 44 }
{
    let parts = frame.parts();
    out.extend(parts.name);
    put_direction(parts.ns, parts.command, out);
    put_number(b" s=", parts.ns, out);
    put_number(b" r=", parts.nr, out);
    put_poll(parts.pf, out);
    put_information(break_in(frame), parts.info, out);
}

/// Puts the text of a frame.
pub(crate) fn put_frame(frame: &Frame, out: &mut LineText)
    requires room { length out.old + 70 ≤ TEXT }
    ensures text { out.new ≡ out.old ++ frame_text frame.now }
    ensures short { length out.new ≤ length out.old + 44 }
{
    put_frame_text(&frame.lent(), out);
}

/// Writes the text of a frame, as [`put_frame_text`] puts it.
pub fn write_frame_text(frame: &Frame, out: &mut FrameText)
    requires { out.old ≡ [] }
    ensures { out.new ≡ frame_text frame.now }
{
    put_frame(frame, out);
}
