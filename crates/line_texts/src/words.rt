// The words of a frame's text.
ghost use Rattle.std.specs.Prelude.{◌≡◌, ◌≤◌, ◌+◌, ◌++◌, length, IfSome};
ghost use Rattle.std.specs.Option.{option_map};
ghost use Rattle.frame_check.specs.declared.sizes.TheConstants.{INFO};
ghost use Rattle.line_texts.specs.FrameText.{break_words, direction_word, if_informed, if_numbered, kind_word, number_word, poll_word};

use crate::put_decimal;
use break_signals::BreakWord;
use frame_check::Octets;

/// The most octets of a frame's text, and of a line of a trace or of a piece.
pub const TEXT: usize = 160;

/// The text of a frame, as ASCII characters.
pub type FrameText = Octets<TEXT>;

/// A line with its line feed, as ASCII characters.
pub type LineText = Octets<TEXT>;

/// Puts a count behind its label.
pub(crate) fn put_labelled(label: &[u8], count: usize, out: &mut LineText)
    requires label { length label.now ≤ 8 }
    requires count { count ≤ 9999 }
    requires room { length out.old + 28 ≤ TEXT }
    ensures text { out.new ≡ out.old ++ number_word label.now count }
    ensures short { length out.new ≤ length out.old + length label.now + 4 }
{
    out.extend(label);
    put_decimal(out, count as u64);
}

/// Puts a number behind its label, where the frame has it.
pub(crate) fn put_number(label: &[u8], number: Option<u8>, out: &mut LineText)
    requires label { length label.now ≤ 8 }
    requires room { length out.old + 28 ≤ TEXT }
    ensures text { out.new ≡ out.old ++ if_numbered label.now number }
    ensures short { length out.new ≤ length out.old + length label.now + 4 }
{
    if let Some(number) = number {
        put_labelled(label, usize::from(number), out);
    }
}

/// Puts whether the frame is a command or a response.
fn put_kind(command: bool, out: &mut LineText)
    requires room { length out.old + 4 ≤ TEXT }
    ensures text { out.new ≡ out.old ++ kind_word command }
    ensures short { length out.new ≤ length out.old + 4 }
{
    if command {
        out.extend(b" cmd");
    } else {
        out.extend(b" rsp");
    }
}

/// Puts whether the frame is a command or a response, where it has no N(S).
pub(crate) fn put_direction(ns: Option<u8>, command: bool, out: &mut LineText)
    requires room { length out.old + 4 ≤ TEXT }
    ensures text { out.new ≡ out.old ++ direction_word ns command }
    ensures short { length out.new ≤ length out.old + 4 }
{
    if ns.is_none() {
        put_kind(command, out);
    }
}

/// Puts the poll or final bit.
pub(crate) fn put_poll(pf: bool, out: &mut LineText)
    requires room { length out.old + 4 ≤ TEXT }
    ensures text { out.new ≡ out.old ++ poll_word pf }
    ensures short { length out.new ≤ length out.old + 4 }
{
    if pf {
        out.extend(b" p=1");
    } else {
        out.extend(b" p=0");
    }
}

/// Puts how many octets of information the frame has, where its kind has information.
pub(crate) fn put_count(info: Option<&[u8]>, out: &mut LineText)
    requires info { IfSome info (λ info. length info.now ≤ INFO) }
    requires room { length out.old + 28 ≤ TEXT }
    ensures text { out.new ≡ out.old ++ if_informed (option_map (λ info. info.now) info.entry) }
    ensures short { length out.new ≤ length out.old + 7 }
{
    if let Some(info) = info {
        put_labelled(b" n=", info.len(), out);
    }
}

/// Puts which break it is, or which break it answers.
pub(crate) fn put_break(word: BreakWord, out: &mut LineText)
    requires room { length out.old + 40 ≤ TEXT }
    ensures text { out.new ≡ out.old ++ break_words word }
    ensures short { length out.new ≤ length out.old + 17 }
{
    let (label, number, length) = match word {
        BreakWord::Brk { number, length } => (b" brk ".as_slice(), number, length),
        BreakWord::Ack { number, length } => (b" brkack ".as_slice(), number, length),
    };
    put_labelled(label, usize::from(number), out);
    put_labelled(b" ", usize::from(length), out);
}
