// The lines of a trace.
ghost use Rattle.std.specs.Prelude.{◌≡◌, ◌≤◌, ◌+◌, ◌++◌, [], length, codes};
ghost use Rattle.std.specs.Option.{option_map};
ghost use Rattle.line_texts.specs.LineText.{break_word, line_begins, line_of, line_text, sent_word};
ghost use Rattle.line_texts.specs.declared.words.TheConstants.{TEXT};

use crate::slots::{is_chance, put_given, put_heard, put_sent};
use crate::{LineText, put_decimal};
use lapm_frames::{Heard, Sent};
use shared_terms::Role;

/// A line of a trace: what an end heard and sent in a turn.
#[derive(Drop)]
pub struct TraceLine {
    /// From 0.
    pub turn: u64,
    /// The end that hears and sends.
    pub role: Role,
    /// What arrived at the end. An idle slot and none look alike.
    pub arrived: Heard,
    /// What the end sent; none in the last turn of a run.
    pub sent: Option<Sent>,
    /// The length of the break that the end's user was given, in units of 10 ms.
    pub given: Option<u8>,
}

/// Puts the turn and the role.
fn put_beginning(turn: u64, role: Role, out: &mut LineText)
    requires { out.old ≡ [] }
    ensures text { out.new ≡ line_begins turn role }
    ensures short { length out.new ≤ 26 }
{
    put_decimal(out, turn);
    out.push(b' ');
    out.extend(role.word().as_bytes());
    out.push(b' ');
}

/// Puts what was sent and which break was given.
fn put_reply(sent: Option<&Sent>, given: Option<u8>, out: &mut LineText)
    requires room { length out.old + 75 ≤ TEXT }
    ensures text { out.new ≡ out.old ++ codes " > " ++ sent_word (option_map (λ slot. slot.now) sent.entry) ++ break_word given }
    ensures short { length out.new ≤ length out.old + 58 }
{
    out.extend(b" > ");
    put_sent(sent, out);
    put_given(given, out);
}

/// Writes the text of a line with its line feed, by the line's parts. After a chance match nothing more stands in the line.
pub fn write_parts(
    turn: u64,
    role: Role,
    arrived: &Heard,
    sent: Option<&Sent>,
    given: Option<u8>,
    out: &mut LineText,
)
    requires { out.old ≡ [] }
    ensures text { out.new ≡ line_of turn role arrived.now (option_map (λ slot. slot.now) sent.entry) given }
    ensures short { length out.new ≤ TEXT }
{
    put_beginning(turn, role, out);
    put_heard(arrived, out);
    if !is_chance(arrived) {
        put_reply(sent, given, out);
    }
    out.push(b'\n');
}

/// Writes the text of a line with its line feed, as [`write_parts`] does.
pub fn write_line(line: &TraceLine, out: &mut LineText)
    requires { out.old ≡ [] }
    ensures text { out.new ≡ line_text line.now }
    ensures short { length out.new ≤ TEXT }
{
    write_parts(
        line.turn,
        line.role,
        &line.arrived,
        line.sent.as_ref(),
        line.given,
        out,
    );
}
