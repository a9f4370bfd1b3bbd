// A line of a trace, read by its parts.
ghost use Rattle.std.specs.Prelude.{◌≡◌, ◌≤◌, ◌-◌, codes, length, IfOk, IsErr};
ghost use Rattle.std.specs.Option.{option_map};
ghost use Rattle.trace_audit.specs.declared.line.LineText.{LineText};
ghost use Rattle.trace_audit.specs.Grammar.{HasParts};
ghost use Rattle.trace_audit.specs.Reading.{before, body_at, given_at, heard_at, line_in, plain_at, reply_at, role_at, sent_and_given, sent_at};

use crate::cutting::{behind, number_at};
use crate::pieces::{COUNTS, behind_heard, behind_sent};
use crate::{LineText, Spelling, Words};
use shared_terms::Role;

/// The most octets of a line without its line feed.
const LINE: usize = 160;

/// A text without what stands behind its front.
fn words_before(text: &[u8], rest: &[u8]) -> Words
    requires within { length rest.now ≤ length text.now }
    requires short { length text.now - length rest.now ≤ 96 }
    ensures { result ≡ before text.now rest.now }
{
    let mut words = Words::new();
    words.extend(&text[..text.len() - rest.len()]);
    words
}

/// What arrived, and what stands behind it.
fn heard_at(text: &[u8]) -> Option<(Words, &[u8])>
    ensures { option_map (λ read. (read.0, read.1.now)) result ≡ heard_at text.now }
{
    let rest = behind_heard(text)?;
    Some((words_before(text, rest), rest))
}

/// What was sent, and what stands behind it.
fn sent_at(text: &[u8]) -> Option<(Words, &[u8])>
    ensures { option_map (λ read. (read.0, read.1.now)) result ≡ sent_at text.now }
{
    let rest = behind_sent(text)?;
    Some((words_before(text, rest), rest))
}

/// The role between two spaces, and what stands behind it.
fn role_at(text: &[u8]) -> Option<(Role, &[u8])>
    ensures { option_map (λ read. (read.0, read.1.now)) result ≡ role_at text.now }
{
    if let Some(rest) = behind(text, b" orig ") {
        return Some((Role::Originator, rest));
    }
    let rest = behind(text, b" answ ")?;
    Some((Role::Answerer, rest))
}

/// The break that was given, up to the end of the line.
fn given_at(text: &[u8]) -> Option<Option<u8>>
    ensures { result ≡ given_at text.now }
{
    if text.is_empty() {
        return Some(None);
    }
    let (units, rest) = number_at(behind(text, b" break=")?, 256)?;
    if rest.is_empty() {
        Some(Some(units as u8))
    } else {
        None
    }
}

/// What was sent, and which break was given.
fn sent_and_given(text: &[u8]) -> Option<(Words, Option<u8>)>
    ensures { result ≡ sent_and_given text.now }
{
    let (sent, rest) = sent_at(text)?;
    let given = given_at(rest)?;
    Some((sent, given))
}

fn reply_at(text: &[u8]) -> Option<(Words, Option<u8>)>
    ensures { result ≡ reply_at text.now }
{
    sent_and_given(behind(text, b" > ")?)
}

/// A line that isn't a chance match's, behind its role.
fn plain_at(turn: u64, role: Role, text: &[u8]) -> Option<LineText>
    ensures { result ≡ plain_at turn role text.now }
{
    let (arrived, rest) = heard_at(text)?;
    let (sent, given) = reply_at(rest)?;
    Some(LineText {
        turn,
        role,
        arrived,
        sent,
        given,
    })
}

/// The word of a chance match.
fn chance() -> Words
    ensures { result ≡ codes "chance" }
{
    let mut words = Words::new();
    words.extend(b"chance");
    words
}

/// A line behind its role.
fn body_at(turn: u64, role: Role, text: &[u8]) -> Option<LineText>
    ensures { result ≡ body_at turn role text.now }
{
    if text == b"chance".as_slice() {
        return Some(LineText {
            turn,
            role,
            arrived: chance(),
            sent: Words::new(),
            given: None,
        });
    }
    plain_at(turn, role, text)
}

fn line_in(line: &[u8]) -> Option<LineText>
    ensures { result ≡ line_in line.now }
{
    let (turn, rest) = number_at(line, COUNTS)?;
    let (role, rest) = role_at(rest)?;
    body_at(turn, role, rest)
}

/// The parts of a line, given without its line feed.
pub fn read_text(line: &[u8]) -> Result<LineText, Spelling>
    ensures ok { IfOk result (λ text. HasParts line.now text) }
    ensures err { IsErr result → (text : LineText) → HasParts line.now text → ⊥ }
{
    if line.len() > LINE {
        return Err(Spelling);
    }
    match line_in(line) {
        Some(text) => Ok(text),
        None => Err(Spelling),
    }
}
