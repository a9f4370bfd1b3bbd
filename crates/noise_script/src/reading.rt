// Reading one line.
ghost use Rattle.std.specs.Prelude.{◌≡◌, ◌≢◌, ◌≤◌, [], ◌∷◌, List, IfOk, IfErr, MatchResult, length, pos, neg_ℤ};
ghost use Rattle.noise_script.specs.Lines.{words_of};
ghost use Rattle.noise_script.specs.Forms.{Argument, ARole, Number, Signed, RoleIs, NumberIs, SignedIs, Reads, ReadsSpan, FailsToRead, SpellsForm, FirstFails, arguments_of, LineSays, Misspells};

use crate::Cause;
use crate::entry::{Break, Delays, Entry, Hit, Length, Loss, Noise, Pause, Window};
use crate::forms::{
    AMPLITUDE, BREAK, COUNT, DELAY, Form, LENGTH, PAUSE, Range, SEED, SYMBOL, TRIES, TURN, WINDOW,
};
use crate::lines::{count_words, first_word, next_word};
use crate::numbers::{read_number, read_role, read_signed};
use shared_terms::Role;

/// The role at the front of a line, and the line behind it.
fn role(line: &[u8]) -> Result<(Role, &[u8]), Cause>
    requires { words_of line.now ≢ [] }
    ensures { MatchResult result (λ read. Reads ARole (words_of line.now) (RoleIs read.0) (words_of read.1.now)) (FailsToRead ARole (words_of line.now)) }
{
    let (word, rest) = first_word(line);
    Ok((read_role(word)?, rest))
}

/// The number at the front of a line, and the line behind it.
fn number(line: &[u8], range: Range) -> Result<(u64, &[u8]), Cause>
    requires { words_of line.now ≢ [] }
    ensures { MatchResult result (λ read. Reads (Number range.low range.high) (words_of line.now) (NumberIs read.0) (words_of read.1.now)) (FailsToRead (Number range.low range.high) (words_of line.now)) }
{
    let (word, rest) = first_word(line);
    Ok((read_number(word, range)?, rest))
}

/// The coordinate at the front of a line, and the line behind it.
fn coordinate(line: &[u8]) -> Result<(i16, &[u8]), Cause>
    requires { words_of line.now ≢ [] }
    ensures { MatchResult result (λ read. Reads (Signed (neg_ℤ (pos 32768)) (pos 32767)) (words_of line.now) (SignedIs read.0) (words_of read.1.now)) (FailsToRead (Signed (neg_ℤ (pos 32768)) (pos 32767)) (words_of line.now)) }
{
    let (word, rest) = first_word(line);
    Ok((read_signed(word, i16::MIN, i16::MAX)?, rest))
}

fn read_delays(words: &[u8]) -> Result<Entry, Cause>
    requires { length (words_of words.now) ≡ 2 }
    ensures { MatchResult result (SpellsForm Form.Delay (words_of words.now)) (FirstFails (arguments_of Form.Delay) (words_of words.now)) }
{
    let (orig, words) = number(words, DELAY)?;
    let (answ, _) = number(words, DELAY)?;
    Ok(Entry::Delay(Delays {
        orig: orig as u8,
        answ: answ as u8,
    }))
}

fn read_window(words: &[u8]) -> Result<Entry, Cause>
    requires { length (words_of words.now) ≡ 2 }
    ensures { MatchResult result (SpellsForm Form.Window (words_of words.now)) (FirstFails (arguments_of Form.Window) (words_of words.now)) }
{
    let (role, words) = role(words)?;
    let (segments, _) = number(words, WINDOW)?;
    Ok(Entry::Window(Window {
        role,
        segments: segments as u8,
    }))
}

fn read_length(words: &[u8]) -> Result<Entry, Cause>
    requires { length (words_of words.now) ≡ 2 }
    ensures { MatchResult result (SpellsForm Form.Length (words_of words.now)) (FirstFails (arguments_of Form.Length) (words_of words.now)) }
{
    let (role, words) = role(words)?;
    let (octets, _) = number(words, LENGTH)?;
    Ok(Entry::Length(Length {
        role,
        octets: octets as u16,
    }))
}

fn read_tries(words: &[u8]) -> Result<Entry, Cause>
    requires { length (words_of words.now) ≡ 1 }
    ensures { MatchResult result (SpellsForm Form.Tries (words_of words.now)) (FirstFails (arguments_of Form.Tries) (words_of words.now)) }
{
    let (tries, _) = number(words, TRIES)?;
    Ok(Entry::Tries(tries as u8))
}

fn read_srej(words: &[u8]) -> Result<Entry, Cause>
    requires { length (words_of words.now) ≡ 1 }
    ensures { MatchResult result (SpellsForm Form.Srej (words_of words.now)) (FirstFails (arguments_of Form.Srej) (words_of words.now)) }
{
    let (role, _) = role(words)?;
    Ok(Entry::Srej(role))
}

fn read_check32(words: &[u8]) -> Result<Entry, Cause>
    requires { length (words_of words.now) ≡ 1 }
    ensures { MatchResult result (SpellsForm Form.Check32 (words_of words.now)) (FirstFails (arguments_of Form.Check32) (words_of words.now)) }
{
    let (role, _) = role(words)?;
    Ok(Entry::Check32(role))
}

/// A role, and two numbers behind it.
struct Span {
    /// The first word.
    role: Role,
    /// The second word.
    from: u64,
    /// The third word.
    count: u64,
}

/// The role and the two numbers at the front of a line, and the line behind them.
fn read_span(line: &[u8], from: Range, count: Range) -> Result<(Span, &[u8]), Cause>
    requires { 3 ≤ length (words_of line.now) }
    ensures ok { IfOk result (λ read. ReadsSpan (Number from.low from.high) (Number count.low count.high) (words_of line.now) read.0.role read.0.from read.0.count (words_of read.1.now)) }
    ensures from { IfOk result (λ read. read.0.from ≤ from.high) }
    ensures count { IfOk result (λ read. read.0.count ≤ count.high) }
    ensures err { IfErr result (λ cause. (more : List Argument) → FirstFails (ARole ∷ Number from.low from.high ∷ Number count.low count.high ∷ more) (words_of line.now) cause) }
{
    let (role, words) = role(line)?;
    let (from, words) = number(words, from)?;
    let (count, words) = number(words, count)?;
    Ok((Span { role, from, count }, words))
}

fn read_loss(words: &[u8]) -> Result<Entry, Cause>
    requires { length (words_of words.now) ≡ 3 }
    ensures { MatchResult result (SpellsForm Form.Lose (words_of words.now)) (FirstFails (arguments_of Form.Lose) (words_of words.now)) }
{
    let (Span { role, from, count }, _) = read_span(words, TURN, COUNT)?;
    Ok(Entry::Lose(Loss {
        role,
        from: from as u32,
        count: count as u32,
    }))
}

fn read_hit(words: &[u8]) -> Result<Entry, Cause>
    requires { length (words_of words.now) ≡ 5 }
    ensures { MatchResult result (SpellsForm Form.Hit (words_of words.now)) (FirstFails (arguments_of Form.Hit) (words_of words.now)) }
{
    let (Span { role, from, count }, words) = read_span(words, SYMBOL, COUNT)?;
    let (re, words) = coordinate(words)?;
    let (im, _) = coordinate(words)?;
    Ok(Entry::Hit(Hit {
        role,
        from,
        count: count as u32,
        re,
        im,
    }))
}

fn read_noise(words: &[u8]) -> Result<Entry, Cause>
    requires { length (words_of words.now) ≡ 5 }
    ensures { MatchResult result (SpellsForm Form.Noise (words_of words.now)) (FirstFails (arguments_of Form.Noise) (words_of words.now)) }
{
    let (Span { role, from, count }, words) = read_span(words, SYMBOL, COUNT)?;
    let (amplitude, words) = number(words, AMPLITUDE)?;
    let (seed, _) = number(words, SEED)?;
    Ok(Entry::Noise(Noise {
        role,
        from,
        count: count as u32,
        amplitude: amplitude as u16,
        seed,
    }))
}

fn read_break(words: &[u8]) -> Result<Entry, Cause>
    requires { length (words_of words.now) ≡ 3 }
    ensures { MatchResult result (SpellsForm Form.Break (words_of words.now)) (FirstFails (arguments_of Form.Break) (words_of words.now)) }
{
    let (Span { role, from, count }, _) = read_span(words, TURN, BREAK)?;
    Ok(Entry::Break(Break {
        role,
        turn: from as u32,
        length: count as u8,
    }))
}

fn read_pause(words: &[u8]) -> Result<Entry, Cause>
    requires { length (words_of words.now) ≡ 3 }
    ensures { MatchResult result (SpellsForm Form.Busy (words_of words.now)) (FirstFails (arguments_of Form.Busy) (words_of words.now)) }
{
    let (Span { role, from, count }, _) = read_span(words, TURN, PAUSE)?;
    Ok(Entry::Busy(Pause {
        role,
        from: from as u32,
        count: count as u16,
    }))
}

/// What the words behind a form's first word say.
fn read_entry(form: Form, words: &[u8]) -> Result<Entry, Cause>
    requires { length (words_of words.now) ≡ length (arguments_of form) }
    ensures { MatchResult result (SpellsForm form (words_of words.now)) (FirstFails (arguments_of form) (words_of words.now)) }
{
    match form {
        Form::Delay => read_delays(words),
        Form::Window => read_window(words),
        Form::Length => read_length(words),
        Form::Tries => read_tries(words),
        Form::Srej => read_srej(words),
        Form::Check32 => read_check32(words),
        Form::Lose => read_loss(words),
        Form::Hit => read_hit(words),
        Form::Noise => read_noise(words),
        Form::Break => read_break(words),
        Form::Busy => read_pause(words),
    }
}

/// What a line says, or nothing where it is passed over.
pub(crate) fn read_line(line: &[u8]) -> Result<Option<Entry>, Cause>
    ensures { MatchResult result (LineSays (words_of line.now)) (Misspells (words_of line.now)) }
{
    let Some((first, rest)) = next_word(line) else {
        return Ok(None);
    };
    if first.first() == Some(&b'#') {
        return Ok(None);
    }
    let Some(form) = Form::of_word(first) else {
        return Err(Cause::Word);
    };
    if count_words(rest) != form.arguments() {
        return Err(Cause::Count);
    }
    Ok(Some(read_entry(form, rest)?))
}
