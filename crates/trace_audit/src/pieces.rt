// The pieces of a line, from its front.
ghost use Rattle.std.specs.Prelude.{◌≡◌};
ghost use Rattle.std.specs.Option.{option_map};
ghost use Rattle.trace_audit.specs.Grammar.{Numbered, Supervisory};
ghost use Rattle.trace_audit.specs.Pieces.{behind_break, behind_count, behind_direction, behind_either_way, behind_frame, behind_heard, behind_information, behind_labelled_break, behind_lost, behind_one_way, behind_poll, behind_sent, behind_shape, behind_signal};

use crate::cutting::{behind, behind_labelled, behind_number, cut_word};
use crate::shape::{Shape, shape_named};

/// N(S) and N(R) are below this.
const NUMBERS: u64 = 128;

/// Turns and counts of octets are below this.
pub(crate) const COUNTS: u64 = 1 << 40;

fn behind_direction(text: &[u8]) -> Option<&[u8]>
    ensures { option_map (λ rest. rest.now) result ≡ behind_direction text.now }
{
    match behind(text, b" cmd") {
        Some(rest) => Some(rest),
        None => behind(text, b" rsp"),
    }
}

fn behind_poll(text: &[u8]) -> Option<&[u8]>
    ensures { option_map (λ rest. rest.now) result ≡ behind_poll text.now }
{
    match behind(text, b" p=0") {
        Some(rest) => Some(rest),
        None => behind(text, b" p=1"),
    }
}

fn behind_count(text: &[u8]) -> Option<&[u8]>
    ensures { option_map (λ rest. rest.now) result ≡ behind_count text.now }
{
    behind_labelled(text, b" n=", COUNTS)
}

/// A break's number, and its length.
fn behind_break(text: &[u8]) -> Option<&[u8]>
    ensures { option_map (λ rest. rest.now) result ≡ behind_break text.now }
{
    behind_labelled(behind_number(text, 2)?, b" ", 256)
}

fn behind_labelled_break<'a>(text: &'a [u8], label: &[u8]) -> Option<&'a [u8]>
    ensures { option_map (λ rest. rest.now) result ≡ behind_labelled_break label.now text.now }
{
    behind_break(behind(text, label)?)
}

/// A break, its answer, or a count of octets.
fn behind_information(text: &[u8]) -> Option<&[u8]>
    ensures { option_map (λ rest. rest.now) result ≡ behind_information text.now }
{
    if let Some(rest) = behind_labelled_break(text, b" brk ") {
        return Some(rest);
    }
    if let Some(rest) = behind_labelled_break(text, b" brkack ") {
        return Some(rest);
    }
    behind_count(text)
}

/// Behind both numbers, the poll and a count.
fn behind_numbered(text: &[u8]) -> Option<&[u8]>
    ensures { option_map (λ rest. rest.now) result ≡ behind_shape Numbered text.now }
{
    let text = behind_labelled(text, b" s=", NUMBERS)?;
    let text = behind_labelled(text, b" r=", NUMBERS)?;
    behind_count(behind_poll(text)?)
}

/// Behind the direction, N(R) and the poll.
fn behind_supervisory(text: &[u8]) -> Option<&[u8]>
    ensures { option_map (λ rest. rest.now) result ≡ behind_shape Supervisory text.now }
{
    let text = behind_direction(text)?;
    behind_poll(behind_labelled(text, b" r=", NUMBERS)?)
}

/// Behind one direction, and the poll.
fn behind_one_way<'a>(text: &'a [u8], direction: &[u8]) -> Option<&'a [u8]>
    ensures { option_map (λ rest. rest.now) result ≡ behind_one_way direction.now text.now }
{
    behind_poll(behind(text, direction)?)
}

/// Behind either direction, and the poll.
fn behind_either_way(text: &[u8]) -> Option<&[u8]>
    ensures { option_map (λ rest. rest.now) result ≡ behind_either_way text.now }
{
    behind_poll(behind_direction(text)?)
}

/// What stands behind a frame's text whose name stands before this.
fn behind_shape(shape: Shape, text: &[u8]) -> Option<&[u8]>
    ensures { option_map (λ rest. rest.now) result ≡ behind_shape shape text.now }
{
    match shape {
        Shape::Numbered => behind_numbered(text),
        Shape::Supervisory => behind_supervisory(text),
        Shape::Commanding => behind_one_way(text, b" cmd"),
        Shape::Responding => behind_one_way(text, b" rsp"),
        Shape::Rejecting => behind_count(behind_one_way(text, b" rsp")?),
        Shape::Exchanging => behind_count(behind_either_way(text)?),
        Shape::Unnumbered => behind_information(behind_either_way(text)?),
    }
}

fn behind_frame(text: &[u8]) -> Option<&[u8]>
    ensures { option_map (λ rest. rest.now) result ≡ behind_frame text.now }
{
    let (name, rest) = cut_word(text);
    behind_shape(shape_named(name)?, rest)
}

/// What stands behind a pattern or a frame.
fn behind_signal(text: &[u8]) -> Option<&[u8]>
    ensures { option_map (λ rest. rest.now) result ≡ behind_signal text.now }
{
    if let Some(rest) = behind(text, b"odp") {
        return Some(rest);
    }
    if let Some(rest) = behind(text, b"adp") {
        return Some(rest);
    }
    behind_frame(text)
}

fn behind_lost(text: &[u8]) -> Option<&[u8]>
    ensures { option_map (λ rest. rest.now) result ≡ behind_lost text.now }
{
    behind_signal(behind(text, b"lost ")?)
}

/// What stands behind what arrived.
pub(crate) fn behind_heard(text: &[u8]) -> Option<&[u8]>
    ensures { option_map (λ rest. rest.now) result ≡ behind_heard text.now }
{
    if let Some(rest) = behind(text, b"-") {
        return Some(rest);
    }
    if let Some(rest) = behind_lost(text) {
        return Some(rest);
    }
    behind_signal(text)
}

/// What stands behind what was sent.
pub(crate) fn behind_sent(text: &[u8]) -> Option<&[u8]>
    ensures { option_map (λ rest. rest.now) result ≡ behind_sent text.now }
{
    if let Some(rest) = behind(text, b"mark") {
        return Some(rest);
    }
    if let Some(rest) = behind(text, b"flags") {
        return Some(rest);
    }
    if let Some(rest) = behind(text, b"none") {
        return Some(rest);
    }
    behind_signal(text)
}
