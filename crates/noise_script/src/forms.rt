// The forms of a script's lines: their words, ranges and limits. A further form is a row of each function here, and a
// function that reads it.
ghost use Rattle.std.specs.Prelude.{◌≡◌, ◌≢◌, IfSome, IfNone, length};
ghost use Rattle.noise_script.specs.Forms.{row, word_of, arguments_of, most, too_many};

use crate::Cause;
use crate::limits::{BREAK_LINES, BUSY_LINES, HIT_LINES, LOSE_LINES, NOISE_LINES};
use frame_check::INFO;

/// A line's form, by its first word.
#[derive(Clone, Copy)]
pub(crate) enum Form {
    /// `delay`
    Delay,
    /// `k`
    Window,
    /// `n401`
    Length,
    /// `n400`
    Tries,
    /// `srej`
    Srej,
    /// `check32`
    Check32,
    /// `lose`
    Lose,
    /// `hit`
    Hit,
    /// `noise`
    Noise,
    /// `break`
    Break,
    /// `busy`
    Busy,
}

/// How many lines of a form there may be.
#[derive(Clone, Copy)]
pub(crate) enum Bound {
    /// Once in a script.
    Once,
    /// Once for each role.
    OnceEach,
    /// At most so many lines, of both roles together.
    AtMost(usize),
}

/// What a number may be, ends included.
#[derive(Clone, Copy)]
pub(crate) struct Range {
    /// The least number.
    pub(crate) low: u64,
    /// The greatest number.
    pub(crate) high: u64,
}

pub(crate) const DELAY: Range = Range { low: 1, high: 60 };

pub(crate) const WINDOW: Range = Range { low: 1, high: 127 };

pub(crate) const LENGTH: Range = Range {
    low: 1,
    high: INFO as u64,
};

pub(crate) const TRIES: Range = Range { low: 1, high: 20 };

pub(crate) const TURN: Range = Range {
    low: 0,
    high: 4294967295,
};

pub(crate) const COUNT: Range = Range {
    low: 1,
    high: 4294967295,
};

pub(crate) const SYMBOL: Range = Range {
    low: 0,
    high: 1099511627775,
};

pub(crate) const AMPLITUDE: Range = Range {
    low: 0,
    high: 32767,
};

pub(crate) const SEED: Range = Range {
    low: 0,
    high: u64::MAX,
};

pub(crate) const BREAK: Range = Range { low: 1, high: 255 };

pub(crate) const PAUSE: Range = Range {
    low: 1,
    high: 10000,
};

/// All of them.
const FORMS: [Form; 11] = [
    Form::Delay,
    Form::Window,
    Form::Length,
    Form::Tries,
    Form::Srej,
    Form::Check32,
    Form::Lose,
    Form::Hit,
    Form::Noise,
    Form::Break,
    Form::Busy,
];

impl Form {
    /// The word that lines of the form begin with.
    fn word(self) -> &'static [u8]
        ensures { result.now ≡ word_of self }
    {
        match self {
            Form::Delay => b"delay",
            Form::Window => b"k",
            Form::Length => b"n401",
            Form::Tries => b"n400",
            Form::Srej => b"srej",
            Form::Check32 => b"check32",
            Form::Lose => b"lose",
            Form::Hit => b"hit",
            Form::Noise => b"noise",
            Form::Break => b"break",
            Form::Busy => b"busy",
        }
    }

    /// The form of the lines that begin with a word.
    pub(crate) fn of_word(word: &[u8]) -> Option<Form>
        ensures some { IfSome result (λ form. word.now ≡ word_of form) }
        ensures none { IfNone result ((form : Form) → word.now ≢ word_of form) }
    {
        for form in FORMS.iter() {
            if word == form.word() {
                return Some(*form);
            }
        }
        None
    }

    /// How many words follow the first.
    pub(crate) fn arguments(self) -> usize
        ensures { result ≡ length (arguments_of self) }
    {
        match self {
            Form::Delay => 2,
            Form::Window => 2,
            Form::Length => 2,
            Form::Tries => 1,
            Form::Srej => 1,
            Form::Check32 => 1,
            Form::Lose => 3,
            Form::Hit => 5,
            Form::Noise => 5,
            Form::Break => 3,
            Form::Busy => 3,
        }
    }

    /// How many lines of the form there may be.
    pub(crate) fn bound(self) -> Bound
        ensures { result ≡ (row self).bound }
    {
        match self {
            Form::Delay => Bound::Once,
            Form::Window => Bound::OnceEach,
            Form::Length => Bound::OnceEach,
            Form::Tries => Bound::Once,
            Form::Srej => Bound::OnceEach,
            Form::Check32 => Bound::OnceEach,
            Form::Lose => Bound::AtMost(LOSE_LINES),
            Form::Hit => Bound::AtMost(HIT_LINES),
            Form::Noise => Bound::AtMost(NOISE_LINES),
            Form::Break => Bound::AtMost(BREAK_LINES),
            Form::Busy => Bound::AtMost(BUSY_LINES),
        }
    }
}

impl Bound {
    pub(crate) fn most(self) -> usize
        ensures { result ≡ most self }
    {
        match self {
            Bound::Once | Bound::OnceEach => 1,
            Bound::AtMost(lines) => lines,
        }
    }

    /// What is wrong with a line more than that.
    pub(crate) fn too_many(self) -> Cause
        ensures { result ≡ too_many self }
    {
        match self {
            Bound::Once | Bound::OnceEach => Cause::Repeated,
            Bound::AtMost(_) => Cause::Limit,
        }
    }
}
