// What a line of a script says.

use crate::forms::Form;
use shared_terms::Role;

/// The slots that a role sends in `count` turns from `from` on.
#[derive(Clone, Copy)]
pub struct Loss {
    /// The end that sends.
    pub role: Role,
    /// The first turn.
    pub from: u32,
    /// Turns, at least 1.
    pub count: u32,
}

/// One offset for `count` symbols of a role from `from` on.
#[derive(Clone, Copy)]
pub struct Hit {
    /// The end that sends.
    pub role: Role,
    /// The first symbol, counted from 0 over all slots.
    pub from: u64,
    /// Symbols, at least 1.
    pub count: u32,
    /// Units of a sample.
    pub re: i16,
    /// Units of a sample.
    pub im: i16,
}

/// Offsets drawn from a seed for `count` symbols of a role from `from` on, each part at most `amplitude` from zero.
#[derive(Clone, Copy)]
pub struct Noise {
    /// The end that sends.
    pub role: Role,
    /// The first symbol, counted from 0 over all slots.
    pub from: u64,
    /// Symbols, at least 1.
    pub count: u32,
    /// Units of a sample.
    pub amplitude: u16,
    /// The seed of the generator, which also knows the role.
    pub seed: u64,
}

/// A break that a role's user asks for from a turn on. Its length is in units of 10 ms.
#[derive(Clone, Copy)]
pub struct Break {
    /// The end whose user asks.
    pub role: Role,
    /// From this turn on.
    pub turn: u32,
    /// In units of 10 ms.
    pub length: u8,
}

/// The `count` turns from `from` on in which a role's user asks for a pause.
#[derive(Clone, Copy)]
pub struct Pause {
    /// The end whose user asks.
    pub role: Role,
    /// The first turn.
    pub from: u32,
    /// Turns, 1 to 10,000.
    pub count: u16,
}

/// The window that a role offers both ways.
#[derive(Clone, Copy)]
pub(crate) struct Window {
    /// The end that offers it, both ways.
    pub(crate) role: Role,
    /// 1 to 127 [k].
    pub(crate) segments: u8,
}

/// The longest information field that a role offers both ways.
#[derive(Clone, Copy)]
pub(crate) struct Length {
    /// The end that offers it, both ways.
    pub(crate) role: Role,
    /// The longest segment, in octets [N401].
    pub(crate) octets: u16,
}

/// How many turns a slot is on the line: from the originator to the answerer, and back.
#[derive(Clone, Copy)]
pub(crate) struct Delays {
    /// From the originator to the answerer, in turns.
    pub(crate) orig: u8,
    /// Back, in turns.
    pub(crate) answ: u8,
}

/// What one line says.
#[derive(Clone, Copy)]
pub(crate) enum Entry {
    /// `delay`
    Delay(Delays),
    /// `k`
    Window(Window),
    /// `n401`
    Length(Length),
    /// `n400`
    Tries(u8),
    /// `srej`
    Srej(Role),
    /// `check32`
    Check32(Role),
    /// `lose`
    Lose(Loss),
    /// `hit`
    Hit(Hit),
    /// `noise`
    Noise(Noise),
    /// `break`
    Break(Break),
    /// `busy`
    Busy(Pause),
}

impl Entry {
    ghost use Rattle.noise_script.specs.Forms.{form_of};
    ghost use Rattle.std.specs.Prelude.{◌≡◌};

    /// The form of the lines that say this.
    pub(crate) fn form(&self) -> Form
        ensures { result ≡ form_of self.now }
    {
        match self {
            Entry::Delay(_) => Form::Delay,
            Entry::Window(_) => Form::Window,
            Entry::Length(_) => Form::Length,
            Entry::Tries(_) => Form::Tries,
            Entry::Srej(_) => Form::Srej,
            Entry::Check32(_) => Form::Check32,
            Entry::Lose(_) => Form::Lose,
            Entry::Hit(_) => Form::Hit,
            Entry::Noise(_) => Form::Noise,
            Entry::Break(_) => Form::Break,
            Entry::Busy(_) => Form::Busy,
        }
    }
}
