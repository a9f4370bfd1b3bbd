// The two ends of a recorded direction.
ghost use Rattle.std.specs.Prelude.{◌≡◌};
ghost use Rattle.command_base.specs.Recordings.{sender_of, hearer_of};

use scramblers::Mode;
use shared_terms::Role;

/// The end that sends in this mode.
pub fn sender_of(mode: Mode) -> Role
    ensures { result ≡ sender_of mode }
{
    match mode {
        Mode::Call => Role::Originator,
        Mode::Answer => Role::Answerer,
    }
}

/// The end that hears what is sent in this mode.
pub fn hearer_of(mode: Mode) -> Role
    ensures { result ≡ hearer_of mode }
{
    match mode {
        Mode::Call => Role::Answerer,
        Mode::Answer => Role::Originator,
    }
}
