// The mode of an end's modem.
ghost use Rattle.std.specs.Prelude.{◌≡◌};
ghost use Rattle.sample_line.specs.Mode.{mode_of};

use scramblers::Mode;
use shared_terms::Role;

/// The mode in which the modem of that end sends: the call mode of the end that called, the answer mode of the other one.
pub fn mode_of(role: Role) -> Mode
    ensures { result ≡ mode_of role }
{
    match role {
        Role::Originator => Mode::Call,
        Role::Answerer => Mode::Answer,
    }
}
