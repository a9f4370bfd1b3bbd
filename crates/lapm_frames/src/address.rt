// The address octet: the low bit set, then the bit that tells commands from responses, then six bits of the channel.
ghost use Rattle.std.specs.Prelude.{◌≡◌, ◌≢◌, ◌<◌, Bool, IfSome, IfNone};
ghost use Rattle.lapm_frames.specs.Frame.{address_of};

use crate::Role;

/// The address of a command, or of a response, of this sender.
pub(crate) fn address_octet(command: bool, sender: Role, dlci: u8) -> u8
    requires { dlci < 64 }
    ensures { result ≡ address_of command sender dlci }
{
    let is_set = match sender {
        Role::Originator => command,
        Role::Answerer => !command,
    };
    if is_set { 4 * dlci + 3 } else { 4 * dlci + 1 }
}

/// Whether this is the address of a command of this sender. It is None where it isn't that of a response either.
pub(crate) fn is_command(octet: u8, sender: Role, dlci: u8) -> Option<bool>
    requires { dlci < 64 }
    ensures some { IfSome result (λ command. octet ≡ address_of command sender dlci) }
    ensures none { IfNone result ((command : Bool) → octet ≢ address_of command sender dlci) }
{
    if octet == address_octet(true, sender, dlci) {
        Some(true)
    } else if octet == address_octet(false, sender, dlci) {
        Some(false)
    } else {
        None
    }
}
