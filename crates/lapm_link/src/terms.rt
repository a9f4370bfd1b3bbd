// The agreed terms, and what they say of each role.
ghost use Rattle.std.specs.Prelude.{◌≡◌};
ghost use Rattle.link_account.specs.Account.{first_terms, size_for, window_for};

use shared_terms::Role;
use xid_params::{Terms, agree, default_offer};

/// The terms before any are agreed: those of two ends that offer nothing.
pub(crate) fn first_terms() -> Terms
    ensures { result ≡ first_terms }
{
    agree(&default_offer(), &default_offer())
}

/// The longest segment of this role, in octets.
pub(crate) fn size_for(role: Role, terms: &Terms) -> u16
    ensures { result ≡ size_for role terms.now }
{
    match role {
        Role::Originator => terms.len_o,
        Role::Answerer => terms.len_a,
    }
}

/// The window for the segments of this role.
pub(crate) fn window_for(role: Role, terms: &Terms) -> u8
    ensures { result ≡ window_for role terms.now }
{
    match role {
        Role::Originator => terms.window_o,
        Role::Answerer => terms.window_a,
    }
}
