// Offers in the information of XID frames.
ghost use Rattle.std.specs.Prelude.{◌≡◌, ◌≤◌, length, IfSome};
ghost use Rattle.frame_check.specs.Octets.{AreOctets};
ghost use Rattle.frame_check.specs.declared.sizes.TheConstants.{INFO};
ghost use Rattle.shared_terms.specs.declared.role.Role.{Role};
ghost use Rattle.xid_params.specs.Terms.{agree};
ghost use Rattle.xid_params.specs.Offers.{offer_in, written, IsAllowed};
ghost use Rattle.lapm_link.specs.Fits.{agreed_by};

use crate::carried::carried;
use frame_check::Info;
use shared_terms::Role;
use xid_params::{Offer, Terms, agree, read_offer, write_offer};

/// The offer that the information spells, where it isn't refused.
pub(crate) fn offer_of(info: &Info) -> Option<Offer>
    ensures offer { result ≡ offer_in info.now }
    ensures allowed { IfSome result IsAllowed }
{
    read_offer(info.as_slice()).ok()
}

/// The information that spells this offer.
pub(crate) fn spelled(offer: &Offer) -> Info
    requires { IsAllowed offer.now }
    ensures value { result ≡ written offer.now }
    ensures short { length result ≤ INFO }
    ensures octets { AreOctets result }
{
    let mut info = Info::new();
    write_offer(offer, &mut info);
    carried(info)
}

/// What an end of this role agrees on, by its own offer and the other end's.
pub(crate) fn terms_of(role: Role, own: &Offer, theirs: &Offer) -> Terms
    ensures { result ≡ agreed_by role own.now theirs.now }
{
    match role {
        Role::Originator => agree(own, theirs),
        Role::Answerer => agree(theirs, own),
    }
}
