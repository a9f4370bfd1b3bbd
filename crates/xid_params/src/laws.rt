//! Theorems over the definitions alone. The functions do nothing, or nothing that tells: each theorem is a contract.
ghost use Rattle.std.specs.Prelude.{◌≡◌, ℕ, ◌⊎◌, List};
ghost use Rattle.xid_params.specs.declared.offer.Offer.{Offer};
ghost use Rattle.xid_params.specs.declared.fault.XidFault.{XidFault};
ghost use Rattle.xid_params.specs.Offers.{OfferSpelling, DefaultIsRead, ReadsWritten, WrittenSpells, SpellingIsFound, ReadsAllowed};
ghost use Rattle.xid_params.specs.Faults.{Has, FirstFault};

use crate::read_offer;

/// The default offer is read back from its spelling.
pub fn default_is_read()
    ensures { DefaultIsRead }
{}

/// Every offer that may be sent is what its spelling spells, and is read back from it.
pub fn reads_written()
    ensures read { ReadsWritten }
    ensures spells { WrittenSpells }
{}

/// The offer of octets as a function is the one that they spell.
pub fn spelling_is_found()
    ensures { SpellingIsFound }
{}

/// An offer that is read is one that may be sent.
pub fn reads_allowed()
    ensures { ReadsAllowed }
{}

/// A field spells one offer at most.
pub fn one_offer()
    ensures { (octets : List ℕ) (offer other : Offer)
        → OfferSpelling octets offer → OfferSpelling octets other → offer ≡ other }
{}

/// A field has one first fault at most, and no fault at all where it spells an offer.
pub fn one_fault()
    ensures one { (octets : List ℕ) (fault other : XidFault)
        → FirstFault octets fault → FirstFault octets other → fault ≡ other }
    ensures never_both { (octets : List ℕ) (offer : Offer) (at : ℕ) (fault : XidFault)
        → OfferSpelling octets offer → Has octets at fault → ⊥ }
{}

/// Every field spells an offer or has a first fault.
pub fn one_answer(info: &[u8])
    ensures { ((offer : Offer) × OfferSpelling info.now offer) ⊎ ((fault : XidFault) × FirstFault info.now fault) }
{
    let _ = read_offer(info);
}
