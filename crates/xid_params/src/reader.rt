// An information field as an offer, in one pass.
ghost use Rattle.std.specs.Prelude.{◌≡◌, ◌≢◌, ◌+◌, ◌<◌, ◌^◌, ◌↔◌, [], ◌∷◌, ◌++◌, List, length, Option, IsTrue, not, IfOk, IfErr};
ghost use Rattle.std.specs.Result.{result_ok};
ghost use Rattle.xid_params.specs.declared.offer.Offer.{Offer};
ghost use Rattle.xid_params.specs.declared.fault.XidFault.{XidFault};
ghost use Rattle.xid_params.specs.Parts.{Part, named};
ghost use Rattle.xid_params.specs.Parameters.{ParametersSpell};
ghost use Rattle.xid_params.specs.Offers.{OfferSpelling, IsAllowed, offer_in};
ghost use Rattle.xid_params.specs.Faults.{ParameterHas, IsFirst, FirstFault};
ghost use Rattle.xid_params.specs.Gathered.{Offers};

use crate::given::Given;
use crate::parts::{FORMAT, PARAMETERS, group_content, next_group, parameter_value};
use crate::{Offer, XidFault, default_offer};

/// Reads what group 80 contains. It begins at this place of the field.
fn read_parameters(content: &[u8], start: usize) -> Result<Offer, XidFault>
    requires { start + length content.now < 2 ^ 64 }
    ensures ok { IfOk result (ParametersSpell content.now) }
    ensures err { IfErr result (IsFirst (ParameterHas content.now start)) }
{
    let mut given = Given::new();
    let mut rest = content;
    while let Some((identifier, tail)) = rest.split_first() {
        let at = start + (content.len() - rest.len());
        if given.repeats(*identifier) {
            return Err(XidFault::Repeated { at });
        }
        let Some((value, after)) = parameter_value(tail) else {
            return Err(XidFault::Length { at: at + 1 });
        };
        given.take(*identifier, value, at)?;
        rest = after;
    }
    Ok(given.offer())
}

/// Whether a group 80 stands behind a group 80.
fn is_second(offered: Option<Offer>, identifier: u8) -> bool
    ensures second { IsTrue result → (groups : List Part) → Offers offered groups
        → (identifier ≡ 128) × (named 128 groups ≢ []) }
    ensures first { IsTrue (not result) → (groups : List Part) → Offers offered groups
        → identifier ≡ 128 → named 128 groups ≡ [] }
{
    identifier == PARAMETERS && offered.is_some()
}

/// What is offered behind a group that is no second group 80. What it contains begins at this place.
fn behind_group(
    offered: Option<Offer>,
    identifier: u8,
    content: &[u8],
    start: usize,
) -> Result<Option<Offer>, XidFault>
    requires { start + length content.now < 2 ^ 64 }
    ensures ok { IfOk result (λ behind. (groups : List Part) → Offers offered groups
        → (identifier ≡ 128 → named 128 groups ≡ [])
        → Offers behind (groups ++ record { identifier = identifier; value = content.now } ∷ [])) }
    ensures err { IfErr result (λ fault. (identifier ≡ 128) × IsFirst (ParameterHas content.now start) fault) }
{
    if identifier == PARAMETERS {
        let offer = read_parameters(content, start)?;
        Ok(Some(offer))
    } else {
        Ok(offered)
    }
}

/// Reads what stands behind 82.
fn read_groups(groups: &[u8]) -> Result<Offer, XidFault>
    ensures ok { IfOk result (OfferSpelling (130 ∷ groups.now)) }
    ensures err { IfErr result (FirstFault (130 ∷ groups.now)) }
{
    let mut offered = None;
    let mut rest = groups;
    while let Some((identifier, tail)) = next_group(rest) {
        let at = 1 + (groups.len() - rest.len());
        if is_second(offered, identifier) {
            return Err(XidFault::Group { at });
        }
        let Some((content, after)) = group_content(tail) else {
            return Err(XidFault::Length { at: at + 1 });
        };
        offered = behind_group(offered, identifier, content, at + 3)?;
        rest = after;
    }
    Ok(offered.unwrap_or(default_offer()))
}

/// The offer that an information field spells, or the first fault in order of place. Other groups and other parameters are passed
/// over, and so is everything from a group's identifier FF on.
pub fn read_offer(info: &[u8]) -> Result<Offer, XidFault>
    ensures ok { IfOk result (OfferSpelling info.now) }
    ensures allowed { IfOk result IsAllowed }
    ensures all { (offer : Offer) → OfferSpelling info.now offer → result ≡ Ok offer }
    ensures fault { (fault : XidFault) → (result ≡ Err fault) ↔ FirstFault info.now fault }
    ensures offer { result_ok result ≡ offer_in info.now }
{
    match info.split_first() {
        Some((first, groups)) if *first == FORMAT => read_groups(groups),
        _ => Err(XidFault::Format),
    }
}
