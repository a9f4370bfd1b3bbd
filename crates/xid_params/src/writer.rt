// The spelling of an offer.
ghost use Rattle.std.specs.Prelude.{◌≡◌, ◌≤◌, ◌+◌, ◌*◌, ◌/◌, ◌%◌, [], ◌∷◌, ◌++◌, length};
ghost use Rattle.frame_check.specs.declared.sizes.TheConstants.{INFO};
ghost use Rattle.xid_params.specs.Parameters.{identifier_of};
ghost use Rattle.xid_params.specs.Offers.{written, IsAllowed};

use crate::Offer;
use crate::parts::{FORMAT, PARAMETERS};
use frame_check::Info;

/// Writes the one spelling that is sent: 82, and group 80 with all parameters.
pub fn write_offer(offer: &Offer, out: &mut Info)
    requires empty { out.old ≡ [] }
    requires allowed { IsAllowed offer.now }
    ensures { out.new ≡ written offer.now }
{
    let functions = if offer.srej { 0x8e } else { 0x8a };
    let [tx_high, tx_low] = (8 * offer.tx_len).to_be_bytes();
    let [rx_high, rx_low] = (8 * offer.rx_len).to_be_bytes();
    out.extend(&[FORMAT, PARAMETERS, 0, 19]);
    out.extend(&[0x03, 3, functions, 0x89, u8::from(offer.check32)]);
    out.extend(&[0x05, 2, tx_high, tx_low]);
    out.extend(&[0x06, 2, rx_high, rx_low]);
    out.extend(&[0x07, 1, offer.tx_window]);
    out.extend(&[0x08, 1, offer.rx_window]);
}
