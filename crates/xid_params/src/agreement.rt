// What two offers come to.
ghost use Rattle.std.specs.Prelude.{◌≡◌};
ghost use Rattle.xid_params.specs.Terms.{lowered, agree, default_offer};

use crate::{Offer, Terms};

/// The most segments of a window with SREJ.
const SREJ_WINDOW: u8 = 64;

/// The offer of an end that says nothing: the defaults of V.42, and no optional function.
pub fn default_offer() -> Offer
    ensures { result ≡ default_offer }
{
    Offer {
        srej: false,
        check32: false,
        tx_len: 128,
        rx_len: 128,
        tx_window: 15,
        rx_window: 15,
    }
}

fn lowered(srej: bool, window: u8) -> u8
    ensures { result ≡ lowered srej window }
{
    if srej {
        window.min(SREJ_WINDOW)
    } else {
        window
    }
}

/// What the two ends use: in each direction what its sender sends and its receiver takes, and the functions that both have.
pub fn agree(originator: &Offer, answerer: &Offer) -> Terms
    ensures { result ≡ agree originator.now answerer.now }
{
    let srej = originator.srej && answerer.srej;
    Terms {
        srej,
        check32: originator.check32 && answerer.check32,
        len_o: originator.tx_len.min(answerer.rx_len),
        len_a: answerer.tx_len.min(originator.rx_len),
        window_o: lowered(srej, originator.tx_window.min(answerer.rx_window)),
        window_a: lowered(srej, answerer.tx_window.min(originator.rx_window)),
    }
}
