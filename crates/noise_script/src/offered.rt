// What the lines of a script say of an end's offer.
ghost use Rattle.std.specs.Prelude.{◌≡◌};
ghost use Rattle.noise_script.specs.Grammar.{offer_by};

use xid_params::Offer;

/// What lines say of an end's offer, where they do.
#[derive(Clone, Copy)]
pub(crate) struct Offered {
    /// In segments, where a line said it.
    pub(crate) window: Option<u8>,
    /// In octets, where a line said it.
    pub(crate) length: Option<u16>,
    /// Whether a line said it.
    pub(crate) srej: bool,
    /// Whether a line said it.
    pub(crate) check32: bool,
}

pub(crate) const NOTHING_OFFERED: Offered = Offered {
    window: None,
    length: None,
    srej: false,
    check32: false,
};

const DEFAULT_WINDOW: u8 = 15;

const DEFAULT_LENGTH: u16 = 128;

impl Offered {
    /// The offer, the same for both ways.
    pub(crate) fn offer(self) -> Offer
        ensures { result ≡ offer_by self }
    {
        let window = self.window.unwrap_or(DEFAULT_WINDOW);
        let length = self.length.unwrap_or(DEFAULT_LENGTH);
        Offer {
            srej: self.srej,
            check32: self.check32,
            tx_len: length,
            rx_len: length,
            tx_window: window,
            rx_window: window,
        }
    }
}
