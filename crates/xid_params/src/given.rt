// What the parameters of group 80 have said so far.
ghost use Rattle.std.specs.Prelude.{◌≡◌, ◌≢◌, ℕ, ◌+◌, ◌*◌, ◌≤◌, ◌<◌, ◌^◌, List, [], ◌∷◌, ◌++◌, ◌↔◌, IsTrue, not, length, OnOk, IfErr};
ghost use Rattle.xid_params.specs.Parts.{Part, named};
ghost use Rattle.xid_params.specs.Parameters.{identifier_of, accepts, is_low, has_bit, octets_of_bits, segments_of, AreWell, offer_of};
ghost use Rattle.xid_params.specs.Faults.{IsIdentifiedWrong, IsRepeated};
ghost use Rattle.xid_params.specs.Gathered.{Stands};

use crate::parameter::{Parameter, number};
use crate::{Offer, XidFault, default_offer};
use frame_check::INFO;

/// The most segments of a window.
const WINDOW: u32 = 127;

/// Whether the value has this bit. Bits are numbered from 1 at the low bit of the first octet.
fn has_bit(value: &[u8], number: usize) -> bool
    requires low { 1 ≤ number }
    requires high { number ≤ 8 * length value.now }
    ensures { result ≡ has_bit number value.now }
{
    let place = number - 1;
    (value[place / 8] >> (place % 8)) % 2 == 1
}

/// The octets of a length that is said in bits, or the most that a frame may have where it says more.
fn octets_of_bits(value: &[u8]) -> u16
    requires { length value.now ≤ 4 }
    ensures { result ≡ octets_of_bits value.now }
{
    (number(value) / 8).min(INFO as u32) as u16
}

/// The segments of a window, or the most that one may have where it says more.
fn segments_of(value: &[u8]) -> u8
    requires { length value.now ≤ 4 }
    ensures { result ≡ segments_of value.now }
{
    number(value).min(WINDOW) as u8
}

/// What each parameter said, where it stood.
#[derive(Clone, Copy)]
pub(crate) struct Given {
    /// Whether SREJ is offered, where the field says it.
    srej: Option<bool>,
    /// Whether the 32-bit check is offered, where the field says it.
    check32: Option<bool>,
    /// In octets.
    tx_len: Option<u16>,
    /// In octets.
    rx_len: Option<u16>,
    /// In segments.
    tx_window: Option<u8>,
    /// In segments.
    rx_window: Option<u8>,
}

impl Given {
    /// Nothing yet.
    pub(crate) fn new() -> Given
        ensures { Stands result [] }
    {
        Given {
            srej: None,
            check32: None,
            tx_len: None,
            rx_len: None,
            tx_window: None,
            rx_window: None,
        }
    }

    fn has(&self, parameter: Parameter) -> bool
        ensures { (parts : List Part) → Stands self.now parts
            → IsTrue result ↔ (named (identifier_of parameter) parts ≢ []) }
    {
        match parameter {
            Parameter::Functions => self.srej.is_some(),
            Parameter::TxLength => self.tx_len.is_some(),
            Parameter::RxLength => self.rx_len.is_some(),
            Parameter::TxWindow => self.tx_window.is_some(),
            Parameter::RxWindow => self.rx_window.is_some(),
        }
    }

    /// Whether the parameter with this identifier is read, and stood already.
    pub(crate) fn repeats(&self, identifier: u8) -> bool
        ensures { (parts : List Part) → Stands self.now parts → IsTrue result ↔ IsRepeated parts identifier }
    {
        match Parameter::of(identifier) {
            Some(parameter) => self.has(parameter),
            None => false,
        }
    }

    fn put(&mut self, parameter: Parameter, value: &[u8])
        requires { IsTrue (accepts parameter (length value.now)) }
        ensures { (parts : List Part) → Stands self.old parts → named (identifier_of parameter) parts ≡ []
            → Stands self.new (parts ++ record { identifier = identifier_of parameter; value = value.now } ∷ []) }
    {
        match parameter {
            Parameter::Functions => {
                self.srej = Some(has_bit(value, 3));
                self.check32 = Some(has_bit(value, 17));
            }
            Parameter::TxLength => self.tx_len = Some(octets_of_bits(value)),
            Parameter::RxLength => self.rx_len = Some(octets_of_bits(value)),
            Parameter::TxWindow => self.tx_window = Some(segments_of(value)),
            Parameter::RxWindow => self.rx_window = Some(segments_of(value)),
        }
    }

    /// Takes in the parameter that begins at this place, if it is one that is read.
    pub(crate) fn take(&mut self, identifier: u8, value: &[u8], at: usize) -> Result<(), XidFault>
        requires { at + 2 < 2 ^ 64 }
        ensures stands { OnOk result ((parts : List Part) → Stands self.old parts → (IsRepeated parts identifier → ⊥)
            → Stands self.new (parts ++ record { identifier = identifier; value = value.now } ∷ [])) }
        ensures well { OnOk result ((parts : List Part) → AreWell parts → (IsRepeated parts identifier → ⊥)
            → AreWell (parts ++ record { identifier = identifier; value = value.now } ∷ [])) }
        ensures err { IfErr result (IsIdentifiedWrong identifier value.now at) }
    {
        let Some(parameter) = Parameter::of(identifier) else {
            return Ok(());
        };
        parameter.check(value, at)?;
        self.put(parameter, value);
        Ok(())
    }

    /// The offer of what was said, and else of the defaults.
    pub(crate) fn offer(&self) -> Offer
        ensures { (parts : List Part) → Stands self.now parts → result ≡ offer_of parts }
    {
        let default = default_offer();
        Offer {
            srej: self.srej.unwrap_or(default.srej),
            check32: self.check32.unwrap_or(default.check32),
            tx_len: self.tx_len.unwrap_or(default.tx_len),
            rx_len: self.rx_len.unwrap_or(default.rx_len),
            tx_window: self.tx_window.unwrap_or(default.tx_window),
            rx_window: self.rx_window.unwrap_or(default.rx_window),
        }
    }
}
