// What ends offer one another by XID, and what they agree on.
ghost use Rattle.std.specs.Prelude.{◌≡◌, ◌≤◌, ◌↔◌, Bool, IsTrue, MatchOption, length};
ghost use Rattle.frame_check.specs.declared.sizes.TheConstants.{INFO};
ghost use Rattle.frame_check.specs.Bits as bits;
ghost use Rattle.xid_params.specs.declared.offer.Offer.{Offer};
ghost use Rattle.xid_params.specs.declared.terms.Terms.{Terms};
ghost use Rattle.xid_params.specs.Faults.{place_of};
ghost use Rattle.xid_params.specs.Offers.{IsAllowed};
ghost use Rattle.modem_c.specs.Offers.{Agreed, OfferRead, OfferWritten, fields_of, kind_of, terms_of};

use crate::codes::{BAD_ARGUMENT, DONE, FULL, flag_of, put_octets};
use frame_check::Info;
use xid_params::{Offer, Terms, XidFault, agree, read_offer, write_offer};

/// The octets of an offer's one spelling.
const SPELLING: usize = 23;

/// What an end offers.
#[repr(C)]
#[derive(Clone, Copy)]
pub struct OfferFields {
    /// The longest information that it sends, 1 to 1024 octets.
    pub tx_len: u16,
    /// The longest that it receives, 1 to 1024 octets.
    pub rx_len: u16,
    /// How many segments it sends unanswered, 1 to 127.
    pub tx_window: u8,
    /// How many it receives so, 1 to 127.
    pub rx_window: u8,
    /// 1 for selective reject, 0 for none.
    pub srej: u8,
    /// 1 for the check of 32 bits, 0 for that of 16 alone.
    pub check32: u8,
}

/// What two ends agree on.
#[repr(C)]
#[derive(Clone, Copy)]
pub struct TermsFields {
    /// The longest information that the originator sends, in octets.
    pub len_o: u16,
    /// The longest that the answerer sends.
    pub len_a: u16,
    /// How many segments the originator sends unanswered.
    pub window_o: u8,
    /// How many the answerer sends so.
    pub window_a: u8,
    /// 1 where both use selective reject.
    pub srej: u8,
    /// 1 where I frames and S frames have the check of 32 bits.
    pub check32: u8,
}

/// Why an information field spells no offer.
#[repr(C)]
#[derive(Clone, Copy)]
pub struct OfferFault {
    /// The octet, counted from 0, at which the first fault stands.
    pub at: usize,
    /// 0 none, 1 another format, 2 a second group of parameters, 3 a length, 4 a value below its least, 5 a parameter again.
    pub kind: u8,
}

/// The offer of these fields; none where a function is neither 0 nor 1.
fn offer_of(fields: &OfferFields) -> Option<Offer>
    ensures { MatchOption result ((offer : Offer) → fields.now ≡ fields_of offer → ⊥) (λ offer. fields.now ≡ fields_of offer) }
{
    Some(Offer {
        srej: flag_of(fields.srej)?,
        check32: flag_of(fields.check32)?,
        tx_len: fields.tx_len,
        rx_len: fields.rx_len,
        tx_window: fields.tx_window,
        rx_window: fields.rx_window,
    })
}

fn fields_of(offer: &Offer) -> OfferFields
    ensures { result ≡ fields_of offer.now }
{
    OfferFields {
        tx_len: offer.tx_len,
        rx_len: offer.rx_len,
        tx_window: offer.tx_window,
        rx_window: offer.rx_window,
        srej: u8::from(offer.srej),
        check32: u8::from(offer.check32),
    }
}

fn terms_of(terms: &Terms) -> TermsFields
    ensures { result ≡ terms_of terms.now }
{
    TermsFields {
        len_o: terms.len_o,
        len_a: terms.len_a,
        window_o: terms.window_o,
        window_a: terms.window_a,
        srej: u8::from(terms.srej),
        check32: u8::from(terms.check32),
    }
}

fn fault_of(fault: XidFault) -> OfferFault
    ensures kind { result.kind ≡ kind_of fault }
    ensures at { result.at ≡ place_of fault }
{
    match fault {
        XidFault::Format => OfferFault { at: 0, kind: 1 },
        XidFault::Group { at } => OfferFault { at, kind: 2 },
        XidFault::Length { at } => OfferFault { at, kind: 3 },
        XidFault::Value { at } => OfferFault { at, kind: 4 },
        XidFault::Repeated { at } => OfferFault { at, kind: 5 },
    }
}

/// Whether a longest information is one.
fn is_length(octets: u16) -> bool
    ensures { IsTrue result ↔ ((1 ≤ octets) × (octets ≤ INFO)) }
{
    1 <= octets && octets <= 1024
}

/// Whether a window is one.
fn is_window(segments: u8) -> bool
    ensures { IsTrue result ↔ ((1 ≤ segments) × (segments ≤ 127)) }
{
    1 <= segments && segments <= 127
}

/// Whether an offer may be sent.
fn is_allowed(offer: &Offer) -> bool
    ensures { IsTrue result ↔ IsAllowed offer.now }
{
    is_length(offer.tx_len)
        && is_length(offer.rx_len)
        && is_window(offer.tx_window)
        && is_window(offer.rx_window)
}

/// The offer of these fields, if it may be sent.
fn allowed(fields: &OfferFields) -> Option<Offer>
    ensures { MatchOption result ((offer : Offer) → IsAllowed offer → fields.now ≡ fields_of offer → ⊥)
        (λ offer. IsAllowed offer × (fields.now ≡ fields_of offer)) }
{
    let offer = offer_of(fields)?;
    if is_allowed(&offer) {
        Some(offer)
    } else {
        None
    }
}

/// The offer that the information of an XID frame spells, or its first fault.
#[unsafe(no_mangle)]
pub extern "C" fn modem_xid_read(
    info: &[u8],
    offer: &mut OfferFields,
    fault: &mut OfferFault,
) -> i32
    ensures { OfferRead info.now offer.old offer.new fault.new result }
{
    match read_offer(info) {
        Ok(read) => {
            *offer = fields_of(&read);
            *fault = OfferFault { at: 0, kind: 0 };
            DONE
        }
        Err(first) => {
            *fault = fault_of(first);
            BAD_ARGUMENT
        }
    }
}

/// The information of an XID frame that offers this: 23 octets.
#[unsafe(no_mangle)]
pub extern "C" fn modem_xid_write(offer: &OfferFields, room: &mut [u8], count: &mut usize) -> i32
    ensures writes { OfferWritten offer.now room.old room.new count.new result }
    ensures length { length room.new ≡ length room.old }
    ensures within { count.new ≤ length room.new }
{
    *count = 0;
    let Some(allowed) = allowed(offer) else {
        return BAD_ARGUMENT;
    };
    if room.len() < SPELLING {
        return FULL;
    }
    let mut info = Info::new();
    write_offer(&allowed, &mut info);
    put_octets(info.as_slice(), room);
    *count = info.len();
    DONE
}

/// What the originator's offer and the answerer's come to.
#[unsafe(no_mangle)]
pub extern "C" fn modem_xid_agree(
    originator: &OfferFields,
    answerer: &OfferFields,
    terms: &mut TermsFields,
) -> i32
    ensures { Agreed originator.now answerer.now terms.old terms.new result }
{
    let (Some(originator), Some(answerer)) = (offer_of(originator), offer_of(answerer)) else {
        return BAD_ARGUMENT;
    };
    *terms = terms_of(&agree(&originator, &answerer));
    DONE
}
