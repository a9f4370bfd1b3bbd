//! What two ends offer one another by XID, and what they agree on: a pure function of the octets of an information field, by
//! ITU-T V.42. The central types are [`Offer`], [`Terms`] and [`XidFault`], why a field spells no offer.
#![tactic(auto)]

mod agreement;
mod fault;
mod given;
pub mod laws;
mod offer;
mod parameter;
mod parts;
mod reader;
mod terms;
mod writer;

pub use agreement::{agree, default_offer};
pub use fault::XidFault;
pub use offer::Offer;
pub use reader::read_offer;
pub use terms::Terms;
pub use writer::write_offer;
