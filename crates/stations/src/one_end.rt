//! One end of the link with its user against recorded bits of any peer: what it hears of them slot by slot, what it sends, and what its
//! user is given. A pure function of the bits and of the folder that are lent to each turn. The central type is [`Single`].

mod ear;
pub mod laws;
mod limits;
mod line;
mod single;
mod step;

pub use limits::SLOT_OCTETS;
pub use shared_terms::LinkFault;
pub use single::Single;
pub use step::{SingleFault, SingleStep};
