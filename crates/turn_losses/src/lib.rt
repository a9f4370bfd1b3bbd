//! Why a link is lost, whatever an end waits for: how far the polls of an end lie apart, what answers them, and what must be lost for an
//! end to give up that wants an answer to its poll, to its XID, its SABME, its DISC or its break. Nothing runs here.
#![tactic(auto)]

pub mod laws;
