//! Two links over one line, in rounds: each end sends a slot of the first link and then one of the second, through one coder and one
//! decoder a direction. A pure function of the script and of the folder that is lent to each round. The central type is [`Pair`], and
//! [`pair_rounds`] makes its rounds up to the end of the pair.
//!
//! A link of a pair is a run of one link whose channel has the other one's slots beside its own: it is [`line_world::Modems`] with lines
//! that are lent to its turns. Once it has ended its ends send flags and hear nothing, but what arrives of its slots can still end the
//! pair.
//!
//! [`pair_laws`] says what holds of all pairs: what each link is given begins the other end's file, a pair has one result, and where no
//! symbol is displaced, or the noise is faint, each link runs as it would alone.
//!
//! The command `pair`: two links over one line of samples, each between two ends that send each other a file. A pure function of the words
//! and of the folder that are handed in. [`pair`] does what the words say that [`pair_words`] reads.
#![tactic(auto)]

mod command;
mod half;
mod laws;
pub mod pair_laws;
mod rounds;
mod two_links;
mod words;

pub use command::pair;
use half::Half;
pub use half::LinkEnd;
pub use rounds::pair_rounds;
pub use two_links::{Endings, Pair, PairNames};
pub use words::{PairWords, pair_words};
