// The definitions of runs against what was worked out apart from them: what two ends send one another turn by turn ([`plays`]), traces and
// received octets of runs of one link ([`runs`]), and two pairs ([`rows`]).

pub mod plays;
pub mod rows;
pub mod runs;
