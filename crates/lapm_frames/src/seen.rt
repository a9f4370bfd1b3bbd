// Which pattern is seen.

/// A pattern of the detection phase: the originator's and the answerer's.
#[derive(Clone, Copy, PartialEq, Eq)]
pub enum Seen {
    /// The originator's.
    Odp,
    /// The answerer's.
    Adp,
}
