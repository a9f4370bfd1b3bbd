// The phases of a link.

/// The phase that an end is in.
#[derive(Clone, Copy, PartialEq, Eq)]
pub enum Phase {
    /// Patterns are sent and looked for.
    Detecting,
    /// Offers go both ways.
    Negotiating,
    /// The originator sends its SABME.
    Establishing,
    /// Segments cross.
    Connected,
    /// The originator sends its DISC.
    Releasing,
    /// The link is over.
    Closed,
}
