// Answers that an end owes at once.

/// An answer that is due: to a pattern, to an XID command, to a SABME or DISC, and to a DISC that finds no link. Each that becomes
/// due takes the place of the one before. `pf` is that of the command that it answers.
#[derive(Clone, Copy)]
pub enum Answer {
    /// The answerer's pattern.
    Adp,
    /// The XID response with its own offer.
    Xid,
    /// To SABME or DISC, with the P bit of the command.
    Ua { pf: bool },
    /// To a command that finds the end not connected, with its P bit.
    Dm { pf: bool },
}
