// The names of a tap's files.

/// The names that the words of a tap give.
#[derive(Clone, Copy)]
pub struct TapWords<'a> {
    /// What the originator sent, recorded.
    pub rec_o: &'a str,
    /// What the answerer sent, recorded.
    pub rec_a: &'a str,
    /// What the line does.
    pub script: &'a str,
    /// What the originator received.
    pub got_o: &'a str,
    /// What the answerer received.
    pub got_a: &'a str,
    /// What became of each turn.
    pub trace: &'a str,
}
