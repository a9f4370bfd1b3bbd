// The names of a run's files.

/// The names of a run's files: those that both users send, those that they receive, and the trace.
#[derive(Clone, Copy)]
pub struct Names<'a> {
    /// The originator's file.
    pub orig: &'a str,
    /// The answerer's file.
    pub answ: &'a str,
    /// What the originator receives.
    pub got_o: &'a str,
    /// What the answerer receives.
    pub got_a: &'a str,
    /// The trace.
    pub trace: &'a str,
}
