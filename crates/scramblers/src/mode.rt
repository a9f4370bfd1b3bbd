/// The tap of the modem that called: 1 + x^-18 + x^-23 (ITU-T V.32, scramblers).
pub const CALL_TAP: usize = 18;

/// The tap of the modem that answered: 1 + x^-5 + x^-23 (ITU-T V.32, scramblers).
pub const ANSWER_TAP: usize = 5;

/// Which modem sends: the one that called, with [`CALL_TAP`], or the one that answered, with [`ANSWER_TAP`].
#[derive(Clone, Copy)]
pub enum Mode {
    /// The originator sends: the second bit is 18 places back.
    Call,
    /// The answerer sends: it is 5 places back.
    Answer,
}
