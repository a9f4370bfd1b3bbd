// What an end offers.

/// What an end offers: functions that it has, and for both ways the longest information field in octets and the window in
/// segments.
#[derive(Clone, Copy, PartialEq, Eq)]
pub struct Offer {
    /// Selective reject.
    pub srej: bool,
    /// The 32-bit check.
    pub check32: bool,
    /// The longest segment that is sent, in octets [N401].
    pub tx_len: u16,
    /// The longest segment that is received, in octets [N401].
    pub rx_len: u16,
    /// The window of what is sent, in segments [k].
    pub tx_window: u8,
    /// The window of what is received, in segments [k].
    pub rx_window: u8,
}
