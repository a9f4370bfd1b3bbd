// What two ends agree on.

/// What two ends agree on: functions that both use, and for the segments of the originator (`_o`) and of the answerer (`_a`)
/// the longest one in octets and the window in segments.
#[derive(Clone, Copy, PartialEq, Eq)]
pub struct Terms {
    /// Selective reject.
    pub srej: bool,
    /// The 32-bit check.
    pub check32: bool,
    /// In octets [N401].
    pub len_o: u16,
    /// In octets [N401].
    pub len_a: u16,
    /// In segments [k].
    pub window_o: u8,
    /// In segments [k].
    pub window_a: u8,
}
