// How far a push came.
ghost use Rattle.std.specs.Prelude.{◌≡◌};
ghost use Rattle.modem_c.specs.Progressed.{nothing_done};

/// How far a push came.
#[repr(C)]
#[derive(Clone, Copy)]
pub struct Progress {
    /// What was read: samples of two parts each by a decoder, bits by an encoder or a meter.
    pub read: usize,
    /// What was written: bits by a decoder, samples of two parts each by an encoder, nothing by a meter.
    pub written: usize,
    /// The symbol since which the line is lost, counted from 0, or 0.
    pub lost: u64,
}

impl Progress {
    /// Nothing yet.
    pub(crate) fn none() -> Progress
        ensures { result ≡ nothing_done }
    {
        Progress {
            read: 0,
            written: 0,
            lost: 0,
        }
    }
}
