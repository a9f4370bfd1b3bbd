// The rates of recordings.
ghost use Rattle.std.specs.Prelude.{◌≡◌, ◌≤◌, ◌*◌};
ghost use Rattle.recordings.specs.Recording.{samples_each};

/// How fast a recorded modem sends, and by which code.
#[derive(Clone, Copy)]
pub enum Rate {
    /// 9600 bit/s with the trellis code of ITU-T V.32: four bits a sample.
    Trellis,
    /// 4800 bit/s with four points: two bits a sample.
    Quarters,
}

impl Rate {
    /// How many samples so many octets become.
    pub fn samples(self, octets: u64) -> u64
        requires { octets ≤ 1048576 }
        ensures { result ≡ samples_each self * octets }
    {
        match self {
            Rate::Trellis => 2 * octets,
            Rate::Quarters => 4 * octets,
        }
    }
}
