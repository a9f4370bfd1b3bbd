// Numbers modulo 128, and what they stand for.
ghost use Rattle.std.specs.Prelude.{◌≡◌, ◌<◌, ◌^◌, ◌%◌};
ghost use Rattle.lapm_sender.specs.Meant.{meant};

/// The number from `low` to `high` that `nr` stands for, modulo 128. One of 128 or more stands for none.
pub(crate) fn meant_by(low: u64, high: u64, nr: u8) -> Option<u64>
    requires { low < 2 ^ 60 }
    ensures { result ≡ meant low high nr }
{
    let number = low + (u64::from(nr) + 128 - low % 128) % 128;
    if nr < 128 && number <= high {
        Some(number)
    } else {
        None
    }
}

/// The number as a frame carries it.
pub(crate) fn modulo(number: u64) -> u8
    ensures { result ≡ number % 128 }
{
    (number % 128) as u8
}
