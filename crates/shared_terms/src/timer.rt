// When a timer expires.
ghost use Rattle.std.specs.Prelude.{◌≡◌};
ghost use Rattle.shared_terms.specs.Timer.{expires, wait, waited_since};

/// Whether a timer of this period (T401, in turns) that was set in one turn expires in the other.
pub fn is_expired(set: u64, period: u32, turn: u64) -> bool
    ensures { result ≡ expires set period turn }
{
    turn >= set && turn - set == u64::from(period)
}

/// How many turns an end waits for an answer before it gives up: one period for the first time that it asks, and one for each of
/// its tries (N400).
pub fn wait(tries: u8, period: u32) -> u64
    ensures { result ≡ wait tries period }
{
    (u64::from(tries) + 1) * u64::from(period)
}

/// The turn in which the first of these periods began, where they have all gone by in this turn. It is 0 where fewer have.
pub fn waited_since(tries: u8, period: u32, turn: u64) -> u64
    ensures { result ≡ waited_since tries period turn }
{
    turn.saturating_sub(wait(tries, period))
}
