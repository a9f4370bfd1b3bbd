// The words that a seed gives.
ghost use Rattle.std.specs.Prelude.{◌≡◌};
ghost use Rattle.run_commands.specs.Soaking.Drawing.{drawn_word};

use rand_core::utils::NextWord;
use rand_pcg::Lcg64Xsh32;

/// The word of a seed at a place, counted from 0.
pub(crate) fn drawn_word(seed: u64, place: u64) -> u32
    ensures { result ≡ drawn_word seed place }
{
    let mut words = Lcg64Xsh32::new(seed, 1);
    words.advance(place);
    words.next_word()
}
