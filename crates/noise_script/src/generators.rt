// The generators of noise lines, carried on from one word to the next.
ghost use Rattle.std.specs.Prelude.{◌≡◌, ◌+◌, ◌-◌, ◌<◌, ◌^◌};
ghost use Rattle.noise_script.specs.Offsets.{stream_of, generator_at, word_at};

use crate::limits::NOISE_LINES;
use rand_core::utils::NextWord;
use rand_pcg::Lcg64Xsh32;
use shared_terms::Role;

/// The generator's stream for the noise on what a role sends.
fn stream_of(sender: Role) -> u64
    ensures { result ≡ stream_of sender }
{
    match sender {
        Role::Originator => 54,
        Role::Answerer => 55,
    }
}

/// A generator before one of its words.
#[derive(Clone, Copy)]
pub(crate) struct Generator {
    /// The seed that the generator was started from.
    seed: u64,
    /// Whose noise it makes.
    sender: Role,
    /// The place of the next word, counted from 0.
    place: u32,
    /// Before the next word.
    state: u64,
    ghost stands: { state ≡ (generator_at seed (stream_of sender) place).state },
}

impl Generator {
    /// A generator before the word at a place, without the words before it.
    fn at(seed: u64, sender: Role, place: u32) -> Generator
        ensures seed { result.seed ≡ seed }
        ensures sender { result.sender ≡ sender }
        ensures place { result.place ≡ place }
    {
        let mut words = Lcg64Xsh32::new(seed, stream_of(sender));
        words.advance(u64::from(place));
        Generator {
            seed,
            sender,
            place,
            state: words.state(),
        }
    }

    /// Puts it before the word at a place, unless it stands there.
    pub(crate) fn bring_to(&mut self, seed: u64, sender: Role, place: u32)
        ensures seed { self.new.seed ≡ seed }
        ensures sender { self.new.sender ≡ sender }
        ensures place { self.new.place ≡ place }
    {
        if self.seed == seed && self.sender == sender && self.place == place {
            return;
        }
        *self = Generator::at(seed, sender, place);
    }

    /// The next word.
    pub(crate) fn next_word(&mut self) -> u32
        requires { self.old.place < 2 ^ 32 - 1 }
        ensures word { result ≡ word_at self.old.seed (stream_of self.old.sender) self.old.place }
        ensures seed { self.new.seed ≡ self.old.seed }
        ensures sender { self.new.sender ≡ self.old.sender }
        ensures place { self.new.place ≡ self.old.place + 1 }
    {
        let mut words = Lcg64Xsh32::from_state(self.state, stream_of(self.sender));
        let word = words.next_word();
        self.place += 1;
        self.state = words.state();
        word
    }
}

/// The generators of a script's noise lines. Each is carried on from one symbol to the next, and skips ahead where another symbol
/// is asked: what they were asked before changes no offset.
#[derive(Drop)]
pub struct Generators {
    /// In the order of the lines.
    pub(crate) of_lines: [Generator; NOISE_LINES],
}

impl Generators {
    /// The generators before the first symbol.
    pub fn new() -> Generators {
        Generators {
            of_lines: [Generator::at(0, Role::Originator, 0); NOISE_LINES],
        }
    }
}
