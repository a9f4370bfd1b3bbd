// The words of the command.
ghost use Rattle.std.specs.Prelude.{◌≡◌, map, string_bytes};
ghost use Rattle.run_commands.specs.Soaking.Words.{seed_named};

use noise_script::read_plain_number;

/// The seed in the words behind `soak`, where these are such words.
pub fn soak_words(words: &[String]) -> Option<u64>
    ensures { result ≡ seed_named (map string_bytes words.now) }
{
    let [seed] = words else {
        return None;
    };
    read_plain_number(seed.as_bytes())
}
