// The words of the command.
ghost use Rattle.std.specs.Prelude.{◌≡◌, true, IfSome, string_bytes, map};
ghost use Rattle.std.specs.Option.{option_map};
ghost use Rattle.command_base.specs.Apart.{are_apart};
ghost use Rattle.signal_commands.specs.Decoding.Words.{names_of, named, inputs_of, outputs_of};

use command_base::are_apart;
use recordings::Rate;

/// A recording that is to be decoded.
#[derive(Clone, Copy)]
pub struct DecodeWords<'a> {
    /// How fast it was sent.
    pub rate: Rate,
    /// The recording.
    pub rec: &'a str,
    /// The octets that are made of it.
    pub file: &'a str,
}

/// What the words behind the command of that rate name, where these are such words.
pub fn decode_words(rate: Rate, words: &[String]) -> Option<DecodeWords<'_>>
    ensures names { option_map named result ≡ names_of rate (map string_bytes words.now) }
    ensures apart { IfSome result (λ names. are_apart (inputs_of (named names)) (outputs_of (named names)) ≡ true) }
{
    let [rec, file] = words else {
        return None;
    };
    if !are_apart(&[rec.as_str()], &[file.as_str()]) {
        return None;
    }
    Some(DecodeWords {
        rate,
        rec: rec.as_str(),
        file: file.as_str(),
    })
}
