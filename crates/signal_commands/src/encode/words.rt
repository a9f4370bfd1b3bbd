// The words of the command.
ghost use Rattle.std.specs.Prelude.{◌≡◌, true, IfSome, string_bytes, map};
ghost use Rattle.std.specs.Option.{option_map};
ghost use Rattle.command_base.specs.Apart.{are_apart};
ghost use Rattle.signal_commands.specs.Encoding.Words.{mode_named, names_of, named, inputs_of, outputs_of};

use command_base::are_apart;
use recordings::Rate;
use scramblers::Mode;

/// A recording that is to be made.
#[derive(Clone, Copy)]
pub struct EncodeWords<'a> {
    /// How fast it is sent.
    pub rate: Rate,
    /// The mode of the modem that sends.
    pub mode: Mode,
    /// The octets to be sent.
    pub file: &'a str,
    /// The recording that is made.
    pub rec: &'a str,
}

/// The mode that a word names, where it names one.
fn mode_of(word: &str) -> Option<Mode>
    ensures { result ≡ mode_named word.now }
{
    if word == "call" {
        Some(Mode::Call)
    } else if word == "answer" {
        Some(Mode::Answer)
    } else {
        None
    }
}

/// What the words behind the command of that rate name, where these are such words.
pub fn encode_words(rate: Rate, words: &[String]) -> Option<EncodeWords<'_>>
    ensures names { option_map named result ≡ names_of rate (map string_bytes words.now) }
    ensures apart { IfSome result (λ names. are_apart (inputs_of (named names)) (outputs_of (named names)) ≡ true) }
{
    let [mode, file, rec] = words else {
        return None;
    };
    if !are_apart(&[file.as_str()], &[rec.as_str()]) {
        return None;
    }
    match mode_of(mode.as_str()) {
        Some(mode) => Some(EncodeWords {
            rate,
            mode,
            file: file.as_str(),
            rec: rec.as_str(),
        }),
        None => None,
    }
}
