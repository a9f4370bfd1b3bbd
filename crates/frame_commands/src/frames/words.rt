// The words of the command.
ghost use Rattle.std.specs.Prelude.{◌≡◌, string_bytes, map};
ghost use Rattle.std.specs.Option.{option_map};
ghost use Rattle.frame_commands.specs.Listing.Words.{names_of, named};

use shared_terms::Role;

/// A stream of bits that is to be listed.
#[derive(Clone, Copy)]
pub struct FramesWords<'a> {
    /// The end that sent the stream.
    pub sender: Role,
    /// The file that holds the bits, eight an octet.
    pub bits: &'a str,
}

/// What the words behind `frames` name, where these are such words.
pub fn frames_words(words: &[String]) -> Option<FramesWords<'_>>
    ensures { option_map named result ≡ names_of (map string_bytes words.now) }
{
    let [sender, bits] = words else {
        return None;
    };
    match Role::of_word(sender.as_bytes()) {
        Some(sender) => Some(FramesWords {
            sender,
            bits: bits.as_str(),
        }),
        None => None,
    }
}
