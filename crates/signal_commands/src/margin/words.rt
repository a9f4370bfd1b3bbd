// The words of the command.
ghost use Rattle.std.specs.Prelude.{◌≡◌, string_bytes, map};
ghost use Rattle.std.specs.Option.{option_map};
ghost use Rattle.signal_commands.specs.Margins.Words.{names_of, named};

/// A recording, and the octets that it is held against.
#[derive(Clone, Copy)]
pub struct MarginWords<'a> {
    /// The recording.
    pub rec: &'a str,
    /// The octets that were sent.
    pub file: &'a str,
}

/// What the words behind `margin` name, where these are such words.
pub fn margin_words(words: &[String]) -> Option<MarginWords<'_>>
    ensures { option_map named result ≡ names_of (map string_bytes words.now) }
{
    let [rec, file] = words else {
        return None;
    };
    Some(MarginWords {
        rec: rec.as_str(),
        file: file.as_str(),
    })
}
