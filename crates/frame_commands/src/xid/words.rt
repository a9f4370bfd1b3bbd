// The words of the command.
ghost use Rattle.std.specs.Prelude.{◌≡◌, map, string_bytes};
ghost use Rattle.std.specs.Option.{option_map};
ghost use Rattle.frame_commands.specs.Explaining.Words.{digits_named};

/// The digits in the words behind `xid`, where these are such words.
pub fn xid_words(words: &[String]) -> Option<&str>
    ensures { option_map (λ digits. digits.now) result ≡ digits_named (map string_bytes words.now) }
{
    let [digits] = words else {
        return None;
    };
    Some(digits.as_str())
}
