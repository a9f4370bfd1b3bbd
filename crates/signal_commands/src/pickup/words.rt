// The words of the command.
ghost use Rattle.std.specs.Prelude.{◌≡◌, map, string_bytes};
ghost use Rattle.std.specs.Option.{option_map};
ghost use Rattle.signal_commands.specs.PickingUp.Words.{recording_named};

/// The recording's name in the words behind `pickup`, where these are such words.
pub fn pickup_words(words: &[String]) -> Option<&str>
    ensures { option_map (λ rec. rec.now) result ≡ recording_named (map string_bytes words.now) }
{
    let [rec] = words else {
        return None;
    };
    Some(rec.as_str())
}
