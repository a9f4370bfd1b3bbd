// The words of a tap.
ghost use Rattle.std.specs.Prelude.{◌≡◌, true, IfSome, string_bytes, map};
ghost use Rattle.std.specs.Option.{option_map};
ghost use Rattle.command_base.specs.Apart.{are_apart};
ghost use Rattle.line_tap.specs.Names.{named, inputs_of, outputs_of};
ghost use Rattle.line_tap.specs.Words.{names_of, asked_for};

use crate::TapWords;
use command_base::are_apart;

/// What words name, where no output is another one or an input.
fn apart_names(names: TapWords<'_>) -> Option<TapWords<'_>>
    ensures names { option_map named result ≡ asked_for (named names.entry) }
    ensures apart { IfSome result (λ names. are_apart (inputs_of (named names)) (outputs_of (named names)) ≡ true) }
{
    let inputs = [names.rec_o, names.rec_a, names.script];
    let outputs = [names.got_o, names.got_a, names.trace];
    if are_apart(&inputs, &outputs) {
        Some(names)
    } else {
        None
    }
}

/// What the words behind `tap` name, where these are such words.
pub fn tap_words(words: &[String]) -> Option<TapWords<'_>>
    ensures names { option_map named result ≡ names_of (map string_bytes words.now) }
    ensures apart { IfSome result (λ names. are_apart (inputs_of (named names)) (outputs_of (named names)) ≡ true) }
{
    let [rec_o, rec_a, script, got_o, got_a, trace] = words else {
        return None;
    };
    apart_names(TapWords {
        rec_o: rec_o.as_str(),
        rec_a: rec_a.as_str(),
        script: script.as_str(),
        got_o: got_o.as_str(),
        got_a: got_a.as_str(),
        trace: trace.as_str(),
    })
}
