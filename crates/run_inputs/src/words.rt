// The words of a run.
ghost use Rattle.std.specs.Prelude.{◌≡◌, true, IfSome, string_bytes, map};
ghost use Rattle.std.specs.Option.{option_map};
ghost use Rattle.command_base.specs.Apart.{are_apart};
ghost use Rattle.run_inputs.specs.Words.{run_named, record_named, asked_for, named, inputs_of, outputs_of};

use command_base::are_apart;
use line_run::Names;
use shared_terms::Both;

/// The words of a run behind the first one.
#[derive(Drop)]
pub struct RunWords<'a> {
    /// What is sent, what is received, and what becomes of each turn.
    pub names: Names<'a>,
    /// What the line does.
    pub script: &'a str,
    /// What each end sends, where the run is recorded.
    pub tapes: Option<Both<&'a str>>,
}

/// What words name, where no output is another one or an input.
fn apart<'a>(words: RunWords<'a>, outputs: &[&str]) -> Option<RunWords<'a>>
    requires { map (λ name. name.now) outputs.now ≡ outputs_of (named words) }
    ensures names { option_map named result ≡ asked_for (named words.entry) }
    ensures apart { IfSome result (λ it. are_apart (inputs_of (named it)) (outputs_of (named it)) ≡ true) }
{
    let inputs = [words.names.orig, words.names.answ, words.script];
    if are_apart(&inputs, outputs) {
        Some(words)
    } else {
        None
    }
}

/// What the words behind `run` name, where these are such words.
pub fn run_words(words: &[String]) -> Option<RunWords<'_>>
    ensures names { option_map named result ≡ run_named (map string_bytes words.now) }
    ensures apart { IfSome result (λ names. are_apart (inputs_of (named names)) (outputs_of (named names)) ≡ true) }
{
    let [orig, answ, script, got_o, got_a, trace] = words else {
        return None;
    };
    let names = Names {
        orig: orig.as_str(),
        answ: answ.as_str(),
        got_o: got_o.as_str(),
        got_a: got_a.as_str(),
        trace: trace.as_str(),
    };
    let outputs = [names.got_o, names.got_a, names.trace];
    let script = script.as_str();
    let tapes = None;
    let words = RunWords {
        names,
        script,
        tapes,
    };
    apart(words, &outputs)
}

/// What the words behind `record` name, where these are such words.
pub fn record_words(words: &[String]) -> Option<RunWords<'_>>
    ensures names { option_map named result ≡ record_named (map string_bytes words.now) }
    ensures apart { IfSome result (λ names. are_apart (inputs_of (named names)) (outputs_of (named names)) ≡ true) }
{
    let [orig, answ, script, got_o, got_a, trace, rec_o, rec_a] = words else {
        return None;
    };
    let (rec_o, rec_a) = (rec_o.as_str(), rec_a.as_str());
    let names = Names {
        orig: orig.as_str(),
        answ: answ.as_str(),
        got_o: got_o.as_str(),
        got_a: got_a.as_str(),
        trace: trace.as_str(),
    };
    let outputs = [names.got_o, names.got_a, names.trace, rec_o, rec_a];
    let script = script.as_str();
    let tapes = Some(Both {
        orig: rec_o,
        answ: rec_a,
    });
    let words = RunWords {
        names,
        script,
        tapes,
    };
    apart(words, &outputs)
}
