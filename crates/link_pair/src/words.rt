// The words of a pair.
ghost use Rattle.std.specs.Prelude.{◌≡◌, true, IfSome, string_bytes, map};
ghost use Rattle.std.specs.Option.{option_map};
ghost use Rattle.command_base.specs.Apart.{are_apart};
ghost use Rattle.link_pair.specs.Words.{names_of, named, inputs_of, outputs_of};

use crate::PairNames;
use command_base::are_apart;
use line_world::Names;

/// The names of a pair.
#[derive(Clone, Copy)]
pub struct PairWords<'a> {
    /// What the line does, for both links.
    pub script: &'a str,
    /// The files of each link.
    pub links: PairNames<'a>,
}

/// What the words behind `pair` name, where these are such words.
pub fn pair_words(words: &[String]) -> Option<PairWords<'_>>
    ensures names { option_map named result ≡ names_of (map string_bytes words.now) }
    ensures apart { IfSome result (λ names. are_apart (inputs_of (named names)) (outputs_of (named names)) ≡ true) }
{
    let [
        orig_1,
        answ_1,
        orig_2,
        answ_2,
        script,
        got_o_1,
        got_a_1,
        got_o_2,
        got_a_2,
        trace_1,
        trace_2,
    ] = words
    else {
        return None;
    };
    let first = Names {
        orig: orig_1.as_str(),
        answ: answ_1.as_str(),
        got_o: got_o_1.as_str(),
        got_a: got_a_1.as_str(),
        trace: trace_1.as_str(),
    };
    let second = Names {
        orig: orig_2.as_str(),
        answ: answ_2.as_str(),
        got_o: got_o_2.as_str(),
        got_a: got_a_2.as_str(),
        trace: trace_2.as_str(),
    };
    let script = script.as_str();
    let inputs = [first.orig, first.answ, second.orig, second.answ, script];
    let outputs = [
        first.got_o,
        first.got_a,
        second.got_o,
        second.got_a,
        first.trace,
        second.trace,
    ];
    if !are_apart(&inputs, &outputs) {
        return None;
    }
    let links = PairNames { first, second };
    Some(PairWords { script, links })
}
