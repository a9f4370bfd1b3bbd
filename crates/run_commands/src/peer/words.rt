// The words of the command.
ghost use Rattle.std.specs.Prelude.{◌≡◌, true, IfSome, string_bytes, map};
ghost use Rattle.std.specs.Option.{option_map};
ghost use Rattle.command_base.specs.Apart.{are_apart};
ghost use Rattle.run_commands.specs.Peering.Words.{names_of, named, inputs_of, outputs_of};

use command_base::are_apart;
use shared_terms::Role;

/// An end that is to meet a peer.
#[derive(Clone, Copy)]
pub struct PeerWords<'a> {
    /// Which end it is.
    pub role: Role,
    /// What the end's user sends.
    pub file: &'a str,
    /// The peer's bits.
    pub bits: &'a str,
    /// What the end's user is given.
    pub got: &'a str,
    /// What the end hears and sends, a line a turn.
    pub trace: &'a str,
}

/// What the words behind `peer` name, where these are such words.
pub fn peer_words(words: &[String]) -> Option<PeerWords<'_>>
    ensures names { option_map named result ≡ names_of (map string_bytes words.now) }
    ensures apart { IfSome result (λ names. are_apart (inputs_of (named names)) (outputs_of (named names)) ≡ true) }
{
    let [role, file, bits, got, trace] = words else {
        return None;
    };
    let (file, bits) = (file.as_str(), bits.as_str());
    let (got, trace) = (got.as_str(), trace.as_str());
    if !are_apart(&[file, bits], &[got, trace]) {
        return None;
    }
    match Role::of_word(role.as_bytes()) {
        Some(role) => Some(PeerWords {
            role,
            file,
            bits,
            got,
            trace,
        }),
        None => None,
    }
}
