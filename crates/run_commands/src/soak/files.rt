// The files.
ghost use Rattle.std.specs.Prelude.{◌≡◌, ◌+◌, ◌*◌, ◌^◌, ◌<◌, ◌++◌, OnOk, IfOk, length};
ghost use Rattle.run_commands.specs.Soaking.Drawing.{word_octets, drawn_octets};
ghost use Rattle.run_commands.specs.Soaking.Soak.{soak_file};

use crate::soak::drawing::drawn_word;
use shared_terms::{NoMemory, Role};
use std::alloc::Global;

/// The words of a file.
pub(crate) const FILE_WORDS: u64 = 16384;

/// Puts octets behind the others.
pub(crate) fn put_octets(octets: &mut Vec<u8>, more: &[u8]) -> Result<(), NoMemory>
    ensures { OnOk result (octets.new.items ≡ octets.old.items ++ more.now) }
{
    octets.extend_from_slice(more)?;
    Ok(())
}

/// Puts a word's four octets behind the others, the low one first.
fn put_word(octets: &mut Vec<u8>, word: u32) -> Result<(), NoMemory>
    ensures { OnOk result (octets.new.items ≡ octets.old.items ++ word_octets word) }
{
    put_octets(
        octets,
        &[
            (word % 256) as u8,
            (word / 256 % 256) as u8,
            (word / 65536 % 256) as u8,
            (word / 16777216) as u8,
        ],
    )
}

/// The octets of a seed's words from a place on, so many words.
fn drawn_octets(alloc: Global, seed: u64, from: u64, count: u64) -> Result<Vec<u8>, NoMemory>
    requires { from + count < 2 ^ 32 }
    ensures { IfOk result (λ octets. octets.items ≡ drawn_octets seed from count) }
{
    let mut octets = Vec::new(alloc);
    for place in 0..count {
        put_word(&mut octets, drawn_word(seed, from + place))?;
    }
    Ok(octets)
}

/// The file that a role's user has in the soak of a seed: 65,536 octets.
pub fn soak_file(alloc: Global, seed: u64, role: Role) -> Result<Vec<u8>, NoMemory>
    ensures file { IfOk result (λ file. file.items ≡ soak_file seed role) }
    ensures size { IfOk result (λ file. length file.items ≡ 65536) }
{
    match role {
        Role::Originator => drawn_octets(alloc, seed, 0, FILE_WORDS),
        Role::Answerer => drawn_octets(alloc, seed, FILE_WORDS, FILE_WORDS),
    }
}
