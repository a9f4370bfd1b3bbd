// The script, by its text.
ghost use Rattle.std.specs.Prelude.{◌≡◌, ◌≤◌, ◌+◌, ◌++◌, ◌∷◌, ◌<◌, ◌^◌, [], OnOk, IfOk, length, decimal};
ghost use Rattle.run_commands.specs.Soaking.Soak.{role_in_turn, turn_lost, soak_script};
ghost use Rattle.run_commands.specs.Soaking.Text.{noise_head, noise_line, lose_head, lose_line, soak_text};

use crate::soak::drawing::drawn_word;
use crate::soak::files::{FILE_WORDS, put_octets};
use itoa::Buffer;
use noise_script::laws::noisy_lines_spell;
use noise_script::{Script, ScriptFault, read_script};
use shared_terms::{NoMemory, Role};
use std::alloc::Global;

/// The slots that are to be lost.
const LOSSES: u64 = 12;

/// Puts a number in decimal digits.
fn put_number(text: &mut Vec<u8>, number: u64) -> Result<(), NoMemory>
    ensures { OnOk result (text.new.items ≡ text.old.items ++ decimal number) }
{
    let mut buffer = Buffer::new();
    put_octets(text, buffer.format(number).as_bytes())
}

/// Puts a line: its words up to a number, the number, and the rest.
fn put_line(text: &mut Vec<u8>, head: &[u8], number: u64, rest: &[u8]) -> Result<(), NoMemory>
    ensures { OnOk result (text.new.items ≡ text.old.items ++ (head.now ++ (decimal number ++ rest.now))) }
{
    put_octets(text, head)?;
    put_number(text, number)?;
    put_octets(text, rest)
}

/// The words of the line of noise on what a role sends, up to its seed.
fn noise_head(role: Role) -> &'static [u8]
    ensures { result.now ≡ noise_head role }
{
    match role {
        Role::Originator => b"noise orig 0 4294967295 500 ",
        Role::Answerer => b"noise answ 0 4294967295 500 ",
    }
}

/// Puts the line of noise on what a role sends.
fn put_noise(text: &mut Vec<u8>, role: Role, seed: u64) -> Result<(), NoMemory>
    ensures { OnOk result (text.new.items ≡ text.old.items ++ (noise_line role seed ++ 10 ∷ [])) }
{
    put_line(text, noise_head(role), seed, b"\n")
}

/// The words of a line that loses a slot of a role, up to its turn.
fn lose_head(role: Role) -> &'static [u8]
    ensures { result.now ≡ lose_head role }
{
    match role {
        Role::Originator => b"lose orig ",
        Role::Answerer => b"lose answ ",
    }
}

/// Puts the line that loses the slot of a role in a turn.
fn put_loss(text: &mut Vec<u8>, role: Role, turn: u64) -> Result<(), NoMemory>
    ensures { OnOk result (text.new.items ≡ text.old.items ++ (lose_line role turn ++ 10 ∷ [])) }
{
    put_line(text, lose_head(role), turn, b" 1\n")
}

/// The role of that number, the originator first.
fn role_in_turn(n: u64) -> Role
    ensures { result ≡ role_in_turn n }
{
    if n % 2 == 0 {
        Role::Originator
    } else {
        Role::Answerer
    }
}

/// The turn in which the slot of that number is lost.
fn turn_lost(seed: u64, n: u64) -> u64
    requires { n < 2 ^ 32 }
    ensures { result ≡ turn_lost seed n }
{
    40 + u64::from(drawn_word(seed, 2 * FILE_WORDS + n)) % 400
}

/// The text of the script.
fn soak_text(alloc: Global, seed: u64) -> Result<Vec<u8>, NoMemory>
    ensures { IfOk result (λ text. text.items ≡ soak_text seed) }
{
    let mut text = Vec::new(alloc);
    put_octets(&mut text, b"delay 3 5\n")?;
    put_noise(&mut text, Role::Originator, seed)?;
    put_noise(&mut text, Role::Answerer, seed)?;
    for n in 0..LOSSES {
        put_loss(&mut text, role_in_turn(n), turn_lost(seed, n))?;
    }
    Ok(text)
}

/// The script of the soak of a seed.
pub fn soak_script(alloc: Global, seed: u64) -> Result<Script, NoMemory>
    ensures { IfOk result (λ script. script ≡ soak_script seed) }
{
    noisy_lines_spell();
    let text = soak_text(alloc, seed)?;
    match read_script(alloc, &text) {
        Ok(script) => Ok(script),
        Err(ScriptFault::Line { .. }) => unreachable!(),
        Err(ScriptFault::NoMemory) => Err(NoMemory),
    }
}
