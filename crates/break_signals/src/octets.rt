// The octets of a break's word.
ghost use Rattle.std.specs.Prelude.{◌≡◌, ◌<◌, [], IfOk};
ghost use Rattle.break_signals.specs.Words.{word_in, spelled, number_of};

use crate::{BreakFault, BreakWord};
use frame_check::Info;

/// The first octet of a break.
const BRK: u8 = 0x40;

/// The first octet of a break's answer.
const BRKACK: u8 = 0x60;

/// The word that the information of a UI frame spells, or its first fault.
pub fn read_break(info: &[u8]) -> Result<BreakWord, BreakFault>
    ensures word { result ≡ word_in info.now }
    ensures number { IfOk result (λ word. number_of word < 2) }
{
    match info {
        [] => Err(BreakFault::Length { len: 0 }),
        [kind, ..] if *kind != BRK && *kind != BRKACK => Err(BreakFault::Kind { octet: *kind }),
        [_, number, _] if *number > 1 => Err(BreakFault::Number { octet: *number }),
        [BRK, number, length] => Ok(BreakWord::Brk {
            number: *number,
            length: *length,
        }),
        [_, number, length] => Ok(BreakWord::Ack {
            number: *number,
            length: *length,
        }),
        _ => Err(BreakFault::Length { len: info.len() }),
    }
}

/// Writes a word's three octets.
pub fn write_break(word: &BreakWord, out: &mut Info)
    requires empty { out.old ≡ [] }
    requires number { number_of word.now < 2 }
    ensures { out.new ≡ spelled word.now }
{
    match *word {
        BreakWord::Brk { number, length } => out.extend(&[BRK, number, length]),
        BreakWord::Ack { number, length } => out.extend(&[BRKACK, number, length]),
    }
}
