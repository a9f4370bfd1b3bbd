// Slots through noise.
use super::*;

/// What is sent in a turn and each sixth one behind it: patterns, ones, flags and frames.
const MESSAGES: &[Message; 6] = &[
    Message::Odp,
    Message::Adp,
    Message::Mark,
    Message::Noise,
    Message::Flags,
    Message::Reject(9),
];

/// Whether twelve slots are heard as they were sent.
fn are_heard(alloc: Global, script: &Script, sender: Role) -> Result<bool, NoMemory> {
    let mut coder = Coder::new(sender, SLOT as u16);
    let mut line = Line::new(alloc, sender, SLOT as u16)?;
    for turn in 0..12usize {
        let message = &MESSAGES[turn % 6];
        let check = Check::ThirtyTwo;
        match message_through(&mut coder, &mut line, script, message, check, check, false) {
            Ok(Outcome::AsSent) => {}
            _ => return Ok(false),
        }
    }
    Ok(true)
}

/// The noise on the slots of a sender.
struct Noise(&'static [u8], Role);

impl Row for Noise {
    fn holds(&self, alloc: Global) -> bool {
        if self.0.len() > SCRIPT_OCTETS {
            return false;
        }
        match read_script(alloc, self.0) {
            Ok(script) => matches!(are_heard(alloc, &script, self.1), Ok(true)),
            Err(_) => false,
        }
    }
}

/// Both noises, so that each end has its own.
const BOTH: &[u8] = b"noise orig 0 5568 500 1\nnoise answ 0 5568 500 2";

const NOISES: &[(&str, Noise)] = &[
    ("the originator's slots", Noise(BOTH, Role::Originator)),
    ("the answerer's slots", Noise(BOTH, Role::Answerer)),
];

#[test]
fn noise_of_500_units_on_each_symbol_changes_nothing(rt: HostRuntime) {
    assert_rows(&rt, rt.alloc(), NOISES);
}
