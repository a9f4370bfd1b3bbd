// Slots through a line and back.
ghost use Rattle.std.specs.Prelude.{◌≡◌, ◌+◌, ◌<◌, ◌≤◌, ◌^◌, List, [], OnOk};
ghost use Rattle.frame_check.specs.declared.sizes.TheConstants.{SLOT};
ghost use Rattle.detection.specs.Slots.{Signal};
ghost use Rattle.lapm_frames.specs.Sendable.{IsSendable};
ghost use Rattle.sample_line.specs.Line.{LineStands, sender_of};
ghost use Rattle.sample_line.specs.Coder.{CoderStands};

use super::{Row, assert_rows};
use bit_stuffing::BitSlot;
use exact_decoder::Lost;
use frame_check::{Check, SLOT};
use lapm_frames::Sent;
use noise_script::{SCRIPT_OCTETS, Script, read_script};
use sample_line::{Coder, Heard, LabelSlot, Line, laws};
use shared_terms::{NoMemory, Role};
use std::alloc::Global;

mod chance;
mod forged;
mod frames;
mod noise;
mod zero;

use frames::{Message, sent};

/// What is heard of a slot, beside what was sent.
#[derive(Clone, Copy, PartialEq, Eq)]
enum Outcome {
    /// What was sent passes; of ones and of flags nothing is heard.
    AsSent,
    /// What was sent is lost.
    Lost,
    Chance,
    Other,
}

fn outcome_of(heard: &Heard, sent: &Sent) -> Outcome {
    let is_quiet = matches!(sent, Sent::Mark | Sent::Flags);
    match heard {
        Heard::Nothing if is_quiet => Outcome::AsSent,
        Heard::Passed(passed) if !is_quiet && passed == sent => Outcome::AsSent,
        Heard::Lost(lost) if lost == sent => Outcome::Lost,
        Heard::Chance => Outcome::Chance,
        _ => Outcome::Other,
    }
}

/// Codes the next slot by one check, passes it, and judges it by the other check.
fn through(
    coder: &mut Coder,
    line: &mut Line,
    script: &Script,
    sent: &Sent,
    coded: Check,
    judged: Check,
    loses: bool,
) -> Result<Heard, Lost>
    requires symbols { line.old.symbols ≡ SLOT }
    requires coded { coder.old.writer.symbols ≡ SLOT }
    requires sender { sender_of line.old ≡ coder.old.sender }
    requires few { line.old.passed < 2 ^ 40 }
    requires sendable { IsSendable sent.now }
    requires stands { (passed : List Signal) × LineStands line.old script.now passed × CoderStands coder.old passed }
    ensures symbols { line.new.symbols ≡ SLOT }
    ensures coded { coder.new.writer.symbols ≡ SLOT }
    ensures sender { sender_of line.new ≡ coder.new.sender }
    ensures passed { line.new.passed ≡ line.old.passed + 1 }
    ensures stands { OnOk result ((passed : List Signal) × LineStands line.new script.now passed × CoderStands coder.new passed) }
{
    laws::all_fits();
    let mut bits = BitSlot::new();
    let mut labels = LabelSlot::new();
    coder.code(sent, coded, 0, &mut bits, &mut labels);
    line.pass(script, &labels, sent, loses, judged, 0)
}

/// What becomes of a message so.
fn message_through(
    coder: &mut Coder,
    line: &mut Line,
    script: &Script,
    message: &Message,
    coded: Check,
    judged: Check,
    loses: bool,
) -> Result<Outcome, Lost>
    requires symbols { line.old.symbols ≡ SLOT }
    requires coded { coder.old.writer.symbols ≡ SLOT }
    requires sender { sender_of line.old ≡ coder.old.sender }
    requires few { line.old.passed < 2 ^ 40 }
    requires stands { (passed : List Signal) × LineStands line.old script.now passed × CoderStands coder.old passed }
    ensures symbols { line.new.symbols ≡ SLOT }
    ensures coded { coder.new.writer.symbols ≡ SLOT }
    ensures sender { sender_of line.new ≡ coder.new.sender }
    ensures passed { line.new.passed ≡ line.old.passed + 1 }
    ensures stands { OnOk result ((passed : List Signal) × LineStands line.new script.now passed × CoderStands coder.new passed) }
{
    let sent = sent(message);
    match through(coder, line, script, &sent, coded, judged, loses) {
        Ok(heard) => Ok(outcome_of(&heard, &sent)),
        Err(lost) => Err(lost),
    }
}

/// The symbols of the shortest slots here.
const SYMBOLS: u16 = 464;

/// What becomes of an originator's flags in a first slot of 464 symbols, where there is memory.
fn flags_through(alloc: Global, text: &[u8]) -> Option<Result<Outcome, Lost>> {
    if text.len() > SCRIPT_OCTETS {
        return None;
    }
    let Ok(script) = read_script(alloc, text) else {
        return None;
    };
    let Ok(mut line) = Line::new(alloc, Role::Originator, SYMBOLS) else {
        return None;
    };
    let mut bits = BitSlot::new();
    let mut labels = LabelSlot::new();
    let mut coder = Coder::new(Role::Originator, SYMBOLS);
    coder.code(&Sent::Flags, Check::Sixteen, 0, &mut bits, &mut labels);
    match line.pass(&script, &labels, &Sent::Flags, false, Check::Sixteen, 0) {
        Ok(heard) => Some(Ok(outcome_of(&heard, &Sent::Flags))),
        Err(lost) => Some(Err(lost)),
    }
}

/// The label with which a place is tried: each label stands at each of eight places that follow one another.
fn tried_at(i: usize) -> u8
    ensures { result < 32 }
{
    ((i % 32 + i / 8 % 32 * 5) % 32) as u8
}

/// Whether a slot keeps as many labels as it has room for, and one once it is cleared.
fn keeps_labels(labels: &mut LabelSlot) -> bool {
    for i in 0..SLOT {
        if labels.len() < SLOT {
            labels.push(tried_at(i));
        }
    }
    let count = labels.len();
    for i in 0..count {
        if labels.label(i) != tried_at(i) {
            return false;
        }
    }
    labels.clear();
    labels.push(tried_at(9));
    count == SLOT && labels.len() == 1 && labels.label(0) == tried_at(9)
}

#[test]
fn a_full_slot_keeps_its_labels(rt: HostRuntime) {
    assert!(rt; keeps_labels(&mut LabelSlot::new()));
}
