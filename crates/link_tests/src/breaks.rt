// Words of breaks, and breaks asked, answered and given.
use super::assert_row;
use break_signals::{
    BreakFault, BreakReceiver, BreakSender, BreakWord, Spent0, read_break, write_break,
};
use frame_check::Info;

/// Octets, and the word that they are, or their first fault.
const WORDS: &[(&str, &[u8], Result<BreakWord, BreakFault>)] = &[
    (
        "a break",
        &[0x40, 1, 30],
        Ok(BreakWord::Brk {
            number: 1,
            length: 30,
        }),
    ),
    (
        "an answer",
        &[0x60, 0, 0],
        Ok(BreakWord::Ack {
            number: 0,
            length: 0,
        }),
    ),
    ("no octet", &[], Err(BreakFault::Length { len: 0 })),
    ("the kind", &[0x41], Err(BreakFault::Kind { octet: 0x41 })),
    (
        "the length before the number",
        &[0x40, 2],
        Err(BreakFault::Length { len: 2 }),
    ),
    (
        "the number",
        &[0x40, 2, 0],
        Err(BreakFault::Number { octet: 2 }),
    ),
];

/// Whether octets are this word or have this fault, and the word is written as these octets.
fn spells(octets: &[u8], word: Result<BreakWord, BreakFault>) -> bool {
    let heard = read_break(octets);
    match heard {
        Ok(brk) => {
            let mut info = Info::new();
            write_break(&brk, &mut info);
            heard == word && info.as_slice() == octets
        }
        Err(_) => heard == word,
    }
}

#[test]
fn words_are_three_octets(rt: HostRuntime) {
    for &(name, octets, word) in WORDS {
        assert_row(&rt, name, spells(octets, word));
    }
}

/// What an end does that asks for a break, with one try and four turns to wait.
enum Step {
    /// In this turn it asks for a break of this length, which is taken on or not.
    Ask(u32, u8, bool),
    /// This break is due.
    Due(BreakWord),
    /// This break is due, and is sent; none is due then.
    Send(BreakWord),
    /// A turn begins, in which a break may be due again, or its tries are spent.
    Tick(u32, Result<(), Spent0>),
    /// In this turn the break of a number is answered; whether one waits then.
    Answer(u32, u8, bool),
}

/// Whether a step goes as it says.
fn holds(sender: &mut BreakSender, step: &Step) -> bool {
    match *step {
        Step::Ask(turn, length, taken) => sender.ask(u64::from(turn), length) == taken,
        Step::Due(brk) => sender.due() == Some(brk),
        Step::Send(brk) => match sender.due() {
            Some(due) if due == brk => {
                sender.sent();
                sender.due() == None
            }
            _ => false,
        },
        Step::Tick(turn, answer) => sender.tick(u64::from(turn), 4, 1) == answer,
        Step::Answer(turn, number, waits) => {
            sender.answered(u64::from(turn), number);
            sender.waiting() == waits
        }
    }
}

const BRK: BreakWord = BreakWord::Brk {
    number: 0,
    length: 20,
};

/// A break is sent again until it is answered.
const STEPS: &[(&str, Step)] = &[
    ("a break is taken on", Step::Ask(5, 20, true)),
    ("a second one is not", Step::Ask(6, 20, false)),
    ("it is due until it is sent", Step::Send(BRK)),
    ("another answer changes nothing", Step::Answer(8, 1, true)),
    ("its time is over", Step::Tick(9, Ok(()))),
    ("it is due again", Step::Due(BRK)),
    ("its tries are spent", Step::Tick(13, Err(Spent0))),
    ("it is answered", Step::Answer(13, 0, false)),
    (
        "seven turns later none is taken on",
        Step::Ask(20, 1, false),
    ),
    ("eight turns later one is", Step::Ask(21, 1, true)),
];

#[test]
fn a_break_is_sent_again_until_it_is_answered(rt: HostRuntime) {
    let mut sender = BreakSender::new();
    for (name, step) in STEPS {
        assert_row(&rt, name, holds(&mut sender, step));
    }
}

const ACK: BreakWord = BreakWord::Ack {
    number: 0,
    length: 20,
};

/// Whether a receiver owes an answer, and none once it is sent.
fn owes_one(receiver: &mut BreakReceiver) -> bool {
    if receiver.due() != Some(ACK) {
        return false;
    }
    receiver.sent();
    receiver.due() == None
}

#[test]
fn a_break_is_given_once(rt: HostRuntime) {
    let mut receiver = BreakReceiver::new();
    assert_row(&rt, "it is given", receiver.take(0, 20) == Some(20));
    assert_row(&rt, "but once", receiver.take(0, 20) == None);
    assert_row(&rt, "it is answered", owes_one(&mut receiver));
    assert_row(&rt, "the next one is given", receiver.take(1, 3) == Some(3));
}
