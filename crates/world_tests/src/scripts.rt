// Scripts: their faults, offers, offsets, breaks and pauses.
use super::{Row, assert_rows};
use noise_script::{Generators, Offset, SCRIPT_OCTETS, Script, ScriptFault, read_script};
use shared_terms::{Cause, Role};
use std::alloc::Global;
use xid_params::Offer;

const ORIGINATOR: Role = Role::Originator;

const ANSWERER: Role = Role::Answerer;

/// What a script says of a run.
enum Says {
    /// How many turns the slots of an end are on the line.
    Delay(Role, u8),
    /// How often both ends try.
    Tries(u8),
    /// What an end offers.
    Offers(Role, Offer),
    /// What is added to the symbols that a role sends from one on.
    Offsets(Role, u64, &'static [(i32, i32)]),
    /// Whether the slot of a role's turn is lost.
    Loses(Role, u64, bool),
    /// A role's break of an index.
    Break(Role, usize, Option<(u64, u8)>),
    /// Whether a role's user asks for a pause in a turn.
    Busy(Role, u64, bool),
}

/// Whether the symbols that a role sends from one on have these offsets, asked for at once.
fn are_sums(
    script: &Script,
    generators: &mut Generators,
    sender: Role,
    from: u64,
    sums: &[(i32, i32)],
) -> bool {
    if sums.len() > 16 {
        return false;
    }
    let mut batch = [Offset { re: 1, im: 1 }; 16];
    script.offsets(generators, sender, from, &mut batch[..sums.len()]);
    for place in 0..sums.len() {
        if (batch[place].re, batch[place].im) != sums[place] {
            return false;
        }
    }
    true
}

/// Whether these are the offsets of the symbols that a role sends from one on: one by one, and in two batches, wherever the first one ends.
fn are_offsets(script: &Script, sender: Role, from: u64, sums: &[(i32, i32)]) -> bool {
    let mut generators = Generators::new();
    for place in 0..sums.len() {
        let symbol = from.wrapping_add(place as u64);
        let offset = script.offset(&mut generators, sender, symbol);
        let (front, back) = sums.split_at(place);
        if (offset.re, offset.im) != sums[place]
            || !are_sums(script, &mut generators, sender, from, front)
            || !are_sums(script, &mut generators, sender, symbol, back)
        {
            return false;
        }
    }
    true
}

/// Whether a script says this.
fn is_said(script: &Script, says: &Says) -> bool {
    match *says {
        Says::Delay(sender, turns) => script.delay(sender) == turns,
        Says::Tries(tries) => script.tries() == tries,
        Says::Offers(role, offer) => script.offer(role) == offer,
        Says::Offsets(sender, from, sums) => are_offsets(script, sender, from, sums),
        Says::Loses(sender, turn, lost) => script.loses(sender, turn) == lost,
        Says::Break(role, index, asked) => script.break_line(role, index) == asked,
        Says::Busy(role, turn, busy) => script.busy(role, turn) == busy,
    }
}

/// Whether a script says all of this.
fn are_said(script: &Script, sayings: &[Says]) -> bool {
    for says in sayings {
        if !is_said(script, says) {
            return false;
        }
    }
    true
}

/// A text so many times, and what that says where it is a script, or else its first faulty line and why that is faulty.
struct Text(&'static [u8], usize, Result<&'static [Says], (u32, Cause)>);

impl Text {
    /// Whether the text, so many times, is read so.
    fn is_read(&self, alloc: Global, text: &[u8]) -> bool {
        if text.len() > SCRIPT_OCTETS {
            return false;
        }
        match read_script(alloc, text) {
            Ok(script) => match self.2 {
                Ok(sayings) => are_said(&script, sayings),
                Err(_) => false,
            },
            Err(ScriptFault::Line { line, cause }) => self.2.err() == Some((line, cause)),
            Err(ScriptFault::NoMemory) => false,
        }
    }
}

impl Row for Text {
    fn holds(&self, alloc: Global) -> bool {
        match self.0.repeat(alloc, self.1) {
            Ok(text) => self.is_read(alloc, &text),
            Err(_) => false,
        }
    }
}

const FAULTS: &[(&str, Text)] = &[
    (
        "a word that there isn't",
        Text(b"# a comment\nspeed 3\n", 1, Err((2, Cause::Word))),
    ),
    (
        "a number that is missing",
        Text(b"delay 1", 1, Err((1, Cause::Count))),
    ),
    (
        "a number that is none",
        Text(b"n400 x", 1, Err((1, Cause::Number))),
    ),
    (
        "a second number of tries",
        Text(b"n400 5\nn400 5\n", 1, Err((2, Cause::Repeated))),
    ),
    (
        "a window of none",
        Text(b"k orig 0", 1, Err((1, Cause::Range))),
    ),
    (
        "a role that there isn't",
        Text(b"k call 0", 1, Err((1, Cause::Word))),
    ),
    (
        "a length that is too long",
        Text(b"n401 answ 1025", 1, Err((1, Cause::Range))),
    ),
    (
        "a second srej of an end",
        Text(
            b"srej answ\nsrej orig\nsrej orig",
            1,
            Err((3, Cause::Repeated)),
        ),
    ),
    (
        "a break of no length",
        Text(b"break orig 5 0", 1, Err((1, Cause::Range))),
    ),
    (
        "a pause that is too long",
        Text(b"busy answ 10 10001", 1, Err((1, Cause::Range))),
    ),
    (
        "a carriage return that ends no line",
        Text(b"n400 5\r", 1, Err((1, Cause::Number))),
    ),
    (
        "empty lines are counted",
        Text(b"\n\ndelay 61 x\n", 1, Err((3, Cause::Range))),
    ),
    // So many such lines are a script, and one more of them is a line too many.
    ("the most losses", Text(b"lose answ 7 1\n", 1024, Ok(&[]))),
    (
        "a loss too many",
        Text(b"lose answ 7 1\n", 1025, Err((1025, Cause::Limit))),
    ),
    ("the most hits", Text(b"hit orig 7 1 2 3\n", 1024, Ok(&[]))),
    (
        "a hit too many",
        Text(b"hit orig 7 1 2 3\n", 1025, Err((1025, Cause::Limit))),
    ),
    (
        "the most noises",
        Text(b"noise answ 0 2 500 42\n", 64, Ok(&[])),
    ),
    (
        "a noise too many",
        Text(b"noise answ 0 2 500 42\n", 65, Err((65, Cause::Limit))),
    ),
    ("the most breaks", Text(b"break orig 1 1\n", 64, Ok(&[]))),
    (
        "a break too many",
        Text(b"break orig 1 1\n", 65, Err((65, Cause::Limit))),
    ),
    ("the most pauses", Text(b"busy answ 1 1\n", 64, Ok(&[]))),
    (
        "a pause too many",
        Text(b"busy answ 1 1\n", 65, Err((65, Cause::Limit))),
    ),
];

#[test]
fn first_faults_and_limits(rt: HostRuntime) {
    assert_rows(&rt, rt.alloc(), FAULTS);
}

/// What an end offers without a line of its own.
const DEFAULT: Offer = Offer {
    srej: false,
    check32: false,
    tx_len: 128,
    rx_len: 128,
    tx_window: 15,
    rx_window: 15,
};

const SCRIPTS: &[(&str, Text)] = &[
    (
        "an empty script has defaults",
        Text(
            b"",
            1,
            Ok(&[
                Says::Delay(ORIGINATOR, 1),
                Says::Delay(ANSWERER, 1),
                Says::Tries(5),
                Says::Loses(ORIGINATOR, 0, false),
                Says::Offsets(ORIGINATOR, 0, &[(0, 0)]),
                Says::Offers(ORIGINATOR, DEFAULT),
                Says::Offers(ANSWERER, DEFAULT),
                Says::Break(ORIGINATOR, 0, None),
                Says::Busy(ORIGINATOR, 0, false),
            ]),
        ),
    ),
    (
        "each end offers what its lines say",
        Text(
            b"k answ 127\nn401 answ 128\nsrej orig\nsrej answ\nk orig 1\ncheck32 answ",
            1,
            Ok(&[
                Says::Offers(
                    ORIGINATOR,
                    Offer {
                        srej: true,
                        tx_window: 1,
                        rx_window: 1,
                        ..DEFAULT
                    },
                ),
                Says::Offers(
                    ANSWERER,
                    Offer {
                        srej: true,
                        check32: true,
                        tx_window: 127,
                        rx_window: 127,
                        ..DEFAULT
                    },
                ),
            ]),
        ),
    ),
    (
        "one end offers a length",
        Text(
            b"n401 orig 5",
            1,
            Ok(&[
                Says::Offers(
                    ORIGINATOR,
                    Offer {
                        tx_len: 5,
                        rx_len: 5,
                        ..DEFAULT
                    },
                ),
                Says::Offers(ANSWERER, DEFAULT),
            ]),
        ),
    ),
    (
        "breaks and pauses of each end",
        Text(
            b"break orig 9 1\nbreak answ 5 2\nbreak orig 4 3\nbreak orig 9 4\nbusy answ 10 5",
            1,
            Ok(&[
                Says::Break(ORIGINATOR, 0, Some((4, 3))),
                Says::Break(ORIGINATOR, 1, Some((9, 1))),
                Says::Break(ORIGINATOR, 2, Some((9, 4))),
                Says::Break(ORIGINATOR, 3, None),
                Says::Break(ANSWERER, 0, Some((5, 2))),
                Says::Busy(ANSWERER, 9, false),
                Says::Busy(ANSWERER, 10, true),
                Says::Busy(ANSWERER, 14, true),
                Says::Busy(ANSWERER, 15, false),
                Says::Busy(ORIGINATOR, 9, false),
                Says::Busy(ORIGINATOR, 10, false),
                Says::Busy(ORIGINATOR, 14, false),
                Says::Busy(ORIGINATOR, 15, false),
            ]),
        ),
    ),
    (
        "each kind of line",
        Text(
            b" delay\t2 060\r\nn400 20\n\nlose answ 5 2\nhit orig 7 1 -32768 -0\nhit orig 7 2 1 1",
            1,
            Ok(&[
                Says::Delay(ORIGINATOR, 2),
                Says::Delay(ANSWERER, 60),
                Says::Tries(20),
                Says::Loses(ANSWERER, 6, true),
                Says::Loses(ANSWERER, 7, false),
                Says::Loses(ORIGINATOR, 6, false),
                Says::Offsets(ORIGINATOR, 7, &[(-32767, 1)]),
                Says::Offsets(ORIGINATOR, 8, &[(1, 1)]),
            ]),
        ),
    ),
    (
        "noise on two symbols",
        Text(
            b"noise orig 0 2 500 42",
            1,
            Ok(&[
                Says::Offsets(ORIGINATOR, 0, &[(195, -233)]),
                Says::Offsets(ORIGINATOR, 1, &[(-89, 28)]),
                Says::Offsets(ORIGINATOR, 2, &[(0, 0)]),
                Says::Offsets(ANSWERER, 0, &[(0, 0)]),
            ]),
        ),
    ),
    (
        "two noises and a hit that begin and end within a batch",
        Text(
            b"noise orig 3 4 500 42\nnoise orig 5 6 300 7\nhit orig 4 5 1000 -2000\nnoise answ 0 20 500 1",
            1,
            Ok(&[
                Says::Offsets(
                    ORIGINATOR,
                    0,
                    &[
                        (0, 0),
                        (0, 0),
                        (0, 0),
                        (195, -233),
                        (911, -1972),
                        (367, -1603),
                        (483, -2035),
                        (1246, -1771),
                        (1184, -2228),
                        (212, 226),
                        (120, -11),
                        (0, 0),
                    ],
                ),
                Says::Offsets(
                    ORIGINATOR,
                    6,
                    &[(483, -2035), (1246, -1771), (1184, -2228), (212, 226)],
                ),
                Says::Offsets(ANSWERER, 18, &[(-228, 256), (36, 369), (0, 0)]),
                Says::Offsets(ORIGINATOR, 1_152_921_504_606_846_974, &[(0, 0), (0, 0)]),
            ]),
        ),
    ),
    (
        "the last symbols of the last noise that there may be",
        Text(
            b"noise orig 1099511627775 4294967295 32767 18446744073709551615",
            1,
            Ok(&[Says::Offsets(
                ORIGINATOR,
                1_103_806_595_067,
                &[(17308, -6434), (27229, 18691), (25976, 13928), (0, 0)],
            )]),
        ),
    ),
    (
        "the longest text",
        Text(b"# empty\n", 65_536 / 8, Ok(&[Says::Tries(5)])),
    ),
];

#[test]
fn scripts_say_what_their_lines_do(rt: HostRuntime) {
    assert_rows(&rt, rt.alloc(), SCRIPTS);
}
