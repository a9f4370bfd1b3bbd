// Two ends that carry a file each over a line that loses what it carries.

use crate::{Row, assert_rows};
use frame_check::{Info, Octets};
use gateway::{Carried, Endpoint, Told};
use lapm_link::Setup;
use shared_terms::Role;
use std::alloc::Global;
use xid_params::default_offer;

/// More turns than both files need.
const TURNS: u64 = 1000;

/// An end takes a window in a turn at most.
const MOST_A_TURN: u32 = 128;

/// What an end took of the other's file.
type Taken = Octets<4096>;

const ORIG: [u8; 300] = [b'o'; 300];

const ANSW: [u8; 128] = [b'a'; 128];

/// An end that is set up by the defaults.
fn end_of(alloc: Global, role: Role) -> Option<Endpoint> {
    let setup = Setup {
        role,
        offer: default_offer(),
        tries: 8,
        period: 20,
    };
    Endpoint::new(alloc, setup).ok().flatten()
}

/// What arrives of what was sent: nothing where it is lost.
fn carried(told: &Told, is_lost: bool) -> Carried<'_> {
    match told {
        Told::Pattern(seen) if !is_lost => Carried::Pattern(*seen),
        Told::Octets(octets) if !is_lost => Carried::Octets(octets.as_slice()),
        _ => Carried::Nothing,
    }
}

/// The user takes what came. Whether it is no more than was sent, and than a window.
fn deliver(end: &mut Endpoint, taken: &mut Taken) -> bool {
    let mut segment = Info::new();
    for _ in 0..MOST_A_TURN {
        if !end.deliver(&mut segment) {
            return true;
        }
        if 4096 - taken.len() < segment.len() {
            return false;
        }
        taken.extend(segment.as_slice());
    }
    false
}

/// The user offers what the end wants of what is left of the file.
fn offer<'a>(end: &mut Endpoint, file: &'a [u8]) -> &'a [u8] {
    let Some(longest) = end.wants() else {
        return file;
    };
    let (piece, rest) = file.split_at(file.len().min(usize::from(longest)));
    let _is_taken = end.offer(piece);
    rest
}

/// An end with its user.
#[derive(Drop)]
struct Side {
    end: Endpoint,
    /// What is left of its file.
    left: &'static [u8],
    taken: Taken,
    /// Whether nothing has gone wrong.
    goes_well: bool,
}

impl Side {
    fn new(end: Endpoint, file: &'static [u8]) -> Side {
        Side {
            end,
            left: file,
            taken: Taken::new(),
            goes_well: true,
        }
    }

    /// A turn: what it sends.
    fn turn(self, came: Told, is_lost: bool) -> (Side, Told) {
        let Side {
            end,
            left,
            mut taken,
            goes_well,
        } = self;
        let (mut end, heard) = end.hear(&carried(&came, is_lost));
        let delivers = deliver(&mut end, &mut taken);
        let (mut end, told) = end.speak(false);
        let left = offer(&mut end, left);
        let goes_well = goes_well && heard.is_ok() && delivers && told.is_ok();
        let side = Side {
            end,
            left,
            taken,
            goes_well,
        };
        (side, told.unwrap_or(Told::Mark))
    }
}

/// Whether both files cross, though what is sent in these turns is lost.
fn cross(mut orig: Side, mut answ: Side, lost: &[u64]) -> bool {
    let (mut from_orig, mut from_answ) = (Told::Mark, Told::Mark);
    for now in 0..TURNS {
        let is_lost = lost.contains(&now);
        let (next_orig, sent_orig) = orig.turn(from_answ, is_lost);
        let (next_answ, sent_answ) = answ.turn(from_orig, is_lost);
        orig = next_orig;
        answ = next_answ;
        from_orig = sent_orig;
        from_answ = sent_answ;
        if orig.end.is_whole() && answ.end.is_whole() {
            return have_crossed(&orig, &answ);
        }
    }
    false
}

/// Whether all went well, and each side took the other's file.
fn have_crossed(orig: &Side, answ: &Side) -> bool {
    orig.goes_well
        && answ.goes_well
        && orig.taken.as_slice() == ANSW.as_slice()
        && answ.taken.as_slice() == ORIG.as_slice()
}

/// The turns in which what is sent is lost.
struct Lost(&'static [u64]);

impl Row for Lost {
    fn holds(&self, alloc: Global) -> bool {
        let orig = end_of(alloc, Role::Originator);
        match (orig, end_of(alloc, Role::Answerer)) {
            (Some(orig), Some(answ)) => {
                cross(Side::new(orig, &ORIG), Side::new(answ, &ANSW), self.0)
            }
            _ => false,
        }
    }
}

const LINES: &[(&str, Lost)] = &[
    ("a line that loses nothing", Lost(&[])),
    (
        "a line that loses ten turns",
        Lost(&[1, 3, 8, 9, 10, 12, 13, 15, 18, 30]),
    ),
];

#[test]
fn files_cross(rt: HostRuntime) {
    assert_rows(&rt, rt.alloc(), LINES);
}

/// Whether an end only speaks behind what it hears, and hears once in a turn.
fn has_order(end: Endpoint) -> bool {
    let (end, told) = end.speak(false);
    let (end, heard) = end.hear(&Carried::Nothing);
    let (_end, again) = end.hear(&Carried::Nothing);
    told.is_err() && heard.is_ok() && again.is_err()
}

#[test]
fn a_turn_has_an_order(rt: HostRuntime) {
    let holds = match end_of(rt.alloc(), Role::Originator) {
        Some(end) => has_order(end),
        None => false,
    };
    assert!(rt; holds);
}
