// Published values of both checks.
use super::assert_row;
use frame_check::{Check, Info, Whole, append, passes};

/// Octets, a check, and whether they pass it.
const OCTETS: &[(&str, &[u8], Check, bool)] = &[
    (
        "nine digits and 16 bits",
        b"123456789\x6e\x90",
        Check::Sixteen,
        true,
    ),
    (
        "nine digits and 16 bits for 32",
        b"123456789\x6e\x90",
        Check::ThirtyTwo,
        false,
    ),
    (
        "nine digits and 32 bits",
        b"123456789\x26\x39\xf4\xcb",
        Check::ThirtyTwo,
        true,
    ),
    (
        "nine digits and 32 bits for 16",
        b"123456789\x26\x39\xf4\xcb",
        Check::Sixteen,
        false,
    ),
    (
        "a changed bit before 16 bits",
        b"023456789\x6e\x90",
        Check::Sixteen,
        false,
    ),
    (
        "a changed bit before 32 bits",
        b"023456789\x26\x39\xf4\xcb",
        Check::ThirtyTwo,
        false,
    ),
    (
        "without the first octet before 16 bits",
        b"23456789\x6e\x90",
        Check::Sixteen,
        false,
    ),
    (
        "without the first octet before 32 bits",
        b"23456789\x26\x39\xf4\xcb",
        Check::ThirtyTwo,
        false,
    ),
    (
        "a SABME and 16 bits",
        b"\x03\x7f\x5f\xae",
        Check::Sixteen,
        true,
    ),
    (
        "a SABME with another address",
        b"\x02\x7f\x5f\xae",
        Check::Sixteen,
        false,
    ),
    ("no octets", b"", Check::Sixteen, false),
    ("fewer octets than 16 bits", b"\x00", Check::Sixteen, false),
    (
        "fewer octets than 32 bits",
        b"\x00\x00\x00",
        Check::ThirtyTwo,
        false,
    ),
];

#[test]
fn octets_pass_their_own_check(rt: HostRuntime) {
    for &(name, octets, check, passing) in OCTETS {
        assert_row(&rt, name, passes(octets, check) == passing);
    }
}

/// Octets, the same with their check, and the check of the whole, which is the complement of the residue that ITU-T V.42 names for a
/// frame received without an error (F0B8, and DEBB20E3 with 32 bits, mirrored, as octets stand on the line).
const CHECKED: &[(&str, &[u8], Check, &[u8], &[u8])] = &[
    (
        "16 bits behind nine digits",
        b"123456789",
        Check::Sixteen,
        b"123456789\x6e\x90",
        b"\x47\x0f",
    ),
    (
        "32 bits behind nine digits",
        b"123456789",
        Check::ThirtyTwo,
        b"123456789\x26\x39\xf4\xcb",
        b"\x1c\xdf\x44\x21",
    ),
    (
        "16 bits behind a SABME",
        b"\x03\x7f",
        Check::Sixteen,
        b"\x03\x7f\x5f\xae",
        b"\x47\x0f",
    ),
];

/// Whether octets get this check, and the whole that one.
fn are_checked(octets: &[u8], check: Check, checked: &[u8], residue: &[u8]) -> bool {
    if octets.len() > 16 || checked.len() > 16 {
        return false;
    }
    let mut whole = Whole::new();
    whole.extend(octets);
    append(&mut whole, check);
    let is_checked = whole.as_slice() == checked;
    whole.clear();
    whole.extend(checked);
    append(&mut whole, check);
    is_checked && whole.as_slice().ends_with(residue)
}

#[test]
fn octets_get_their_check(rt: HostRuntime) {
    for &(name, octets, check, checked, residue) in CHECKED {
        assert_row(&rt, name, are_checked(octets, check, checked, residue));
    }
}

/// Whether a list has what it is given until it is cleared, and its copy still has it then.
fn list_goes_on() -> bool {
    let mut octets = Info::new();
    let begins_empty = octets.is_empty();
    octets.push(1);
    octets.extend(&[2, 3]);
    let count = octets.len();
    let copy = octets.copy();
    octets.clear();
    begins_empty && count == 3 && octets.is_empty() && copy.as_slice() == [1, 2, 3].as_slice()
}

#[test]
fn lists_of_octets(rt: HostRuntime) {
    assert_row(&rt, "it goes on", list_goes_on());
    assert_row(&rt, "it begins empty", Whole::new().len() == 0);
}
