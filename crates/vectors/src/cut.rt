// Inputs that are cut at each length.
ghost use Rattle.std.specs.Prelude.{◌≤◌, length};

use noise_script::{Cause, ScriptFault, read_script};
use std::alloc::Global;
use xid_params::{XidFault, read_offer};

/// An information field of one group, as an end writes it that offers nothing but the defaults.
const FIELD: &[u8] =
    b"\x82\x80\x00\x13\x03\x03\x8a\x89\x00\x05\x02\x04\x00\x06\x02\x04\x00\x07\x01\x0f\x08\x01\x0f";

/// The fault of so many octets of it: without its group it is whole; with a part of it the group is longer than the field.
fn field_fault(count: usize) -> Option<XidFault> {
    match count {
        0 => Some(XidFault::Format),
        1 | 23 => None,
        _ => Some(XidFault::Length { at: 2 }),
    }
}

#[test]
fn information_fields(rt: HostRuntime) {
    for count in 0..=FIELD.len() {
        assert!(rt;
            read_offer(&FIELD[..count]).err() == field_fault(count),
            "{count}"
        );
    }
}

const SCRIPT: &[u8] = b"delay 3 5\nlose orig 9 1\n";

/// The first faulty line of so many octets of it, and its cause.
fn faulty_line(count: usize) -> Option<(u32, Cause)> {
    match count {
        1..=4 => Some((1, Cause::Word)),
        5..=8 => Some((1, Cause::Count)),
        11..=13 => Some((2, Cause::Word)),
        14..=22 => Some((2, Cause::Count)),
        _ => None,
    }
}

/// Whether its first octets have the faulty line that they should have.
fn has_its_fault(alloc: Global, octets: &[u8]) -> bool
    requires { length octets.now ≤ 24 }
{
    let fault = faulty_line(octets.len());
    match read_script(alloc, octets) {
        Ok(_) => fault == None,
        Err(ScriptFault::Line { line, cause }) => fault == Some((line, cause)),
        Err(ScriptFault::NoMemory) => false,
    }
}

#[test]
fn scripts(rt: HostRuntime) {
    for count in 0..=SCRIPT.len() {
        assert!(&rt; has_its_fault(rt.alloc(), &SCRIPT[..count]), "{count}");
    }
}
