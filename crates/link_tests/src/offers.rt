// Information fields, read and written.
use super::assert_row;
use frame_check::{INFO, Info};
use xid_params::{Offer, Terms, XidFault, agree, default_offer, read_offer, write_offer};

/// The defaults of V.42.
const DEFAULT: Offer = Offer {
    srej: false,
    check32: false,
    tx_len: 128,
    rx_len: 128,
    tx_window: 15,
    rx_window: 15,
};

/// Fields as they are sent, and what they offer.
const SENT: &[(&str, &[u8], Offer)] = &[
    (
        "the defaults",
        b"\x82\x80\x00\x13\x03\x03\x8a\x89\x00\x05\x02\x04\x00\x06\x02\x04\x00\x07\x01\x0f\x08\x01\x0f",
        DEFAULT,
    ),
    (
        "functions, lengths and windows",
        b"\x82\x80\x00\x13\x03\x03\x8e\x89\x01\x05\x02\x03\x20\x06\x02\x00\x08\x07\x01\x7f\x08\x01\x01",
        Offer {
            srej: true,
            check32: true,
            tx_len: 100,
            rx_len: 1,
            tx_window: 127,
            rx_window: 1,
        },
    ),
];

/// Whether octets are read as this offer, and it is written as these octets.
fn spells(octets: &[u8], offer: &Offer) -> bool {
    let Ok(heard) = read_offer(octets) else {
        return false;
    };
    let mut written = Info::new();
    write_offer(&heard, &mut written);
    heard == *offer && written.as_slice() == octets
}

#[test]
fn fields_as_they_are_sent(rt: HostRuntime) {
    for (name, octets, offer) in SENT {
        assert_row(&rt, name, spells(octets, offer));
    }
    assert_row(&rt, "default", default_offer() == DEFAULT);
}

/// Fields that no end of this kind sends, and what they offer, or their first fault.
const HEARD: &[(&str, &[u8], Result<Offer, XidFault>)] = &[
    (
        "other groups are passed over",
        b"\x82\x80\x00\x13\x03\x03\x8a\x89\x00\x05\x02\x04\x00\x06\x02\x04\x00\x07\x01\x0f\x08\x01\x0f\xf0\x00\x0f\x00\x03V42\x01\x01\x03\x02\x02\x08\x00\x03\x01\x20",
        Ok(DEFAULT),
    ),
    ("no group", b"\x82", Ok(DEFAULT)),
    ("an empty group", b"\x82\x80\x00\x00", Ok(DEFAULT)),
    ("nothing is read behind an FF", b"\x82\xff\x80", Ok(DEFAULT)),
    (
        "an unknown parameter",
        b"\x82\x80\x00\x02\xff\x00",
        Ok(DEFAULT),
    ),
    (
        "numbers have a most",
        b"\x82\x80\x00\x09\x05\x04\xff\xff\xff\xff\x07\x01\x80",
        Ok(Offer {
            tx_len: INFO as u16,
            tx_window: 127,
            ..DEFAULT
        }),
    ),
    ("no octets", b"", Err(XidFault::Format)),
    ("another format", b"\x81", Err(XidFault::Format)),
    (
        "a group without its length",
        b"\x82\x80",
        Err(XidFault::Length { at: 2 }),
    ),
    (
        "a group that is cut",
        b"\x82\x80\x00\x04\x07\x01\x0f",
        Err(XidFault::Length { at: 2 }),
    ),
    (
        "a second group",
        b"\x82\x80\x00\x00\x80\x00\x01",
        Err(XidFault::Group { at: 4 }),
    ),
    (
        "a parameter twice",
        b"\x82\x80\x00\x06\x07\x01\x0f\x07\x01\x0f",
        Err(XidFault::Repeated { at: 7 }),
    ),
    (
        "a parameter without its length",
        b"\x82\x80\x00\x01\x07",
        Err(XidFault::Length { at: 5 }),
    ),
    (
        "a window of two octets",
        b"\x82\x80\x00\x04\x07\x02\x00\x0f",
        Err(XidFault::Length { at: 5 }),
    ),
    // The parameter begins earlier.
    (
        "a parameter that is cut where a second group begins",
        b"\x82\x80\x00\x01\x07\x80\x00\x00",
        Err(XidFault::Length { at: 5 }),
    ),
    (
        "a length below an octet",
        b"\x82\x80\x00\x03\x05\x01\x07",
        Err(XidFault::Value { at: 6 }),
    ),
    (
        "a window of none",
        b"\x82\x80\x00\x03\x08\x01\x00",
        Err(XidFault::Value { at: 6 }),
    ),
];

/// Whether octets are read as this offer, or have this first fault.
fn are_heard(octets: &[u8], offer: &Result<Offer, XidFault>) -> bool {
    read_offer(octets) == *offer
}

#[test]
fn fields_as_they_are_heard(rt: HostRuntime) {
    for (name, octets, offer) in HEARD {
        assert_row(&rt, name, are_heard(octets, offer));
    }
}

#[test]
fn both_ends_keep_to_the_smaller(rt: HostRuntime) {
    let originator = Offer {
        srej: true,
        check32: true,
        tx_len: 100,
        tx_window: 127,
        rx_window: 20,
        ..default_offer()
    };
    let answerer = Offer {
        srej: true,
        rx_len: 90,
        tx_window: 16,
        rx_window: 100,
        ..default_offer()
    };
    let terms = Terms {
        srej: true,
        check32: false,
        len_o: 90,
        len_a: 128,
        window_o: 64,
        window_a: 16,
    };
    assert!(rt; agree(&originator, &answerer) == terms);
}
