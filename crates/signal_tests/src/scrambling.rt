// Octets scrambled and descrambled.
ghost use Rattle.std.specs.Prelude.{◌≤◌};

use scramblers::{ANSWER_TAP, CALL_TAP, Descrambler, Scrambler};

// Whether octets are sent as those beside them, low bit first, and read back.
fn become_octets<const TAP: usize>(octets: &[(u8, u8)]) -> bool
    requires low { 1 ≤ TAP }
    requires high { TAP ≤ 22 }
{
    let mut scrambler = Scrambler::<TAP>::new();
    let mut descrambler = Descrambler::<TAP>::new();
    for &(octet, line) in octets {
        for place in 0..8u32 {
            let bit = (octet >> place) & 1 == 1;
            let sent = scrambler.push(bit);
            if sent != ((line >> place) & 1 == 1) || descrambler.push(sent) != bit {
                return false;
            }
        }
    }
    true
}

/// The octet 01 and octets 00 behind it, and what the modem that called sends, and the one that answered.
const CALL: &[(u8, u8)] = &[
    (1, 0x01),
    (0, 0x00),
    (0, 0x84),
    (0, 0x00),
    (0, 0x10),
    (0, 0x40),
];

const ANSWER: &[(u8, u8)] = &[(1, 0x21), (0, 0x84), (0, 0x90)];

#[test]
fn both_modes_spread_a_single_one(rt: HostRuntime) {
    assert!(rt; become_octets::<CALL_TAP>(CALL) && become_octets::<ANSWER_TAP>(ANSWER));
}
