// Turns there and back.
use trellis_tables::differential::{Turner, Unturner};

/// Turns, and what they add up to.
const TURNS: &[(u8, u8)] = &[(1, 1), (0, 1), (3, 0), (2, 2), (3, 1), (2, 3)];

/// Whether turns add up so, and come back.
fn add_up(turns: &[(u8, u8)]) -> bool {
    let mut turner = Turner::new();
    let mut unturner = Unturner::new();
    for &(turn, sent) in turns {
        if turner.encode(turn % 4) != sent || unturner.decode(sent % 4) != turn {
            return false;
        }
    }
    true
}

#[test]
fn turns_add_up_and_come_back(rt: HostRuntime) {
    assert!(rt; add_up(TURNS));
}
