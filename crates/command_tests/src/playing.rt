// The files of scenarios, each of which is played from its first line to its last.
use crate::stage::{play, stage_behind};
use crate::{
    auditing, choosing, cutting, decoding, encoding, ending, explaining, failing, growing, hits,
    idling, limits, listing, losses, measuring, mebibytes, meeting, opening, pairing, picking,
    recorded, recording, running, tapping,
};

/// Words of each command, its inputs, and bits and digits that are explained.
#[test]
fn inputs_are_taken_or_refused(rt: HostRuntime) {
    play(&rt, rt.alloc(), "choosing.rt", choosing::SCENARIOS);
    play(&rt, rt.alloc(), "opening.rt", opening::SCENARIOS);
    play(&rt, rt.alloc(), "growing.rt", growing::SCENARIOS);
    play(&rt, rt.alloc(), "limits.rt", limits::SCENARIOS);
    play(&rt, rt.alloc(), "listing.rt", listing::SCENARIOS);
    play(&rt, rt.alloc(), "explaining.rt", explaining::SCENARIOS);
}

/// Recordings that are made and read.
#[test]
fn recordings_are_made_and_read(rt: HostRuntime) {
    play(&rt, rt.alloc(), "encoding.rt", encoding::SCENARIOS);
    play(&rt, rt.alloc(), "decoding.rt", decoding::SCENARIOS);
    play(&rt, rt.alloc(), "cutting.rt", cutting::SCENARIOS);
    play(&rt, rt.alloc(), "measuring.rt", measuring::SCENARIOS);
    play(&rt, rt.alloc(), "picking.rt", picking::SCENARIOS);
}

/// Runs of two ends, and of one against the bits of its peer.
#[test]
fn files_cross(rt: HostRuntime) {
    play(&rt, rt.alloc(), "running.rt", running::SCENARIOS);
    play(&rt, rt.alloc(), "losses.rt", losses::SCENARIOS);
    play(&rt, rt.alloc(), "hits.rt", hits::SCENARIOS);
    play(&rt, rt.alloc(), "failing.rt", failing::SCENARIOS);
    play(&rt, rt.alloc(), "meeting.rt", meeting::SCENARIOS);
}

#[test]
fn files_of_a_mebibyte_cross(rt: HostRuntime) {
    play(&rt, rt.alloc(), "mebibytes.rt", mebibytes::SCENARIOS);
}

/// Runs that are recorded, and recordings of both ways that are tapped.
#[test]
fn runs_are_recorded_and_tapped(rt: HostRuntime) {
    play(&rt, rt.alloc(), "recording.rt", recording::SCENARIOS);
    play(&rt, rt.alloc(), "recorded.rt", recorded::SCENARIOS);
    play(&rt, rt.alloc(), "tapping.rt", tapping::SCENARIOS);
}

/// Two links over one line.
#[test]
fn both_links_cross_as_each_does_alone(rt: HostRuntime) {
    play(&rt, rt.alloc(), "pairing.rt", pairing::SCENARIOS);
    play(&rt, rt.alloc(), "ending.rt", ending::SCENARIOS);
    play(&rt, rt.alloc(), "idling.rt", idling::SCENARIOS);
}

#[test]
fn traces_are_audited(rt: HostRuntime) {
    play(&rt, rt.alloc(), "auditing.rt", auditing::SCENARIOS);
}

/// A small run without a fault.
const SMALL: &str = "\
file o \"a\"
file a \"b\"
file s \"\"
ask run o a s go ga t
exit 0";

/// Calls that it doesn't make, and words that mean none.
const UNMADE: &[&str] = &[
    "fails read o 3",
    "fails append go 2",
    "fails create o",
    "fails say 2",
    "fails say 0",
    "fails say",
    "fails 3",
];

#[test]
fn calls_that_are_not_made_can_t_fail(rt: HostRuntime) {
    for call in UNMADE {
        let mut stage = stage_behind(&rt, rt.alloc(), "playing.rt, SMALL", 1, SMALL);
        let is_told = stage.step(call) == Some(true);
        assert!(rt;
            is_told && stage.step("ask run o a s go ga t") == None,
            "{call}"
        );
    }
}
