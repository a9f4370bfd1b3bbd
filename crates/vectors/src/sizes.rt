// The sizes and limits of all crates.
use bit_stuffing::{HEAD, SHORTEST, TAIL};
use command_base::{HEX_LIMIT, RECORDING_LIMIT};
use frame_check::{INFO, SLOT, WHOLE};
use line_tap::TAP_LIMIT;
use noise_script::{BREAK_LINES, BUSY_LINES, HIT_LINES, LOSE_LINES, NOISE_LINES, SCRIPT_OCTETS};
use run_inputs::LIMITS;
use shared_terms::FILE_LIMIT;
use trace_audit::TRACE_LIMIT;

/// The sizes and limits by their numbers: contracts name them, and would follow another number.
const SIZES: &[(&str, u64, u64)] = &[
    ("INFO", INFO as u64, 1024),
    ("WHOLE", WHOLE as u64, 1031),
    ("SLOT", SLOT as u64, 2615),
    ("SHORTEST", SHORTEST as u64, 4),
    ("HEAD", HEAD as u64, 10),
    ("TAIL", TAIL as u64, 128),
    ("LIMITS.file", LIMITS.file, 16_777_216),
    ("LIMITS.script", LIMITS.script, 65_536),
    ("TAP_LIMIT", TAP_LIMIT, 268_435_456),
    ("TRACE_LIMIT", TRACE_LIMIT, 16_777_216),
    ("FILE_LIMIT", FILE_LIMIT, 1_048_576),
    ("RECORDING_LIMIT", RECORDING_LIMIT, 8_388_616),
    ("HEX_LIMIT", HEX_LIMIT as u64, 512),
    ("SCRIPT_OCTETS", SCRIPT_OCTETS as u64, 65_536),
    ("LOSE_LINES", LOSE_LINES as u64, 1_024),
    ("HIT_LINES", HIT_LINES as u64, 1_024),
    ("NOISE_LINES", NOISE_LINES as u64, 64),
    ("BREAK_LINES", BREAK_LINES as u64, 64),
    ("BUSY_LINES", BUSY_LINES as u64, 64),
];

#[test]
fn sizes_and_limits(rt: HostRuntime) {
    for &(name, size, number) in SIZES {
        assert!(rt; size == number, "{name}");
    }
}
