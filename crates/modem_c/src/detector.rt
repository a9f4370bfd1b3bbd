// Bits to the patterns of the detection phase.
ghost use Rattle.std.specs.Prelude.{◌≡◌, ◌≢◌, ◌≤◌, ◌++◌, [], Bool, List, ℕ, None, Some, length};
ghost use Rattle.gateway.specs.Given.{heard};
ghost use Rattle.gateway.specs.Sightings.{SeesAt};
ghost use Rattle.modem_c.specs.Answered.{Made, Answered};
ghost use Rattle.modem_c.specs.Detectors.{Detects, Sights, kind_of};
ghost use Rattle.modem_c.specs.Led.{detector_in};

use crate::codes::{DONE, EMPTY, NOTHING, WRONG_KIND};
use crate::handle::{Handle, make, put, take};
use crate::machine::Machine;
use gateway::PatternDetector;
use lapm_frames::Seen;
use std::alloc::Global;

/// The number of a pattern among what a line carries.
fn kind_of(seen: Seen) -> u32
    ensures { result ≡ kind_of seen }
{
    match seen {
        Seen::Odp => 1,
        Seen::Adp => 2,
    }
}

/// A detector before the first bit.
#[unsafe(no_mangle)]
pub extern "C" fn modem_detector_new(alloc: Global, handle: &mut Handle) -> i32
    ensures { Made handle.old.value handle.new.value result (λ led. Detects led []) }
{
    make(alloc, handle, Machine::Detector(PatternDetector::new()))
}

/// What a push reports.
fn tell(count: usize, seen: Option<Seen>, read: &mut usize, kind: &mut u32) -> i32
    ensures tells { (past : List Bool) (bits : List ℕ) → SeesAt past bits count seen → Sights past bits read.new kind.new result }
    ensures read { read.new ≡ count }
    ensures code { (result ≢ EMPTY) × (result ≢ WRONG_KIND) }
{
    *read = count;
    match seen {
        Some(seen) => {
            *kind = kind_of(seen);
            DONE
        }
        None => {
            *kind = 0;
            NOTHING
        }
    }
}

/// Pushes bits into what a handle leads to.
fn push(machine: &mut Machine, bits: &[u8], read: &mut usize, kind: &mut u32) -> i32
    requires read { read.old ≡ 0 }
    requires kind { kind.old ≡ 0 }
    ensures detects { (past : List Bool) → Detects (Some machine.old) past → Detects (Some machine.new) (past ++ heard read.new bits.now) }
    ensures sights { (past : List Bool) → Detects (Some machine.old) past → Sights past bits.now read.new kind.new result }
    ensures answer { Answered (detector_in (Some machine.old)) (Some machine.old) (Some machine.new) result (λ _. (result ≢ EMPTY) × (result ≢ WRONG_KIND)) }
    ensures none { detector_in (Some machine.old) ≡ None → (read.new ≡ 0) × (kind.new ≡ 0) }
    ensures read { read.new ≤ length bits.now }
{
    match machine {
        Machine::Detector(detector) => {
            let (count, seen) = detector.push(bits);
            tell(count, seen, read, kind)
        }
        _ => WRONG_KIND,
    }
}

/// Bits more, an octet each of which the lowest bit counts, up to the one with which a pattern is seen: how many were read, and 1 for the
/// originator's pattern, 2 for the answerer's, 0 for none.
#[unsafe(no_mangle)]
pub extern "C" fn modem_detector_push(
    alloc: Global,
    handle: &mut Handle,
    bits: &[u8],
    read: &mut usize,
    kind: &mut u32,
) -> i32
    ensures detects { (past : List Bool) → Detects handle.old.value past → Detects handle.new.value (past ++ heard read.new bits.now) }
    ensures sights { (past : List Bool) → Detects handle.old.value past → Sights past bits.now read.new kind.new result }
    ensures answer { Answered (detector_in handle.old.value) handle.old.value handle.new.value result (λ _. (result ≢ EMPTY) × (result ≢ WRONG_KIND)) }
    ensures none { detector_in handle.old.value ≡ None → (read.new ≡ 0) × (kind.new ≡ 0) }
    ensures read { read.new ≤ length bits.now }
{
    *read = 0;
    *kind = 0;
    let Some(mut machine) = take(alloc, handle) else {
        return EMPTY;
    };
    let code = push(machine.as_mut(), bits, read, kind);
    put(alloc, handle, machine);
    code
}
