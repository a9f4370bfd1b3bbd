// Soaks, and words that spell no seed.

/// Seeds and what comes of them.
const SCENARIOS: &str = r##"
scenario a seed is soaked
ask soak 7
exit 0
says "soak 7 done 614 lost 12 again 99\n"
# Its files are none of the folder's.
leaves calls "say - 0 33\n"

scenario words without a seed are told the usage
file empty ""
usage soak 07
usage soak x
usage soak @empty
usage soak 18446744073709551616
usage soak
usage soak 7 7

scenario seeds of either parity are done
# Their lines say so, whatever is lost.
ask soak 8
exit 0
begins said "soak 8 done "
ask soak 9
exit 0
begins said "soak 9 done "
"##;

#[test]
fn seeds_are_soaked(rt: HostRuntime) {
    crate::stage::play(&rt, rt.alloc(), "soaking.rt", SCENARIOS);
}
