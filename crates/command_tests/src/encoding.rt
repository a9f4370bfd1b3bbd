// Files that become recordings, with what each command prints and leaves.

/// Files and their recordings.
pub(crate) const SCENARIOS: &str = r##"
scenario files become recordings at both rates
file f ""
ask encode call f r
exit 0
says "samples 0\n"
leaves r "V32R\0\0\0\0"
file f "\x00"
ask encode call f r
exit 0
says "samples 2\n"
leaves r "V32R\0\0\0\0\x00\xe0\x00\x08\x00\xe0\x00\x08"
file f "\x01"
ask encode call f r
exit 0
says "samples 2\n"
leaves r "V32R\0\0\0\0\x00\xf0\x00\x18\x00\xf0\x00\x18"
ask encode answer f r
exit 0
says "samples 2\n"
leaves r "V32R\x01\0\0\0\x00\xf0\x00\x18\x00\x10\x00\xe8"
file f ""
ask encode4 call f r
exit 0
says "samples 0\n"
leaves r "V32R\x02\0\0\0"
file f "\x01"
ask encode4 call f r
exit 0
says "samples 4\n"
leaves r "V32R\x02\0\0\0\x00\x08\x00\xe8\x00\x08\x00\xe8\x00\x08\x00\xe8\x00\x08\x00\xe8"
file f ""
ask encode4 answer f r
exit 0
says "samples 0\n"
leaves r "V32R\x03\0\0\0"

scenario each call that fails is named by its kind
# A file of three pieces takes an octet at its limit, the output, its header, and four reads with three appends between.
file f "\x07"*1200
file asked ""
add asked "read f 1048576 1\n"
add asked "create r 0 0\n"
add asked "append r 0 8\n"
add asked "read f 0 512\n"
add asked "append r 0 4096\n"
add asked "read f 512 512\n"
add asked "append r 0 4096\n"
add asked "read f 1024 512\n"
add asked "append r 0 1408\n"
add asked "read f 1200 512\n"
add asked "say - 0 13\n"
ask encode call f r
exit 0
says "samples 2400\n"
leaves calls asked
fails read f 1
ask encode call f r
exit 5
fails create r
ask encode call f r
exit 6
fails append r 1
ask encode call f r
exit 6
fails read f 2
ask encode call f r
exit 5
fails append r 2
ask encode call f r
exit 6
fails read f 3
ask encode call f r
exit 5
fails append r 3
ask encode call f r
exit 6
fails read f 4
ask encode call f r
exit 5
fails append r 4
ask encode call f r
exit 6
fails read f 5
ask encode call f r
exit 5
fails say 1
ask encode call f r
exit 6

scenario a small encoding makes these calls
# At 4800 bit/s an octet is four samples.
file f "a"
file asked ""
add asked "read f 1048576 1\n"
add asked "create r 0 0\n"
add asked "append r 0 8\n"
add asked "read f 0 512\n"
add asked "append r 0 16\n"
add asked "read f 1 512\n"
add asked "say - 0 10\n"
ask encode4 answer f r
exit 0
says "samples 4\n"
leaves calls asked
file asked ""
add asked "read f 1048576 1\n"
add asked "create r 0 0\n"
add asked "append r 0 8\n"
add asked "read f 0 512\n"
add asked "append r 0 8\n"
add asked "read f 1 512\n"
add asked "say - 0 10\n"
ask encode answer f r
exit 0
says "samples 2\n"
leaves calls asked

scenario a file that is too long is named
file f "\x07"*1048577
ask encode call f r
exit 4
says "too long: f\n"
none r
"##;
