// Runs over a folder that fails at a call, and what runs ask of it.

/// Calls of the folder.
pub(crate) const SCENARIOS: &str = r##"
scenario each call that fails is the answer
# What was received begins the files.
file o "a"
file a "b"
file s ""
ask run o a s go ga t
exit 0
leaves go a
leaves ga o
sweep go ga

scenario a failed append leaves the turns before
# Both ends send one file of four segments. The third append to what the answerer received, that of turn 11, fails.
ramp f 512
file s ""
ask run f f s go ga t
leaves go f
leaves ga f
sweep go ga
fails append ga 3
ask run f f s go ga t
exit 6
says "write fault\n"
leaves go f[..384]
leaves ga f[..256]
lines t 22
line t "10 answ i s=1 r=1 p=0 n=128 > i s=2 r=2 p=0 n=128"

scenario a failed read leaves prefixes
# Once the outputs are made a file is read segment by segment, here in turn 6. The first read of it looks at its length.
ramp o 512
file a ""
file s ""
ask run o a s go ga t
leaves go a
leaves ga o
holds calls "append t 0 51\nread o 0 128\nread o 128 128\nread o 256 128\nread o 384 128\nread o 512 128\nappend t 0 52\n"
sweep go ga
fails read o 2
ask run o a s go ga t
exit 5
says "read fault\n"
begins o ga
begins a go
lines t 12
fails read o 3
ask run o a s go ga t
exit 5
says "read fault\n"
begins o ga
begins a go
lines t 12
fails read o 4
ask run o a s go ga t
exit 5
says "read fault\n"
begins o ga
begins a go
lines t 12
fails read o 5
ask run o a s go ga t
exit 5
says "read fault\n"
begins o ga
begins a go
lines t 12
fails read o 6
ask run o a s go ga t
exit 5
says "read fault\n"
begins o ga
begins a go
lines t 12

scenario a small run makes these calls
# An octet at each limit, the script in pieces of 1,024 octets, the outputs, then turn by turn what comes for the users, what the ends want of their
# files, and both lines of the trace. The last call says the line.
file o "a"
file a "b"
file s ""
file asked ""
add asked "read s 65536 1\n"
add asked "read s 0 1024\n"
add asked "read o 16777216 1\n"
add asked "read a 16777216 1\n"
add asked "create go 0 0\n"
add asked "create ga 0 0\n"
add asked "create t 0 0\n"
add asked "append t 0 31\n"
add asked "append t 0 32\n"
add asked "append t 0 47\n"
add asked "append t 0 62\n"
add asked "append t 0 57\n"
add asked "read a 0 128\n"
add asked "append t 0 51\n"
add asked "read o 0 128\n"
add asked "append t 0 52\n"
add asked "append t 0 56\n"
add asked "append t 0 71\n"
add asked "append go 0 1\n"
add asked "append ga 0 1\n"
add asked "append t 0 84\n"
add asked "append t 0 69\n"
add asked "append t 0 52\n"
add asked "append t 0 43\n"
add asked "say - 0 8\n"
ask run o a s go ga t
exit 0
leaves calls asked

scenario the originator comes first in a turn
# Both users are given a segment, and both ends want the last one of their files.
file o "\x07"*2048
file a o
file s ""
ask run o a s go ga t
exit 0
holds calls "append go 0 128\nappend ga 0 128\nread o 1920 128\nread a 1920 128\nappend t 0 "

scenario outputs are made up to the first that fails
# The second one of three isn't made.
file o "a"
file a "b"
file s ""
fails create ga
ask run o a s go ga t
exit 6
says "write fault\n"
ends calls "create go 0 0\ncreate ga 0 0\nsay - 0 12\n"
leaves go ""
none ga t

scenario a fault in the middle of a line is the answer
file o "\x07"*16777217
file a ""
file s ""
fails say 3
ask run o a s go ga t
exit 6
says "too long: o"
leaves calls "read s 65536 1\nread s 0 1024\nread o 16777216 1\nsay - 0 10\nsay - 0 1\nsay - 0 1\n"
"##;
