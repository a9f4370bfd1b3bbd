// Runs that are recorded: what both ends sent stands in two recordings.

/// Runs and what is recorded of them.
pub(crate) const SCENARIOS: &str = r##"
scenario two files are recorded
file o "a"
file a "b"
file s ""
ask record o a s go ga t ro ra
exit 0
says "done 12\n"
leaves go "b"
leaves ga "a"
lines t 26
# Both recordings have their headers and the slots of twelve turns, 1,856 octets each. Nothing is sent in the last turn.
length ro 22280
length ra 22280
begins ro "V32R\0\0\0\0"
begins ra "V32R\x01\0\0\0"
# The first sample of all is that of a pattern, (8192, -2048).
leaves ro[8..12] "\x00\x20\x00\xf8"

scenario a run that ends otherwise is recorded up to its end
# Both recordings have the slots of 120, 32 and 13 turns.
file o "a"
file a "b"
file s "lose answ 0 1000000\n"
ask record o a s go ga t ro ra
exit 8
says "not detected: turn 120\n"
length ro 222728
length ra 222728
begins ro "V32R\0\0\0\0"
begins ra "V32R\x01\0\0\0"
file s "lose answ 5 1\n"
ask record o a s go ga t ro ra
exit 0
says "done 32\n"
length ro 59400
length ra 59400
begins ro "V32R\0\0\0\0"
begins ra "V32R\x01\0\0\0"
file s "check32 orig\ncheck32 answ\nbreak orig 5 30\n"
ask record o a s go ga t ro ra
exit 0
says "done 13\n"
length ro 24136
length ra 24136
begins ro "V32R\0\0\0\0"
begins ra "V32R\x01\0\0\0"

scenario offsets are not recorded
# They change what is heard, and nothing of what is sent.
file o "a"
file a "b"
file s ""
ask record o a s go ga t ro ra
file plain_o ro
file plain_a ra
file s "noise orig 0 5000 500 42\n"
ask record o a s go ga t ro ra
leaves ro plain_o
leaves ra plain_a

scenario other commands read what was recorded
# Slots of 232 octets, which cost nothing, and the frames that the trace has behind the originator.
file o "a"
file a "b"
file s ""
ask record o a s go ga t ro ra
exit 0
says "done 12\n"
keep ro
ask decode ro d
exit 0
says "octets 2784\n"
keep d
ask margin ro d
exit 0
says "cost 0 sure 1\n"
ask pickup ro
exit 0
says "frame xid cmd p=0 n=23\nframe sabme cmd p=1\nframe rr cmd r=0 p=1\nframe i s=0 r=0 p=0 n=1\nframe rr rsp r=1 p=0\nframe disc cmd p=1\npieces 6\n"

scenario each call that fails leaves beginnings
# The answer is a fault of the folder, and all outputs begin those of the whole run.
file o "a"
file a "b"
file s ""
ask record o a s go ga t ro ra
sweep go ga t ro ra

scenario a small record makes these calls
# Those of its run, and besides both recordings behind the other outputs: each header whole, and in each turn but the last both slots behind the
# lines of the trace, the originator's first.
file o "a"
file a "b"
file s ""
file asked ""
add asked "read s 65536 1\n"
add asked "read s 0 1024\n"
add asked "read o 16777216 1\n"
add asked "read a 16777216 1\n"
add asked "create go 0 0\n"
add asked "create ga 0 0\n"
add asked "create t 0 0\n"
add asked "create ro 0 0\n"
add asked "create ra 0 0\n"
add asked "append ro 0 8\n"
add asked "append ra 0 8\n"
add asked "append t 0 31\n"
add asked "append ro 0 1856\n"
add asked "append ra 0 1856\n"
add asked "append t 0 32\n"
add asked "append ro 0 1856\n"
add asked "append ra 0 1856\n"
add asked "append t 0 47\n"
add asked "append ro 0 1856\n"
add asked "append ra 0 1856\n"
add asked "append t 0 62\n"
add asked "append ro 0 1856\n"
add asked "append ra 0 1856\n"
add asked "append t 0 57\n"
add asked "append ro 0 1856\n"
add asked "append ra 0 1856\n"
add asked "read a 0 128\n"
add asked "append t 0 51\n"
add asked "append ro 0 1856\n"
add asked "append ra 0 1856\n"
add asked "read o 0 128\n"
add asked "append t 0 52\n"
add asked "append ro 0 1856\n"
add asked "append ra 0 1856\n"
add asked "append t 0 56\n"
add asked "append ro 0 1856\n"
add asked "append ra 0 1856\n"
add asked "append t 0 71\n"
add asked "append ro 0 1856\n"
add asked "append ra 0 1856\n"
add asked "append go 0 1\n"
add asked "append ga 0 1\n"
add asked "append t 0 84\n"
add asked "append ro 0 1856\n"
add asked "append ra 0 1856\n"
add asked "append t 0 69\n"
add asked "append ro 0 1856\n"
add asked "append ra 0 1856\n"
add asked "append t 0 52\n"
add asked "append ro 0 1856\n"
add asked "append ra 0 1856\n"
add asked "append t 0 43\n"
add asked "say - 0 8\n"
ask record o a s go ga t ro ra
exit 0
says "done 12\n"
leaves calls asked
"##;
