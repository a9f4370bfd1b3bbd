// Recordings of both ways of a line, tapped beside its script.

/// Recordings and what is tapped. Octets of a slot are put on the line as they are, so those of frames have no five ones in a row.
pub(crate) const SCENARIOS: &str = r##"
scenario recordings are tapped
# The originator's first segment, one octet, with its check of 16 bits and with one of 32 bits.
file segment "\x03\x00\x00\x61\x9c\xab"
file segment32 "\x03\x00\x00\x61\x3c\x21\x44\x09"
# A segment of 158 octets: 128 symbols of its slot are left behind its closing flag. A segment of one octet more.
file octets "b"*158
file longest "\x03\x00\x00" octets "\x42\xb8"
file longer "\x03\x00\x00" octets "b" "\xc2\xd1"
# What the originator sent.
file nothing ""
ask encode call nothing nothing.o
keep nothing.o
file flags ""
slot flags "~"
ask encode call flags flags.o
keep flags.o
file two ""
slot two "~"
slot two "~"
ask encode call two two.o
keep two.o
file told ""
slot told "~"
slot told "~" "~~~~" segment
ask encode call told told.o
keep told.o
file told32 ""
slot told32 "~"
slot told32 "~" "~~~~" segment32
ask encode call told32 told32.o
keep told32.o
file early ""
slot early "~" "~~~~" segment
ask encode call early early.o
keep early.o
# The frame stands one flag later in its slot.
file late ""
slot late "~"
slot late "~" "~~~~~" segment
ask encode call late late.o
keep late.o
file slot158 ""
slot slot158 "~" "~~~~" longest
ask encode call slot158 slot158.o
keep slot158.o
file slot159 ""
slot slot159 "~" "~~~~" longer
ask encode call slot159 slot159.o
keep slot159.o
# The originator's last octet is cut off, and its last sample is turned by a half.
file cut.o two.o[..3719]
file turned.o flags.o
turn turned.o 463 464 0 0
turn turned.o 463 464 0 0
# What the answerer sent.
ask encode answer nothing nothing.a
keep nothing.a
ask encode answer flags flags.a
keep flags.a
ask encode answer two two.a
keep two.a
# What the line does.
file plain ""
file lossy "lose orig 1 1"
file both32 "check32 orig\ncheck32 answ\n"
# Nothing was recorded.
ask tap nothing.o nothing.a plain go ga t
exit 0
says "turns 1\n"
leaves go ""
leaves ga ""
leaves t "0 orig - > none\n" "0 answ - > none\n"
# One slot of each end.
ask tap flags.o flags.a plain go ga t
exit 0
says "turns 2\n"
leaves go ""
leaves ga ""
leaves t "0 orig - > flags\n" "0 answ - > flags\n" "1 orig - > none\n" "1 answ - > none\n"
# A segment is heard in the turn behind.
ask tap told.o two.a plain go ga t
exit 0
says "turns 3\n"
leaves go ""
leaves ga "a"
leaves t "0 orig - > flags\n" "0 answ - > flags\n" "1 orig - > i s=0 r=0 p=0 n=1\n" "1 answ - > flags\n" "2 orig - > none\n" "2 answ i s=0 r=0 p=0 n=1 > none\n"
# It is lost.
ask tap told.o two.a lossy go ga t
exit 0
says "turns 3\n"
leaves go ""
leaves ga ""
leaves t "0 orig - > flags\n" "0 answ - > flags\n" "1 orig - > i s=0 r=0 p=0 n=1\n" "1 answ - > flags\n" "2 orig - > none\n" "2 answ lost i s=0 r=0 p=0 n=1 > none\n"
# One end has a slot more, or less; what arrives in that turn is delivered.
ask tap two.o flags.a plain go ga t
exit 14
says "bad tap: answ turn 1\n"
leaves go ""
leaves ga ""
leaves t "0 orig - > flags\n" "0 answ - > flags\n"
ask tap flags.o two.a plain go ga t
exit 14
says "bad tap: orig turn 1\n"
leaves go ""
leaves ga ""
leaves t "0 orig - > flags\n" "0 answ - > flags\n"
ask tap early.o two.a plain go ga t
exit 14
says "bad tap: orig turn 1\n"
leaves go ""
leaves ga "a"
leaves t "0 orig - > i s=0 r=0 p=0 n=1\n" "0 answ - > flags\n"
# A slot is cut, has a point that does not follow, or a frame at another place.
ask tap cut.o two.a plain go ga t
exit 14
says "bad tap: orig turn 1\n"
leaves go ""
leaves ga ""
leaves t "0 orig - > flags\n" "0 answ - > flags\n"
ask tap turned.o flags.a plain go ga t
exit 14
says "bad tap: orig turn 0\n"
leaves go ""
leaves ga ""
leaves t ""
ask tap late.o two.a plain go ga t
exit 14
says "bad tap: orig turn 1\n"
leaves go ""
leaves ga ""
leaves t "0 orig - > flags\n" "0 answ - > flags\n"
# At least 128 symbols are left behind a frame.
ask tap slot158.o flags.a plain go ga t
exit 0
says "turns 2\n"
leaves go ""
leaves ga octets
leaves t "0 orig - > i s=0 r=0 p=0 n=158\n" "0 answ - > flags\n" "1 orig - > none\n" "1 answ i s=0 r=0 p=0 n=158 > none\n"
ask tap slot159.o flags.a plain go ga t
exit 14
says "bad tap: orig turn 0\n"
leaves go ""
leaves ga ""
leaves t ""
# The check is the one that both offer.
ask tap told.o two.a both32 go ga t
exit 14
says "bad tap: orig turn 1\n"
leaves go ""
leaves ga ""
leaves t "0 orig - > flags\n" "0 answ - > flags\n"
ask tap told32.o two.a plain go ga t
exit 14
says "bad tap: orig turn 1\n"
leaves go ""
leaves ga ""
leaves t "0 orig - > flags\n" "0 answ - > flags\n"
# A frame with that check is one of an end that knows it; who hears it knows it from an XID frame on.
ask tap told32.o two.a both32 go ga t
exit 0
says "turns 3\n"
leaves go ""
leaves ga ""
leaves t "0 orig - > flags\n" "0 answ - > flags\n" "1 orig - > i s=0 r=0 p=0 n=1\n" "1 answ - > flags\n" "2 orig - > none\n" "2 answ lost i s=0 r=0 p=0 n=1 > none\n"

scenario refused taps leave nothing
# A slot of flags of each end, where both headers have the originator's mode, or the folder fails at a call.
slot flags "~"
file plain ""
ask encode call flags flags.o
keep flags.o
ask encode answer flags flags.a
keep flags.a
file wrong.a flags.a[..4] "\0" flags.a[5..]
ask tap flags.o wrong.a plain go ga t
exit 3
says "bad recording: at 4\n"
none go ga t
ask tap flags.o flags.a plain go ga t
exit 0
file asked "read plain 65536 1\n" "read plain 0 1024\n" "read flags.o 268435456 1\n" "read flags.a 268435456 1\n"
add asked "read flags.o 0 8\n" "read flags.a 0 8\n" "create go 0 0\n"
begins calls asked
fails read plain 1
ask tap flags.o flags.a plain go ga t
exit 5
says "read fault\n"
none go ga t
fails read plain 2
ask tap flags.o flags.a plain go ga t
exit 5
says "read fault\n"
none go ga t
fails read flags.o 1
ask tap flags.o flags.a plain go ga t
exit 5
says "read fault\n"
none go ga t
fails read flags.a 1
ask tap flags.o flags.a plain go ga t
exit 5
says "read fault\n"
none go ga t
fails read flags.o 2
ask tap flags.o flags.a plain go ga t
exit 5
says "read fault\n"
none go ga t
fails read flags.a 2
ask tap flags.o flags.a plain go ga t
exit 5
says "read fault\n"
none go ga t
fails create go
ask tap flags.o flags.a plain go ga t
exit 6
says "write fault\n"
none go ga t

scenario the originator's recording comes first in a turn
# A slot of flags of each end: no clause can tell in which order both are read, as long as both can be.
file plain ""
slot flags "~"
ask encode call flags flags.o
keep flags.o
ask encode answer flags flags.a
keep flags.a
ask tap flags.o flags.a plain go ga t
exit 0
says "turns 2\n"
holds calls "read flags.o 8 1856\nread flags.a 8 1856\nappend t 0 "
holds calls "read flags.o 1864 1856\nread flags.a 1864 1856\nappend t "

scenario a small tap makes these calls
# An octet at each limit, the script, both headers, the outputs, and turn by turn what came for the users, a slot of each recording, and both lines of
# the trace.
file s ""
slot sent "~"
slot sent "~" "~~~~" "\x03\x00\x00\x61\x9c\xab"
ask encode call sent ro
keep ro
file sent ""
slot sent "~"
slot sent "~"
ask encode answer sent ra
keep ra
file asked ""
add asked "read s 65536 1\n"
add asked "read s 0 1024\n"
add asked "read ro 268435456 1\n"
add asked "read ra 268435456 1\n"
add asked "read ro 0 8\n"
add asked "read ra 0 8\n"
add asked "create go 0 0\n"
add asked "create ga 0 0\n"
add asked "create t 0 0\n"
add asked "read ro 8 1856\n"
add asked "read ra 8 1856\n"
add asked "append t 0 34\n"
add asked "read ro 1864 1856\n"
add asked "read ra 1864 1856\n"
add asked "append t 0 46\n"
add asked "append ga 0 1\n"
add asked "read ro 3720 1856\n"
add asked "read ra 3720 1856\n"
add asked "append t 0 48\n"
add asked "say - 0 8\n"
ask tap ro ra s go ga t
exit 0
says "turns 3\n"
leaves calls asked

scenario enough symbols are left behind a frame
# Segments of b, of which octets of five ones and three zeros have a zero put in.
file plain ""
slot flags "~"
ask encode answer flags ra
keep ra
# 129 symbols are left.
frame sent "\x03\x00\x00" "bbbb" "\x1fbb"*4 "b"*141 "\xd2\xa8"
ask encode call sent ro
keep ro
ask tap ro ra plain go ga t
exit 0
says "turns 2\n"
# One bit less than 128 symbols.
file sent ""
frame sent "\x03\x00\x00" "bbbb" "\x1f" "b"*153 "\xab\x40"
ask encode call sent ro
keep ro
ask tap ro ra plain go ga t
exit 14
says "bad tap: orig turn 0\n"
# 127 symbols.
file sent ""
frame sent "\x03\x00\x00" "bbbb" "\x1fbb"*4 "b"*142 "\x5b\x45"
ask encode call sent ro
keep ro
ask tap ro ra plain go ga t
exit 14
says "bad tap: orig turn 0\n"

scenario a break counts once the link is set up
# A UI frame that asks for a break of 300 ms in the first turn, and one behind the UA.
file brk "\x01\x03\x40\x00\x1e\x77\x1e"
file ua "\x03\x73\x33\x64"
file script ""
file flags ""
slot flags "~"
slot flags "~"
ask encode call flags ro
keep ro
file early ""
slot early "~" "~~~~" brk
slot early "~"
ask encode answer early ra
keep ra
ask tap ro ra script go ga t
exit 0
file trace "0 orig - > flags\n0 answ - > ui cmd p=0 brk 0 30\n"
add trace "1 orig ui cmd p=0 brk 0 30 > flags\n1 answ - > flags\n"
add trace "2 orig - > none\n2 answ - > none\n"
leaves t trace
file later ""
slot later "~" "~~~~" ua
slot later "~" "~~~~" brk
ask encode answer later ra
keep ra
ask tap ro ra script go ga t
exit 0
file trace "0 orig - > flags\n0 answ - > ua rsp p=1\n"
add trace "1 orig ua rsp p=1 > flags\n1 answ - > ui cmd p=0 brk 0 30\n"
add trace "2 orig ui cmd p=0 brk 0 30 > none break=30\n2 answ - > none\n"
leaves t trace
"##;
