// Streams of bits, and the pieces that are listed of them.

/// Bits and their pieces.
pub(crate) const SCENARIOS: &str = r##"
scenario pieces are listed
# A flag, the frame SABME with its poll bit and its check, as bits with zeros put in, and a flag.
file b "~\x03\xdf\x3e\xb9\xfa\xf9"
ask frames orig b
exit 0
says "frame sabme cmd p=1\npieces 1\n"
ask frames answ b
exit 0
says "refused control 7f\npieces 1\n"
# One of one piece reads an octet at the limit and the file, says a line, reads the end and says the last line: each call that fails is named by
# its kind.
file asked ""
add asked "read b 1048576 1\n"
add asked "read b 0 4096\n"
add asked "say - 0 20\n"
add asked "read b 7 4096\n"
add asked "say - 0 9\n"
ask frames orig b
exit 0
leaves calls asked
fails read b 1
ask frames orig b
exit 5
says "read fault\n"
fails read b 2
ask frames orig b
exit 5
says "read fault\n"
fails say 1
ask frames orig b
exit 6
says ""
fails read b 3
ask frames orig b
exit 5
says "frame sabme cmd p=1\nread fault\n"
fails say 2
ask frames orig b
exit 6
says "frame sabme cmd p=1\n"
# A break of 300 ms, the answer to one of 2550 ms with number 1, and a break with a number that there is not: three UI frames with their checks
# between flags.
file b "~\x03\x03\x40\x00\x1e\xdf\x11\xfc\x06\x06\xc0\x02\xbe\xcf\x24\xf7\x1b\x18\x00\x12\xf0\x78\xda\xf1\x03"
ask frames orig b
exit 0
says "frame ui cmd p=0 brk 0 30\nframe ui cmd p=0 brkack 1 255\nframe ui cmd p=0 n=3\npieces 3\n"
file b "~\x02\xdf\x3e\xb9\xfa\xf9"
ask frames orig b
exit 0
says "bad check 4\npieces 1\n"
file b "~\xff~\x01~\x01"
ask frames orig b
exit 0
says "aborted\ntoo short\npieces 2\n"
# A frame on channel 1, an RR with one octet of control, and a SABME with information.
file b "~\x07\xdf\xbe\x24\xfb\x01"
ask frames orig b
exit 0
says "refused address 07\npieces 1\n"
file b "~\x03\x01\xa6\x34~"
ask frames orig b
exit 0
says "refused short\npieces 1\n"
file b "~\x03\xdf\x00\x48\xb5\xfc\x00"
ask frames orig b
exit 0
says "refused long 3\npieces 1\n"
file b "~\xdf\xf7\x01\xbf"
ask frames orig b
exit 0
says "ragged\npieces 1\n"

scenario a piece of more than 1031 octets is too long
# A piece of 8248 bits is whole, and one of a single octet more isn't looked at.
file b "~" "\0"*1031 "~"
ask frames orig b
exit 0
says "bad check 1031\npieces 1\n"
file b "~" "\0"*1032 "~"
ask frames orig b
exit 0
says "too long\npieces 1\n"
"##;
