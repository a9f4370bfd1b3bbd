// Inputs of exactly their limits, some of which grow, and of one octet more.

/// Inputs and whether they are taken.
pub(crate) const SCENARIOS: &str = r##"
scenario files of the limit are recorded and decoded and picked up and measured
# An input that grows behind the look at its length ends at its limit: the last read there asks for no octet.
file f "\x07"*1048576
grows f "\x08"*512
ask encode call f r
exit 0
says "samples 2097152\n"
ends calls "read f 1048064 512\nappend r 0 4096\nread f 1048576 0\nsay - 0 16\n"
keep r
grows r "\0"*4097
ask decode r g
exit 0
says "octets 1048576\n"
leaves g f
holds calls "\nread r 8384520 4096\nappend g 0 "
holds calls "\nread r 8388616 0\nappend g 0 "
grows r "\0"*4097
ask pickup r
exit 0
says "pieces 0\n"
ends calls "read r 8384520 4096\nread r 8388616 0\nsay - 0 9\n"
grows r "\0"*4097
ask margin r f
exit 0
says "cost 0 sure 1\n"
ends calls "read f 1048064 512\nread r 8384520 4096\nread f 1048576 0\nread r 8388616 0\nsay - 0 14\n"
grows f "\x08"*512
ask margin r f
exit 0
says "cost 0 sure 1\n"
ends calls "read f 1048064 512\nread r 8384520 4096\nread f 1048576 0\nread r 8388616 0\nsay - 0 14\n"
# The file is too long, and then the recording.
file g "\x07"*1048577
ask margin r g
exit 4
says "too long: g\n"
file r "\x07"*8388617
ask decode r g
exit 4
says "too long: r\n"
ask pickup r
exit 4
says "too long: r\n"
ask margin r f
exit 4
says "too long: r\n"
ask margin r g
exit 4
says "too long: r\n"

scenario bits of the limit are listed
file b "\0"*1048576
grows b "~\x03\xdf\x3e\xb9\xfa\xf9"
ask frames orig b
exit 0
says "pieces 0\n"
ends calls "read b 1044480 4096\nread b 1048576 0\nsay - 0 9\n"
file b "\0"*1048577
ask frames orig b
exit 4
says "too long: b\n"

scenario bits of the limit are heard
# A slot is 232 octets: the last one has 168.
file f ""
file b "\0"*1048576
grows b "~\x03\xdf\x3e\xb9\xfa\xf9"
ask peer answ f b g t
exit 0
says "done 4520\n"
ends t "4519 answ - > mark\n"
ends calls "read b 1048176 232\nappend t 0 19\nread b 1048408 168\nappend t 0 19\nsay - 0 10\n"

scenario digits of the limit are explained
file digits "82ff"*128
ask xid @digits
exit 0
says "window tx=15 rx=15 length tx=128 rx=128 srej=0 check32=0\n"
file digits "82ff"*128 "8"
ask xid @digits
exit 4
says "too long: " digits "\n"

scenario a script of the limit is read
file o "a"
file a "b"
file s "# fifteen more.\n"*4096
length s 65536
grows s "speed 3\n"
ask run o a s go ga t
exit 0
says "done 12\n"
holds calls "\nread s 64512 1024\nread o 16777216 1\n"
file s "# fifteen more.\n"*4096 "l"
ask run o a s go ga t
exit 4
says "too long: s\n"
"##;
