// Offsets that turn a slot into another, or into nothing.

/// Offsets and what is heard.
pub(crate) const SCENARIOS: &str = r##"
scenario samples that say nothing lose the line
# What the answerer sends first is ones. As many of its samples as lose a line are moved to the origin.
file o "a"
file a "b"
file marks "\xff"*232
ask encode answer marks sent
keep sent
file silence "V32R\0\0\0\0" "\0\0\0\0"*129
hits s answ sent silence
ask run o a s go ga t
exit 7
says "line lost: orig symbol 128\n"
leaves go ""
leaves ga ""
leaves t "0 orig - > odp\n0 answ - > mark\n"

scenario of two lost lines the originator's counts
file o "a"
file a "b"
file marks "\xff"*232
ask encode answer marks sent
keep sent
# What the originator sends first: ten patterns, and ones behind them.
file odp "\x22\xfe\x8b\xfc\x2f\xe2\xbf\xc8\xff"*5 "\xff"*187
ask encode call odp sent_o
keep sent_o
file silence "V32R\0\0\0\0" "\0\0\0\0"*129
hits s orig sent_o silence
ask run o a s go ga t
exit 7
says "line lost: answ symbol 128\n"
hits s answ sent silence
ask run o a s go ga t
exit 7
says "line lost: orig symbol 128\n"

scenario a pattern that was not sent is a chance match
file o "a"
file a "b"
file marks "\xff"*232
ask encode answer marks sent
keep sent
file aim "\x8a\xfe\x1b\xfa\xaf\xe8\xbf\xa1\xff"*5 "\xff"*187
ask encode answer aim aimed
keep aimed
file s ""
hits s answ sent aimed
ask run o a s go ga t
exit 10
says "chance match: orig turn 1\n"
leaves t "0 orig - > odp\n0 answ - > mark\n1 orig chance\n"

scenario octets that pass the check are a chance match
file o "a"
file a "b"
file marks "\xff"*232
ask encode answer marks sent
keep sent
# No kind of frame has the control octet 7F.
frame aim "\x03\x7f\x5f\xae"
ask encode answer aim aimed
keep aimed
file s ""
hits s answ sent aimed
ask run o a s go ga t
exit 10
says "chance match: orig turn 1\n"
leaves t "0 orig - > odp\n0 answ - > mark\n1 orig chance\n"
# Of another channel, an answer as a command, an I frame that is cut, and SABME with information. None has five ones in a row.
file aim ""
slot aim "~" "~~~~\x43\x63\xd4\x32"
ask encode answer aim aimed
keep aimed
file s ""
hits s answ sent aimed
ask run o a s go ga t
exit 10
says "chance match: orig turn 1\n"
leaves t "0 orig - > odp\n0 answ - > mark\n1 orig chance\n"
file aim ""
slot aim "~" "~~~~\x01\x63\x02\x47"
ask encode answer aim aimed
keep aimed
file s ""
hits s answ sent aimed
ask run o a s go ga t
exit 10
says "chance match: orig turn 1\n"
leaves t "0 orig - > odp\n0 answ - > mark\n1 orig chance\n"
file aim ""
slot aim "~" "~~~~\x03\x00\x2f\x25"
ask encode answer aim aimed
keep aimed
file s ""
hits s answ sent aimed
ask run o a s go ga t
exit 10
says "chance match: orig turn 1\n"
leaves t "0 orig - > odp\n0 answ - > mark\n1 orig chance\n"
file aim ""
slot aim "~" "~~~~\x01\x6f\x61\x02\x08"
ask encode answer aim aimed
keep aimed
file s ""
hits s answ sent aimed
ask run o a s go ga t
exit 10
says "chance match: orig turn 1\n"
leaves t "0 orig - > odp\n0 answ - > mark\n1 orig chance\n"

scenario noise changes nothing that is received
ramp o 1000
file a "b"
file s ""
ask run o a s go ga t
file plain t
file s "noise orig 0 4294967295 500 1\nnoise answ 0 4294967295 500 2\n"
ask run o a s go ga t
leaves go a
leaves ga o
leaves t plain

scenario faint noise changes nothing at all
# The offsets of a thousand symbols, each of at most 50 units: 5,000,000 in all at most, less than the 10,485,760 below which nothing changes.
file o "a"
file a "b"
file s ""
ask run o a s go ga t
file plain t
file s "noise orig 0 1000 50 1\nnoise answ 0 1000 50 2\n"
ask run o a s go ga t
exit 0
says "done 12\n"
leaves t plain

scenario a coordinate is held to 16 bits
# Two symbols of the originator's XID frame, four units from the middle to either side, are moved outwards by more than 16 bits hold. One that
# came in again at the other side would be another point, and the frame lost.
file o "a"
file a "b"
file s ""
ask record o a s go ga t ro ra
file plain t
file right ro[3804..3806]
leaves right "\x00\x20"
file left ro[3828..3830]
leaves left "\x00\xe0"
file s "hit orig 949 1 30000 0\nhit orig 955 1 -30000 0\n"
ask run o a s go ga t
exit 0
says "done 12\n"
leaves t plain
"##;
