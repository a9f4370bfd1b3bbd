// Recordings, and what is decoded of them.

/// Recordings and what each gives.
pub(crate) const SCENARIOS: &str = r##"
scenario recordings are decoded or refused at their place
file r "V32R\0\0\0\0"
ask decode r f
exit 0
says "octets 0\n"
leaves f ""
file r "V32R\0\0\0\0\x00\xe0\x00\x08\x00\xe0\x00\x08"
ask decode r f
exit 0
says "octets 1\n"
leaves f "\x00"
# A noisy one.
file r "V32R\0\0\0\0\x00\xe0\x00\x08\x00\x00\x00\x08"
ask decode r f
exit 0
says "octets 1\n"
leaves f "\x40"
file r "V32R\x01\0\0\0\x00\xf0\x00\x18\x00\x10\x00\xe8"
ask decode r f
exit 0
says "octets 1\n"
leaves f "\x01"
file r "V32R\x02\0\0\0"
ask decode4 r f
exit 0
says "octets 0\n"
leaves f ""
# What encode4 call makes of the octet 01.
file one "V32R\x02\0\0\0\x00\x08\x00\xe8\x00\x08\x00\xe8\x00\x08\x00\xe8\x00\x08\x00\xe8"
ask decode4 one f
exit 0
says "octets 1\n"
leaves f "\x01"
# The same, but each sample lies nearer than half the way to the next point: by (3000, 3400), (-3000, -3400), (4579, 0) and (0, 4579).
file r "V32R\x02\0\0\0\xb8\x13\x48\xf5\x48\xfc\xb8\xda\xe3\x19\x00\xe8\x00\x08\xe3\xf9"
ask decode4 r f
exit 0
says "octets 1\n"
leaves f "\x01"
# Recordings that are refused.
file r "V32R\0\0\0\0\x00\xe0\x00\x08\x00\xe0\x00"
ask decode r f
exit 3
says "bad recording: at 12\n"
leaves f ""
file r "V32R\x02\0\0\0"
ask decode r f
exit 3
says "bad recording: at 4\n"
none f
ask decode one f
exit 3
says "bad recording: at 4\n"
none f
file r one[..23]
ask decode4 r f
exit 3
says "bad recording: at 20\n"
leaves f ""
file r "V32R\0\0\0\0"
ask decode4 r f
exit 3
says "bad recording: at 4\n"
none f

scenario the first octet that is none of a header is named
# The headers of both ends at both rates, but for one octet.
file r "v32R\0\0\0\0"
ask decode r f
exit 3
says "bad recording: at 0\n"
file r "V\x132R\0\0\0\0"
ask decode r f
exit 3
says "bad recording: at 1\n"
file r "V3\x12R\0\0\0\0"
ask decode r f
exit 3
says "bad recording: at 2\n"
file r "V32r\0\0\0\0"
ask decode r f
exit 3
says "bad recording: at 3\n"
file r "V32R\x20\0\0\0"
ask decode r f
exit 3
says "bad recording: at 4\n"
file r "V32R\0\x20\0\0"
ask decode r f
exit 3
says "bad recording: at 5\n"
file r "V32R\0\0\x20\0"
ask decode r f
exit 3
says "bad recording: at 6\n"
file r "V32R\0\0\0\x20"
ask decode r f
exit 3
says "bad recording: at 7\n"
file r "v32R\x01\0\0\0"
ask decode r f
exit 3
says "bad recording: at 0\n"
file r "V\x132R\x01\0\0\0"
ask decode r f
exit 3
says "bad recording: at 1\n"
file r "V3\x12R\x01\0\0\0"
ask decode r f
exit 3
says "bad recording: at 2\n"
file r "V32r\x01\0\0\0"
ask decode r f
exit 3
says "bad recording: at 3\n"
file r "V32R\x21\0\0\0"
ask decode r f
exit 3
says "bad recording: at 4\n"
file r "V32R\x01\x20\0\0"
ask decode r f
exit 3
says "bad recording: at 5\n"
file r "V32R\x01\0\x20\0"
ask decode r f
exit 3
says "bad recording: at 6\n"
file r "V32R\x01\0\0\x20"
ask decode r f
exit 3
says "bad recording: at 7\n"
file r "v32R\x02\0\0\0"
ask decode4 r f
exit 3
says "bad recording: at 0\n"
file r "V\x132R\x02\0\0\0"
ask decode4 r f
exit 3
says "bad recording: at 1\n"
file r "V3\x12R\x02\0\0\0"
ask decode4 r f
exit 3
says "bad recording: at 2\n"
file r "V32r\x02\0\0\0"
ask decode4 r f
exit 3
says "bad recording: at 3\n"
file r "V32R\x22\0\0\0"
ask decode4 r f
exit 3
says "bad recording: at 4\n"
file r "V32R\x02\x20\0\0"
ask decode4 r f
exit 3
says "bad recording: at 5\n"
file r "V32R\x02\0\x20\0"
ask decode4 r f
exit 3
says "bad recording: at 6\n"
file r "V32R\x02\0\0\x20"
ask decode4 r f
exit 3
says "bad recording: at 7\n"
file r "v32R\x03\0\0\0"
ask decode4 r f
exit 3
says "bad recording: at 0\n"
file r "V\x132R\x03\0\0\0"
ask decode4 r f
exit 3
says "bad recording: at 1\n"
file r "V3\x12R\x03\0\0\0"
ask decode4 r f
exit 3
says "bad recording: at 2\n"
file r "V32r\x03\0\0\0"
ask decode4 r f
exit 3
says "bad recording: at 3\n"
file r "V32R\x23\0\0\0"
ask decode4 r f
exit 3
says "bad recording: at 4\n"
file r "V32R\x03\x20\0\0"
ask decode4 r f
exit 3
says "bad recording: at 5\n"
file r "V32R\x03\0\x20\0"
ask decode4 r f
exit 3
says "bad recording: at 6\n"
file r "V32R\x03\0\0\x20"
ask decode4 r f
exit 3
says "bad recording: at 7\n"

scenario no line of four points is lost
# As many samples at the origin as would lose a line of the trellis code.
file r "V32R\x02\0\0\0" "\0\0\0\0"*129
ask decode4 r f
exit 0
says "octets 32\n"
leaves f "\0"*32

scenario what was encoded comes back
file g "What was encoded comes back."
ask encode call g r
exit 0
keep r
ask decode r f
exit 0
leaves f g
ask encode answer g r
exit 0
keep r
ask decode r f
exit 0
leaves f g
ask encode4 call g r
exit 0
keep r
ask decode4 r f
exit 0
leaves f g
ask encode4 answer g r
exit 0
keep r
ask decode4 r f
exit 0
leaves f g

scenario what was released before a loss is written
# The labels of all ten octets are released when the line is lost, by a program apart from this one.
file f "abcdefghij"
ask encode call f r
keep r
add r "\0"*800
ask decode r g
exit 7
says "line lost: answ symbol 148\n"
leaves g f
scenario labels wait until all survivors begin with them
# Of these octets no label is released with the fourth sample, as one that is cut behind it shows, and two are with the fifth. No octets leave more
# than four labels unreleased without noise: by a program apart, which went over all sequences.
file f "\x00\x0c\x00"
ask encode call f sent
keep sent
file r sent[..24] "\0"
ask decode r g
exit 3
says "bad recording: at 24\n"
leaves g ""
file r sent[..28] "\0"
ask decode r g
exit 3
says "bad recording: at 28\n"
leaves g "\0"
ask decode sent g
exit 0
leaves g f

scenario a small decoding makes these calls
# An octet at the limit, the header, the output, and piece by piece the samples and what they release, at last the rest. No label of two samples is
# released, and at 4800 bit/s each is.
file r "V32R\0\0\0\0\x00\xe0\x00\x08\x00\xe0\x00\x08"
file asked ""
add asked "read r 8388616 1\n"
add asked "read r 0 8\n"
add asked "create f 0 0\n"
add asked "read r 8 4096\n"
add asked "append f 0 0\n"
add asked "read r 16 4096\n"
add asked "append f 0 0\n"
add asked "append f 0 1\n"
add asked "say - 0 9\n"
ask decode r f
exit 0
says "octets 1\n"
leaves calls asked
file r "V32R\x02\0\0\0\x00\x08\x00\xe8\x00\x08\x00\xe8\x00\x08\x00\xe8\x00\x08\x00\xe8"
file asked ""
add asked "read r 8388616 1\n"
add asked "read r 0 8\n"
add asked "create f 0 0\n"
add asked "read r 8 4096\n"
add asked "append f 0 1\n"
add asked "read r 24 4096\n"
add asked "append f 0 0\n"
add asked "append f 0 0\n"
add asked "say - 0 9\n"
ask decode4 r f
exit 0
says "octets 1\n"
leaves calls asked
"##;
