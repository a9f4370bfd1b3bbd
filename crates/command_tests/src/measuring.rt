// Recordings that are held against what was sent.

/// Recordings, their files and the cost.
pub(crate) const SCENARIOS: &str = r##"
scenario recordings are measured or refused
# Both files stay as they were.
# The cost is sure below the bound. The first coordinate of the first sample is raised by 3238, and by 3239.
file r "V32R\0\0\0\0\x00\xe0\x00\x08\x00\xe0\x00\x08"
file f "\0"
ask margin r f
exit 0
says "cost 0 sure 1\n"
kept r f
file r "V32R\0\0\0\0\xa6\xec\x00\x08\x00\xe0\x00\x08"
ask margin r f
exit 0
says "cost 10484644 sure 1\n"
kept r f
file r "V32R\0\0\0\0\xa7\xec\x00\x08\x00\xe0\x00\x08"
ask margin r f
exit 0
says "cost 10491121 sure 0\n"
kept r f
file r "V32R\0\0\0\0"
file f ""
ask margin r f
exit 0
says "cost 0 sure 1\n"
kept r f
# Recordings of another length than that of their file's are refused at the smaller. The last one has an octet behind its samples.
file r "V32R\0\0\0\0\x00\xe0\x00\x08\x00\xe0\x00\x08"
ask margin r f
exit 3
says "bad recording: at 8\n"
kept r f
file r "V32R\0\0\0\0"
file f "\0"
ask margin r f
exit 3
says "bad recording: at 8\n"
kept r f
file r "V32R\0\0\0\0\x00\xe0\x00\x08\x00\xe0\x00"
ask margin r f
exit 3
says "bad recording: at 15\n"
kept r f
file r "V32R\0\0\0\0\x00\xe0\x00\x08\x00\xe0\x00\x08"
file f "\0\0"
ask margin r f
exit 3
says "bad recording: at 16\n"
kept r f
file r "V32R\0\0\0\0\x00\xe0\x00\x08\x00\xe0\x00\x08\0"
file f "\0"
ask margin r f
exit 3
says "bad recording: at 16\n"
kept r f
# Other headers are refused at their place.
file r "V32R\x02\0\0\0\x00\xe0\x00\x08\x00\xe0\x00\x08"
file f ""
ask margin r f
exit 3
says "bad recording: at 4\n"
kept r f
file r "V32R\0\0\0"
ask margin r f
exit 3
says "bad recording: at 7\n"
kept r f
# An octet at the limit of each input, the header, a piece of each and the end of each are read, and the line is said: each call that fails is
# named by its kind.
file r "V32R\0\0\0\0\x00\xe0\x00\x08\x00\xe0\x00\x08"
file f "\0"
fails read r 1
ask margin r f
exit 5
says "read fault\n"
kept r f
fails read f 1
ask margin r f
exit 5
says "read fault\n"
kept r f
fails read r 2
ask margin r f
exit 5
says "read fault\n"
kept r f
fails read f 2
ask margin r f
exit 5
says "read fault\n"
kept r f
fails read r 3
ask margin r f
exit 5
says "read fault\n"
kept r f
fails read f 3
ask margin r f
exit 5
says "read fault\n"
kept r f
fails read r 4
ask margin r f
exit 5
says "read fault\n"
kept r f
fails say 1
ask margin r f
exit 6
says ""
kept r f
# No other call is made.
file asked ""
add asked "read r 8388616 1\n"
add asked "read f 1048576 1\n"
add asked "read r 0 8\n"
add asked "read f 0 512\n"
add asked "read r 8 4096\n"
add asked "read f 1 512\n"
add asked "read r 16 4096\n"
add asked "say - 0 14\n"
ask margin r f
exit 0
says "cost 0 sure 1\n"
kept r f
leaves calls asked

scenario the smaller length may be that of a later piece
# Inputs of several pieces, one of which ends before the other.
file r "V32R\0\0\0\0" "\0"*4800
file f "\0"*700
ask margin r f
exit 3
says "bad recording: at 4808\n"
kept r f
file r "V32R\0\0\0\0" "\0"*5600
file f "\0"*600
ask margin r f
exit 3
says "bad recording: at 4808\n"
kept r f
scenario what costs less than the bound is read
# The second to the fourth sample are moved toward those of other octets: half the way less a unit, half the way, and a unit more. By a program apart.
file f "abcdefgh" "\0"*64
ask encode call f sent
keep sent
file r sent[..12] "\xff\xf7\x00\xe8\x00\xec\x00\x14\x00\xf0\x00\xf0" sent[24..]
ask margin r f
exit 0
says "cost 10481665 sure 1\n"
ask decode r g
exit 0
says "octets 72\n"
leaves g f
# And released: all but three labels are, as a sample that is cut shows.
file r r "\0"
ask decode r g
exit 3
says "bad recording: at 584\n"
leaves g f[..70]
file r sent[..12] "\x00\xf8\x00\xe8\x00\xec\x00\x14\x00\xf0\x00\xf0" sent[24..]
ask margin r f
exit 0
says "cost 10485760 sure 0\n"
ask decode r g
exit 0
leaves g "\xb1\x94\x21\xd7\x15ggh" f[8..]
file r sent[..12] "\x01\xf8\x00\xe8\x00\xec\x00\x14\x00\xf0\x00\xf0" sent[24..]
ask margin r f
exit 0
says "cost 10489857 sure 0\n"
ask decode r g
exit 0
leaves g "\xb1\x94\x21\xd7\x15ggh" f[8..]
"##;
