// Recordings that begin anywhere, picked up.

/// What is picked up.
pub(crate) const SCENARIOS: &str = r##"
scenario recordings are picked up
# A slot of flags and one with the frame SABME, as an originator sends it, and its check.
slot sent "~"
frame sent "\x03\x7f\x5f\xae"
ask encode call sent whole
keep whole
ask encode answer sent answer
keep answer
# A frame is found behind a cut beginning, without the first five samples.
file r whole[..8] whole[28..]
ask pickup r
exit 0
says "frame sabme cmd p=1\npieces 1\n"
# An octet at the limit, the header and the samples are read, a line is said, the end is read and the last line is said: each call that fails is
# named by its kind.
file asked ""
add asked "read r 8388616 1\n"
add asked "read r 0 8\n"
add asked "read r 8 4096\n"
add asked "say - 0 20\n"
add asked "read r 3700 4096\n"
add asked "say - 0 9\n"
ask pickup r
exit 0
leaves calls asked
fails read r 1
ask pickup r
exit 5
says "read fault\n"
fails read r 2
ask pickup r
exit 5
says "read fault\n"
fails read r 3
ask pickup r
exit 5
says "read fault\n"
fails say 1
ask pickup r
exit 6
says ""
fails read r 4
ask pickup r
exit 5
says "frame sabme cmd p=1\nread fault\n"
fails say 2
ask pickup r
exit 6
says "frame sabme cmd p=1\n"
file r "V32R\0\0\0\0"
ask pickup r
exit 0
says "pieces 0\n"
# A frame is found behind a quarter turn.
file r whole[..8] whole[28..]
turn r 0 923 0 0
ask pickup r
exit 0
says "frame sabme cmd p=1\npieces 1\n"
# An answer recording is read as the answerer sent it.
file r answer[..8] answer[28..]
ask pickup r
exit 0
says "refused control 7f\npieces 1\n"
# Recordings are refused at their place.
file r "V32R\x02\0\0\0"
ask pickup r
exit 3
says "bad recording: at 4\n"
file r "V32R\0\0\0"
ask pickup r
exit 3
says "bad recording: at 7\n"
file r whole[..8] whole[28..3719]
ask pickup r
exit 3
says "frame sabme cmd p=1\nbad recording: at 3696\n"
# Of samples at the origin all sequences are as near, whatever state they begin in: none is released, so the line is lost with the 129th.
file r "V32R\x01\0\0\0" "\0\0\0\0"*128
ask pickup r
exit 0
says "pieces 0\n"
file r "V32R\x01\0\0\0" "\0\0\0\0"*129
ask pickup r
exit 7
says "line lost: orig symbol 128\n"
file r whole[..8] whole[28..] "\0\0\0\0"*129
ask pickup r
exit 7
says "frame sabme cmd p=1\nline lost: answ symbol 1051\n"
scenario what costs less than the bound is picked up
# The first sample of a middle is moved toward a point of another state, four squares of a unit away: half the way less a unit, half the way, where
# the smaller label counts, and a unit more. The only flag before a frame goes with it. By a program apart.
file f "\x02"*4 "~\x03\xdf\x3e\xb9\xfa\xf9" "\0"*64
ask encode call f sent
keep sent
file r sent[..8] "\x01\x10\x00\x10" sent[16..]
ask pickup r
exit 0
says "frame sabme cmd p=1\npieces 1\n"
# And released, as a sample that is cut shows.
file r r "\0"
ask pickup r
exit 3
says "frame sabme cmd p=1\nbad recording: at 604\n"
file r sent[..8] "\x00\x10\x00\x10" sent[16..]
ask pickup r
exit 0
says "pieces 0\n"
file r sent[..8] "\xff\x0f\x00\x10" sent[16..]
ask pickup r
exit 0
says "pieces 0\n"
"##;
