// A recording and a stream of bits that are cut at each length, and a folder that fails at each call while they are read.

/// What is cut, and what fails.
pub(crate) const SCENARIOS: &str = r##"
scenario recordings
# A call recording of the octet 0: a header and two samples. A header that is cut is refused at its end, a sample where it begins.
file whole "V32R\0\0\0\0\x00\xe0\x00\x08\x00\xe0\x00\x08"
file r whole[..0]
ask decode r f
exit 3
says "bad recording: at 0\n"
none f
file r whole[..1]
ask decode r f
exit 3
says "bad recording: at 1\n"
none f
file r whole[..2]
ask decode r f
exit 3
says "bad recording: at 2\n"
none f
file r whole[..3]
ask decode r f
exit 3
says "bad recording: at 3\n"
none f
file r whole[..4]
ask decode r f
exit 3
says "bad recording: at 4\n"
none f
file r whole[..5]
ask decode r f
exit 3
says "bad recording: at 5\n"
none f
file r whole[..6]
ask decode r f
exit 3
says "bad recording: at 6\n"
none f
file r whole[..7]
ask decode r f
exit 3
says "bad recording: at 7\n"
none f
file r whole[..8]
ask decode r f
exit 0
leaves f ""
file r whole[..9]
ask decode r f
exit 3
says "bad recording: at 8\n"
leaves f ""
file r whole[..10]
ask decode r f
exit 3
says "bad recording: at 8\n"
leaves f ""
file r whole[..11]
ask decode r f
exit 3
says "bad recording: at 8\n"
leaves f ""
file r whole[..12]
ask decode r f
exit 0
leaves f ""
file r whole[..13]
ask decode r f
exit 3
says "bad recording: at 12\n"
leaves f ""
file r whole[..14]
ask decode r f
exit 3
says "bad recording: at 12\n"
leaves f ""
file r whole[..15]
ask decode r f
exit 3
says "bad recording: at 12\n"
leaves f ""
file r whole[..16]
ask decode r f
exit 0
leaves f "\0"

scenario streams
# Flags with a SABME between them.
file whole "~\x03\xdf\x3e\xb9\xfa\xf9"
file b whole[..0]
ask frames orig b
exit 0
says "pieces 0\n"
file b whole[..1]
ask frames orig b
exit 0
says "pieces 0\n"
file b whole[..2]
ask frames orig b
exit 0
says "pieces 0\n"
file b whole[..3]
ask frames orig b
exit 0
says "pieces 0\n"
file b whole[..4]
ask frames orig b
exit 0
says "pieces 0\n"
file b whole[..5]
ask frames orig b
exit 0
says "pieces 0\n"
file b whole[..6]
ask frames orig b
exit 0
says "pieces 0\n"

scenario decoding over a failing folder
file r "V32R\0\0\0\0\x00\xe0\x00\x08\x00\xe0\x00\x08"
ask decode r f
exit 0
leaves f "\0"
sweep f

scenario listing over a failing folder
file b "~\x03\xdf\x3e\xb9\xfa\xf9"
ask frames orig b
exit 0
sweep

scenario an output that is not made comes before what is read
# Nothing is read behind the recording's header: where the next read fails too, it is no read fault.
file r "V32R\0\0\0\0\x00\xe0\x00\x08\x00\xe0\x00\x08"
ask decode r f
exit 0
begins calls "read r 8388616 1\nread r 0 8\ncreate f 0 0\n"
fails create f
ask decode r f
exit 6
none f
fails create f
fails read r 3
ask decode r f
exit 6
none f
"##;
