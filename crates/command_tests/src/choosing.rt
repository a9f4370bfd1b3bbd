// Each command over a folder in memory, and words that are no command's.

/// Words and what comes of them.
pub(crate) const SCENARIOS: &str = r##"
scenario each command is done and other words are told the usage
# Five small files, of which one is the recording of an octet of zeros, as the end that calls sends it.
file o "a"
file a "b"
file s ""
file r "V32R\0\0\0\0\x00\xe0\x00\x08\x00\xe0\x00\x08"
file z "\0"
ask run o a s go ga t
exit 0
says "done 12\n"
ask encode call o r
exit 0
says "samples 2\n"
ask decode r f
exit 0
says "octets 1\n"
ask frames orig o
exit 0
says "pieces 0\n"
ask xid 82
exit 0
says "window tx=15 rx=15 length tx=128 rx=128 srej=0 check32=0\n"
ask peer answ o s g t
exit 0
says "done 0\n"
ask pickup r
exit 0
says "pieces 0\n"
ask margin r z
exit 0
says "cost 0 sure 1\n"
ask record o a s go ga t ro ra
exit 0
says "done 12\n"
# Other words.
usage run o a s go go t
usage record o a s go ga t ro ro
usage record o a s go ga t o ra
usage record o a s go ga t
usage run o a s go ga t ro ra
usage run o a s go ga s
usage ran o a s go ga t
usage encode calls o r
usage encode call o o
usage record call o r
usage frames originator o
usage frame orig o
usage decode r r
usage decode4 r r
usage decode5 r f
usage pickup
usage pick r
usage pickup r f
usage margin r
usage margins r z
usage

scenario empty files are done once the link was up
file e ""
ask run e e e go ga t
exit 0
says "done 8\n"
leaves go ""
leaves ga ""

scenario samples at the origin are followed as far as the depth
file r "V32R\0\0\0\0" "\0\0\0\0"*128
ask decode r f
exit 0
says "octets 64\n"
leaves f "\x44\x44\x54" "\x77"*61

scenario samples at the origin lose the line past the depth
file r "V32R\0\0\0\0" "\0\0\0\0"*129
ask decode r f
exit 7
says "line lost: answ symbol 128\n"
leaves f ""
"##;
