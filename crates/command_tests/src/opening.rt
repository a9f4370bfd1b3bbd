// The inputs of a run, which are taken in order.

/// Inputs and what is read of them.
pub(crate) const SCENARIOS: &str = r##"
scenario a script is read and two lengths are looked at
# An octet of the script, the script, its end, and an octet of each file: no other octet of the files is read before the outputs are made.
file o "abc"
file a ""
file s "delay 3 5\nbreak orig 5 30\n"
ask run o a s go ga t
exit 0
begins calls "read s 65536 1\nread s 0 1024\nread s 26 1024\nread o 16777216 1\nread a 16777216 1\ncreate go 0 0\n"

scenario the first input that is wrong is named
# A faulty script with two files that are too long, of which one after another is put right, and then a script that is too long.
file o "\x07"*16777217
file a o
file s "# a comment\nspeed 3\n"
ask run o a s go ga t
exit 3
says "bad script: line 2: word\n"
begins calls "read s 65536 1\nread s 0 1024\nread s 20 1024\nsay - "
file s ""
ask run o a s go ga t
exit 4
says "too long: o\n"
begins calls "read s 65536 1\nread s 0 1024\nread o 16777216 1\nsay - "
file o "\x07"*16777216
ask run o a s go ga t
exit 4
says "too long: a\n"
begins calls "read s 65536 1\nread s 0 1024\nread o 16777216 1\nread a 16777216 1\nsay - "
file s "\x07"*65537
ask run o a s go ga t
exit 4
says "too long: s\n"
begins calls "read s 65536 1\nsay - "

scenario a read that fails is a read fault
file o "a"
file a "b"
file s "delay 3 5\n"
fails read s 1
ask run o a s go ga t
exit 5
says "read fault\n"
leaves calls "read s 65536 1\n" "say - 0 11\n"
fails read s 2
ask run o a s go ga t
exit 5
says "read fault\n"
leaves calls "read s 65536 1\n" "read s 0 1024\n" "say - 0 11\n"
fails read s 3
ask run o a s go ga t
exit 5
says "read fault\n"
leaves calls "read s 65536 1\n" "read s 0 1024\n" "read s 10 1024\n" "say - 0 11\n"
fails read o 1
ask run o a s go ga t
exit 5
says "read fault\n"
leaves calls "read s 65536 1\n" "read s 0 1024\n" "read s 10 1024\n" "read o 16777216 1\n" "say - 0 11\n"
fails read a 1
ask run o a s go ga t
exit 5
says "read fault\n"
leaves calls "read s 65536 1\n" "read s 0 1024\n" "read s 10 1024\n" "read o 16777216 1\n" "read a 16777216 1\n" "say - 0 11\n"
"##;
