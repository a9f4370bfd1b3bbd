// Runs, with what each prints and leaves.

/// Runs and their traces.
pub(crate) const SCENARIOS: &str = r##"
scenario whole traces are written
file o ""
file a ""
file s ""
file trace ""
add trace "0 orig - > odp\n"
add trace "0 answ - > mark\n"
add trace "1 orig - > odp\n"
add trace "1 answ odp > adp\n"
add trace "2 orig adp > xid cmd p=0 n=23\n"
add trace "2 answ odp > adp\n"
add trace "3 orig adp > flags\n"
add trace "3 answ xid cmd p=0 n=23 > xid rsp p=0 n=23\n"
add trace "4 orig xid rsp p=0 n=23 > sabme cmd p=1\n"
add trace "4 answ - > flags\n"
add trace "5 orig - > flags\n"
add trace "5 answ sabme cmd p=1 > ua rsp p=1\n"
add trace "6 orig ua rsp p=1 > disc cmd p=1\n"
add trace "6 answ - > flags\n"
add trace "7 orig - > flags\n"
add trace "7 answ disc cmd p=1 > ua rsp p=1\n"
add trace "8 orig ua rsp p=1 > none\n"
add trace "8 answ - > none\n"
ask run o a s go ga t
exit 0
says "done 8\n"
leaves go a
leaves ga o
leaves t trace
file o "a"
file a "b"
file trace ""
add trace "0 orig - > odp\n"
add trace "0 answ - > mark\n"
add trace "1 orig - > odp\n"
add trace "1 answ odp > adp\n"
add trace "2 orig adp > xid cmd p=0 n=23\n"
add trace "2 answ odp > adp\n"
add trace "3 orig adp > flags\n"
add trace "3 answ xid cmd p=0 n=23 > xid rsp p=0 n=23\n"
add trace "4 orig xid rsp p=0 n=23 > sabme cmd p=1\n"
add trace "4 answ - > flags\n"
add trace "5 orig - > flags\n"
add trace "5 answ sabme cmd p=1 > ua rsp p=1\n"
add trace "6 orig ua rsp p=1 > rr cmd r=0 p=1\n"
add trace "6 answ - > flags\n"
add trace "7 orig - > flags\n"
add trace "7 answ rr cmd r=0 p=1 > rr rsp r=0 p=1\n"
add trace "8 orig rr rsp r=0 p=1 > i s=0 r=0 p=0 n=1\n"
add trace "8 answ - > i s=0 r=0 p=0 n=1\n"
add trace "9 orig i s=0 r=0 p=0 n=1 > rr rsp r=1 p=0\n"
add trace "9 answ i s=0 r=0 p=0 n=1 > rr rsp r=1 p=0\n"
add trace "10 orig rr rsp r=1 p=0 > disc cmd p=1\n"
add trace "10 answ rr rsp r=1 p=0 > flags\n"
add trace "11 orig - > flags\n"
add trace "11 answ disc cmd p=1 > ua rsp p=1\n"
add trace "12 orig ua rsp p=1 > none\n"
add trace "12 answ - > none\n"
ask run o a s go ga t
exit 0
says "done 12\n"
leaves go a
leaves ga o
leaves t trace

scenario files cross whatever is lost or waits
# A segment has 128 octets.
ramp o 128
file a ""
file s ""
ask run o a s go ga t
exit 0
says "done 12\n"
leaves go a
leaves ga o
line t "8 orig rr rsp r=0 p=1 > i s=0 r=0 p=0 n=128"
ramp o 129
file a ""
file s ""
ask run o a s go ga t
exit 0
says "done 13\n"
leaves go a
leaves ga o
line t "8 orig rr rsp r=0 p=1 > i s=0 r=0 p=0 n=128"
line t "9 orig - > i s=1 r=0 p=0 n=1"
# Numbers pass zero under wide windows.
ramp o 38400
file a ""
file s "delay 60 60\nk orig 127\nk answ 127\n"
ask run o a s go ga t
exit 0
says "done 1019\n"
leaves go a
leaves ga o
# A lost answer is asked for again.
file o "a"
file a "b"
file s "lose answ 5 1"
ask run o a s go ga t
exit 0
says "done 32\n"
leaves go a
leaves ga o
line t "4 orig xid rsp p=0 n=23 > sabme cmd p=1"
line t "6 orig lost ua rsp p=1 > flags"
line t "24 orig - > sabme cmd p=1"
# REJ brings all segments from the lost one on.
ramp o 1920
file a ""
file s "delay 20 20\nlose orig 163 1\n"
ask run o a s go ga t
exit 0
says "done 295\n"
leaves go a
leaves ga o
line t "163 orig " " > i s=3 r=0 p=0 n=128"
line t "184 answ i s=4 r=0 p=0 n=128 > rej rsp r=3 p=0"
line t "204 orig " " > i s=3 r=0 p=0 n=128"
line t "205 orig " " > i s=4 r=0 p=0 n=128"
line t "206 orig " " > i s=5 r=0 p=0 n=128"
line t "207 orig " " > i s=6 r=0 p=0 n=128"
line t "208 orig " " > i s=7 r=0 p=0 n=128"
line t "209 orig " " > i s=8 r=0 p=0 n=128"
line t "210 orig " " > i s=9 r=0 p=0 n=128"
line t "211 orig " " > i s=10 r=0 p=0 n=128"
line t "212 orig " " > i s=11 r=0 p=0 n=128"
line t "213 orig " " > i s=12 r=0 p=0 n=128"
line t "214 orig " " > i s=13 r=0 p=0 n=128"
line t "215 orig " " > i s=14 r=0 p=0 n=128"
# SREJ brings the lost segment alone.
ramp o 1920
file a ""
file s "delay 20 20\nlose orig 163 1\nsrej orig\nsrej answ\n"
ask run o a s go ga t
exit 0
says "done 284\n"
leaves go a
leaves ga o
line t "184 answ i s=4 r=0 p=0 n=128 > srej rsp r=3 p=0"
line t "204 orig srej rsp r=3 p=0 > i s=3 r=0 p=0 n=128"
lacks t "205 orig " " > i s=4 r=0 p=0 n=128"
# A break is given once, also where its answer is lost.
file o "a"
file a "b"
file s "break orig 5 30"
ask run o a s go ga t
exit 0
says "done 13\n"
leaves go a
leaves ga o
line t "7 orig - > ui cmd p=0 brk 0 30"
line t "8 answ ui cmd p=0 brk 0 30 > ui cmd p=0 brkack 0 30 break=30"
file o "a"
file a "b"
file s "break orig 5 30\nlose answ 8 1"
ask run o a s go ga t
exit 0
says "done 30\n"
leaves go a
leaves ga o
line t "7 orig - > ui cmd p=0 brk 0 30"
line t "8 answ ui cmd p=0 brk 0 30 > ui cmd p=0 brkack 0 30 break=30"
line t "26 orig - > ui cmd p=0 brk 0 30"
line t "27 answ ui cmd p=0 brk 0 30 > ui cmd p=0 brkack 0 30"
# Once the link is to be released, which both ends know in turn 200, no break is asked for.
file o "a"
file a "b"
file s "delay 20 20\nbreak answ 205 5"
ask run o a s go ga t
exit 0
says "done 240\n"
leaves go a
leaves ga o
line t "205 answ " " > flags"
# A pause holds segments back.
ramp o 1920
file a ""
file s "busy answ 10 5"
ask run o a s go ga t
exit 0
says "done 31\n"
leaves go a
leaves ga o
line t "10 answ i s=1 r=0 p=0 n=128 > rnr rsp r=2 p=0"
line t "16 orig " " > i s=3 r=0 p=0 n=128"
# A long pause is polled, by what acknowledges no segment or one.
file o "a"
file a "b"
file s "busy answ 0 200"
ask run o a s go ga t
exit 0
says "done 205\n"
leaves go a
leaves ga o
line t "6 orig " " > rr cmd r=0 p=1" " > rr cmd r=1 p=1"
line t "28 orig " " > rr cmd r=0 p=1" " > rr cmd r=1 p=1"
line t "50 orig " " > rr cmd r=0 p=1" " > rr cmd r=1 p=1"
line t "72 orig " " > rr cmd r=0 p=1" " > rr cmd r=1 p=1"
line t "94 orig " " > rr cmd r=0 p=1" " > rr cmd r=1 p=1"
line t "116 orig " " > rr cmd r=0 p=1" " > rr cmd r=1 p=1"
line t "138 orig " " > rr cmd r=0 p=1" " > rr cmd r=1 p=1"
line t "160 orig " " > rr cmd r=0 p=1" " > rr cmd r=1 p=1"
line t "182 orig " " > rr cmd r=0 p=1" " > rr cmd r=1 p=1"

scenario long segments cross with either check
# Segments as long as both ends offer: the trace is the same.
ramp o 3000
file a ""
file s "n401 orig 1024\nn401 answ 1024\n"
ask run o a s go ga t
exit 0
says "done 14\n"
leaves go a
leaves ga o
line t "8 orig rr rsp r=0 p=1 > i s=0 r=0 p=0 n=1024"
line t "9 orig - > i s=1 r=0 p=0 n=1024"
line t "10 orig rr rsp r=1 p=0 > i s=2 r=0 p=0 n=952"
file sixteen t
add s "check32 orig\ncheck32 answ\n"
ask run o a s go ga t
exit 0
says "done 14\n"
leaves go a
leaves ga o
leaves t sixteen

scenario a file past the limit is too long
file o "\x07"*16777217
file a ""
file s ""
ask run o a s go ga t
exit 4
says "too long: o\n"
none go
file a o
file o ""
ask run o a s go ga t
exit 4
says "too long: a\n"
none go

scenario a script past the limit is too long
file o ""
file a ""
file s " "*65537
ask run o a s go ga t
exit 4
says "too long: s\n"
none go

scenario the first faulty line of a script is named
file o "a"
file a "b"
file s "# a comment\nspeed 3\n"
ask run o a s go ga t
exit 3
says "bad script: line 2: word\n"
none go

scenario a faulty line is named behind many
file o "a"
file a "b"
file s "#\n"*149 "speed 3\n"
ask run o a s go ga t
exit 3
says "bad script: line 150: word\n"
"##;
