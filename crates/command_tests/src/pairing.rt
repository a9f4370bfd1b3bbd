// Two links over one line, with what each pair prints and leaves.

/// Pairs of links.
pub(crate) const SCENARIOS: &str = r##"
scenario both links cross as each does alone
# Each link leaves what its run alone leaves, whatever the other one sends. Small files have one octet, large ones fifteen segments.
file a "a"
file b "b"
file empty ""
ramp large 1920
# Both end in one round, the second link last, and the first one last.
file s ""
ask pair a b a b s go1 ga1 go2 ga2 t1 t2
exit 0
says "done 12 12\n"
alike run a b s go1 ga1 t1
alike run a b s go2 ga2 t2
file s ""
ask pair a b large empty s go1 ga1 go2 ga2 t1 t2
exit 0
says "done 12 26\n"
alike run a b s go1 ga1 t1
alike run large empty s go2 ga2 t2
file s ""
ask pair large empty a b s go1 ga1 go2 ga2 t1 t2
exit 0
says "done 26 12\n"
alike run large empty s go1 ga1 t1
alike run a b s go2 ga2 t2
ramp f512 512
ramp f129 129
file s ""
ask pair f512 f512 f129 large s go1 ga1 go2 ga2 t1 t2
exit 0
says "done 15 26\n"
alike run f512 f512 s go1 ga1 t1
alike run f129 large s go2 ga2 t2
file s ""
ask pair empty empty a b s go1 ga1 go2 ga2 t1 t2
exit 0
says "done 8 12\n"
alike run empty empty s go1 ga1 t1
alike run a b s go2 ga2 t2
# What both links have of the script: delays, windows, losses, checks, long segments, breaks and pauses.
file s "delay 3 7\nk orig 3\nk answ 5\n"
ask pair a b large empty s go1 ga1 go2 ga2 t1 t2
exit 0
says "done 60 102\n"
alike run a b s go1 ga1 t1
alike run large empty s go2 ga2 t2
file s "lose answ 5 1"
ask pair a b large empty s go1 ga1 go2 ga2 t1 t2
exit 0
says "done 32 46\n"
alike run a b s go1 ga1 t1
alike run large empty s go2 ga2 t2
file s "srej orig\nsrej answ\ndelay 20 20\nlose orig 163 1\n"
ask pair a b large empty s go1 ga1 go2 ga2 t1 t2
exit 0
says "done 240 284\n"
alike run a b s go1 ga1 t1
alike run large empty s go2 ga2 t2
file s "check32 orig\ncheck32 answ\n"
ask pair a b large empty s go1 ga1 go2 ga2 t1 t2
exit 0
says "done 12 26\n"
alike run a b s go1 ga1 t1
alike run large empty s go2 ga2 t2
ramp f3000 3000
file s "n401 orig 1024\nn401 answ 1024\ncheck32 orig\ncheck32 answ\n"
ask pair f3000 empty a b s go1 ga1 go2 ga2 t1 t2
exit 0
says "done 14 12\n"
alike run f3000 empty s go1 ga1 t1
alike run a b s go2 ga2 t2
file s "break orig 5 30\nlose answ 8 1"
ask pair a b large empty s go1 ga1 go2 ga2 t1 t2
exit 0
says "done 30 30\n"
alike run a b s go1 ga1 t1
alike run large empty s go2 ga2 t2
file s "busy answ 10 5"
ask pair large empty a b s go1 ga1 go2 ga2 t1 t2
exit 0
says "done 31 12\n"
alike run large empty s go1 ga1 t1
alike run a b s go2 ga2 t2
file s "busy answ 0 200"
ask pair a b a b s go1 ga1 go2 ga2 t1 t2
exit 0
says "done 205 205\n"
alike run a b s go1 ga1 t1
alike run a b s go2 ga2 t2

scenario all four files are whole
file a "a"
file b "b"
file empty ""
ramp large 1920
file s ""
ask pair a b large empty s go1 ga1 go2 ga2 t1 t2
leaves go1 b
leaves ga1 a
leaves go2 ""
leaves ga2 large

scenario both links may read one file
file o "a"
file s ""
ask pair o o o o s go1 ga1 go2 ga2 t1 t2
exit 0
says "done 12 12\n"
leaves go1 "a"
leaves ga1 "a"
leaves go2 "a"
leaves ga2 "a"
leaves t2 t1
scenario a small pair makes these calls
# An octet at each limit, the script, the outputs, and in each round the first link's calls and then the second's, each as those of its run alone.
file o1 "a"
file a1 "b"
file o2 "c"
file a2 "d"
file s ""
file asked ""
add asked "read s 65536 1\n"
add asked "read s 0 1024\n"
add asked "read o1 16777216 1\n"
add asked "read a1 16777216 1\n"
add asked "read o2 16777216 1\n"
add asked "read a2 16777216 1\n"
add asked "create go1 0 0\n"
add asked "create ga1 0 0\n"
add asked "create go2 0 0\n"
add asked "create ga2 0 0\n"
add asked "create t1 0 0\n"
add asked "create t2 0 0\n"
add asked "append t1 0 31\n"
add asked "append t2 0 31\n"
add asked "append t1 0 32\n"
add asked "append t2 0 32\n"
add asked "append t1 0 47\n"
add asked "append t2 0 47\n"
add asked "append t1 0 62\n"
add asked "append t2 0 62\n"
add asked "append t1 0 57\n"
add asked "append t2 0 57\n"
add asked "read a1 0 128\n"
add asked "append t1 0 51\n"
add asked "read a2 0 128\n"
add asked "append t2 0 51\n"
add asked "read o1 0 128\n"
add asked "append t1 0 52\n"
add asked "read o2 0 128\n"
add asked "append t2 0 52\n"
add asked "append t1 0 56\n"
add asked "append t2 0 56\n"
add asked "append t1 0 71\n"
add asked "append t2 0 71\n"
add asked "append go1 0 1\n"
add asked "append ga1 0 1\n"
add asked "append t1 0 84\n"
add asked "append go2 0 1\n"
add asked "append ga2 0 1\n"
add asked "append t2 0 84\n"
add asked "append t1 0 69\n"
add asked "append t2 0 69\n"
add asked "append t1 0 52\n"
add asked "append t2 0 52\n"
add asked "append t1 0 43\n"
add asked "append t2 0 43\n"
add asked "say - 0 11\n"
ask pair o1 a1 o2 a2 s go1 ga1 go2 ga2 t1 t2
exit 0
says "done 12 12\n"
leaves calls asked

scenario a pair of files of different lengths makes these calls
# The second link has three segments to send and none to receive. The first one makes no call more once it has ended.
file o1 "a"
file a1 "b"
ramp o2 300
file a2 ""
file s ""
file asked ""
add asked "read s 65536 1\n"
add asked "read s 0 1024\n"
add asked "read o1 16777216 1\n"
add asked "read a1 16777216 1\n"
add asked "read o2 16777216 1\n"
add asked "read a2 16777216 1\n"
add asked "create go1 0 0\n"
add asked "create ga1 0 0\n"
add asked "create go2 0 0\n"
add asked "create ga2 0 0\n"
add asked "create t1 0 0\n"
add asked "create t2 0 0\n"
add asked "append t1 0 31\n"
add asked "append t2 0 31\n"
add asked "append t1 0 32\n"
add asked "append t2 0 32\n"
add asked "append t1 0 47\n"
add asked "append t2 0 47\n"
add asked "append t1 0 62\n"
add asked "append t2 0 62\n"
add asked "append t1 0 57\n"
add asked "append t2 0 57\n"
add asked "read a1 0 128\n"
add asked "append t1 0 51\n"
add asked "read a2 0 128\n"
add asked "append t2 0 51\n"
add asked "read o1 0 128\n"
add asked "append t1 0 52\n"
add asked "read o2 0 128\n"
add asked "read o2 128 128\n"
add asked "read o2 256 128\n"
add asked "append t2 0 52\n"
add asked "append t1 0 56\n"
add asked "append t2 0 56\n"
add asked "append t1 0 71\n"
add asked "append t2 0 61\n"
add asked "append go1 0 1\n"
add asked "append ga1 0 1\n"
add asked "append t1 0 84\n"
add asked "append ga2 0 128\n"
add asked "append t2 0 75\n"
add asked "append t1 0 69\n"
add asked "append ga2 0 128\n"
add asked "append t2 0 89\n"
add asked "append t1 0 52\n"
add asked "append ga2 0 44\n"
add asked "append t2 0 75\n"
add asked "append t1 0 43\n"
add asked "append t2 0 56\n"
add asked "append t2 0 52\n"
add asked "append t2 0 43\n"
add asked "say - 0 11\n"
ask pair o1 a1 o2 a2 s go1 ga1 go2 ga2 t1 t2
exit 0
says "done 12 14\n"
leaves ga2 o2
leaves calls asked
"##;
