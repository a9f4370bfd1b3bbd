// Traces that are audited: those that runs leave, and others.

/// Traces and whether they are true.
pub(crate) const SCENARIOS: &str = r##"
scenario the trace of a run is true
file o "a"
file a "b"
file s ""
file whole ""
add whole "0 orig - > odp\n"
add whole "0 answ - > mark\n"
add whole "1 orig - > odp\n"
add whole "1 answ odp > adp\n"
add whole "2 orig adp > xid cmd p=0 n=23\n"
add whole "2 answ odp > adp\n"
add whole "3 orig adp > flags\n"
add whole "3 answ xid cmd p=0 n=23 > xid rsp p=0 n=23\n"
add whole "4 orig xid rsp p=0 n=23 > sabme cmd p=1\n"
add whole "4 answ - > flags\n"
add whole "5 orig - > flags\n"
add whole "5 answ sabme cmd p=1 > ua rsp p=1\n"
add whole "6 orig ua rsp p=1 > rr cmd r=0 p=1\n"
add whole "6 answ - > flags\n"
add whole "7 orig - > flags\n"
add whole "7 answ rr cmd r=0 p=1 > rr rsp r=0 p=1\n"
add whole "8 orig rr rsp r=0 p=1 > i s=0 r=0 p=0 n=1\n"
add whole "8 answ - > i s=0 r=0 p=0 n=1\n"
add whole "9 orig i s=0 r=0 p=0 n=1 > rr rsp r=1 p=0\n"
add whole "9 answ i s=0 r=0 p=0 n=1 > rr rsp r=1 p=0\n"
add whole "10 orig rr rsp r=1 p=0 > disc cmd p=1\n"
add whole "10 answ rr rsp r=1 p=0 > flags\n"
add whole "11 orig - > flags\n"
add whole "11 answ disc cmd p=1 > ua rsp p=1\n"
add whole "12 orig ua rsp p=1 > none\n"
add whole "12 answ - > none\n"
ask audit o a s whole
exit 0
says "true 26 lines\n"

scenario each call of an audit that fails is the answer
file o "a"
file a "b"
file s ""
ask run o a s go ga t
keep t
ask audit o a s t
exit 0
sweep

scenario an audit makes these calls
# An octet at each limit, the script, and then turn by turn what the ends want of their files, what the trace has where each of both lines is to
# stand, 162 octets at most, and an octet behind the last line. Once a line differs the trace is read no further, and the run goes on.
file o "a"
file a "b"
file s ""
ask run o a s go ga t
keep t
file asked ""
add asked "read s 65536 1\n"
add asked "read s 0 1024\n"
add asked "read o 16777216 1\n"
add asked "read a 16777216 1\n"
add asked "read t 16777216 1\n"
add asked "read t 0 162\n"
add asked "read t 15 162\n"
add asked "read t 31 162\n"
add asked "read t 46 162\n"
add asked "read t 63 162\n"
add asked "read t 93 162\n"
add asked "read t 110 162\n"
add asked "read t 129 162\n"
add asked "read t 172 162\n"
add asked "read t 212 162\n"
add asked "read a 0 128\n"
add asked "read t 229 162\n"
add asked "read t 246 162\n"
add asked "read o 0 128\n"
add asked "read t 280 162\n"
add asked "read t 315 162\n"
add asked "read t 332 162\n"
add asked "read t 349 162\n"
add asked "read t 388 162\n"
add asked "read t 430 162\n"
add asked "read t 459 162\n"
add asked "read t 501 162\n"
add asked "read t 543 162\n"
add asked "read t 581 162\n"
add asked "read t 612 162\n"
add asked "read t 630 162\n"
add asked "read t 664 162\n"
add asked "read t 690 162\n"
add asked "read t 707 1\n"
add asked "say - 0 14\n"
ask audit o a s t
exit 0
leaves calls asked
swap t "3 orig adp > flags" "3 orig odp > flags"
file asked ""
add asked "read s 65536 1\n"
add asked "read s 0 1024\n"
add asked "read o 16777216 1\n"
add asked "read a 16777216 1\n"
add asked "read t 16777216 1\n"
add asked "read t 0 162\n"
add asked "read t 15 162\n"
add asked "read t 31 162\n"
add asked "read t 46 162\n"
add asked "read t 63 162\n"
add asked "read t 93 162\n"
add asked "read t 110 162\n"
add asked "read a 0 128\n"
add asked "read o 0 128\n"
add asked "say - 0 22\n"
ask audit o a s t
exit 13
says "false line 7: arrived\n"
leaves calls asked

scenario a trace that stops or goes on is false
file o "a"
file a "b"
file s ""
ask run o a s go ga t
file whole t
file t ""
ask audit o a s t
exit 13
says "false line 1: end\n"
kept t
file t whole
swap t "12 answ - > none\n" ""
ask audit o a s t
exit 13
says "false line 26: end\n"
kept t
file t whole
swap t "12 answ - > none\n" "12 answ -"
ask audit o a s t
exit 13
says "false line 26: end\n"
kept t
file t whole
swap t "12 answ - > none\n" "12 answ - > none"
ask audit o a s t
exit 13
says "false line 26: end\n"
kept t
file t whole
swap t "> none\n12 answ - > none\n" "> none\n12 answ - > none\n1"
ask audit o a s t
exit 13
says "false line 27: beyond\n"
kept t
file t whole
swap t "12 answ - > none\n" "12 answ - > none\n12 answ - > none\n"
ask audit o a s t
exit 13
says "false line 27: beyond\n"
kept t
file t whole
swap t "12 answ - > none\n" "12 answ - > none\n\n"
ask audit o a s t
exit 13
says "false line 27: beyond\n"
kept t

scenario a line that is none is false
file o "a"
file a "b"
file s ""
ask run o a s go ga t
file whole t
# The first one has 161 octets, one more than any line of a trace may have.
file t whole
swap t "3 orig adp > flags" "3 orig adp > flags" "0123456789"*14 "012"
ask audit o a s t
exit 13
says "false line 7: spelling\n"
kept t
file t whole
swap t "3 orig adp > flags" "03 orig adp > flags"
ask audit o a s t
exit 13
says "false line 7: spelling\n"
kept t
file t whole
swap t "3 orig adp > flags" "3 orig ADP > flags"
ask audit o a s t
exit 13
says "false line 7: spelling\n"
kept t
file t whole
swap t "3 orig adp > flags" "3 orig adp > flags\r"
ask audit o a s t
exit 13
says "false line 7: spelling\n"
kept t
file t whole
swap t "3 orig adp > flags" "3 orig adp > flags "
ask audit o a s t
exit 13
says "false line 7: spelling\n"
kept t
file t whole
swap t "3 orig adp > flags" "3 orig flags > flags"
ask audit o a s t
exit 13
says "false line 7: spelling\n"
kept t
file t whole
swap t "3 orig adp > flags" "3 orig chance > flags"
ask audit o a s t
exit 13
says "false line 7: spelling\n"
kept t
file t whole
swap t "3 orig adp > flags" ""
ask audit o a s t
exit 13
says "false line 7: spelling\n"
kept t
file t whole
swap t "3 orig adp > flags" "3 orig adp > flags break=256"
ask audit o a s t
exit 13
says "false line 7: spelling\n"
kept t
file t whole
swap t "3 orig adp > flags" "1099511627776 orig adp > flags"
ask audit o a s t
exit 13
says "false line 7: spelling\n"
kept t
file t whole
swap t "8 answ - > i s=0 r=0 p=0 n=1" "8 answ - > i s=128 r=0 p=0 n=1"
ask audit o a s t
exit 13
says "false line 18: spelling\n"
kept t
file t whole
swap t "8 answ - > i s=0 r=0 p=0 n=1" "8 answ - > i s=0 r=0 p=2 n=1"
ask audit o a s t
exit 13
says "false line 18: spelling\n"
kept t
file t whole
swap t "8 answ - > i s=0 r=0 p=0 n=1" "8 answ - > ui cmd p=0 brk 2 3"
ask audit o a s t
exit 13
says "false line 18: spelling\n"
kept t

scenario another line is false in its first part
file o "a"
file a "b"
file s ""
ask run o a s go ga t
file whole t
file t whole
swap t "8 orig rr rsp r=0 p=1 > i s=0 r=0 p=0 n=1" "8 orig rr rsp r=0 p=1 > i s=0 r=0 p=0 n=2"
ask audit o a s t
exit 13
says "false line 17: sent\n"
kept t
file t whole
swap t "8 answ - > i s=0 r=0 p=0 n=1" "8 answ - > ui rsp p=1 brkack 1 255"
ask audit o a s t
exit 13
says "false line 18: sent\n"
kept t
file t whole
swap t "3 orig adp > flags" "4 orig adp > flags"
ask audit o a s t
exit 13
says "false line 7: turn\n"
kept t
file t whole
swap t "3 orig adp > flags" "1099511627775 orig adp > flags"
ask audit o a s t
exit 13
says "false line 7: turn\n"
kept t
file t whole
swap t "3 orig adp > flags" "3 answ adp > flags"
ask audit o a s t
exit 13
says "false line 7: role\n"
kept t
file t whole
swap t "3 orig adp > flags" "3 orig odp > flags"
ask audit o a s t
exit 13
says "false line 7: arrived\n"
kept t
file t whole
swap t "3 orig adp > flags" "3 orig lost adp > flags"
ask audit o a s t
exit 13
says "false line 7: arrived\n"
kept t
file t whole
swap t "3 orig adp > flags" "3 orig chance"
ask audit o a s t
exit 13
says "false line 7: arrived\n"
kept t
file t whole
swap t "3 orig adp > flags" "3 orig adp > none"
ask audit o a s t
exit 13
says "false line 7: sent\n"
kept t
file t whole
swap t "3 orig adp > flags" "3 orig adp > flags break=255"
ask audit o a s t
exit 13
says "false line 7: break\n"
kept t
file t whole
swap t "3 orig adp > flags" "4 answ odp > none break=0"
ask audit o a s t
exit 13
says "false line 7: turn\n"
kept t
file t whole
swap t "3 orig adp > flags" "3 answ odp > none break=0"
ask audit o a s t
exit 13
says "false line 7: role\n"
kept t
file t whole
swap t "3 orig adp > flags" "3 orig odp > none break=0"
ask audit o a s t
exit 13
says "false line 7: arrived\n"
kept t
file t whole
swap t "3 orig adp > flags" "3 orig adp > none break=0"
ask audit o a s t
exit 13
says "false line 7: sent\n"
kept t
file t whole
swap t "6 answ - > flags\n7 orig - > flags" "6 answ - > none\n8 orig - > flags"
ask audit o a s t
exit 13
says "false line 14: sent\n"
kept t

scenario names that look like its own are read
file o "a"
file a "b"
file s ""
ask run o a s go ga t
file whole t
# And one file in two places.
file 1 "a"
file 11 "a"
file 111 whole
ask audit 1 11 s 111
exit 0
says "true 26 lines\n"
file got_o "a"
file trace "a"
file got_a whole
ask audit got_o trace s got_a
exit 0
says "true 26 lines\n"
ask audit o o s whole
exit 0
says "true 26 lines\n"

scenario a trace is true however its run ends
file o "a"
file a "b"
file s "lose answ 0 1000000"
ask run o a s go ga t
exit 8
keep t
ask audit o a s t
exit 0
says "true 242 lines\n"
# The originator gives up two periods of 20 behind turn 8.
file s "n400 1\nlose answ 8 1000000"
ask run o a s go ga t
exit 9
lines t 98
keep t
ask audit o a s t
exit 0
says "true 98 lines\n"
file marks "\xff"*232
ask encode answer marks sent
keep sent
file silence "V32R\0\0\0\0" "\0\0\0\0"*129
file s ""
hits s answ sent silence
ask run o a s go ga t
exit 7
keep t
ask audit o a s t
exit 0
says "true 2 lines\n"
file adp "\x8a\xfe\x1b\xfa\xaf\xe8\xbf\xa1\xff"*5 "\xff"*187
ask encode answer adp aimed
keep aimed
file s ""
hits s answ sent aimed
ask run o a s go ga t
exit 10
keep t
ask audit o a s t
exit 0
says "true 3 lines\n"

scenario a chance line of the other role is false
file o "a"
file a "b"
file marks "\xff"*232
ask encode answer marks sent
keep sent
file adp "\x8a\xfe\x1b\xfa\xaf\xe8\xbf\xa1\xff"*5 "\xff"*187
ask encode answer adp aimed
keep aimed
file s ""
hits s answ sent aimed
file t "0 orig - > odp\n0 answ - > mark\n1 answ chance\n"
ask audit o a s t
exit 13
says "false line 3: role\n"

scenario a file that is its own trace is false
file t "0 orig - > odp\n"
file a "b"
file s ""
ask audit t a s t
exit 13
says "false line 2: end\n"

scenario inputs are refused in order
# Only the lengths and the script are looked at.
file o ""
file a ""
file s ""
file t "\x07"*16777217
ask audit o a s t
exit 4
says "too long: t\n"
file a t
ask audit o a s t
exit 4
says "too long: a\n"
file s "\x07"*65537
ask audit o a s t
exit 4
says "too long: s\n"

scenario a trace of its limit is read
# It differs in its first line, behind which no octet of it is read. That one which agrees grows past its limit is tried with the built program, since
# its run has more than 150,000 turns.
file o "a"
file a "b"
file s ""
file t "\x07"*16777216
grows t "\x07"
ask audit o a s t
exit 13
says "false line 1: spelling\n"
ends calls "read t 16777216 1\nread t 0 162\nread a 0 128\nread o 0 128\nsay - 0 23\n"
"##;
