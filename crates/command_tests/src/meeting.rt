// Ends that meet recorded bits of a peer, with what each run prints and leaves.

/// The bits of peers, and what comes of them.
pub(crate) const SCENARIOS: &str = r##"
scenario frames of the peer are answered and its faults are named
# Frames of a peer with their checks, as bits with zeros put in, between flags, and three times the answerer's pattern.
file sabme "~\x03\xdf\x3e\xb9\xfa\xf9"
file poll "~\x03\x01\x01\xf9\x42\xfc\xfe"
file first "~\x03\x00\x00\x61\x9c\xab~"
file second "~\x03\x02\x00\x62\x5f\x59\xfc\xfe"
file break "~\x03\x03\x40\x00\x1e\xdf\x11\xfc\xfe"
file bad_ack "~\x03\x00\x0a\x61\xec\x56~"
file ua "~\x03\x73\x33\x64~"
file dm "~\x03\x0f\xd8\xdd~"
file xid "~\x03\xaf\x82\x80\x00\x13\x03\x03\x8a\x89\x00\x05\x02\x04\x00\x06\x02\x04\x00\x07\x01\x0f\x08\x01\x0f\x9b\x23~"
file adp "\x8a\xfe\x1b\xfa\xaf\xe8\xbf\xa1\xff\x8a\xfe\x1b\xfa\xff"
file empty ""
file xyz "xyz"
# Segments and breaks are given in order.
file b ""
slot b "\xff" sabme
slot b "\xff" first
slot b "\xff" second
slot b "\xff" break
file trace ""
add trace "0 answ sabme cmd p=1 > ua rsp p=1\n"
add trace "1 answ i s=0 r=0 p=0 n=1 > rr rsp r=1 p=0\n"
add trace "2 answ i s=1 r=0 p=0 n=1 > rr rsp r=2 p=0\n"
add trace "3 answ ui cmd p=0 brk 0 30 > ui cmd p=0 brkack 0 30 break=30\n"
ask peer answ empty b g t
exit 0
says "done 4\n"
leaves g "ab"
leaves t trace
# The user's file is sent once the peer is heard.
file b ""
slot b "\xff" sabme
slot b "\xff" poll
slot b "\xff"
file trace ""
add trace "0 answ sabme cmd p=1 > ua rsp p=1\n"
add trace "1 answ rr cmd r=0 p=1 > rr rsp r=0 p=1\n"
add trace "2 answ - > i s=0 r=0 p=0 n=3\n"
ask peer answ xyz b g t
exit 0
says "done 3\n"
leaves g ""
leaves t trace
# An originator that needs the link no more takes it down.
file b ""
slot b "\xff" adp
slot b "\xff" xid
slot b "\xff" ua
slot b "\xff" ua
slot b "\xff" ua
file trace ""
add trace "0 orig adp > xid cmd p=0 n=23\n"
add trace "1 orig xid rsp p=0 n=23 > sabme cmd p=1\n"
add trace "2 orig ua rsp p=1 > disc cmd p=1\n"
add trace "3 orig ua rsp p=1 > none\n"
ask peer orig empty b g t
exit 0
says "done 4\n"
leaves g ""
leaves t trace
# A frame that was never asked for is answered.
file b ""
add b sabme
file trace ""
add trace "0 answ sabme cmd p=1 > ua rsp p=1\n"
ask peer answ empty b g t
exit 0
says "done 1\n"
leaves g ""
leaves t trace
# No bits are no turns.
file b ""
file trace ""
ask peer answ empty b g t
exit 0
says "done 0\n"
leaves g ""
leaves t trace
# The peer acknowledges what was never sent.
file b ""
slot b "\xff" sabme
slot b "\xff" bad_ack
file trace ""
add trace "0 answ sabme cmd p=1 > ua rsp p=1\n"
add trace "1 answ i s=0 r=5 p=0 n=1 > none\n"
ask peer answ empty b g t
exit 12
says "peer fault: bad ack nr 5 va 0 high 0 turn 1\n"
leaves g ""
leaves t trace
# It begins anew.
file b ""
slot b "\xff" sabme
slot b "\xff" poll
slot b "\xff" sabme
file trace ""
add trace "0 answ sabme cmd p=1 > ua rsp p=1\n"
add trace "1 answ rr cmd r=0 p=1 > rr rsp r=0 p=1\n"
add trace "2 answ sabme cmd p=1 > none\n"
ask peer answ empty b g t
exit 12
says "peer fault: reset va 0 vr 0 turn 2\n"
leaves g ""
leaves t trace
# It refuses.
file b ""
slot b "\xff" adp
slot b "\xff" dm
file trace ""
add trace "0 orig adp > xid cmd p=0 n=23\n"
add trace "1 orig dm rsp p=0 > none\n"
ask peer orig empty b g t
exit 12
says "peer fault: refused turn 1\n"
leaves g ""
leaves t trace

scenario a slot is heard up to its first frame
# Two frames in one slot: the first one is heard. A frame that ends in the next slot is heard there.
file f ""
file first "~\x03\x00\x00\x61\x9c\xab~"
file b "\xff"*229 first "~\x03\xdf\x3e\xb9\xfa\xf9" first
ask peer answ f b g t
exit 0
says "done 2\n"
leaves g ""
leaves t "0 answ - > mark\n1 answ i s=0 r=0 p=0 n=1 > mark\n"

scenario an originator that is not answered gives up
# It is never answered, or by the pattern alone. The trace has a line for each slot of 232 octets.
file f "a"
file b "\xff"*28072
ask peer orig f b g t
exit 8
says "not detected: turn 120\n"
lines t 121
ends t "119 orig - > odp\n120 orig - > none\n"
file b "\xff"*27840
ask peer orig f b g t
exit 0
says "done 120\n"
lines t 120
ends t "119 orig - > odp\n"
file b ""
slot b "\xff" "\x8a\xfe\x1b\xfa\xaf\xe8\xbf\xa1\xff\x8a\xfe\x1b\xfa\xff"
add b "\xff"*27840
ask peer orig f b g t
exit 9
says "link lost: orig segment 0 turn 120\n"
lines t 121
ends t "119 orig - > flags\n120 orig - > none\n"

scenario inputs that are too long are refused
# Octets past their limit, in both inputs: the bits are named first, by the words as they were given.
file f "\xff"*1048577
file b f
ask peer answ f b g t
exit 4
says "too long: b\n"
none g
file b "~\x03\xdf\x3e\xb9\xfa\xf9"
ask peer answ f b g t
exit 4
says "too long: f\n"
none g

scenario other words are no peers
file f ""
file b "~\x03\xdf\x3e\xb9\xfa\xf9"
usage peer call f b g t

scenario each call that fails is the answer
# The run has a file, two segments and a break.
file f "xyz"
slot b "\xff" "~\x03\xdf\x3e\xb9\xfa\xf9"
slot b "\xff" "~\x03\x00\x00\x61\x9c\xab~"
slot b "\xff" "~\x03\x02\x00\x62\x5f\x59\xfc\xfe"
slot b "\xff" "~\x03\x03\x40\x00\x1e\xdf\x11\xfc\xfe"
ask peer answ f b g t
exit 0
sweep g t

scenario a fault of the peer waits for its line
# An end that gives its link up says so only where its line was written.
file f ""
slot b "\xff" "~\x03\xdf\x3e\xb9\xfa\xf9"
slot b "\xff" "~\x03\x00\x0a\x61\xec\x56~"
ask peer answ f b g t
exit 12
says "peer fault: bad ack nr 5 va 0 high 0 turn 1\n"
sweep g t

scenario a small peer makes these calls
# An octet at the limit of the bits and then of the file, the outputs, and turn by turn a slot, what comes for the user, what the end wants of its
# file, and a line of the trace. The bits end behind their slots, or within one.
file f "xyz"
slot b "\xff" "~\x03\xdf\x3e\xb9\xfa\xf9"
slot b "\xff" "~\x03\x01\x01\xf9\x42\xfc\xfe"
slot b "\xff" "~\x03\x00\x00\x61\x9c\xab~"
file asked ""
add asked "read b 1048576 1\n"
add asked "read f 1048576 1\n"
add asked "create g 0 0\n"
add asked "create t 0 0\n"
add asked "read b 0 232\n"
add asked "read f 0 128\n"
add asked "append t 0 34\n"
add asked "read b 232 232\n"
add asked "append t 0 39\n"
add asked "read b 464 232\n"
add asked "append g 0 1\n"
add asked "append t 0 45\n"
add asked "read b 696 232\n"
add asked "say - 0 7\n"
ask peer answ f b g t
exit 0
says "done 3\n"
file trace "0 answ sabme cmd p=1 > ua rsp p=1\n"
add trace "1 answ rr cmd r=0 p=1 > rr rsp r=0 p=1\n"
add trace "2 answ i s=0 r=0 p=0 n=1 > i s=0 r=1 p=0 n=3\n"
leaves t trace
leaves calls asked
file b "~\x03\xdf\x3e\xb9\xfa\xf9"
file asked ""
add asked "read b 1048576 1\n"
add asked "read f 1048576 1\n"
add asked "create g 0 0\n"
add asked "create t 0 0\n"
add asked "read b 0 232\n"
add asked "read f 0 128\n"
add asked "append t 0 34\n"
add asked "say - 0 7\n"
ask peer answ f b g t
exit 0
says "done 1\n"
leaves calls asked
"##;
