// Runs that are recorded and then tapped or picked up.

/// Runs, and what their recordings show.
pub(crate) const SCENARIOS: &str = r##"
scenario a tap leaves what the run left
# However the run ended.
file a "a"
file b "b"
file empty ""
ramp large 1920
ramp larger 12800
file s ""
ask record empty empty s go ga t ro ra
exit 0
says "done 8\n"
keep go ga t ro ra
ask tap ro ra s to ta tt
exit 0
says "turns 9\n"
leaves to go
leaves ta ga
leaves tt t
file s ""
ask record a b s go ga t ro ra
exit 0
says "done 12\n"
keep go ga t ro ra
ask tap ro ra s to ta tt
exit 0
says "turns 13\n"
leaves to go
leaves ta ga
leaves tt t
# The check of 32 bits.
file s "check32 orig\ncheck32 answ\n"
ask record a b s go ga t ro ra
exit 0
says "done 12\n"
keep go ga t ro ra
ask tap ro ra s to ta tt
exit 0
says "turns 13\n"
leaves to go
leaves ta ga
leaves tt t
# A lost answer.
file s "lose answ 5 1"
ask record a b s go ga t ro ra
exit 0
says "done 32\n"
keep go ga t ro ra
ask tap ro ra s to ta tt
exit 0
says "turns 33\n"
leaves to go
leaves ta ga
leaves tt t
# Segments that are sent again: from the lost one on, and it alone.
file s "delay 20 20\nlose orig 163 1\n"
ask record large empty s go ga t ro ra
exit 0
says "done 295\n"
keep go ga t ro ra
ask tap ro ra s to ta tt
exit 0
says "turns 296\n"
leaves to go
leaves ta ga
leaves tt t
file s "delay 20 20\nlose orig 163 1\nsrej orig\nsrej answ\n"
ask record large empty s go ga t ro ra
exit 0
says "done 284\n"
keep go ga t ro ra
ask tap ro ra s to ta tt
exit 0
says "turns 285\n"
leaves to go
leaves ta ga
leaves tt t
# Breaks, and pauses.
file s "break orig 5 30\nlose answ 8 1"
ask record a b s go ga t ro ra
exit 0
says "done 30\n"
keep go ga t ro ra
ask tap ro ra s to ta tt
exit 0
says "turns 31\n"
leaves to go
leaves ta ga
leaves tt t
file s "busy answ 10 5"
ask record large empty s go ga t ro ra
exit 0
says "done 31\n"
keep go ga t ro ra
ask tap ro ra s to ta tt
exit 0
says "turns 32\n"
leaves to go
leaves ta ga
leaves tt t
# Runs that end before they are done.
file s "lose orig 40 100000"
ask record larger larger s go ga t ro ra
exit 9
says "link lost: answ segment 31 turn 160\n"
keep go ga t ro ra
ask tap ro ra s to ta tt
exit 0
says "turns 161\n"
leaves to go
leaves ta ga
leaves tt t
file s "lose answ 0 1000000"
ask record a b s go ga t ro ra
exit 8
says "not detected: turn 120\n"
keep go ga t ro ra
ask tap ro ra s to ta tt
exit 0
says "turns 121\n"
leaves to go
leaves ta ga
leaves tt t
# The first symbols of the answerer say nothing, or are those of a slot whose octets pass the check.
file marks "\xff"*232
ask encode answer marks sent
keep sent
slot aim "~" "~~~~\x43\x63\xd4\x32"
ask encode answer aim aimed
keep aimed
file silence "V32R\0\0\0\0" "\0\0\0\0"*129
file s ""
hits s answ sent silence
ask record a b s go ga t ro ra
exit 7
says "line lost: orig symbol 128\n"
keep go ga t ro ra
ask tap ro ra s to ta tt
exit 7
says "line lost: orig symbol 128\n"
leaves to go
leaves ta ga
leaves tt t
file s ""
hits s answ sent aimed
ask record a b s go ga t ro ra
exit 10
says "chance match: orig turn 1\n"
keep go ga t ro ra
ask tap ro ra s to ta tt
exit 10
says "chance match: orig turn 1\n"
leaves to go
leaves ta ga
leaves tt t

scenario a cut recording is no tap
file o "a"
file a "b"
file s ""
ask record o a s go ga t ro ra
exit 0
says "done 12\n"
keep ro ra
file ro ro[..22279]
ask tap ro ra s to ta tt
exit 14
says "bad tap: orig turn 11\n"

scenario each call of a tap that fails leaves beginnings
file o "a"
file a "b"
file s ""
ask record o a s go ga t ro ra
exit 0
keep ro ra
ask tap ro ra s to ta tt
sweep to ta tt

scenario the middle of a recording is picked up
# The frames that the run's trace names are said.
file o "a"
file a "b"
file s ""
ask record o a s go ga t ro ra
exit 0
says "done 12\n"
keep ro
# Seven symbols before the slot of turn 4, of the fifth slot of 1,856 octets.
file m "V32R\0\0\0\0" ro[7404..]
ask pickup m
exit 0
says "frame sabme cmd p=1\nframe rr cmd r=0 p=1\nframe i s=0 r=0 p=0 n=1\nframe rr rsp r=1 p=0\nframe disc cmd p=1\npieces 5\n"
# A hundred symbols behind its beginning.
file m "V32R\0\0\0\0" ro[7832..]
ask pickup m
exit 0
says "frame rr cmd r=0 p=1\nframe i s=0 r=0 p=0 n=1\nframe rr rsp r=1 p=0\nframe disc cmd p=1\npieces 4\n"
# Turned by a quarter, and its first sample moved by half a unit.
turn m 0 1 1024 0
turn m 1 5568 0 0
ask pickup m
exit 0
says "frame rr cmd r=0 p=1\nframe i s=0 r=0 p=0 n=1\nframe rr rsp r=1 p=0\nframe disc cmd p=1\npieces 4\n"
"##;
