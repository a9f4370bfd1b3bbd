// Runs that losses end.

/// Losses and how runs end by them.
pub(crate) const SCENARIOS: &str = r##"
scenario a line that stays silent ends the link
# Both ends send one file, until the link ends.
ramp f 12800
file s "lose orig 40 100000"
ask run f f s go ga t
exit 9
says "link lost: answ segment 31 turn 160\n"
leaves go f[..5888]
leaves ga f[..4096]

scenario an originator that sees no pattern gives up
file o "a"
file a "b"
file s "lose answ 0 1000000"
ask run o a s go ga t
exit 8
says "not detected: turn 120\n"
lines t 242
line t "120 orig lost adp > none"
line t "120 answ odp > none"

scenario an originator gives up whatever it asked
# It gives up 120 turns, six periods of 20, behind the turn in which it asked first.
file o "a"
file a "b"
# The SABME of turn 4.
file s "lose answ 5 100000"
ask run o a s go ga t
exit 9
says "link lost: orig segment 0 turn 124\n"
# The segment of turn 8. The answerer, whose own one isn't answered either, gives up in the same turn.
file s "lose orig 9 100000\nlose answ 9 100000"
ask run o a s go ga t
exit 9
says "link lost: orig segment 0 turn 128\n"
# The break of turn 9.
file s "break orig 9 30\nlose answ 10 100000"
ask run o a s go ga t
exit 9
says "link lost: orig segment 1 turn 129\n"
# The DISC of turn 10.
file s "lose answ 11 100000"
ask run o a s go ga t
exit 9
says "link lost: orig segment 1 turn 130\n"
"##;
