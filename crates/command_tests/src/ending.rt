// Pairs of which not both links are done, and words that are no pair's.

/// How pairs end.
pub(crate) const SCENARIOS: &str = r##"
scenario the first link that is not done is the answer
# Both links leave what their runs alone leave.
file a "a"
file b "b"
file empty ""
ramp large 1920
# A link is lost once the other one was done, the second one and the first one.
file s "lose orig 14 400"
ask pair a b large empty s go1 ga1 go2 ga2 t1 t2
exit 9
says "link lost: link 2 orig segment 6 turn 135\n"
alike run a b s go1 ga1 t1
alike run large empty s go2 ga2 t2
file s "lose orig 14 400"
ask pair large empty a b s go1 ga1 go2 ga2 t1 t2
exit 9
says "link lost: link 1 orig segment 6 turn 135\n"
alike run large empty s go1 ga1 t1
alike run a b s go2 ga2 t2
file s "n400 1\nlose orig 14 400"
ask pair a b large empty s go1 ga1 go2 ga2 t1 t2
exit 9
says "link lost: link 2 orig segment 6 turn 55\n"
alike run a b s go1 ga1 t1
alike run large empty s go2 ga2 t2
# Both are lost, the second one two rounds after the first: the first one counts.
file s "lose orig 9 400"
ask pair a b large empty s go1 ga1 go2 ga2 t1 t2
exit 9
says "link lost: link 1 answ segment 0 turn 128\n"
alike run a b s go1 ga1 t1
alike run large empty s go2 ga2 t2
# Neither originator sees a pattern.
file s "lose answ 0 1000000"
ask pair a b a b s go1 ga1 go2 ga2 t1 t2
exit 8
says "not detected: link 1 turn 120\n"
alike run a b s go1 ga1 t1
alike run a b s go2 ga2 t2

scenario the second link alone is undetected
# In each round up to 39 the patterns in its originator's slot are moved by two units of the map, and none is heard: twice a period of 20 turns.
file a "a"
file b "b"
file plain "n400 1"
file lost "n400 1\nlose orig 0 1000\n"
file s "n400 1\n"
add s "hit orig 464 200 4096 0\nhit orig 1392 200 4096 0\nhit orig 2320 200 4096 0\nhit orig 3248 200 4096 0\n"
add s "hit orig 4176 200 4096 0\nhit orig 5104 200 4096 0\nhit orig 6032 200 4096 0\nhit orig 6960 200 4096 0\n"
add s "hit orig 7888 200 4096 0\nhit orig 8816 200 4096 0\nhit orig 9744 200 4096 0\nhit orig 10672 200 4096 0\n"
add s "hit orig 11600 200 4096 0\nhit orig 12528 200 4096 0\nhit orig 13456 200 4096 0\nhit orig 14384 200 4096 0\n"
add s "hit orig 15312 200 4096 0\nhit orig 16240 200 4096 0\nhit orig 17168 200 4096 0\nhit orig 18096 200 4096 0\n"
add s "hit orig 19024 200 4096 0\nhit orig 19952 200 4096 0\nhit orig 20880 200 4096 0\nhit orig 21808 200 4096 0\n"
add s "hit orig 22736 200 4096 0\nhit orig 23664 200 4096 0\nhit orig 24592 200 4096 0\nhit orig 25520 200 4096 0\n"
add s "hit orig 26448 200 4096 0\nhit orig 27376 200 4096 0\nhit orig 28304 200 4096 0\nhit orig 29232 200 4096 0\n"
add s "hit orig 30160 200 4096 0\nhit orig 31088 200 4096 0\nhit orig 32016 200 4096 0\nhit orig 32944 200 4096 0\n"
add s "hit orig 33872 200 4096 0\nhit orig 34800 200 4096 0\nhit orig 35728 200 4096 0\nhit orig 36656 200 4096 0\n"
ask pair a b a b s go1 ga1 go2 ga2 t1 t2
exit 8
says "not detected: link 2 turn 40\n"
alike run a b plain go1 ga1 t1
alike run a b lost go2 ga2 t2

scenario the first faulty line of a script is named
file o "a"
file a "b"
file s "# a comment\nspeed 3\n"
ask pair o a o a s go1 ga1 go2 ga2 t1 t2
exit 3
says "bad script: line 2: word\n"
none go1

scenario files past the limit are named by their words
file s ""
file o1 "\x07"*16777217
file a1 ""
file o2 "a"
file a2 "b"
ask pair o1 a1 o2 a2 s go1 ga1 go2 ga2 t1 t2
exit 4
says "too long: o1\n"
none go1
file o2 o1
file o1 "a"
file a1 "b"
file a2 ""
ask pair o1 a1 o2 a2 s go1 ga1 go2 ga2 t1 t2
exit 4
says "too long: o2\n"
none go1
file a2 o2
file o2 ""
ask pair o1 a1 o2 a2 s go1 ga1 go2 ga2 t1 t2
exit 4
says "too long: a2\n"
none go1

scenario outputs differ from one another and from all inputs
file o1 "a"
file s ""
usage pair o1 a1 o2 a2 s o1 ga1 go2 ga2 t1 t2
usage pair o1 a1 o2 a2 s a1 ga1 go2 ga2 t1 t2
usage pair o1 a1 o2 a2 s o2 ga1 go2 ga2 t1 t2
usage pair o1 a1 o2 a2 s a2 ga1 go2 ga2 t1 t2
usage pair o1 a1 o2 a2 s s ga1 go2 ga2 t1 t2
usage pair o1 a1 o2 a2 s ga1 ga1 go2 ga2 t1 t2
usage pair o1 a1 o2 a2 s go2 ga1 go2 ga2 t1 t2
usage pair o1 a1 o2 a2 s ga2 ga1 go2 ga2 t1 t2
usage pair o1 a1 o2 a2 s t1 ga1 go2 ga2 t1 t2
usage pair o1 a1 o2 a2 s t2 ga1 go2 ga2 t1 t2
usage pair o1 a1 o2 a2 s go1 o1 go2 ga2 t1 t2
usage pair o1 a1 o2 a2 s go1 a1 go2 ga2 t1 t2
usage pair o1 a1 o2 a2 s go1 o2 go2 ga2 t1 t2
usage pair o1 a1 o2 a2 s go1 a2 go2 ga2 t1 t2
usage pair o1 a1 o2 a2 s go1 s go2 ga2 t1 t2
usage pair o1 a1 o2 a2 s go1 go1 go2 ga2 t1 t2
usage pair o1 a1 o2 a2 s go1 go2 go2 ga2 t1 t2
usage pair o1 a1 o2 a2 s go1 ga2 go2 ga2 t1 t2
usage pair o1 a1 o2 a2 s go1 t1 go2 ga2 t1 t2
usage pair o1 a1 o2 a2 s go1 t2 go2 ga2 t1 t2
usage pair o1 a1 o2 a2 s go1 ga1 o1 ga2 t1 t2
usage pair o1 a1 o2 a2 s go1 ga1 a1 ga2 t1 t2
usage pair o1 a1 o2 a2 s go1 ga1 o2 ga2 t1 t2
usage pair o1 a1 o2 a2 s go1 ga1 a2 ga2 t1 t2
usage pair o1 a1 o2 a2 s go1 ga1 s ga2 t1 t2
usage pair o1 a1 o2 a2 s go1 ga1 go1 ga2 t1 t2
usage pair o1 a1 o2 a2 s go1 ga1 ga1 ga2 t1 t2
usage pair o1 a1 o2 a2 s go1 ga1 ga2 ga2 t1 t2
usage pair o1 a1 o2 a2 s go1 ga1 t1 ga2 t1 t2
usage pair o1 a1 o2 a2 s go1 ga1 t2 ga2 t1 t2
usage pair o1 a1 o2 a2 s go1 ga1 go2 o1 t1 t2
usage pair o1 a1 o2 a2 s go1 ga1 go2 a1 t1 t2
usage pair o1 a1 o2 a2 s go1 ga1 go2 o2 t1 t2
usage pair o1 a1 o2 a2 s go1 ga1 go2 a2 t1 t2
usage pair o1 a1 o2 a2 s go1 ga1 go2 s t1 t2
usage pair o1 a1 o2 a2 s go1 ga1 go2 go1 t1 t2
usage pair o1 a1 o2 a2 s go1 ga1 go2 ga1 t1 t2
usage pair o1 a1 o2 a2 s go1 ga1 go2 go2 t1 t2
usage pair o1 a1 o2 a2 s go1 ga1 go2 t1 t1 t2
usage pair o1 a1 o2 a2 s go1 ga1 go2 t2 t1 t2
usage pair o1 a1 o2 a2 s go1 ga1 go2 ga2 o1 t2
usage pair o1 a1 o2 a2 s go1 ga1 go2 ga2 a1 t2
usage pair o1 a1 o2 a2 s go1 ga1 go2 ga2 o2 t2
usage pair o1 a1 o2 a2 s go1 ga1 go2 ga2 a2 t2
usage pair o1 a1 o2 a2 s go1 ga1 go2 ga2 s t2
usage pair o1 a1 o2 a2 s go1 ga1 go2 ga2 go1 t2
usage pair o1 a1 o2 a2 s go1 ga1 go2 ga2 ga1 t2
usage pair o1 a1 o2 a2 s go1 ga1 go2 ga2 go2 t2
usage pair o1 a1 o2 a2 s go1 ga1 go2 ga2 ga2 t2
usage pair o1 a1 o2 a2 s go1 ga1 go2 ga2 t2 t2
usage pair o1 a1 o2 a2 s go1 ga1 go2 ga2 t1 o1
usage pair o1 a1 o2 a2 s go1 ga1 go2 ga2 t1 a1
usage pair o1 a1 o2 a2 s go1 ga1 go2 ga2 t1 o2
usage pair o1 a1 o2 a2 s go1 ga1 go2 ga2 t1 a2
usage pair o1 a1 o2 a2 s go1 ga1 go2 ga2 t1 s
usage pair o1 a1 o2 a2 s go1 ga1 go2 ga2 t1 go1
usage pair o1 a1 o2 a2 s go1 ga1 go2 ga2 t1 ga1
usage pair o1 a1 o2 a2 s go1 ga1 go2 ga2 t1 go2
usage pair o1 a1 o2 a2 s go1 ga1 go2 ga2 t1 ga2
usage pair o1 a1 o2 a2 s go1 ga1 go2 ga2 t1 t1
"##;
