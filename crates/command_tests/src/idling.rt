// What comes of a link's slots once it has ended, while the other link goes on.

/// Slots of a link that has ended.
pub(crate) const SCENARIOS: &str = r##"
scenario a line can be lost in a slot of a link that has ended
# The small link alone is done in turn 12. The slot is its link's of round 14, and arrives in round 15. Its symbols are counted with those of the
# second link.
file a "a"
file b "b"
file empty ""
ramp large 1920
file s ""
ask run a b s go ga t
file alone t
ask run large empty s go ga t
file large_alone t
file s "noise answ 12992 464 4000 68014"
ask pair a b large empty s go1 ga1 go2 ga2 t1 t2
exit 7
says "line lost: orig symbol 13367\n"
leaves go1 "b"
leaves ga1 "a"
leaves t1 alone
begins large_alone t2
lines t2 30

scenario what a link that has ended did not send is a chance match
# Symbols of the answerer's in that slot are moved from flags to the octets 03 7F between flags, which pass the check and are no frame.
file a "a"
file b "b"
file empty ""
ramp large 1920
file s ""
ask run a b s go ga t
file alone t
ask run large empty s go ga t
file large_alone t
moves s answ 13313 -2,-6 2,0 -4,0 5,5 3,-3 2,2 6,-2 2,-2 5,5 1,1 4,0 -5,1 -4,0 6,2 -7,1 -2,2
moves s answ 13329 1,-1 -3,-5 4,0 1,1 -1,-3 -2,6 1,1 0,0 3,-1 1,-1 -2,-6 0,0 2,-2 0,-2 0,2 5,5
moves s answ 13345 1,5 -5,-1 0,-2 3,3 0,2 -3,5 2,0 4,-2 2,-4 -3,-1 1,-3 1,-1 -1,1 -1,-3 -2,-2 -1,5
moves s answ 13361 0,2 1,7 -5,-3 -4,-2 5,-3 2,-2 3,3 -1,-1 3,3 -2,4 1,-3 -3,-3 -2,-2 -1,-1 0,0 3,3
moves s answ 13377 -1,-1 6,4 2,4 6,2 2,0 0,6 -6,-4 -3,1 2,4 2,0 -3,1 -4,0 -1,-3 0,2 0,-6 4,-4
moves s answ 13393 1,-1 -3,-1 3,1 5,-1 6,-2 0,0 2,0 3,1 5,-1 4,2 -4,4 -4,-2 3,-5 -3,1 -1,-1 -1,-3
moves s answ 13409 -2,-4 -1,1 2,-4 3,1 4,-2 1,-5 -1,3 3,7 0,2 0,-8 6,-2 4,4 -3,-1 -3,-3 -5,-1 -3,-1
moves s answ 13425 3,-3 -1,1 1,7 0,-2 2,2 5,-3 -1,-3 -2,0 3,-1 1,1 -1,3 -1,-5 -2,2 -3,1 -3,1 -4,4
moves s answ 13441 -1,-1 0,-4 -3,-3 -3,-5 0,-4 2,2 1,-1 4,-4 0,-4 -5,1 2,-2 1,5 -2,0 -1,3 -3,-1
ask pair a b large empty s go1 ga1 go2 ga2 t1 t2
exit 10
says "chance match: orig turn 15\n"
leaves go1 "b"
leaves ga1 "a"
leaves t1 alone "15 orig chance\n"
begins large_alone t2
lines t2 30

scenario each call that fails is the answer
# What both links left begins what they leave.
file a "a"
file b "b"
file empty ""
ramp large 1920
file s ""
ask pair a b large empty s go1 ga1 go2 ga2 t1 t2
exit 0
sweep go1 ga1 go2 ga2 t1 t2
"##;
