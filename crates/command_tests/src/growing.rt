// Inputs that grow behind the look at their length.

/// Inputs, how they grow, and what each command makes of them.
pub(crate) const SCENARIOS: &str = r##"
scenario an input that grows is read as it is then
# Of each input there is less at first.
file f "ab"
ask encode call f r
exit 0
keep r
file f "a"
grows f "b"
ask encode call f grown
exit 0
says "samples 4\n"
leaves grown r
file whole r
file r whole[..12]
grows r whole[12..]
ask decode r g
exit 0
says "octets 2\n"
leaves g "ab"
file f "ab"
file r whole[..12]
grows r whole[12..]
ask margin r f
exit 0
says "cost 0 sure 1\n"
file b "~\x03\xdf"
grows b "\x3e\xb9\xfa\xf9"
ask frames orig b
exit 0
says "frame sabme cmd p=1\npieces 1\n"

scenario a run whose inputs grow is that of the whole inputs
file o "a"
file a "bcd"
file s "delay 2 3\n"
ask run o a s go ga t
exit 0
keep t
file a "b"
grows a "cd"
ask run o a s go ga grown
exit 0
leaves go "bcd"
leaves ga "a"
leaves grown t
file a "bcd"
file s "delay"
grows s " 2 3\n"
ask run o a s go ga grown
exit 0
leaves go "bcd"
leaves ga "a"
leaves grown t

scenario a trace that grows is audited as it is then
# It ends within a line at first.
file o "a"
file a "b"
file s ""
ask run o a s go ga t
exit 0
file t t[..700]
ask audit o a s t
exit 13
says "false line 26: end\n"
grows t "> none\n"
ask audit o a s t
exit 0
says "true 26 lines\n"
grows t "> none\n12 orig - > none\n"
ask audit o a s t
exit 13
says "false line 27: beyond\n"
"##;
