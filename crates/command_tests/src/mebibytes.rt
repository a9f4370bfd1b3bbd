// Files of a mebibyte, which cross in some nine thousand turns.

/// Files and whether they cross.
pub(crate) const SCENARIOS: &str = r##"
scenario files of a mebibyte cross
file o "\x07"*1048576
file a "\x08"*1048576
file s ""
ask run o a s go ga t
exit 0
ends said "\n"
leaves go a
leaves ga o
"##;
