// Fields in digits, and what is printed of them.

/// Digits and what they spell.
pub(crate) const SCENARIOS: &str = r##"
scenario fields are explained
ask xid 8280001303038A8900050204000602040007010F08010FF0000F000356343201010302020800030120
exit 0
says "window tx=15 rx=15 length tx=128 rx=128 srej=0 check32=0\n"
ask xid 82
exit 0
says "window tx=15 rx=15 length tx=128 rx=128 srej=0 check32=0\n"
ask xid 8280000405024000
exit 0
says "window tx=15 rx=15 length tx=1024 rx=128 srej=0 check32=0\n"
ask xid 8280000607010F07010F
exit 3
says "bad xid: repeated at 7\n"
ask xid 8280000407010F
exit 3
says "bad xid: length at 2\n"
ask xid 81
exit 3
says "bad xid: format\n"
file empty ""
ask xid @empty
exit 3
says "bad xid: format\n"
ask xid 8
exit 3
says "bad hex: at 1\n"
ask xid 8g
exit 3
says "bad hex: at 1\n"

scenario a line is said at once and nothing is read
ask xid 82
exit 0
leaves calls "say - 0 57\n"
ask xid 8
exit 3
leaves calls "say - 0 14\n"
"##;
