// A number's digits behind a list of octets.
ghost use Rattle.std.specs.Prelude.{◌≡◌, ◌≤◌, ◌+◌, ◌++◌, length, decimal};

use frame_check::Octets;
use itoa::Buffer;

/// Puts a number behind the octets, in decimal digits without leading zeros: 1 to 20 ASCII characters.
pub fn put_decimal<const CAP: usize>(octets: &mut Octets<CAP>, number: u64)
    requires { length octets.old + 20 ≤ CAP }
    ensures text { octets.new ≡ octets.old ++ decimal number }
    ensures room { length octets.new ≤ length octets.old + 20 }
{
    let mut buffer = Buffer::new();
    octets.extend(buffer.format(number).as_bytes());
}
