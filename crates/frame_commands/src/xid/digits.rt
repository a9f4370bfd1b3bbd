// Hexadecimal digits as octets.
ghost use Rattle.std.specs.Prelude.{◌≡◌, ◌≤◌, ◌/◌, IfOk, IfErr, OnOk, Ok, length};
ghost use Rattle.hex.specs.Hex.{decode_of};
ghost use Rattle.command_base.specs.declared.limits.TheConstants.{HEX_LIMIT};
ghost use Rattle.frame_commands.specs.Explaining.Digits.{IsBadHex, RefusesDigits, place_named};

use command_base::{HEX_LIMIT, Status};
use frame_check::Octets;
use hex::{FromHexError, decode_to_slice};

/// The most octets that digits within the limit spell.
const OCTETS: usize = HEX_LIMIT / 2;

/// The place of the digits among the words.
const HEX: usize = 1;

/// Fills the list with the octets that the digits spell, or names the place where they spell none.
fn decode_digits(digits: &str, octets: &mut [u8]) -> Result<(), u64>
    requires { length octets.old ≡ length digits.now / 2 }
    ensures ok { OnOk result (decode_of digits.now ≡ Ok octets.new) }
    ensures err { IfErr result (IsBadHex digits.now) }
{
    match decode_to_slice(digits, octets) {
        Ok(()) => Ok(()),
        Err(error) => Err(place_named(digits.len(), error) as u64),
    }
}

/// The octets that the digits spell, two digits an octet and the high one first.
pub(crate) fn read_digits(digits: &str) -> Result<Octets<OCTETS>, Status>
    ensures within { IfOk result (λ octets. length digits.now ≤ HEX_LIMIT) }
    ensures octets { IfOk result (λ octets. decode_of digits.now ≡ Ok octets) }
    ensures refused { IfErr result (RefusesDigits digits.now) }
{
    if digits.len() > HEX_LIMIT {
        return Err(Status::TooLong { word: HEX });
    }
    let mut octets = [0u8; OCTETS];
    let count = digits.len() / 2;
    match decode_digits(digits, &mut octets[..count]) {
        Ok(()) => {
            let mut spelled = Octets::new();
            spelled.extend(&octets[..count]);
            Ok(spelled)
        }
        Err(at) => Err(Status::BadHex { at }),
    }
}

/// The place that an error names; where it names none, the number of digits.
fn place_named(count: usize, error: FromHexError) -> usize
    ensures { result ≡ place_named count error }
{
    match error {
        FromHexError::InvalidHexCharacter { index, .. } => index,
        _ => count,
    }
}
