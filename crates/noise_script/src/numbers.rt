// Reading words: roles, and numbers in decimal digits.
ghost use Rattle.std.specs.Prelude.{◌≡◌, ◌<◌, ◌≤◌, ◌^◌, MatchResult, IfSome, IfNone, true, false, length, pos};
ghost use Rattle.std.specs.Option.{option_map};
ghost use Rattle.noise_script.specs.Numbers.{is_digit, is_number, value_of, plain_number, without_sign, is_signed, signed_value_of};
ghost use Rattle.noise_script.specs.Lines.{begins_with};
ghost use Rattle.noise_script.specs.Forms.{ARole, Number, Signed, RoleIs, NumberIs, SignedIs, Spells, Fails};

use crate::Cause;
use crate::forms::Range;
use shared_terms::Role;

/// A number of 1 to 20 decimal digits.
fn read_digits(word: &[u8]) -> Option<u128>
    ensures some { IfSome result (λ value. (is_number word.now ≡ true) × (value ≡ value_of word.now)) }
    ensures small { IfSome result (λ value. value < 10 ^ 20) }
    ensures none { IfNone result (is_number word.now ≡ false) }
{
    if word.is_empty() || word.len() > 20 {
        return None;
    }
    let mut value: u128 = 0;
    for octet in word {
        if !octet.is_ascii_digit() {
            return None;
        }
        value = 10 * value + u128::from(*octet - b'0');
    }
    Some(value)
}

/// A number of 1 to 20 decimal digits that fits 64 bits, without a zero before other digits: so each number has one word.
pub fn read_plain_number(word: &[u8]) -> Option<u64>
    ensures { result ≡ plain_number word.now }
{
    let value = read_digits(word)?;
    if value > u128::from(u64::MAX) {
        return None;
    }
    if word.len() > 1 && word[0] == b'0' {
        return None;
    }
    Some(value as u64)
}

/// A number of 1 to 20 decimal digits, where it is in its range.
pub(crate) fn read_number(word: &[u8], range: Range) -> Result<u64, Cause>
    ensures { MatchResult result (λ value. Spells (Number range.low range.high) word.now (NumberIs value)) (Fails (Number range.low range.high) word.now) }
{
    let value = read_digits(word).ok_or(Cause::Number)?;
    if value < u128::from(range.low) || value > u128::from(range.high) {
        return Err(Cause::Range);
    }
    Ok(value as u64)
}

/// A number of 1 to 20 decimal digits that may have a minus sign before them.
fn read_signed_digits(word: &[u8]) -> Option<i128>
    ensures some { IfSome result (λ value. (is_signed word.now ≡ true) × (value ≡ signed_value_of word.now)) }
    ensures none { IfNone result (is_signed word.now ≡ false) }
{
    let (first, rest) = word.split_first()?;
    if *first == b'-' {
        return Some(-(read_digits(rest)? as i128));
    }
    Some(read_digits(word)? as i128)
}

/// A number of 1 to 20 decimal digits that may have a minus sign before them, where it is from `low` to `high`.
pub(crate) fn read_signed(word: &[u8], low: i16, high: i16) -> Result<i16, Cause>
    ensures { MatchResult result (λ value. Spells (Signed low high) word.now (SignedIs value)) (Fails (Signed low high) word.now) }
{
    let value = read_signed_digits(word).ok_or(Cause::Number)?;
    if value < i128::from(low) || value > i128::from(high) {
        return Err(Cause::Range);
    }
    Ok(value as i16)
}

pub(crate) fn read_role(word: &[u8]) -> Result<Role, Cause>
    ensures { MatchResult result (λ role. Spells ARole word.now (RoleIs role)) (Fails ARole word.now) }
{
    Role::of_word(word).ok_or(Cause::Word)
}
