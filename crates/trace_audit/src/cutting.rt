// What a text begins with, and what stands behind that.
ghost use Rattle.std.specs.Prelude.{◌≡◌};
ghost use Rattle.std.specs.Option.{option_map};
ghost use Rattle.noise_script.specs.Numbers.{is_digit};
ghost use Rattle.trace_audit.specs.Cutting.{behind, behind_labelled, behind_number, front_of, is_no_space, number_at, rest_of};

use noise_script::read_plain_number;

/// What stands behind these octets, where the text begins with them.
pub(crate) fn behind<'a>(text: &'a [u8], label: &[u8]) -> Option<&'a [u8]>
    ensures { option_map (λ rest. rest.now) result ≡ behind label.now text.now }
{
    text.strip_prefix(label)
}

/// The digits at the front of a text, and what stands behind them.
fn cut_digits(text: &[u8]) -> (&[u8], &[u8])
    ensures front { result.0.now ≡ front_of is_digit text.now }
    ensures rest { result.1.now ≡ rest_of is_digit text.now }
{
    for (at, octet) in text.iter().enumerate() {
        if !octet.is_ascii_digit() {
            return text.split_at(at);
        }
    }
    (text, &[])
}

/// The octets up to the first space, and what stands behind them.
pub(crate) fn cut_word(text: &[u8]) -> (&[u8], &[u8])
    ensures front { result.0.now ≡ front_of is_no_space text.now }
    ensures rest { result.1.now ≡ rest_of is_no_space text.now }
{
    for (at, octet) in text.iter().enumerate() {
        if *octet == b' ' {
            return text.split_at(at);
        }
    }
    (text, &[])
}

/// The number at the front of a text, where it is below the bound and has no leading zeros, and what stands behind its digits.
pub(crate) fn number_at(text: &[u8], bound: u64) -> Option<(u64, &[u8])>
    ensures { option_map (λ read. (read.0, read.1.now)) result ≡ number_at bound text.now }
{
    let (digits, rest) = cut_digits(text);
    let number = read_plain_number(digits)?;
    if number < bound {
        Some((number, rest))
    } else {
        None
    }
}

/// What stands behind a number.
pub(crate) fn behind_number(text: &[u8], bound: u64) -> Option<&[u8]>
    ensures { option_map (λ rest. rest.now) result ≡ behind_number bound text.now }
{
    let (_, rest) = number_at(text, bound)?;
    Some(rest)
}

/// What stands behind a number behind its label.
pub(crate) fn behind_labelled<'a>(text: &'a [u8], label: &[u8], bound: u64) -> Option<&'a [u8]>
    ensures { option_map (λ rest. rest.now) result ≡ behind_labelled label.now bound text.now }
{
    behind_number(behind(text, label)?, bound)
}
