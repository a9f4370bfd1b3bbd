// The parts of a field as octets: groups, and the parameters of group 80.
ghost use Rattle.std.specs.Prelude.{◌≡◌, ◌≢◌, ℕ, ◌∷◌, ◌++◌, IfSome, IfNone};
ghost use Rattle.xid_params.specs.Parts.{group_octets, parameter_octets};
ghost use Rattle.xid_params.specs.Offers.{IsEnd};
ghost use Rattle.xid_params.specs.Faults.{IsGroupCut, IsParameterCut};

/// The first octet of a field: the format of general purpose.
pub(crate) const FORMAT: u8 = 0x82;

/// The identifier of the group of parameters.
pub(crate) const PARAMETERS: u8 = 0x80;

/// The identifier that ends the groups.
pub(crate) const END: u8 = 0xff;

/// What the group contains of which this stands behind the identifier, and what stands behind the group.
pub(crate) fn group_content(tail: &[u8]) -> Option<(&[u8], &[u8])>
    ensures some { IfSome result (λ parts. (identifier : ℕ) → identifier ∷ tail.now
        ≡ group_octets (record { identifier = identifier; value = parts.0.now }) ++ parts.1.now) }
    ensures none { IfNone result (IsGroupCut tail.now) }
{
    let [high, low, rest @ ..] = tail else {
        return None;
    };
    let length = usize::from(u16::from_be_bytes([*high, *low]));
    rest.split_at_checked(length)
}

/// The value of the parameter of which this stands behind the identifier, and what stands behind the parameter.
pub(crate) fn parameter_value(tail: &[u8]) -> Option<(&[u8], &[u8])>
    ensures some { IfSome result (λ parts. (identifier : ℕ) → identifier ∷ tail.now
        ≡ parameter_octets (record { identifier = identifier; value = parts.0.now }) ++ parts.1.now) }
    ensures none { IfNone result (IsParameterCut tail.now) }
{
    let (length, rest) = tail.split_first()?;
    rest.split_at_checked(usize::from(*length))
}

/// The identifier of the group that begins here, and what stands behind it. There is none at the end of the field, nor at FF.
pub(crate) fn next_group(rest: &[u8]) -> Option<(u8, &[u8])>
    ensures some { IfSome result (λ group. (rest.now ≡ group.0 ∷ group.1.now) × (group.0 ≢ 255)) }
    ensures none { IfNone result (IsEnd rest.now) }
{
    match rest {
        [identifier, tail @ ..] if *identifier != END => Some((*identifier, tail)),
        _ => None,
    }
}
