// Names that are apart.
ghost use Rattle.std.specs.Prelude.{◌≡◌, map, true};
ghost use Rattle.command_base.specs.Apart.{are_apart, is_none_of};

/// Whether a name is none of these.
fn is_none_of(name: &str, names: &[&str]) -> bool
    ensures { result ≡ is_none_of name.now (map (λ name. name.now) names.now) }
{
    match names.split_first() {
        None => true,
        Some((first, others)) => name != *first && is_none_of(name, others),
    }
}

/// Whether no two outputs have one name, and no output has an input's name.
pub fn are_apart(inputs: &[&str], outputs: &[&str]) -> bool
    ensures { result ≡ are_apart (map (λ name. name.now) inputs.now) (map (λ name. name.now) outputs.now) }
{
    match outputs.split_first() {
        None => true,
        Some((first, others)) => {
            is_none_of(first, inputs) && is_none_of(first, others) && are_apart(inputs, others)
        }
    }
}
