//! What holds of ends, and what two of them do: the theorems of plays are those of its state. The functions do nothing: each theorem is a
//! contract.
ghost use Rattle.lapm_link.specs.EndLaws.{AccountTells};

pub use link_account::laws::plays;

/// The conditions on an end that is to hear follow from a state that it represents.
pub fn ends()
    ensures { AccountTells }
{}
