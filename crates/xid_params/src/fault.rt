// Why a field spells no offer.

use thiserror::Error;

/// The first fault of an information field that spells no offer, by its place in octets from 0.
#[derive(Clone, Copy, Debug, PartialEq, Eq, Error)]
pub enum XidFault {
    /// The field doesn't begin with the identifier of its format.
    #[error("format")]
    Format,
    /// A second group of parameters stands there.
    #[error("group at {at}")]
    Group { at: usize },
    /// A length that is missing there, that leads past the end, or that the parameter doesn't have.
    #[error("length at {at}")]
    Length { at: usize },
    /// A value there is below its least.
    #[error("value at {at}")]
    Value { at: usize },
    /// A parameter stands again there.
    #[error("repeated at {at}")]
    Repeated { at: usize },
}
