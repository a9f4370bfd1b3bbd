// The parameters of group 80 that are read.
ghost use Rattle.std.specs.Prelude.{◌≡◌, ◌≢◌, ◌≤◌, ◌<◌, ◌+◌, ◌^◌, ◌↔◌, IsTrue, not, length, nat_le, nat_eq, IfSome, IfNone, IfErr, OnOk};
ghost use Rattle.xid_params.specs.declared.parameter.Parameter.{Parameter};
ghost use Rattle.xid_params.specs.Parts.{number_of};
ghost use Rattle.xid_params.specs.Parameters.{identifier_of, accepts, is_low};
ghost use Rattle.xid_params.specs.Faults.{IsValueWrong};

use crate::XidFault;

/// A parameter that is read. All others are passed over.
#[derive(Clone, Copy)]
pub(crate) enum Parameter {
    /// Optional functions, a bit each.
    Functions,
    /// The longest information field that is sent, in bits.
    TxLength,
    /// The longest one that is taken.
    RxLength,
    /// The window of what is sent, in segments.
    TxWindow,
    /// The window of what is taken.
    RxWindow,
}

impl Parameter {
    /// The parameter with this identifier.
    pub(crate) fn of(identifier: u8) -> Option<Parameter>
        ensures some { IfSome result (λ parameter. identifier ≡ identifier_of parameter) }
        ensures none { IfNone result ((parameter : Parameter) → identifier ≢ identifier_of parameter) }
    {
        match identifier {
            0x03 => Some(Parameter::Functions),
            0x05 => Some(Parameter::TxLength),
            0x06 => Some(Parameter::RxLength),
            0x07 => Some(Parameter::TxWindow),
            0x08 => Some(Parameter::RxWindow),
            _ => None,
        }
    }

    /// Whether its value may have so many octets.
    fn accepts(self, count: usize) -> bool
        ensures { result ≡ accepts self count }
    {
        match self {
            Parameter::Functions => 3 <= count && count <= 4,
            Parameter::TxLength | Parameter::RxLength => 1 <= count && count <= 4,
            Parameter::TxWindow | Parameter::RxWindow => count == 1,
        }
    }

    /// Whether this value is below the least that it may be.
    fn is_low(self, value: &[u8]) -> bool
        requires { IsTrue (accepts self (length value.now)) }
        ensures { result ≡ is_low self value.now }
    {
        match self {
            Parameter::Functions => false,
            Parameter::TxLength | Parameter::RxLength => number(value) / 8 < 1,
            Parameter::TxWindow | Parameter::RxWindow => number(value) < 1,
        }
    }

    /// Tests the value of the parameter that begins at this place.
    pub(crate) fn check(self, value: &[u8], at: usize) -> Result<(), XidFault>
        requires { at + 2 < 2 ^ 64 }
        ensures ok { OnOk result (IsTrue (accepts self (length value.now)) × IsTrue (not (is_low self value.now))) }
        ensures err { IfErr result (IsValueWrong self value.now at) }
    {
        if !self.accepts(value.len()) {
            return Err(XidFault::Length { at: at + 1 });
        }
        if self.is_low(value) {
            return Err(XidFault::Value { at: at + 2 });
        }
        Ok(())
    }
}

/// The number that at most four octets spell, the high one first.
pub(crate) fn number(octets: &[u8]) -> u32
    requires { length octets.now ≤ 4 }
    ensures { result ≡ number_of octets.now }
{
    let mut number = 0u32;
    for octet in octets {
        number = 256 * number + u32::from(*octet);
    }
    number
}
