// The bits of a label.
ghost use Rattle.std.specs.Prelude.{◌≡◌, ◌+◌, ◌++◌, ◌≤◌, length};
ghost use Rattle.frame_check.specs.Bits.{low_bits, octet_bits};
ghost use Rattle.gateway.specs.Given.{given, AreBits};

/// Up to four bits.
#[derive(Clone, Copy)]
pub struct LabelBits {
    /// How many they are.
    pub count: u8,
    /// The number whose low bits they are, the first one lowest.
    pub number: u8,
}

/// Puts the bits into the list at this place, an octet each: the place behind them.
pub(crate) fn put_bits(bits: LabelBits, out: &mut [u8], at: usize) -> usize
    requires few { bits.count ≤ 4 }
    requires room { at + 4 ≤ length out.old }
    ensures length { length out.new ≡ length out.old }
    ensures next { result ≡ at + bits.count }
    ensures within { result ≤ length out.new }
    ensures bits { AreBits at out.old → AreBits result out.new }
    ensures given { given result out.new ≡ given at out.old ++ low_bits bits.count bits.number }
{
    // All four places are written, whatever the count: what stands behind it is written over next, or is no bit of the result.
    let second = bits.number / 2;
    let third = second / 2;
    out[at] = bits.number % 2;
    out[at + 1] = second % 2;
    out[at + 2] = third % 2;
    out[at + 3] = third / 2 % 2;
    at + bits.count as usize
}

/// Puts the bits of an octet into the list at this place, an octet each: the place behind them.
pub(crate) fn put_octet(octet: u8, out: &mut [u8], at: usize) -> usize
    requires { at + 8 ≤ length out.old }
    ensures length { length out.new ≡ length out.old }
    ensures next { result ≡ at + 8 }
    ensures bits { AreBits at out.old → AreBits result out.new }
    ensures given { given result out.new ≡ given at out.old ++ octet_bits octet }
{
    let low = LabelBits {
        count: 4,
        number: octet % 16,
    };
    let high = LabelBits {
        count: 4,
        number: octet / 16,
    };
    let next = put_bits(low, out, at);
    put_bits(high, out, next)
}
