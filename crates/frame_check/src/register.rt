// The register that divides: bits go in at its low end, and it holds the remainder of those so far.
ghost use Rattle.std.specs.Prelude.{◌≡◌, ℕ, List, Bool, ◌++◌};
ghost use Rattle.frame_check.specs.Bits.{octet_bits, bits_of};
ghost use Rattle.frame_check.specs.Division.{remainder_from};
ghost use Rattle.frame_check.specs.Register.{AreFours, Divides, Holds, after_zeros};

/// What the register becomes by four bits that aren't set, from each value of its low four bits.
pub(crate) type Fours = [u32; 16];

/// The fours of the generator x^16 + x^12 + x^5 + 1.
pub(crate) const SIXTEEN: Fours = [
    0x0000, 0x1081, 0x2102, 0x3183, 0x4204, 0x5285, 0x6306, 0x7387, 0x8408, 0x9489, 0xa50a, 0xb58b,
    0xc60c, 0xd68d, 0xe70e, 0xf78f,
];

/// The fours of the generator of HDLC's 32-bit check.
pub(crate) const THIRTY_TWO: Fours = [
    0x0000_0000,
    0x1db7_1064,
    0x3b6e_20c8,
    0x26d9_30ac,
    0x76dc_4190,
    0x6b6b_51f4,
    0x4db2_6158,
    0x5005_713c,
    0xedb8_8320,
    0xf00f_9344,
    0xd6d6_a3e8,
    0xcb61_b38c,
    0x9b64_c2b0,
    0x86d3_d2d4,
    0xa00a_e278,
    0xbdbd_f21c,
];

/// The register after four bits that aren't set.
fn after_four(register: u32, fours: &Fours) -> u32
    ensures { (reversed : ℕ) → AreFours reversed fours.now → result ≡ after_zeros 4 reversed register }
{
    (register >> 4) ^ fours[(register & 15) as usize]
}

/// The register after the eight bits of an octet. A bit that is added to the register where it will leave it acts as one that goes in
/// when it leaves.
fn after_octet(register: u32, fours: &Fours, octet: u8) -> u32
    ensures { (width : ℕ) (generator remainder : List Bool) → Divides width fours.now generator
        → Holds width register remainder
        → Holds width result (remainder_from width generator remainder (octet_bits octet)) }
{
    let entered = register ^ u32::from(octet);
    after_four(after_four(entered, fours), fours)
}

/// The register after all the bits of the octets.
pub(crate) fn after_octets(register: u32, fours: &Fours, octets: &[u8]) -> u32
    ensures { (width : ℕ) (generator remainder : List Bool) → Divides width fours.now generator
        → Holds width register remainder
        → Holds width result (remainder_from width generator remainder (bits_of octets.now)) }
{
    let mut after = register;
    for octet in octets {
        after = after_octet(after, fours, *octet);
    }
    after
}

/// The register after all the bits of octets that stand in two places, one behind the other.
pub(crate) fn after_both(register: u32, fours: &Fours, head: &[u8], rest: &[u8]) -> u32
    ensures { (width : ℕ) (generator remainder : List Bool) → Divides width fours.now generator
        → Holds width register remainder
        → Holds width result (remainder_from width generator remainder (bits_of (head.now ++ rest.now))) }
{
    let behind_head = after_octets(register, fours, head);
    after_octets(behind_head, fours, rest)
}
