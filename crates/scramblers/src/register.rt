// The latest bits of a line, as a number: the last one highest.
ghost use Rattle.std.specs.Prelude.{◌≡◌, ℕ, ◌+◌, ◌-◌, ◌*◌, ◌/◌, ◌^◌, ◌<◌, ◌≤◌, List, Bool, [], ◌∷◌, ◌++◌, length};
ghost use Rattle.std.specs.Int.{bit_at};
ghost use Rattle.frame_check.specs.Bits.{low_bits};
ghost use Rattle.scramblers.specs.Stream.{earlier};
ghost use Rattle.frame_check.specs.Bits.{number};
ghost use Rattle.scramblers.specs.Register.{Holds};

/// How far back the older tap of every scrambler lies: the degree of the generating polynomials.
pub const DEGREE: usize = 23;

/// The bit this many places before the next one.
pub fn bit_before(register: u32, places: usize) -> bool
    requires low { 1 ≤ places }
    requires high { places ≤ DEGREE }
    ensures { (line : List Bool) → Holds register line → result ≡ earlier line (length line) places }
{
    (register >> (32 - places)) & 1 == 1
}

/// The four bits this many places before each of the next four, the first one lowest.
pub fn four_before(register: u32, places: usize) -> u8
    requires low { 4 ≤ places }
    requires high { places ≤ DEGREE }
    ensures bits { (line : List Bool) (i : ℕ) → Holds register line → i < 4 → bit_at result i ≡ number (earlier line (length line) (places - i)) }
    ensures bound { result < 16 }
{
    ((register >> (32 - places)) % 16) as u8
}

/// The register after one more bit.
pub fn shifted(register: u32, bit: bool) -> u32
    ensures { (line : List Bool) → Holds register line → Holds result (line ++ bit ∷ []) }
{
    register / 2 + u32::from(bit) * 0x8000_0000
}

/// The register after four more bits, the first one lowest.
pub fn shifted_by_four(register: u32, four: u8) -> u32
    requires { four < 16 }
    ensures { (line : List Bool) → Holds register line → Holds result (line ++ low_bits 4 four) }
{
    register / 16 + u32::from(four) * 0x1000_0000
}

/// The register with the line's next eight bits above it, the first one lowest.
pub fn with_octet(register: u32, octet: u8) -> u64
    ensures { result ≡ octet * 2 ^ 32 + register }
{
    (u64::from(octet) << 32) + u64::from(register)
}

/// The eight bits this many places before each of the bits above a register.
pub fn octet_before(line: u64, places: usize) -> u8
    requires high { places ≤ DEGREE }
    ensures { (i : ℕ) → i < 8 → bit_at result i ≡ bit_at line (32 - places + i) }
{
    ((line >> (32 - places)) % 256) as u8
}

/// The register after the bits above it.
pub fn shifted_by_octet(line: u64) -> u32
    requires { line < 2 ^ 40 }
    ensures { result ≡ line / 2 ^ 8 }
{
    (line >> 8) as u32
}
