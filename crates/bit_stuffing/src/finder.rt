// Flags and aborts in a stream of bits. A bit is handed on eight bits late: until then it may be one of a flag, or of seven ones, that
// end the piece.
ghost use Rattle.std.specs.Prelude.{◌≡◌, ◌⊎◌, ◌≤◌, ◌<◌, ◌+◌, ◌-◌, ◌*◌, ◌↔◌, ℕ, IsTrue, true, false, Some, None, List, Bool, [], ◌∷◌, ◌++◌, length, drop};
ghost use Rattle.std.specs.Int.{bit_at};
ghost use Rattle.frame_check.specs.Bits.{low_bits, octet_bits};
ghost use Rattle.bit_stuffing.specs.Flags.{FlagEndsAt, SevenOnesEndAt};
ghost use Rattle.bit_stuffing.specs.Deframer.{HoldsLatest};
ghost use Rattle.bit_stuffing.specs.Fours.{six_ones, since_none, since_flag, since_four};

use std::marker::Model;

/// A zero, six ones and a zero. It is the same from both ends.
pub(crate) const FLAG: u8 = 0x7e;

/// What ends at a bit.
#[derive(Clone, Copy)]
pub(crate) enum Event {
    /// The seventh one in a row.
    Aborted,
    /// The last bit of a flag behind something.
    Closed,
}

/// The latest bits, the first one lowest, after one more bit.
fn shifted(latest: u8, bit: bool) -> u8
    ensures { (past : List Bool) → HoldsLatest latest past → HoldsLatest result (past ++ bit ∷ []) }
{
    latest / 2 + 128 * u8::from(bit)
}

/// Whether the latest bits are a flag.
fn ends_flag(latest: u8) -> bool
    ensures { (bits : List Bool) → HoldsLatest latest bits
        → (IsTrue result ↔ FlagEndsAt bits (length bits)) }
{
    latest == FLAG
}

/// Whether the latest seven bits are ones.
fn ends_seven_ones(latest: u8) -> bool
    ensures { (bits : List Bool) → HoldsLatest latest bits → 7 ≤ length bits
        → (IsTrue result ↔ SevenOnesEndAt bits (length bits)) }
{
    latest / 2 == 0x7f
}

/// Eight bits and those of an octet, or four, behind them, the first one lowest.
fn window_of(latest: u8, more: u8) -> u16
    ensures { result ≡ 256 * more + latest }
{
    256 * u16::from(more) + u16::from(latest)
}

/// Where six of the bits are ones in a row: the first ones of each such six.
fn six_ones(bits: u16) -> u16
    ensures { result ≡ six_ones bits }
{
    let twos = bits & (bits / 2);
    let fours = twos & (twos / 4);
    fours & (twos / 16)
}

/// Whether six of the bits are ones in a row.
fn has_six_ones(bits: u16) -> bool
    ensures { result ≡ false → (i : ℕ) → ((j : ℕ) → j < 6 → bit_at bits (i + j) ≡ 1) → ⊥ }
{
    six_ones(bits) != 0
}

/// The bits since the last flag behind four bits with which no flag ends, eight where they are more.
fn since_none(since: Option<u8>) -> Option<u8>
    ensures { result ≡ since_none since }
{
    match since {
        None => None,
        Some(count) => Some(count.min(4) + 4),
    }
}

/// The bits since the last flag where so many of four stand behind it. None where it closes something.
fn since_flag(since: Option<u8>, behind: u8) -> Option<Option<u8>>
    requires { behind < 4 }
    ensures { result ≡ since_flag since behind }
{
    match since {
        Some(count) if behind + 4 < count => None,
        _ => Some(Some(behind)),
    }
}

/// The bits since the last flag behind four bits more. None where it is not plain from all four at once that nothing ends.
fn since_four(latest: u8, since: Option<u8>, four: u8) -> Option<Option<u8>>
    ensures { result ≡ since_four latest since four }
{
    let ones = six_ones(window_of(latest, four));
    if ones & (ones / 2) != 0 {
        return None;
    }
    match ones / 4 % 16 {
        0 => Some(since_none(since)),
        1 => since_flag(since, 3),
        2 => since_flag(since, 2),
        4 => since_flag(since, 1),
        _ => since_flag(since, 0),
    }
}

/// Finds flags, and ones in a row.
#[derive(Drop)]
pub(crate) struct FlagFinder {
    /// The latest eight bits, the first one lowest.
    latest: u8,
    /// How many bits have come since the last flag, eight where they are more; none where no flag opens anything.
    since: Option<u8>,
}

impl Model for FlagFinder {
    ghost use Rattle.bit_stuffing.specs.Deframer.{Finding};

    ghost Value = { Finding };

    ghost view = { λ f. record { latest = f.latest; since = f.since } };
}

impl FlagFinder {
    ghost use Rattle.std.specs.Prelude.{IfSome, IfNone};
    ghost use Rattle.bit_stuffing.specs.Flags.{IsFar, IsNear, OpenedAt};
    ghost use Rattle.bit_stuffing.specs.Deframer.{Finds, IsQuiet, LeavesFour, PassesBits, back};
    ghost use Rattle.bit_stuffing.specs.Events.{IsEvent};

    pub(crate) fn new() -> FlagFinder
        ensures { Finds result [] }
    {
        FlagFinder {
            latest: u8::MAX,
            since: None,
        }
    }

    /// Whether eight bits or more stand behind the flag that is open.
    fn is_far(&self) -> bool
        ensures far { IsTrue result → (past : List Bool) → Finds self.now past → IsFar past }
        ensures near { (IsTrue result → ⊥) → (past : List Bool) → Finds self.now past → IsNear past }
    {
        match self.since {
            Some(count) => count == 8,
            None => false,
        }
    }

    /// The bit eight places back, where it stands behind the flag that is open.
    pub(crate) fn leaving(&self) -> Option<bool>
        ensures bit { IfSome result (λ bit. (past : List Bool) → Finds self.now past → bit ≡ back past 8) }
        ensures far { IfSome result (λ _. (past : List Bool) → Finds self.now past → IsFar past) }
        ensures near { IfNone result ((past : List Bool) → Finds self.now past → IsNear past) }
    {
        if self.is_far() {
            Some(self.latest % 2 == 1)
        } else {
            None
        }
    }

    /// The event at the next bit.
    pub(crate) fn push(&mut self, bit: bool) -> Option<Event>
        ensures answer { (past : List Bool) → Finds self.old past → IsEvent past bit result }
        ensures stands { (past : List Bool) → Finds self.old past
            → Finds self.new (past ++ bit ∷ []) }
    {
        let far = self.is_far();
        self.latest = shifted(self.latest, bit);
        if ends_flag(self.latest) {
            self.since = Some(0);
            return if far { Some(Event::Closed) } else { None };
        }
        match self.since {
            Some(_) if ends_seven_ones(self.latest) => {
                self.since = None;
                Some(Event::Aborted)
            }
            Some(count) => {
                self.since = Some(count.min(7) + 1);
                None
            }
            None => None,
        }
    }

    /// Whether no flag is open, or eight bits or more stand behind the one that is, and no flag and no seven ones end with a bit of
    /// the octet.
    pub(crate) fn is_quiet(&self, octet: u8) -> bool
        ensures quiet { result ≡ true → (past : List Bool) → Finds self.now past → IsQuiet past (octet_bits octet) }
        ensures settled { result ≡ true → (self.now.since ≡ None) ⊎ (self.now.since ≡ Some 8) }
    {
        match self.since {
            Some(count) if count != 8 => false,
            _ => !has_six_ones(window_of(self.latest, octet)),
        }
    }

    /// Whether flags follow one another, and go on so with the octet: the flag that is open stands fewer than eight bits back, and the
    /// octet is the one before it once more.
    pub(crate) fn is_flags(&self, octet: u8) -> bool
        ensures passes { result ≡ true → (past : List Bool) → Finds self.now past → PassesBits self.now past (octet_bits octet) }
        ensures near { result ≡ true → IfSome self.now.since (λ count. count < 8) }
    {
        match self.since {
            Some(count) if count < 8 => {
                octet == self.latest && octet == FLAG.rotate_right(u32::from(count))
            }
            _ => false,
        }
    }

    /// The latest eight bits, where they stand behind the flag that is open.
    pub(crate) fn leaving_octet(&self) -> Option<u8>
        ensures octet { IfSome result (λ octet. (past : List Bool) → Finds self.now past
            → IsFar past × (drop (length past - 8) past ≡ octet_bits octet)) }
        ensures near { IfNone result ((past : List Bool) → Finds self.now past → IsNear past) }
    {
        if self.is_far() {
            Some(self.latest)
        } else {
            None
        }
    }

    /// Goes on by the bits of an octet with which nothing ends.
    pub(crate) fn pass(&mut self, octet: u8)
        requires { (self.old.since ≡ None) ⊎ (self.old.since ≡ Some 8) }
        ensures { (past : List Bool) → IsQuiet past (octet_bits octet) → Finds self.old past → Finds self.new (past ++ octet_bits octet) }
    {
        self.latest = octet;
    }

    /// The bits that are handed on as four more come in, as the low ones, and how many they are. None where no flag is open, or fewer than
    /// four bits stand behind it.
    pub(crate) fn leaving_four(&self) -> Option<(u8, u32)>
        ensures some { IfSome result (λ leaving. (past : List Bool) → Finds self.now past
            → (p : ℕ) → OpenedAt past p → LeavesFour leaving.0 leaving.1 past p) }
        ensures none { IfNone result ((past : List Bool) → Finds self.now past → (p : ℕ) → OpenedAt past p → length past < p + 4) }
    {
        match self.since {
            Some(count) if 4 <= count && count <= 8 => {
                Some((self.latest >> (8 - count), u32::from(count - 4)))
            }
            _ => None,
        }
    }

    /// The bits since the last flag behind four bits more, where it is plain that nothing ends with any of them.
    pub(crate) fn since_behind(&self, four: u8) -> Option<Option<u8>>
        ensures { result ≡ since_four self.now.latest self.now.since four }
    {
        since_four(self.latest, self.since, four)
    }

    /// Goes on by four bits, the low one first, behind which the flag stands so far back.
    pub(crate) fn pass_four(&mut self, four: u8, since: Option<u8>)
        requires four { four < 16 }
        requires plain { since_four self.old.latest self.old.since four ≡ Some since }
        ensures passes { (past : List Bool) → Finds self.old past → PassesBits self.new past (low_bits 4 four) }
        ensures since { self.new.since ≡ since }
    {
        self.latest = (window_of(self.latest, four) / 16) as u8;
        self.since = since;
    }
}
