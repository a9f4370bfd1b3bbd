//! The traces. The functions do nothing: each trace is a contract.
ghost use Rattle.command_laws.specs.Worked.PlayTraces.{TwoOneOctetFiles, UaIsLost, BreakIsGiven, BreakGoesAgain, RejAsksAgain, SrejAsksAgain, FarRej, FarSrej, BusyForAWhile, BusyForLong};

/// Two files of one octet each.
pub fn two_one_octet_files()
    ensures { TwoOneOctetFiles }
{}

/// A lost UA: the SABME goes again.
pub fn ua_is_lost()
    ensures { UaIsLost }
{}

/// A break, whose answer comes, and one whose answer is lost.
pub fn breaks()
    ensures answered { BreakIsGiven }
    ensures again { BreakGoesAgain }
{}

/// Lost segments, over a short way.
pub fn lost_segments()
    ensures rej { RejAsksAgain }
    ensures srej { SrejAsksAgain }
{}

/// A lost segment, over a long way.
pub fn lost_far_away()
    ensures rej { FarRej }
    ensures srej { FarSrej }
{}

/// An end that is busy for a while, and one that is busy longer than all tries of the other take.
pub fn busy_ends()
    ensures short { BusyForAWhile }
    ensures long { BusyForLong }
{}
