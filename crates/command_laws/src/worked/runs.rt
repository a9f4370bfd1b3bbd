//! The traces. The functions do nothing: each trace is a contract.
ghost use Rattle.std.specs.Prelude.{ℕ};
ghost use Rattle.link_run.specs.Run.{Link};
ghost use Rattle.command_laws.specs.Worked.Made.{Way, IsMade, runs};
ghost use Rattle.command_laws.specs.Worked.RunTraces.{PlainTrace, PlainEnds, UaLostEnds, BreakLine7, BreakLine8, BreakEnds, BreakAgainEnds, FarRejEnds, FarSrejEnds, FarRejCounts, FarSrejCounts};
ghost use Rattle.command_laws.specs.Worked.RunTraces.{BusyLine10, BusyEnds, BusyForLongEnds, CheckedEnds, ChecksAre, LinkLostEnds, NotDetectedEnds, BoundsAre, GivesUpStarved, OneLossStarvesNone};

/// What is computed is a run over a line by the definitions.
pub fn computed_runs_are_runs()
    ensures { (count : ℕ) (link : Link) (way : Way) → IsMade link way (runs count link way) }
{}

/// Two files of one octet each.
pub fn two_one_octet_files()
    ensures trace { PlainTrace }
    ensures ends { PlainEnds }
{}

/// A lost UA: the SABME goes again.
pub fn ua_is_lost()
    ensures { UaLostEnds }
{}

/// A break, whose answer comes, and one whose answer is lost.
pub fn breaks()
    ensures asked { BreakLine7 }
    ensures given { BreakLine8 }
    ensures answered { BreakEnds }
    ensures again { BreakAgainEnds }
{}

/// A lost segment, over a long way.
pub fn lost_far_away()
    ensures rej { FarRejEnds }
    ensures srej { FarSrejEnds }
    ensures rej_counts { FarRejCounts }
    ensures srej_counts { FarSrejCounts }
{}

/// An end that is busy for a while, and one that is busy longer than all tries of the other take.
pub fn busy_ends()
    ensures line { BusyLine10 }
    ensures short { BusyEnds }
    ensures long { BusyForLongEnds }
{}

/// Ends that give the link up: all their tries are spent, or no pattern is seen.
pub fn links_that_end()
    ensures lost { LinkLostEnds }
    ensures undetected { NotDetectedEnds }
{}

/// Two ends that agree on the 32-bit check.
pub fn longer_check()
    ensures ends { CheckedEnds }
    ensures checks { ChecksAre }
{}

/// How many turns some runs have at most.
pub fn bounds_in_numbers()
    ensures { BoundsAre }
{}

/// A run that is starved, and one that isn't.
pub fn starved_runs()
    ensures yes { GivesUpStarved }
    ensures no { OneLossStarvesNone }
{}
