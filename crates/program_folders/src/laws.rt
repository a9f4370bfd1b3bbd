//! What folders count, in numbers. The functions do nothing: each theorem is a contract.
ghost use Rattle.program_folders.specs.Counts.{CountsRise, DiskCountsAreKnown, DiskCountsRise, AuditsCountBoth};

/// A count rises by one, and stands still at its last value.
pub fn counts_rise()
    ensures { CountsRise }
{}

/// Which counts a folder of the disk has, and which of them rises.
pub fn the_disk_has_three_counts()
    ensures known { DiskCountsAreKnown }
    ensures rise { DiskCountsRise }
{}

/// The refusals of memory of an audit's folder are a sum.
pub fn audits_count_both()
    ensures { AuditsCountBoth }
{}
