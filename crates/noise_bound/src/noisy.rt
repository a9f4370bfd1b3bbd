//! Theorems of samples that are near the points of a code sequence of the eight-state code. Each function's contract is a
//! theorem; distances of labels are in squares of map units.
ghost use Rattle.noise_bound.specs.DistanceLaws.{MeetingIsFar, MeetingAgainIsFar, ApartIsFar, PartingIsFar, EndsAreNear, CostIsDistance, CostOverOthers, DistanceOverSamples};
ghost use Rattle.noise_bound.specs.NoisyLaws.{ReleasesNear, FewUnreleased, NeverLost, DecodesNear, ReleasesNearOfAny, FewUnreleasedOfAny, NeverLostOfAny, DecodesNearOfAny, FewUnreleasedWithoutNoise};

/// Two sequences that meet in a state differ by at least 4, and by at least 10 if they are from one state.
pub fn meeting_sequences_are_far()
    ensures from_two { MeetingIsFar }
    ensures from_one { MeetingAgainIsFar }
{}

/// Two sequences that are in different states throughout differ by at least 2 in each three symbols, and by 4 more
/// in the symbol in which they part from one state.
pub fn parted_sequences_are_far()
    ensures apart { ApartIsFar }
    ensures parting { PartingIsFar }
{}

/// Each state is reached by a sequence that is at most 18 from another one from the same start.
pub fn each_end_is_near()
    ensures { EndsAreNear }
{}

/// What labels cost against the points of others is their distance, times the square of 2048.
pub fn cost_is_distance()
    ensures { CostIsDistance }
{}

/// Labels that are near samples, as others are, are near these.
pub fn near_the_same_is_near()
    ensures cost { CostOverOthers }
    ensures distance { DistanceOverSamples }
{}

/// From one start, with noise below 2.5 squares of a map unit: what is released after any sample is a prefix of the
/// sent labels.
pub fn released_labels_were_sent()
    ensures { ReleasesNear }
{}

/// At most 126 labels are unreleased then after any sample, so a line with at least that depth is never lost.
pub fn few_labels_are_unreleased()
    ensures few { FewUnreleased }
    ensures never_lost { NeverLost }
{}

/// A decoder of depth 126 or more is not lost by such samples, what it released is a prefix of the sent labels, and at
/// most 126 of them are still to come.
pub fn decoders_follow_a_line()
    ensures { DecodesNear }
{}

/// From any starts, with noise below one square of a map unit: what is released after any sample is a prefix of the
/// sent labels.
pub fn released_labels_were_sent_from_any_start()
    ensures { ReleasesNearOfAny }
{}

/// At most 116 labels are unreleased then after any sample, and at most 29 without noise.
pub fn few_labels_are_unreleased_from_any_start()
    ensures few { FewUnreleasedOfAny }
    ensures never_lost { NeverLostOfAny }
    ensures without_noise { FewUnreleasedWithoutNoise }
{}

/// A decoder of depth 116 or more, from any starts, is not lost by such samples, what it released is a prefix of the
/// sent labels, and at most 116 of them are still to come.
pub fn decoders_follow_a_line_from_any_start()
    ensures { DecodesNearOfAny }
{}
