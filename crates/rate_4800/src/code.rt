// The code of four points.
ghost use Rattle.std.proofs.Common.{lit≤, refl};
ghost use Rattle.rate_4800.specs.Code.{next_state, point_of, way_before, way_subset};
ghost use Rattle.rate_4800.specs.CodeLaws.{bounded, within, enters_once, reaches, ways_within, ways_lead, ways_all, points_differ};

use symbol_map::Sample;
use trellis_tables::{TrellisCode, Way};

/// Four points, each a quarter turn from the one before it, and one state, from which each label leads to itself.
#[derive(Clone, Copy)]
pub struct Rate4800;

impl TrellisCode<1, 4> for Rate4800 {
    const REACH: usize = 1;

    ghost REACH = { 1 };

    const PARALLEL: usize = 1;

    ghost PARALLEL = { 1 };

    const SUBSETS: usize = 4;

    ghost SUBSETS = { 4 };

    const WAYS: usize = 4;

    ghost WAYS = { 4 };

    ghost way_before = { way_before };

    ghost way_subset = { way_subset };

    ghost table = { next_state };

    ghost points = { point_of };

    fn next(&self, _state: u8, _label: u8) -> Option<u8> {
        Some(0)
    }

    fn before(&self, _state: u8, _label: u8) -> Option<u8> {
        Some(0)
    }

    fn way(&self, _state: u8, place: u8) -> Way {
        Way {
            before: 0,
            subset: place,
        }
    }

    fn point(&self, label: u8) -> Sample {
        match label {
            0 => Sample { re: 6144, im: 2048 },
            1 => Sample {
                re: 2048,
                im: -6144,
            },
            2 => Sample {
                re: -6144,
                im: -2048,
            },
            _ => Sample {
                re: -2048,
                im: 6144,
            },
        }
    }

    ghost states_few = { (lit≤ tt, lit≤ tt) };

    ghost labels_few = { (lit≤ tt, lit≤ tt) };

    ghost reach_some = { lit≤ tt };

    ghost reach_few = { lit≤ tt };

    ghost bounded = { bounded };

    ghost within = { within };

    ghost enters_once = { enters_once };

    ghost reaches = { reaches };

    ghost points_differ = { points_differ };

    ghost parallel_some = { lit≤ tt };

    ghost ways_some = { lit≤ tt };

    ghost ways_few = { lit≤ tt };

    ghost subsets_fill = { refl };

    ghost ways_within = { ways_within };

    ghost ways_lead = { ways_lead };

    ghost ways_all = { ways_all };
}
