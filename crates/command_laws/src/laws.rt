//! Theorems over what several commands promise. The functions do nothing but name the theorems that they rest on: each theorem is a contract.
ghost use Rattle.command_laws.specs.Files.{FilesComeBack};
ghost use Rattle.command_laws.specs.Isolates.{FaintLinksAreAlone, UndisplacedLinksAreAlone};
ghost use Rattle.command_laws.specs.Pickups.{PickupsFindWhatIsTold, PickupsFindWhatTapsName, FramesAreNamed};
ghost use Rattle.command_laws.specs.Taps.{TapsLeaveWhatRunsLeft};
ghost use Rattle.command_laws.specs.Traces.{TracesOfRunsAreTrue};

use bit_stuffing::laws::last_pieces_are_found;
use command_base::apart_names_differ;
use exact_decoder::laws::sent_labels_are_decoded;
use line_ends::laws::{octets_are_sendable, undisplaced_runs_have_faint_noise};
use line_run::direction::{codable_slots_fit, slots_that_fit_follow_one_another};
use line_run::laws::{one_result, runs_leave_prefixes, scripts_make_links, slots_have_room};
use line_tap::laws::recordings_tell_runs;
use link_pair::pair_laws::pairs_are_isolated;
use noise_bound::noiseless::few_labels_are_unreleased;
use noise_script::laws::{one_answer, spelled_scripts_are_in_limits};
use rate_4800::Rate4800;
use signal_commands::pickup::laws::{
    later_pieces_stand_behind, middles_give_what_was_sent, samples_give_one_list,
};
use symbol_map::laws::no_distance_is_equal;
use trellis_tables::V32Code;

/// A tap of what was recorded of a run leaves what the run left, however the run ended.
pub fn taps_leave_what_runs_left()
    ensures { TapsLeaveWhatRunsLeft }
{
    recordings_tell_runs();
    octets_are_sendable();
    slots_have_room();
    scripts_make_links();
    runs_leave_prefixes();
    spelled_scripts_are_in_limits();
}

/// However a run ends, an audit of the trace that it leaves is done, but for lack of memory, over any sound folder whose inputs are known.
pub fn traces_of_runs_are_true()
    ensures { TracesOfRunsAreTrue }
{
    apart_names_differ();
    one_answer();
}

/// A file that was encoded comes back from a decoding of its recording, at either rate.
pub fn encoded_files_come_back()
    ensures { FilesComeBack }
{
    no_distance_is_equal();
    sent_labels_are_decoded::<8, 32, V32Code>();
    sent_labels_are_decoded::<1, 4, Rate4800>();
    few_labels_are_unreleased();
}

/// Of the middle of a recording that a tap told, whatever quarter turn it has, a pickup prints the frames that the tap names. The line of
/// a frame with the check of 16 bits is the text by which the trace names it.
pub fn pickups_find_what_taps_name()
    ensures told { PickupsFindWhatIsTold }
    ensures done { PickupsFindWhatTapsName }
    ensures named { FramesAreNamed }
{
    slots_have_room();
    slots_that_fit_follow_one_another();
    codable_slots_fit();
    last_pieces_are_found();
    samples_give_one_list();
    later_pieces_stand_behind();
    middles_give_what_was_sent();
}

/// Where the noise of a script is faint, or no line of it displaces a symbol, a pair leaves of each link what `run` leaves of that link
/// alone, where both end by themselves.
pub fn links_are_alone()
    ensures faint { FaintLinksAreAlone }
    ensures undisplaced { UndisplacedLinksAreAlone }
{
    pairs_are_isolated();
    one_result();
    one_answer();
    spelled_scripts_are_in_limits();
    undisplaced_runs_have_faint_noise();
}
