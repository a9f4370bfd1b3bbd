//! The rows. The functions do nothing but name the theorems that they rest on: each row is a contract.
ghost use Rattle.command_laws.specs.Worked.Rows.{SecondRowEnds, FirstTraceIsKnown, RowsHold};

use crate::worked::runs::computed_runs_are_runs;
use line_ends::laws::{octets_are_sendable, undisplaced_runs_have_faint_noise};
use line_run::direction::{
    each_list_of_fours_is_recorded, faint_lines_are_never_lost, heard_is_sent,
    what_is_received_of_faint_lines_is_sent,
};
use line_run::laws::{one_result, samples_are_carried, scripts_make_links, slots_have_room};
use link_pair::pair_laws::{pairs_are_isolated, pairs_end};
use link_run::laws::numbers_have_the_agreed_check;
use sample_line::laws::one_outcome;

/// How long both runs are, computed.
pub fn both_runs()
    ensures ends { SecondRowEnds }
    ensures trace { FirstTraceIsKnown }
{}

/// Two links with one octet each way are done in turn 12, both; and one of these is beside one with 1,920 octets, which is done in turn 26.
pub fn both_rows()
    ensures { RowsHold }
{
    both_runs();
    scripts_make_links();
    slots_have_room();
    samples_are_carried();
    octets_are_sendable();
    numbers_have_the_agreed_check();
    each_list_of_fours_is_recorded();
    faint_lines_are_never_lost();
    what_is_received_of_faint_lines_is_sent();
    heard_is_sent();
    one_outcome();
    undisplaced_runs_have_faint_noise();
    one_result();
    pairs_are_isolated();
    pairs_end();
    computed_runs_are_runs();
}
