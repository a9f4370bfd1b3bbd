//! Theorems of runs. The functions do nothing but name the theorems that they rest on: each theorem is a contract.
ghost use Rattle.trace_audit.specs.Lines.{ChancesHaveLines, TextsHaveLines, TurnsHaveLines};
ghost use Rattle.trace_audit.specs.Readable.{LinesAreRead};

use crate::laws::{read_lines_are_whole, written_lines_are_read};
use break_signals::laws::is_spelled_back;
use line_run::laws::{samples_are_carried, scripts_make_links};
use link_run::laws::{frames_are_short, segments_are_offered_as_they_are_read};

/// Whatever the files are, both lines of a turn of a run are lines that are read: the numbers of their frames are below 128, what they say of
/// breaks are octets, and what arrives is a pattern or a frame.
pub fn lines_are_read()
    ensures { LinesAreRead }
{
    scripts_make_links();
    samples_are_carried();
    frames_are_short();
    is_spelled_back();
    segments_are_offered_as_they_are_read();
}

/// The text of a trace is that of its lines, two a turn.
pub fn traces_have_lines()
    ensures { TextsHaveLines }
{}

/// Each line of a trace is one that is read, and no line feed stands in it.
pub fn traces_are_read()
    ensures turns { TurnsHaveLines }
    ensures chances { ChancesHaveLines }
{
    lines_are_read();
    written_lines_are_read();
    read_lines_are_whole();
}
