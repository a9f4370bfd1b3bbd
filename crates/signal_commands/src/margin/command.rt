// The command: the file is measured against the recording, and its line is printed.
ghost use Rattle.std.specs.Prelude.{[], map, string_bytes};
ghost use Rattle.outside_calls.specs.Folder.{OnlyReads};
ghost use Rattle.command_base.specs.Job.{Answers};
ghost use Rattle.command_base.specs.Stops.{EndCounts};
ghost use Rattle.signal_commands.specs.Margins.Words.{named, inputs_of};
ghost use Rattle.signal_commands.specs.Margins.Ends.{Ends, margin_job};
ghost use Rattle.signal_commands.specs.Margins.Completes.{Completes};
ghost use Rattle.signal_commands.specs.Margins.Headline.{Headline};

use crate::margin::measuring::measure_to_end;
use crate::margin::opening::open_inputs;
use crate::margin::words::MarginWords;
use command_base::{Status, Stop, margin_line, tell, tell_stop};
use noise_bound::Margin;
use outside_calls::Folder;

/// Opens both inputs, and measures the file against the recording.
fn measure<F: Folder>(folder: &mut F, names: &MarginWords<'_>) -> Result<Margin, Stop>
    ensures ends { Ends (F.state folder.old) (F.state folder.new) (named names.now) result }
    ensures reads { OnlyReads (F.state folder.old) (F.state folder.new) }
    ensures counts { EndCounts (F.state folder.old) (F.state folder.new) (inputs_of (named names.now)) [] result }
{
    match open_inputs(folder, names) {
        Ok(mode) => measure_to_end(folder, names, mode),
        Err(stop) => Err(stop),
    }
}

/// Measures the file against the recording, and prints how it ended.
fn measure_and_tell<F: Folder>(folder: &mut F, words: &[String], names: &MarginWords<'_>) -> Status
    ensures { Answers (margin_job (named names.now)) (map string_bytes words.now) (F.state folder.old) (F.state folder.new) result }
{
    match measure(folder, names) {
        Ok(margin) => tell(
            folder,
            margin_line(margin.cost(), margin.sure()).as_slice(),
            Status::Done,
        ),
        Err(stop) => tell_stop(folder, words, stop),
    }
}

/// Prints how much the octets of a file cost against a recording, and answers how it ended. The line of the answer is printed last.
pub fn margin<F: Folder>(folder: &mut F, words: &[String], names: &MarginWords<'_>) -> Status
    // The line prints the cost. Where it prints that this is sure, the recording isn't lost, and the labels that it releases begin those of
    // the file. No file changes.
    ensures headline { Headline (F.state folder.old) (F.state folder.new) (named names.now) result }

    // Where the inputs are right and the folder sound, nothing but lack of memory keeps it from being done.
    ensures completes { Completes (F.state folder.old) (F.state folder.new) (named names.now) result }

    // Each answer comes where it has to, with its line.
    ensures answer { Answers (margin_job (named names.now)) (map string_bytes words.now) (F.state folder.old) (F.state folder.new) result }
{
    measure_and_tell(folder, words, names)
}
