// The command: the recording is made, and its line is printed.
ghost use Rattle.std.specs.Prelude.{◌≡◌, true, map, string_bytes};
ghost use Rattle.command_base.specs.Job.{Answers};
ghost use Rattle.command_base.specs.Apart.{are_apart};
ghost use Rattle.signal_commands.specs.Encoding.Words.{named, inputs_of, outputs_of};
ghost use Rattle.signal_commands.specs.Encoding.Completes.{Completes};
ghost use Rattle.signal_commands.specs.Encoding.Ends.{encode_job};
ghost use Rattle.signal_commands.specs.Encoding.Headline.{Headline};

use crate::encode::recording::make_recording;
use crate::encode::words::EncodeWords;
use command_base::{Status, samples_line, tell, tell_stop};
use outside_calls::Folder;

/// Makes the recording, and prints how it ended.
fn encode_and_tell<F: Folder>(folder: &mut F, words: &[String], names: &EncodeWords<'_>) -> Status
    requires { are_apart (inputs_of (named names.now)) (outputs_of (named names.now)) ≡ true }
    ensures { Answers (encode_job (named names.now)) (map string_bytes words.now) (F.state folder.old) (F.state folder.new) result }
{
    match make_recording(folder, names) {
        Ok(samples) => tell(folder, samples_line(samples).as_slice(), Status::Done),
        Err(stop) => tell_stop(folder, words, stop),
    }
}

/// Does what the words of a recording say, and answers how it ended. The line of the answer is printed last.
pub fn encode<F: Folder>(folder: &mut F, words: &[String], names: &EncodeWords<'_>) -> Status
    requires { are_apart (inputs_of (named names.now)) (outputs_of (named names.now)) ≡ true }

    // The output becomes the file's recording, or the beginning of it where the command ends by a fault.
    ensures headline { Headline (F.state folder.old) (F.state folder.new) (named names.now) result }

    // Where the input is right and the folder sound, nothing but lack of memory keeps it from being done.
    ensures completes { Completes (F.state folder.old) (F.state folder.new) (named names.now) result }

    // Each answer comes where it has to, with its line.
    ensures answer { Answers (encode_job (named names.now)) (map string_bytes words.now) (F.state folder.old) (F.state folder.new) result }
{
    encode_and_tell(folder, words, names)
}
