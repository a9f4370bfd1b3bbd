// The command: the pieces are listed, and the last line is printed.
ghost use Rattle.std.specs.Prelude.{map, string_bytes};
ghost use Rattle.command_base.specs.Job.{Answers};
ghost use Rattle.frame_commands.specs.Listing.Words.{named};
ghost use Rattle.frame_commands.specs.Listing.Completes.{Completes};
ghost use Rattle.frame_commands.specs.Listing.Ends.{frames_job};
ghost use Rattle.frame_commands.specs.Listing.Headline.{Headline};

use crate::frames::listing::list_pieces;
use crate::frames::words::FramesWords;
use command_base::{Status, pieces_line, tell, tell_stop};
use outside_calls::Folder;

/// Lists the pieces, and prints how it ended.
fn list_and_tell<F: Folder>(folder: &mut F, words: &[String], names: &FramesWords<'_>) -> Status
    ensures { Answers (frames_job (named names.now)) (map string_bytes words.now) (F.state folder.old) (F.state folder.new) result }
{
    match list_pieces(folder, names) {
        Ok(pieces) => tell(folder, pieces_line(pieces).as_slice(), Status::Done),
        Err(stop) => tell_stop(folder, words, stop),
    }
}

/// Does what the words of a listing say, and answers how it ended. The line of the answer is printed last.
pub fn frames<F: Folder>(folder: &mut F, words: &[String], names: &FramesWords<'_>) -> Status
    // A line is printed for each piece of the file's bits, and then their number. No file changes.
    ensures headline { Headline (F.state folder.old) (F.state folder.new) (named names.now) result }

    // Where the input is right and the folder sound, nothing but lack of memory keeps it from being done.
    ensures completes { Completes (F.state folder.old) (F.state folder.new) (named names.now) result }

    // Each answer comes where it has to, with its line.
    ensures answer { Answers (frames_job (named names.now)) (map string_bytes words.now) (F.state folder.old) (F.state folder.new) result }
{
    list_and_tell(folder, words, names)
}
