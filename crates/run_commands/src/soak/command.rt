// The command: the run of a seed is made, and its line is printed.
ghost use Rattle.std.specs.Prelude.{[], map, string_bytes};
ghost use Rattle.command_base.specs.Job.{Answers};
ghost use Rattle.run_commands.specs.Soaking.Completes.{Completes};
ghost use Rattle.run_commands.specs.Soaking.Ends.{soak_job};
ghost use Rattle.run_commands.specs.Soaking.Headline.{Headline};

use crate::soak::laws::{answers_keep_the_headline, carried_soaks_are_done};
use crate::soak::soaking::soak_run;
use command_base::{Status, soak_line, tell, tell_stop};
use outside_calls::Folder;
use std::alloc::Global;

/// Makes the run of a seed, and prints how it ended.
fn soak_and_tell<F: Folder>(alloc: Global, folder: &mut F, words: &[String], seed: u64) -> Status
    ensures { Answers (soak_job seed) (map string_bytes words.now) (F.state folder.old) (F.state folder.new) result }
{
    match soak_run(alloc, seed) {
        Ok(counts) => tell(
            folder,
            soak_line(seed, counts.turn, counts.lost, counts.again).as_slice(),
            Status::Done,
        ),
        Err(stop) => tell_stop(folder, words, stop),
    }
}

/// Makes the run of a seed in a folder of its own, and prints how it ended. No name of the folder is touched.
pub fn soak<F: Folder>(alloc: Global, folder: &mut F, words: &[String], seed: u64) -> Status
    // No name changes. The run is that of the seed's files and script: each end receives a prefix of the other's file, and done means that both
    // are whole.
    ensures headline { Headline (F.state folder.old) (F.state folder.new) seed result }

    // Where printing doesn't fail, the answer is that to how the seed's run ends, but for lack of memory; and it is done where the line carries
    // it to its end.
    ensures completes { Completes (F.state folder.old) (F.state folder.new) seed result }

    // Each answer comes where it has to, with its line.
    ensures answer { Answers (soak_job seed) (map string_bytes words.now) (F.state folder.old) (F.state folder.new) result }
{
    answers_keep_the_headline();
    carried_soaks_are_done();
    soak_and_tell(alloc, folder, words, seed)
}
