// Printing the line of an answer.
ghost use Rattle.std.specs.Prelude.{map, string_bytes, OnOk, OnErr, IsErrOf};
ghost use Rattle.outside_calls.specs.Folder.{OnlySays, HasCause, FaultsStand, CountsStand, Said, PartlySaid};
ghost use Rattle.command_base.specs.Lines.{status_line, too_long_line};
ghost use Rattle.command_base.specs.Job.{SaysStop};
ghost use Rattle.command_base.specs.Tells.{Tells};

use crate::lines::short_line;
use crate::stop::fault_status;
use crate::{Status, Stop};
use outside_calls::{Folder, FolderFault};

/// Prints the line of an answer. A fault then takes the place of the answer.
pub fn tell<F: Folder>(folder: &mut F, line: &[u8], answer: Status) -> Status
    ensures { Tells (F.state folder.old) (F.state folder.new) line.now answer result }
{
    match folder.say(line) {
        Ok(()) => answer,
        Err(fault) => fault_status(Status::WriteFault, fault),
    }
}

/// Prints that an input is too long, in three pieces, so that no memory is taken for its name.
fn say_too_long<F: Folder>(folder: &mut F, name: &str) -> Result<(), FolderFault>
    ensures ok { OnOk result (Said (F.state folder.old) (F.state folder.new) (too_long_line name.now)) }
    ensures err { OnErr result (PartlySaid (F.state folder.old) (F.state folder.new) (too_long_line name.now)) }
    ensures only { OnlySays (F.state folder.old) (F.state folder.new) }
    ensures cause { HasCause (F.state folder.old).say_faults (F.state folder.new).say_faults (F.state folder.old).refusals (F.state folder.new).refusals result }
    ensures stand { OnOk result (CountsStand (F.state folder.old) (F.state folder.new)) }
    ensures spared { IsErrOf result FolderFault.NoMemory → FaultsStand (F.state folder.old) (F.state folder.new) }
{
    folder.say(b"too long: ")?;
    folder.say(name.as_bytes())?;
    folder.say(b"\n")
}

/// Prints that an input is too long. A fault then takes the place of the answer.
fn tell_too_long<F: Folder>(folder: &mut F, name: &str, answer: Status) -> Status
    ensures { Tells (F.state folder.old) (F.state folder.new) (too_long_line name.now) answer result }
{
    match say_too_long(folder, name) {
        Ok(()) => answer,
        Err(fault) => fault_status(Status::WriteFault, fault),
    }
}

/// Prints the line of an answer that is neither `Done` nor `Usage`.
fn tell_status<F: Folder>(folder: &mut F, words: &[String], status: Status) -> Status
    ensures { Tells (F.state folder.old) (F.state folder.new) (status_line (map string_bytes words.now) status) status result }
{
    match status {
        Status::TooLong { word } => {
            let name = match words.get(word) {
                Some(name) => name.as_str(),
                None => "",
            };
            tell_too_long(folder, name, status)
        }
        _ => tell(folder, short_line(status).as_slice(), status),
    }
}

/// Prints why a job stopped, in the line of its status, and answers that. Where a line was not printed nothing more is.
pub fn tell_stop<F: Folder>(folder: &mut F, words: &[String], stop: Stop) -> Status
    ensures { SaysStop (map string_bytes words.now) (F.state folder.old) (F.state folder.new) stop result }
{
    match stop {
        Stop::Say(_) => stop.status(),
        _ => tell_status(folder, words, stop.status()),
    }
}
