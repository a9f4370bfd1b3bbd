// The command: digits are read, the field is understood, and a line is printed.
ghost use Rattle.std.specs.Prelude.{[], map, string_bytes, IfErr, IfOk};
ghost use Rattle.command_base.specs.Job.{Answers, Shared};
ghost use Rattle.frame_commands.specs.Explaining.Completes.{Completes};
ghost use Rattle.frame_commands.specs.Explaining.Ends.{Explains, Refuses, xid_job};

use crate::xid::digits::read_digits;
use crate::xid::offer_line::offer_line;
use command_base::{Status, Stop, tell, tell_stop};
use outside_calls::Folder;
use xid_params::{Offer, read_offer};

/// The offer that the digits spell.
fn explain(digits: &str) -> Result<Offer, Status>
    ensures ok { IfOk result (Explains digits.now) }
    ensures refused { IfErr result (Refuses digits.now) }
{
    let octets = read_digits(digits)?;
    match read_offer(octets.as_slice()) {
        Ok(offer) => Ok(offer),
        Err(fault) => Err(Status::BadXid(fault)),
    }
}

/// Prints the offer, or why the digits spell none.
fn explain_and_tell<F: Folder>(folder: &mut F, words: &[String], digits: &str) -> Status
    ensures { Answers (xid_job digits.now) (map string_bytes words.now) (F.state folder.old) (F.state folder.new) result }
{
    match explain(digits) {
        Ok(offer) => tell(folder, offer_line(&offer).as_slice(), Status::Done),
        Err(answer) => tell_stop(folder, words, Stop::Own(answer)),
    }
}

/// Prints the offer of an information field, given in hexadecimal digits, or why it spells none. No memory is taken, and no name
/// of the folder is touched.
pub fn xid<F: Folder>(folder: &mut F, words: &[String], digits: &str) -> Status
    // No name changes.
    ensures headline { Shared [] [] (F.state folder.old) (F.state folder.new) result }

    // Where the digits spell an offer and printing doesn't fail, nothing but lack of memory keeps it from being done.
    ensures completes { Completes (F.state folder.old) (F.state folder.new) digits.now result }

    // Each answer comes where it has to, with its line.
    ensures answer { Answers (xid_job digits.now) (map string_bytes words.now) (F.state folder.old) (F.state folder.new) result }
{
    explain_and_tell(folder, words, digits)
}
