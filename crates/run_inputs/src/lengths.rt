// The lengths of a run's files.
ghost use Rattle.std.specs.Prelude.{◌<◌, ◌+◌, ◌^◌, List, ℕ, OnOk, IfErr, length, map};
ghost use Rattle.outside_calls.specs.Folder.{OnlyReads};
ghost use Rattle.command_base.specs.Stops.{EndCounts};
ghost use Rattle.run_inputs.specs.Lengths.{AreWithin, TellOctets, RefusesLengths};

use command_base::{Stop, within_limit};
use outside_calls::Folder;

/// Looks whether these files are within their limit, one after the other: one octet of each is read there. The first file that is longer
/// is named by its word, which is this one for the first of them, and the next one for each after it.
pub(crate) fn check_lengths<F: Folder>(
    folder: &mut F,
    names: &[&str],
    limit: u64,
    word: usize,
) -> Result<(), Stop>
    requires { word + length names.now < 2 ^ 32 }
    ensures within { OnOk result (AreWithin limit (F.state folder.old) (map (λ name. name.now) names.now)) }
    ensures octets { OnOk result (TellOctets (F.state folder.old) (map (λ name. name.now) names.now)) }
    ensures refused { IfErr result (RefusesLengths limit (F.state folder.old) (F.state folder.new) word (map (λ name. name.now) names.now)) }
    ensures reads { OnlyReads (F.state folder.old) (F.state folder.new) }
    ensures counts { (outputs : List (List ℕ)) → EndCounts (F.state folder.old) (F.state folder.new) (map (λ name. name.now) names.now) outputs result }
{
    match names.split_first() {
        None => Ok(()),
        Some((name, others)) => match within_limit(folder, name, limit, word) {
            Ok(()) => check_lengths(folder, others, limit, word + 1),
            Err(stop) => Err(stop),
        },
    }
}
