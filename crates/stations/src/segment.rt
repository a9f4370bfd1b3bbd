// A segment of a user's file.
ghost use Rattle.std.specs.Prelude.{◌≡◌, ◌≤◌, ◌+◌, ◌*◌, ◌^◌, ◌<◌, IfOk, OnOk, IsErrOf, IsTrue, length, take};
ghost use Rattle.outside_calls.specs.Folder.{OnlyReads, HasCause, FaultsStand, CountsStand};
ghost use Rattle.frame_check.specs.declared.sizes.TheConstants.{INFO};
ghost use Rattle.link_run.specs.End.{piece_at};
ghost use Rattle.stations.specs.Station.{file_at};

use frame_check::INFO;
use outside_calls::{Folder, FolderFault};

/// Reads the segment of that number of a file that ends at its limit, where segments have `size` octets: how many octets of `segment` it is.
pub(crate) fn read_segment<F: Folder>(
    folder: &mut F,
    name: &str,
    number: u64,
    size: u16,
    limit: u64,
    segment: &mut [u8],
) -> Result<usize, FolderFault>
    requires room { length segment.old ≡ INFO }
    requires size { size ≤ INFO }
    requires within { size * number ≤ limit }
    requires limit { limit < 2 ^ 56 }
    ensures length { length segment.new ≡ length segment.old }
    ensures count { IfOk result (λ count. count ≤ size) }
    ensures within { IfOk result (λ count. size * number + count ≤ limit) }
    ensures octets { IfOk result (λ count. IsTrue ((F.state folder.old).tells name.now)
        → take count segment.new ≡ piece_at size (file_at (F.state folder.old) name.now limit) number) }
    ensures only { OnlyReads (F.state folder.old) (F.state folder.new) }
    ensures cause { HasCause ((F.state folder.old).read_faults name.now) ((F.state folder.new).read_faults name.now) (F.state folder.old).refusals (F.state folder.new).refusals result }
    ensures stand { OnOk result (CountsStand (F.state folder.old) (F.state folder.new)) }
    ensures spared { IsErrOf result FolderFault.NoMemory → FaultsStand (F.state folder.old) (F.state folder.new) }
    ensures came { F.came folder.old folder.new }
{
    let at = u64::from(size) * number;
    let left = limit - at;
    let room = if left < u64::from(size) {
        left as usize
    } else {
        usize::from(size)
    };
    folder.read_at(name, at, &mut segment[..room])
}
