// The information of frames that are sent.
ghost use Rattle.std.specs.Prelude.{◌≡◌, ◌≤◌, length};
ghost use Rattle.frame_check.specs.Octets.{AreOctets};
ghost use Rattle.frame_check.specs.declared.sizes.TheConstants.{INFO};

use frame_check::Info;

/// Information as it was. That it is octets, and at most so many, its type says, and here a contract.
pub(crate) fn carried(info: Info) -> Info
    ensures same { result ≡ info }
    ensures short { length result ≤ INFO }
    ensures octets { AreOctets result }
{
    // for the prover: what the type says is known of what was looked at
    let _octets = info.as_slice();
    info
}
