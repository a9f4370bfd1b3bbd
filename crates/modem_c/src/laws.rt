//! Theorems of the numbers that C sees. The functions do nothing: each theorem is a contract.
ghost use Rattle.std.specs.Prelude.{◌≡◌, ◌*◌, length};
ghost use Rattle.frame_check.specs.declared.sizes.TheConstants.{SLOT};
ghost use Rattle.xid_params.specs.declared.offer.Offer.{Offer};
ghost use Rattle.xid_params.specs.Offers.{written};
ghost use Rattle.modem_c.specs.CodeNumbers as numbers;

use crate::codes::{
    BAD_ARGUMENT, BROKEN, DONE, EMPTY, FULL, LATE, LOST, NO_MEMORY, NOTHING, ORDER, WRONG_KIND,
};
use crate::frame::NO_NUMBER;
use frame_check::{INFO, WHOLE};
use gateway::FRAME_BITS;

/// What stands in place of a number that a frame hasn't, and the octets and bits that calls want room for: the numbers that `modem.h` gives them.
pub fn sizes_by_number()
    ensures no_number { NO_NUMBER ≡ numbers.no_number }
    ensures information { INFO ≡ numbers.most_information }
    ensures octets { WHOLE ≡ numbers.most_octets }
    ensures bits { 4 * SLOT ≡ numbers.most_bits }
    ensures offer { (offer : Offer) → length (written offer) ≡ numbers.offer_octets }
{
    let _number = NO_NUMBER;
    let _sizes = [INFO, WHOLE, FRAME_BITS];
}

/// The codes are the numbers that `modem.h` gives them.
pub fn codes_by_number()
    ensures done { DONE ≡ numbers.done }
    ensures nothing { NOTHING ≡ numbers.nothing }
    ensures full { FULL ≡ numbers.full }
    ensures lost { LOST ≡ numbers.lost }
    ensures broken { BROKEN ≡ numbers.broken }
    ensures no_memory { NO_MEMORY ≡ numbers.no_memory }
    ensures empty { EMPTY ≡ numbers.empty }
    ensures wrong_kind { WRONG_KIND ≡ numbers.wrong_kind }
    ensures bad_argument { BAD_ARGUMENT ≡ numbers.bad_argument }
    ensures order { ORDER ≡ numbers.order }
    ensures late { LATE ≡ numbers.late }
{
    let _codes = [
        DONE,
        NOTHING,
        FULL,
        LOST,
        BROKEN,
        NO_MEMORY,
        EMPTY,
        WRONG_KIND,
        BAD_ARGUMENT,
        ORDER,
        LATE,
    ];
}
