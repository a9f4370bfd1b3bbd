// The memory of a decoder, which is taken when it is made.
ghost use Rattle.std.specs.Prelude.{◌≡◌, ℕ, ◌+◌, ◌<◌, ◌≤◌, ◌^◌, length, slice_index, IfOk};
ghost use Rattle.exact_decoder.specs.Settled.{far_key};

use crate::key::{FAR, SUM};
use std::alloc::{AllocError, Global};

/// Sums of states to which no sequence leads, each with its state.
pub fn far_sums(alloc: Global, count: usize) -> Result<Vec<u64>, AllocError>
    requires { count ≤ 256 }
    ensures { IfOk result (λ v. (length v.items ≡ count) × ((s : ℕ) → s < count → slice_index v.items s ≡ far_key + s)) }
{
    let mut sums = vec![in alloc; 0; count]?;
    for state in 0..count {
        sums[state] = FAR * SUM + state as u64;
    }
    Ok(sums)
}

/// Sums of states in which a sequence starts, each with its state.
pub fn no_sums(alloc: Global, count: usize) -> Result<Vec<u64>, AllocError>
    requires { count ≤ 256 }
    ensures { IfOk result (λ v. (length v.items ≡ count) × ((s : ℕ) → s < count → slice_index v.items s ≡ s)) }
{
    let mut sums = vec![in alloc; 0; count]?;
    for state in 0..count {
        sums[state] = state as u64;
    }
    Ok(sums)
}
