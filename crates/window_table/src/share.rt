//! What one worker took and reported.
ghost use Rattle.std.specs.Prelude.{◌≡◌, IfOk, IfSome, replicate};
ghost use Rattle.window_table.specs.Counts.{no_share, taken_by};

use std::alloc::{AllocError, Global};

/// One worker's count of the tickets that it took and reported.
#[derive(Clone, Copy, Debug)]
pub struct Share {
    pub taken: u64,
    pub reported: u64,
}

/// So many shares of nothing.
pub(crate) fn shares(alloc: Global, count: u32) -> Result<Vec<Share>, AllocError>
    ensures { IfOk result (λ all. all.items ≡ replicate count no_share) }
{
    let mut all = Vec::with_capacity(alloc, count as usize)?;
    for _place in 0..count {
        all.push(Share {
            taken: 0,
            reported: 0,
        })?;
    }
    Ok(all)
}

/// How many tickets were taken together, where that number is in range.
pub(crate) fn taken_together(shares: &[Share]) -> Option<u64>
    ensures { IfSome result (λ sum. sum ≡ taken_by shares.now) }
{
    let mut sum = 0u64;
    for share in shares {
        sum = sum.checked_add(share.taken)?;
    }
    Some(sum)
}
