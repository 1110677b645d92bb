//! Numbers of 32 bits. What does not fit into them is refused as want of memory, and nothing else is.
ghost use Rattle.std.specs.Prelude.{◌≡◌, ◌+◌, ◌≤◌, MatchResult};

use std::alloc::AllocError;

/// The sum of two numbers; refused only where it does not fit.
pub fn sum(a: u32, b: u32) -> Result<u32, AllocError>
    ensures { MatchResult result (λ n. n ≡ a + b) (λ e. 4294967296 ≤ a + b) }
{
    match a.checked_add(b) {
        Some(n) => Ok(n),
        None => Err(AllocError),
    }
}

/// A count as a number of 32 bits; refused only where it does not fit.
pub fn small(count: usize) -> Result<u32, AllocError>
    ensures { MatchResult result (λ n. n ≡ count) (λ e. 4294967296 ≤ count) }
{
    if count > u32::MAX as usize {
        return Err(AllocError);
    }
    Ok(count as u32)
}
