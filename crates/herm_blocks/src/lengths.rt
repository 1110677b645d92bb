//! The lengths of loops, by their statements' numbers.
ghost use Rattle.std.specs.Prelude.{◌≡◌, ◌<◌, ◌&&◌, ◌||◌, ℕ, map, length, nat_eq, get_or, IfOk, OnOk};
ghost use Rattle.herm_model.specs.Lists.{any_pass};
ghost use Rattle.herm_forms.specs.LeavingLoops.{is_in_loop};
ghost use Rattle.herm_fronts.specs.Walked.{span_view};
ghost use Rattle.herm_blocks.specs.Scopes.{is_within};

use herm_fronts::nodes::Span;
use std::alloc::{AllocError, Global};

/// Whether the statement with a number is in the loop of another one.
pub fn is_within(lengths: &[u32], number: u32, of: u32) -> bool
    ensures { result ≡ is_within lengths.now number of }
{
    match lengths.get(of as usize) {
        Some(length) => of <= number && number - of < *length,
        None => false,
    }
}

/// Makes room for a number.
fn widen(lengths: &mut Vec<u32>, number: usize) -> Result<(), AllocError>
    ensures room { OnOk result (number < length lengths.new.items) }
    ensures kept { OnOk result ((i : ℕ) → get_or lengths.new.items i 0 ≡ get_or lengths.old.items i 0) }
{
    'room: while lengths.len() <= number {
        lengths.push(0)?;
    }
    Ok(())
}

/// Adds a loop.
fn put(lengths: &mut Vec<u32>, of: Span) -> Result<(), AllocError>
    ensures { OnOk result ((k l : ℕ) → is_within lengths.new.items k l ≡ (is_within lengths.old.items k l || (nat_eq of.first l && is_in_loop k (span_view of)))) }
{
    let at = of.first as usize;
    widen(lengths, at)?;
    if lengths[at] < of.length {
        lengths[at] = of.length;
        return Ok(());
    }
    Ok(())
}

/// The lengths of these loops by their numbers.
pub fn lengths_of(alloc: Global, loops: &[Span]) -> Result<Vec<u32>, AllocError>
    ensures { IfOk result (λ v. (k l : ℕ) → is_within v.items k l ≡ any_pass (λ s. nat_eq s.first l && is_in_loop k s) (map span_view loops.now)) }
{
    let mut found = Vec::new(alloc);
    'loops: for of in loops {
        put(&mut found, *of)?;
    }
    Ok(found)
}
