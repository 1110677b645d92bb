//! Which lists of a point its edges name.
ghost use Rattle.std.specs.Prelude.{◌≡◌, ◌||◌, ℕ, IfOk, false, length, nat_eq, replicate};
ghost use Rattle.herm_model.specs.Lists.{any_pass};
ghost use Rattle.herm_flow.specs.Listed.{is_marked, is_named};

use crate::onward::OnwardEdge;
use std::alloc::{AllocError, Global};

/// Marks a number, where there is a mark for it.
#[tactic(auto, using(crate::proofs::Marked::marked_set, crate::proofs::Marked::marked_beyond))]
fn mark(marks: &mut Vec<bool>, number: u32)
    ensures many { length marks.new.items ≡ length marks.old.items }
    ensures marked { (i : ℕ) → is_marked marks.new.items i ≡ (is_marked marks.old.items i || nat_eq i number) }
{
    if (number as usize) < marks.len() {
        marks[number as usize] = true;
    }
}

/// Marks each of these numbers.
pub fn mark_all(marks: &mut Vec<bool>, numbers: &[u32])
    ensures many { length marks.new.items ≡ length marks.old.items }
    ensures marked { (i : ℕ) → is_marked marks.new.items i ≡ (is_marked marks.old.items i || any_pass (nat_eq i) numbers.now) }
{
    'numbers: for number in numbers {
        mark(marks, *number);
    }
}

/// Marks the numbers that these edges name for what they make.
fn mark_each(marks: &mut Vec<bool>, edges: &[OnwardEdge])
    ensures many { length marks.new.items ≡ length marks.old.items }
    ensures marked { (i : ℕ) → is_marked marks.new.items i ≡ (is_marked marks.old.items i || is_named edges.now i) }
{
    'edges: for edge in edges {
        mark_all(marks, edge.makes.as_slice());
    }
}

/// So many numbers that are not marked.
pub fn unmarked(alloc: Global, count: usize) -> Result<Vec<bool>, AllocError>
    ensures marks { IfOk result (λ v. v.items ≡ replicate count false) }
    ensures many { IfOk result (λ v. length v.items ≡ count) }
{
    Ok(vec![in alloc; false; count]?)
}

/// So many numbers, of which those are marked that these edges name for what they make.
pub fn named_by(alloc: Global, count: usize, edges: &[OnwardEdge]) -> Result<Vec<bool>, AllocError>
    ensures many { IfOk result (λ v. length v.items ≡ count) }
    ensures marked { IfOk result (λ v. (i : ℕ) → is_marked v.items i ≡ (is_marked (replicate count false) i || is_named edges.now i)) }
{
    let mut marks = unmarked(alloc, count)?;
    mark_each(&mut marks, edges);
    Ok(marks)
}
