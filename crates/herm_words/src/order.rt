//! In which order the texts of hops are laid out: so that the hops of a path mostly follow one another. Any order is right.
ghost use Rattle.std.specs.Prelude.{◌<◌, length, IfSome};

use herm_check::{Link, Visit};
use std::alloc::{AllocError, Global};

/// The link by which the visit at a place was reached from an earlier one.
fn link_back(visits: &[Visit], at: usize) -> Option<Link>
    ensures { IfSome result (λ link. link.from < at) }
{
    match visits.get(at) {
        Some(visit) => match visit.last {
            Some(link) if link.from < at => Some(link),
            _ => None,
        },
        None => None,
    }
}

/// For each visit the one behind it by which the longest path goes on, if any does.
fn longest(alloc: Global, visits: &[Visit]) -> Result<Vec<Option<usize>>, AllocError> {
    let count = visits.len();
    let mut lengths = vec![in alloc; 0; count]?;
    let mut next = vec![in alloc; None; count]?;
    let mut at = count;
    while at > 0 {
        at -= 1;
        let length: usize = lengths[at];
        if let Some(link) = link_back(visits, at) {
            if lengths[link.from] <= length {
                lengths[link.from] = length.saturating_add(1);
                next[link.from] = Some(at);
            }
        }
    }
    Ok(next)
}

/// The visit by which the longest path goes on behind the one at a place.
fn next_at(next: &[Option<usize>], at: usize) -> Option<usize>
    ensures later { IfSome result (λ behind. at < behind) }
    ensures within { IfSome result (λ behind. behind < length next.now) }
{
    match next.get(at) {
        Some(Some(behind)) if *behind > at && *behind < next.len() => Some(*behind),
        _ => None,
    }
}

/// Appends a place and those by which the longest path goes on behind it.
fn push_longest(
    next: &[Option<usize>],
    first: usize,
    order: &mut Vec<usize>,
) -> Result<(), AllocError> {
    order.push(first)?;
    let mut at = first;
    while let Some(behind) = next_at(next, at) {
        order.push(behind)?;
        at = behind;
    }
    Ok(())
}

/// Whether the longest path behind the visit before goes on by the one at a place.
fn goes_on(visits: &[Visit], next: &[Option<usize>], at: usize) -> bool {
    match link_back(visits, at) {
        Some(link) => next_at(next, link.from) == Some(at),
        None => false,
    }
}

/// The places of visits, along paths that are long.
pub fn order_of(alloc: Global, visits: &[Visit]) -> Result<Vec<usize>, AllocError> {
    let next = longest(alloc, visits)?;
    let mut order = Vec::new(alloc);
    for first in 0..visits.len() {
        if !goes_on(visits, next.as_slice(), first) {
            push_longest(next.as_slice(), first, &mut order)?;
        }
    }
    Ok(order)
}
