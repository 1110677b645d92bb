//! Depth and paths of types.
ghost use Rattle.std.specs.Prelude.{◌≡◌, ◌≤◌, ◌<◌, ◌||◌, ℕ, IfOk, map, not, nat_lt};
ghost use Rattle.std.specs.List.{list_all};
ghost use Rattle.herm_model.specs.Types.{greatest_depth, named_types};
ghost use Rattle.herm_model.specs.WellFormedTables.{IsType};
ghost use Rattle.herm_types.specs.Table.{says, shapes_view};
ghost use Rattle.herm_types.specs.Chosen.{lists};
ghost use Rattle.herm_graph.specs.Depth.{SayWithin, count_at, paths_by, CountPaths, IsBeyond};
ghost use Rattle.herm_graph.specs.Tells.{Tells};

use crate::graph::says;
use crate::links::part_links;
use herm_types::Shape;
use std::alloc::{AllocError, Global};

/// As many types may stand on the way from a type through those that it names.
const GREATEST_DEPTH: u32 = 32;

/// One more than a type may have paths.
const TOO_MANY: u32 = 1025;

fn all_within(tests: &[bool], next: &[u32]) -> bool
    ensures { result ≡ list_all (says tests.now) next.now }
{
    next.iter().all(|t| says(tests, *t))
}

fn next_within(alloc: Global, tests: &[bool], next: &[Vec<u32>]) -> Result<Vec<bool>, AllocError>
    ensures { IfOk result (λ v. v.items ≡ map (λ ns. list_all (says tests.now) ns) (lists next.now)) }
{
    let mut tests_after = Vec::with_capacity(alloc, next.len())?;
    for types in next {
        tests_after.push(all_within(tests, types.as_slice()))?;
    }
    Ok(tests_after)
}

/// Whether each type is within the greatest depth.
pub fn within_depth(alloc: Global, next: &[Vec<u32>]) -> Result<Vec<bool>, AllocError>
    ensures { IfOk result (λ v. SayWithin greatest_depth (lists next.now) v.items) }
{
    let mut tests = Vec::new(alloc);
    'rounds: for _ in 0..GREATEST_DEPTH {
        tests = next_within(alloc, tests.as_slice(), next)?;
    }
    Ok(tests)
}

/// The count of a type, or 0 for one that is not there.
fn count_of(counts: &[u32], t: u32) -> u32
    ensures { result ≡ count_at counts.now t }
{
    match counts.get(t as usize) {
        Some(count) => *count,
        None => 0,
    }
}

/// One path and those of the parts, as far as the limit.
fn paths_by(counts: &[u32], parts: &[u32]) -> u32
    requires { (t : ℕ) → count_at counts.now t ≤ 1025 }
    ensures { result ≡ paths_by counts.now 1 parts.now }
{
    let mut paths: u32 = 1;
    for part in parts {
        let more = paths + count_of(counts, *part);
        paths = if more < TOO_MANY { more } else { TOO_MANY };
    }
    paths
}

fn next_counts(alloc: Global, counts: &[u32], parts: &[Vec<u32>]) -> Result<Vec<u32>, AllocError>
    requires { (t : ℕ) → count_at counts.now t ≤ 1025 }
    ensures { IfOk result (λ v. v.items ≡ map (paths_by counts.now 1) (lists parts.now)) }
{
    let mut counts_after = Vec::with_capacity(alloc, parts.len())?;
    for types in parts {
        counts_after.push(paths_by(counts, types.as_slice()))?;
    }
    Ok(counts_after)
}

/// How many paths each type has, as far as one more than the limit.
pub fn path_counts(alloc: Global, parts: &[Vec<u32>]) -> Result<Vec<u32>, AllocError>
    ensures { IfOk result (λ v. CountPaths greatest_depth (lists parts.now) v.items) }
{
    let mut counts = Vec::new(alloc);
    'rounds: for _ in 0..GREATEST_DEPTH {
        counts = next_counts(alloc, counts.as_slice(), parts)?;
    }
    Ok(counts)
}

/// Which types are not within the limits.
fn beyond(
    alloc: Global,
    within: &[bool],
    counts: &[u32],
    count: usize,
) -> Result<Vec<bool>, AllocError>
    ensures { IfOk result (λ v. (t : ℕ) → t < count → says v.items t ≡ (nat_lt 1024 (count_at counts.now t) || not (says within.now t))) }
{
    let mut tests = Vec::with_capacity(alloc, count)?;
    for t in 0..count {
        let within = match within.get(t) {
            Some(test) => *test,
            None => false,
        };
        let paths = match counts.get(t) {
            Some(paths) => *paths,
            None => 0,
        };
        tests.push(1024 < paths || !within)?;
    }
    Ok(tests)
}

/// Which types are too deep or have too many paths.
pub fn deep_of(alloc: Global, shapes: &[Shape], next: &[Vec<u32>]) -> Result<Vec<bool>, AllocError>
    requires named { lists next.now ≡ map named_types (shapes_view shapes.now) }
    ensures { IfOk result (λ v. (t : ℕ) → IsType (shapes_view shapes.now) t → Tells (says v.items t) (IsBeyond (shapes_view shapes.now) t)) }
{
    let within = within_depth(alloc, next)?;
    let parts = part_links(alloc, shapes)?;
    let counts = path_counts(alloc, parts.as_slice())?;
    let deep = beyond(alloc, within.as_slice(), counts.as_slice(), shapes.len())?;
    Ok(deep)
}
