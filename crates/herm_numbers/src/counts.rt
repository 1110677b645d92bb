//! How many paths types have.
ghost use Rattle.std.specs.Prelude.{◌≡◌, ◌≤◌, ℕ, IfOk, map, nat_lt};
ghost use Rattle.herm_model.specs.Types.{greatest_depth};
ghost use Rattle.herm_types.specs.Chosen.{lists};
ghost use Rattle.herm_types.specs.View.{shape_view};
ghost use Rattle.herm_numbers.specs.View.{IsSized};
ghost use Rattle.herm_numbers.specs.Counts.{count_at, paths_by, CountPaths, part_types, IsCounted};

use herm_base::TypeNo;
use herm_types::{Param, Part, Shape, TypeTable};
use std::alloc::{AllocError, Global};

/// As many types may stand on the way from a type through those that it names.
const GREATEST_DEPTH: u32 = 32;

/// One more than a process may have paths of variables.
const TOO_MANY: u32 = 4097;

/// The count of a type, or 0 for one that is not there.
fn count_of(counts: &[u32], t: u32) -> u32
    ensures { result ≡ count_at counts.now t }
{
    match counts.get(t as usize) {
        Some(count) => *count,
        None => 0,
    }
}

/// One path and those of the parts, as far as the limit.
fn paths_by(counts: &[u32], parts: &[u32]) -> u32
    requires { (t : ℕ) → count_at counts.now t ≤ 4097 }
    ensures { result ≡ paths_by counts.now 1 parts.now }
{
    let mut paths: u32 = 1;
    for part in parts {
        let more = paths + count_of(counts, *part);
        paths = if more < TOO_MANY { more } else { TOO_MANY };
    }
    paths
}

fn next_counts(alloc: Global, counts: &[u32], parts: &[Vec<u32>]) -> Result<Vec<u32>, AllocError>
    requires { (t : ℕ) → count_at counts.now t ≤ 4097 }
    ensures { IfOk result (λ v. v.items ≡ map (paths_by counts.now 1) (lists parts.now)) }
{
    let mut counts_after = Vec::with_capacity(alloc, parts.len())?;
    for types in parts {
        counts_after.push(paths_by(counts, types.as_slice()))?;
    }
    Ok(counts_after)
}

/// How many paths each type has, as far as one more than the limit.
pub fn path_counts(alloc: Global, parts: &[Vec<u32>]) -> Result<Vec<u32>, AllocError>
    ensures { IfOk result (λ v. CountPaths greatest_depth (lists parts.now) v.items) }
{
    let mut counts = Vec::new(alloc);
    'rounds: for _ in 0..GREATEST_DEPTH {
        counts = next_counts(alloc, counts.as_slice(), parts)?;
    }
    Ok(counts)
}

fn types_of_parts(alloc: Global, parts: &[Part]) -> Result<Vec<u32>, AllocError>
    ensures types { IfOk result (λ v. v.items ≡ map (λ p. p.of.0) parts.now) }
{
    let mut found = Vec::with_capacity(alloc, parts.len())?;
    'parts: for part in parts {
        found.push(part.of.0)?;
    }
    Ok(found)
}

fn types_of_params(alloc: Global, params: &[Param]) -> Result<Vec<u32>, AllocError>
    ensures types { IfOk result (λ v. v.items ≡ map (λ p. p.of.0) params.now) }
{
    let mut found = Vec::with_capacity(alloc, params.len())?;
    'params: for param in params {
        found.push(param.of.0)?;
    }
    Ok(found)
}

/// The types of the parts of a shape.
#[tactic(auto, using(crate::proofs::Counted::numbered_types, crate::proofs::Counted::numbered_params))]
fn part_types(alloc: Global, shape: &Shape) -> Result<Vec<u32>, AllocError>
    ensures types { IfOk result (λ v. v.items ≡ part_types (shape_view shape.now)) }
{
    match shape {
        Shape::Fields(parts) => {
            let found = types_of_parts(alloc, parts.as_slice())?;
            Ok(found)
        }
        Shape::Cases(parts) => {
            let found = types_of_parts(alloc, parts.as_slice())?;
            Ok(found)
        }
        Shape::CallMessage { params, raises: _ } => {
            let found = types_of_params(alloc, params.as_slice())?;
            Ok(found)
        }
        _ => Ok(Vec::new(alloc)),
    }
}

/// The types of the parts of each type.
fn all_part_types(alloc: Global, types: &TypeTable) -> Result<Vec<Vec<u32>>, AllocError>
    requires sized { IsSized types.now }
    ensures types { IfOk result (λ v. lists v.items ≡ map part_types types.now.shapes) }
{
    let mut found = Vec::new(alloc);
    let mut t: u32 = 0;
    'types: while (t as usize) < types.len() {
        let parts = part_types(alloc, types.shape(TypeNo(t)))?;
        found.push(parts)?;
        t += 1;
    }
    Ok(found)
}

/// How many paths each type has, as far as one more than a process may have.
pub fn type_counts(alloc: Global, types: &TypeTable) -> Result<Vec<u32>, AllocError>
    requires sized { IsSized types.now }
    ensures counts { IfOk result (λ v. IsCounted types.now.shapes v.items) }
{
    let parts = all_part_types(alloc, types)?;
    let counts = path_counts(alloc, parts.as_slice())?;
    Ok(counts)
}

/// Whether variables of these types have more paths than a process may have.
pub fn has_many_paths(counts: &[u32], of: &[TypeNo]) -> bool
    requires few { (t : ℕ) → count_at counts.now t ≤ 4097 }
    ensures many { result ≡ nat_lt 4096 (paths_by counts.now 0 (map (λ t. t.0) of.now)) }
{
    let mut paths: u32 = 0;
    'variables: for t in of {
        let more = paths + count_of(counts, t.0);
        paths = if more < TOO_MANY { more } else { TOO_MANY };
    }
    paths > 4096
}
