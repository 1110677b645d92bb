//! What a send finalises of its message.
ghost use Rattle.std.specs.Prelude.{◌≡◌, ◌++◌, ◌∷◌, [], map, flat_map, IfOk, OnOk};
ghost use Rattle.herm_model.specs.Lists.{any_pass};
ghost use Rattle.herm_model.specs.Paths.{Fact as FactOf, same_fact};
ghost use Rattle.herm_model.specs.Finalising.{excess_from};
ghost use Rattle.herm_types.specs.View.{path_view, fact_view};
ghost use Rattle.herm_typestate.specs.Facts.{has_fact};
ghost use Rattle.herm_fronts.specs.Frames.{table_of, variables_of};
ghost use Rattle.herm_translated.specs.Fronts.{trimmed};
ghost use Rattle.herm_fronts.specs.Held.{part_view, is_value_left};

use crate::frame::{Frame, type_of};
use crate::parts::{GREATEST_DEPTH, held_parts};
use crate::paths::{copy_path, part_path};
use crate::shapes::sent_to;
use herm_base::TypeNo;
use herm_types::{Fact, Path, TypeTable};
use herm_typestate::State;
use std::alloc::{AllocError, Global};

/// What is held before a statement, and what stays.
#[derive(Drop)]
pub struct Left {
    pub here: State,
    pub kept: State,
}

/// The set of these facts.
fn set_of(alloc: Global, facts: &[Fact], vars: usize) -> Result<State, AllocError>
    ensures { IfOk result (λ s. (f : FactOf) → has_fact s f ≡ any_pass (same_fact f) (map fact_view facts.now)) }
{
    let mut state = State::empty(alloc, vars)?;
    let mut left = facts.len();
    'facts: while left > 0 {
        left -= 1;
        state.make(alloc, &facts[left])?;
    }
    Ok(state)
}

/// Whether what is at the path is here and does not stay.
fn is_left(alloc: Global, left: &Left, path: &Path) -> Result<bool, AllocError>
    ensures { IfOk result (λ b. b ≡ is_value_left (has_fact left.now.here) (has_fact left.now.kept) (path_view path.now)) }
{
    let path = copy_path(alloc, path)?;
    let fact = Fact::Init(path);
    if !left.here.holds(&fact) {
        return Ok(false);
    }
    Ok(!left.kept.holds(&fact))
}

/// Appends the topmost paths that are left, from a path of a type on, through so many types.
#[cycle(trimming)]
#[tactic(auto, using(crate::proofs::Trimmed::of_parts))]
fn push_left(
    alloc: Global,
    types: &TypeTable,
    left: &Left,
    depth: u32,
    t: TypeNo,
    p: &Path,
    out: &mut Vec<Path>,
) -> Result<(), AllocError>
    ensures { OnOk result (map path_view out.new.items ≡ map path_view out.old.items ++ excess_from (is_value_left (has_fact left.now.here) (has_fact left.now.kept)) depth types.now.shapes (path_view p.now) t.0) }
{
    if depth == 0 {
        return Ok(());
    }
    let is_whole = is_left(alloc, left, p)?;
    if is_whole {
        let path = copy_path(alloc, p)?;
        out.push(path)?;
        return Ok(());
    }
    let parts = held_parts(alloc, types, t)?;
    push_left_parts(alloc, types, left, depth - 1, parts.as_slice(), p, out)?;
    Ok(())
}

/// Appends those of the parts at these places.
#[cycle(trimming)]
fn push_left_parts(
    alloc: Global,
    types: &TypeTable,
    left: &Left,
    depth: u32,
    parts: &[(u32, TypeNo)],
    p: &Path,
    out: &mut Vec<Path>,
) -> Result<(), AllocError>
    ensures { OnOk result (map path_view out.new.items ≡ map path_view out.old.items ++ flat_map (λ part. excess_from (is_value_left (has_fact left.now.here) (has_fact left.now.kept)) depth types.now.shapes (path_view p.now ++ part.0 ∷ []) part.1) (map part_view parts.now)) }
{
    'parts: for (place, t) in parts {
        let path = part_path(alloc, p, *place)?;
        push_left(alloc, types, left, depth, *t, &path, out)?;
    }
    Ok(())
}

/// The excess of a message, by the facts before its statement.
#[tactic(auto, using(crate::proofs::Trimmed::excess_same))]
pub fn trim_of(
    alloc: Global,
    frame: &Frame,
    facts: &[Fact],
    x: &Path,
    o: &Path,
) -> Result<Vec<Path>, AllocError>
    ensures { IfOk result (λ v. map path_view v.items ≡ trimmed (table_of frame.now) (variables_of frame.now) (map fact_view facts.now) (path_view x.now) (path_view o.now)) }
{
    let mut out = Vec::new(alloc);
    let Some(t) = type_of(frame, x) else {
        return Ok(out);
    };
    let sent = sent_to(alloc, frame, o, x)?;
    let vars = frame.of.len();
    let left = Left {
        here: set_of(alloc, facts, vars)?,
        kept: set_of(alloc, sent.as_slice(), vars)?,
    };
    push_left(alloc, frame.types, &left, GREATEST_DEPTH, t, x, &mut out)?;
    Ok(out)
}
