//! What a call makes, argument by argument.
ghost use Rattle.std.specs.Prelude.{◌≡◌, IfOk, Some, map, flat_map};
ghost use Rattle.herm_model.specs.Calls.{argument_path};
ghost use Rattle.herm_model.specs.FactsOfStatements.{full_of_each};
ghost use Rattle.herm_types.specs.View.{path_view, fact_view};
ghost use Rattle.herm_typed.specs.View.{typed_atom_view};
ghost use Rattle.herm_judge.specs.View.{table_of, variables_of};
ghost use Rattle.herm_effects.specs.Rows.{places_at, made_by};

use crate::arguments::{kept_for, returned_places};
use crate::closed::closed;
use crate::present::push_full;
use herm_judge::{Frame, call_parameters, call_raises};
use herm_typed::{Outcome, TypedAtom, TypedPath};
use herm_types::Fact;
use std::alloc::{AllocError, Global};

/// The places of the parameters of a call that come back at an outcome: all that can, and at an exception those that it keeps.
pub fn places_back(
    alloc: Global,
    frame: &Frame,
    o: &TypedPath,
    outcome: Outcome,
) -> Result<Vec<u32>, AllocError>
    ensures places { IfOk result (λ v. v.items ≡ places_at frame.now o.now outcome) }
{
    match outcome {
        Outcome::Ok => {
            let found = returned_places(alloc, call_parameters(frame, o))?;
            Ok(found)
        }
        Outcome::Raised(e) => {
            let found = Vec::from_slice(alloc, kept_for(call_raises(frame, o), e))?;
            Ok(found)
        }
        _ => Ok(Vec::new(alloc)),
    }
}

/// A full value at the path of an argument, where it is one.
fn full_argument(
    alloc: Global,
    frame: &Frame,
    argument: &TypedAtom,
) -> Result<Vec<Fact>, AllocError>
    ensures { IfOk result (λ v. map fact_view v.items ≡ full_of_each (table_of frame.now) (variables_of frame.now) (argument_path (Some (typed_atom_view argument.now)))) }
{
    let mut out = Vec::new(alloc);
    match argument {
        TypedAtom::Literal(_) => Ok(out),
        TypedAtom::Path(p) => {
            push_full(alloc, frame, &p.path, &mut out)?;
            Ok(out)
        }
    }
}

/// The facts that an argument of a call makes where it comes back, each behind those before it and without repeats; none where it
/// is no path.
pub fn facts_of_argument(
    alloc: Global,
    frame: &Frame,
    argument: &TypedAtom,
) -> Result<Vec<Fact>, AllocError>
    ensures facts { IfOk result (λ v. map fact_view v.items ≡ made_by frame.now (Some (typed_atom_view argument.now))) }
{
    let facts = full_argument(alloc, frame, argument)?;
    let facts = closed(alloc, frame, facts)?;
    Ok(facts)
}
