//! The edges of a call: each names its arguments that come back, by their places.
ghost use Rattle.std.specs.Prelude.{◌≡◌, ℕ, ◌++◌, ◌∷◌, [], IfOk, OnOk, Some, true, length, map, slice_get};
ghost use Rattle.herm_types.specs.View.{path_view, fact_view};
ghost use Rattle.herm_typed.specs.declared.outcome_list.Outcome.TheVariants.{Ok as OkOutcome};
ghost use Rattle.herm_typed.specs.View.{typed_atom_view, outcome_view};
ghost use Rattle.herm_effects.specs.Rows.{kills_at, made_by};
ghost use Rattle.herm_flow.specs.OnwardView.{facts_in};
ghost use Rattle.herm_flow.specs.Listed.{AreAsTabled, AreCalled, IsCall, call_kills, lead_of, is_marked, is_named};

use crate::leads::Lead;
use crate::lists::Listed;
use crate::marks::named_by;
use crate::onward::{NO_LIST, OnwardEdge};
use herm_effects::{facts_of_argument, kills_of, places_back};
use herm_judge::Frame;
use herm_typed::{Outcome, TypedAtom, TypedForm, TypedPath};
use herm_types::{Fact, Path};
use std::alloc::{AllocError, Global};

/// The number of what a call takes away at an outcome. It has one list of that.
fn kills_by(outcome: Outcome) -> u32
    ensures number { result ≡ call_kills (outcome_view outcome) }
{
    match outcome {
        Outcome::Ok => 0,
        Outcome::Raised(_) => 0,
        Outcome::True => NO_LIST,
        Outcome::False => NO_LIST,
        Outcome::Turn => NO_LIST,
        Outcome::Done => NO_LIST,
        Outcome::Component(_) => NO_LIST,
        Outcome::Arm(_) => NO_LIST,
    }
}

/// Appends the edge of an outcome of a call.
fn push_called(
    alloc: Global,
    frame: &Frame,
    o: &TypedPath,
    lead: Lead,
    edges: &mut Vec<OnwardEdge>,
) -> Result<(), AllocError>
    requires called { AreCalled frame.now o.now edges.old.items }
    ensures called { OnOk result (AreCalled frame.now o.now edges.new.items) }
    ensures leads { OnOk result (map lead_of edges.new.items ≡ map lead_of edges.old.items ++ lead ∷ []) }
{
    let makes = places_back(alloc, frame, o, lead.outcome)?;
    let kills = kills_by(lead.outcome);
    edges.push(OnwardEdge {
        outcome: lead.outcome,
        to: lead.to,
        makes,
        kills,
    })?;
    Ok(())
}

/// The edges of these outcomes of a call.
fn edges_of_call(
    alloc: Global,
    frame: &Frame,
    o: &TypedPath,
    leads: &[Lead],
) -> Result<Vec<OnwardEdge>, AllocError>
    ensures called { IfOk result (λ v. AreCalled frame.now o.now v.items) }
    ensures leads { IfOk result (λ v. map lead_of v.items ≡ leads.now) }
{
    let mut edges = Vec::with_capacity(alloc, leads.len())?;
    'each: for lead in leads {
        push_called(alloc, frame, o, *lead, &mut edges)?;
    }
    Ok(edges)
}

/// What an argument makes where it comes back, if its place is marked.
fn facts_if(
    alloc: Global,
    frame: &Frame,
    argument: &TypedAtom,
    is_marked: bool,
) -> Result<Vec<Fact>, AllocError>
    ensures facts { IfOk result (λ v. is_marked ≡ true → map fact_view v.items ≡ made_by frame.now (Some (typed_atom_view argument.now))) }
{
    if !is_marked {
        return Ok(Vec::new(alloc));
    }
    let facts = facts_of_argument(alloc, frame, argument)?;
    Ok(facts)
}

/// A list for each argument of a call: what it makes where it comes back, if its place is marked.
fn made_by_arguments(
    alloc: Global,
    frame: &Frame,
    arguments: &[TypedAtom],
    marks: &[bool],
) -> Result<Vec<Vec<Fact>>, AllocError>
    requires marks { length marks.now ≡ length arguments.now }
    ensures made { IfOk result (λ v. (i : ℕ) → is_marked marks.now i ≡ true → facts_in v.items i ≡ made_by frame.now (slice_get (map typed_atom_view arguments.now) i)) }
{
    let mut made = Vec::with_capacity(alloc, arguments.len())?;
    'each: for i in 0..arguments.len() {
        let facts = facts_if(alloc, frame, &arguments[i], marks[i])?;
        made.push(facts)?;
    }
    Ok(made)
}

/// A list for each argument of a call: what it makes where it comes back, if one of these edges names it.
fn made_for(
    alloc: Global,
    frame: &Frame,
    arguments: &[TypedAtom],
    edges: &[OnwardEdge],
) -> Result<Vec<Vec<Fact>>, AllocError>
    ensures made { IfOk result (λ v. (i : ℕ) → is_named edges.now i ≡ true → facts_in v.items i ≡ made_by frame.now (slice_get (map typed_atom_view arguments.now) i)) }
{
    let marks = named_by(alloc, arguments.len(), edges)?;
    let made = made_by_arguments(alloc, frame, arguments, marks.as_slice())?;
    Ok(made)
}

/// The one list of what a call takes away.
fn gone_by_call(
    alloc: Global,
    frame: &Frame,
    form: &TypedForm,
) -> Result<Vec<Vec<Path>>, AllocError>
    ensures gone { IfOk result (λ v. map (λ p. map path_view p.items) v.items ≡ kills_at frame.now form.now OkOutcome ∷ []) }
{
    let mut gone = Vec::with_capacity(alloc, 1)?;
    let paths = kills_of(alloc, frame, form, Outcome::Ok)?;
    gone.push(paths)?;
    Ok(gone)
}

/// The edges of these outcomes of a call with the lists that they name: one for each argument, and one of what the call takes away.
pub fn lists_of_call(
    alloc: Global,
    frame: &Frame,
    form: &TypedForm,
    o: &TypedPath,
    arguments: &[TypedAtom],
    leads: &[Lead],
) -> Result<Listed, AllocError>
    requires call { IsCall form.now o.now arguments.now }
    ensures edges { IfOk result (λ l. AreAsTabled frame.now form.now l) }
    ensures leads { IfOk result (λ l. map lead_of l.edges.items ≡ leads.now) }
{
    let edges = edges_of_call(alloc, frame, o, leads)?;
    let made = made_for(alloc, frame, arguments, edges.as_slice())?;
    let gone = gone_by_call(alloc, frame, form)?;
    Ok(Listed { made, gone, edges })
}
