//! What each statement needs, and what each of its outcomes makes and takes away: the statement table.
#![tactic(auto)]

ghost use Rattle.std.specs.Prelude.{◌≡◌, IfOk, map};
ghost use Rattle.herm_types.specs.View.{path_view, fact_view};
ghost use Rattle.herm_effects.specs.Rows.{needs_at, makes_at, kills_at};

mod arguments;
mod before;
mod called;
mod closed;
mod few;
mod gone;
mod made;
mod needed;
mod paths;
mod ports;
mod present;
mod reads;

pub use called::{facts_of_argument, places_back};
use closed::closed;
use gone::gone;
use herm_judge::Frame;
use herm_typed::{Outcome, TypedForm};
use herm_types::{Fact, Path};
use made::made;
use needed::needed;
use std::alloc::{AllocError, Global};

/// The facts that a statement needs, in the order written, each behind those before it and without repeats.
pub fn needs_of(alloc: Global, frame: &Frame, form: &TypedForm) -> Result<Vec<Fact>, AllocError>
    ensures { IfOk result (λ v. map fact_view v.items ≡ needs_at frame.now form.now) }
{
    let facts = needed(alloc, frame, form)?;
    let facts = closed(alloc, frame, facts)?;
    Ok(facts)
}

/// The facts that an outcome of a statement makes, each behind those before it and without repeats.
pub fn makes_of(
    alloc: Global,
    frame: &Frame,
    form: &TypedForm,
    outcome: Outcome,
) -> Result<Vec<Fact>, AllocError>
    ensures { IfOk result (λ v. map fact_view v.items ≡ makes_at frame.now form.now outcome) }
{
    let facts = made(alloc, frame, form, outcome)?;
    let facts = closed(alloc, frame, facts)?;
    Ok(facts)
}

/// The paths that an outcome of a statement takes away: every fact at one of them or below is lost, unless the same
/// outcome makes it.
pub fn kills_of(
    alloc: Global,
    frame: &Frame,
    form: &TypedForm,
    outcome: Outcome,
) -> Result<Vec<Path>, AllocError>
    ensures { IfOk result (λ v. map path_view v.items ≡ kills_at frame.now form.now outcome) }
{
    let paths = gone(alloc, frame, form, outcome)?;
    Ok(paths)
}
