//! The paths that each outcome takes away.
ghost use Rattle.std.specs.Prelude.{◌≡◌, ◌∷◌, [], IfOk, map, slice_get};
ghost use Rattle.herm_model.specs.Lists.{list_of};
ghost use Rattle.herm_model.specs.Statements as model;
ghost use Rattle.herm_model.specs.FactsOfStatements.{row, set_by_call, set_at, at_ok, at_turn, at_arm, at_ok_or_exception};
ghost use Rattle.herm_types.specs.View.{path_view};
ghost use Rattle.herm_typed.specs.Blocks.{typed_arm_view};
ghost use Rattle.herm_typed.specs.View.{typed_path_view, typed_atom_view, outcome_view};
ghost use Rattle.herm_judge.specs.View.{table_of, variables_of};
ghost use Rattle.herm_effects.specs.Rows.{kills_at};

use crate::arguments::{Way, push_arguments};
use crate::paths::push_path;
use herm_judge::{Frame, call_parameters};
use herm_typed::{Outcome, TypedAtom, TypedForm, TypedPath, TypedStmt};
use herm_types::Path;
use std::alloc::{AllocError, Global};

/// One path.
fn one(alloc: Global, x: &TypedPath) -> Result<Vec<Path>, AllocError>
    ensures { IfOk result (λ v. map path_view v.items ≡ typed_path_view x.now ∷ []) }
{
    let mut out = Vec::with_capacity(alloc, 1)?;
    push_path(alloc, &x.path, &mut out)?;
    Ok(out)
}

/// Two paths.
fn two(alloc: Global, y: &TypedPath, x: &TypedPath) -> Result<Vec<Path>, AllocError>
    ensures { IfOk result (λ v. map path_view v.items ≡ typed_path_view y.now ∷ typed_path_view x.now ∷ []) }
{
    let mut out = Vec::with_capacity(alloc, 2)?;
    push_path(alloc, &y.path, &mut out)?;
    push_path(alloc, &x.path, &mut out)?;
    Ok(out)
}

/// One path at the normal outcome.
fn one_at_ok(alloc: Global, x: &TypedPath, outcome: Outcome) -> Result<Vec<Path>, AllocError>
    ensures { IfOk result (λ v. map path_view v.items ≡ at_ok (typed_path_view x.now ∷ []) (outcome_view outcome)) }
{
    match outcome {
        Outcome::Ok => one(alloc, x),
        _ => Ok(Vec::new(alloc)),
    }
}

/// Two paths at the normal outcome.
fn two_at_ok(
    alloc: Global,
    y: &TypedPath,
    x: &TypedPath,
    outcome: Outcome,
) -> Result<Vec<Path>, AllocError>
    ensures { IfOk result (λ v. map path_view v.items ≡ at_ok (typed_path_view y.now ∷ typed_path_view x.now ∷ []) (outcome_view outcome)) }
{
    match outcome {
        Outcome::Ok => two(alloc, y, x),
        _ => Ok(Vec::new(alloc)),
    }
}

/// The row that a turn of a loop sets.
fn row_at_turn(alloc: Global, r: &TypedPath, outcome: Outcome) -> Result<Vec<Path>, AllocError>
    ensures { IfOk result (λ v. map path_view v.items ≡ at_turn (typed_path_view r.now ∷ []) (outcome_view outcome)) }
{
    match outcome {
        Outcome::Turn => one(alloc, r),
        _ => Ok(Vec::new(alloc)),
    }
}

/// The message that is sent goes in any case.
fn message_sent(alloc: Global, x: &TypedPath, outcome: Outcome) -> Result<Vec<Path>, AllocError>
    ensures { IfOk result (λ v. map path_view v.items ≡ at_ok_or_exception (typed_path_view x.now ∷ []) (λ e. typed_path_view x.now ∷ []) (outcome_view outcome)) }
{
    match outcome {
        Outcome::Ok => one(alloc, x),
        Outcome::Raised(_) => one(alloc, x),
        _ => Ok(Vec::new(alloc)),
    }
}

/// The target of the arm at a place.
fn target_at(
    alloc: Global,
    arms: &[(TypedPath, TypedPath, Vec<TypedStmt>)],
    place: u32,
) -> Result<Vec<Path>, AllocError>
    ensures { IfOk result (λ v. map path_view v.items ≡ list_of (λ (a : model.Arm). a.target ∷ []) (slice_get (map typed_arm_view arms.now) place)) }
{
    match arms.get(place as usize) {
        None => Ok(Vec::new(alloc)),
        Some((_, target, _)) => one(alloc, target),
    }
}

/// The target of the arm of a `select` that is taken.
fn target_at_arm(
    alloc: Global,
    frame: &Frame,
    arms: &[(TypedPath, TypedPath, Vec<TypedStmt>)],
    outcome: Outcome,
) -> Result<Vec<Path>, AllocError>
    ensures { IfOk result (λ v. map path_view v.items ≡ at_arm (set_at (table_of frame.now) (variables_of frame.now) (map typed_arm_view arms.now)) (outcome_view outcome)) }
{
    match outcome {
        Outcome::Arm(place) => target_at(alloc, arms, place),
        _ => Ok(Vec::new(alloc)),
    }
}

/// The paths of the arguments of a call that come back.
pub fn set_by_call(
    alloc: Global,
    frame: &Frame,
    o: &TypedPath,
    arguments: &[TypedAtom],
) -> Result<Vec<Path>, AllocError>
    ensures { IfOk result (λ v. map path_view v.items ≡ set_by_call (table_of frame.now) (variables_of frame.now) (typed_path_view o.now) (map typed_atom_view arguments.now)) }
{
    let mut out = Vec::new(alloc);
    push_arguments(
        alloc,
        Way::Returned,
        call_parameters(frame, o),
        arguments,
        &mut out,
    )?;
    Ok(out)
}

/// The arguments of a call that come back go in any case.
fn arguments_set(
    alloc: Global,
    frame: &Frame,
    o: &TypedPath,
    arguments: &[TypedAtom],
    outcome: Outcome,
) -> Result<Vec<Path>, AllocError>
    ensures { IfOk result (λ v. map path_view v.items ≡ (row (table_of frame.now) (variables_of frame.now) (model.Call (typed_path_view o.now) (map typed_atom_view arguments.now))).gone (outcome_view outcome)) }
{
    match outcome {
        Outcome::Ok => set_by_call(alloc, frame, o, arguments),
        Outcome::Raised(_) => set_by_call(alloc, frame, o, arguments),
        _ => Ok(Vec::new(alloc)),
    }
}

/// The paths that an outcome of a form takes away.
pub fn gone(
    alloc: Global,
    frame: &Frame,
    form: &TypedForm,
    outcome: Outcome,
) -> Result<Vec<Path>, AllocError>
    ensures { IfOk result (λ v. map path_view v.items ≡ kills_at frame.now form.now outcome) }
{
    match form {
        TypedForm::Assign(x, _) => one_at_ok(alloc, x, outcome),
        TypedForm::Move(y, x) => two_at_ok(alloc, y, x, outcome),
        TypedForm::New(x) => one_at_ok(alloc, x, outcome),
        TypedForm::Discard(x) => one_at_ok(alloc, x, outcome),
        TypedForm::Unite(v, _, y) => two_at_ok(alloc, y, v, outcome),
        TypedForm::Dissolve(v, _, y) => two_at_ok(alloc, v, y, outcome),
        TypedForm::Reveal(_, _) => Ok(Vec::new(alloc)),
        TypedForm::Case(_, _) => Ok(Vec::new(alloc)),
        TypedForm::Wrap(y, p) => two_at_ok(alloc, y, p, outcome),
        TypedForm::Unwrap(p, _, y) => two_at_ok(alloc, p, y, outcome),
        TypedForm::Insert(r, _) => one_at_ok(alloc, r, outcome),
        TypedForm::Remove(r, _, _) => one_at_ok(alloc, r, outcome),
        TypedForm::Get(r, _, _) => one_at_ok(alloc, r, outcome),
        TypedForm::For(r, _, _) => row_at_turn(alloc, r, outcome),
        TypedForm::Connect(o, _) => one_at_ok(alloc, o, outcome),
        TypedForm::Send(x, _) => message_sent(alloc, x, outcome),
        TypedForm::Receive(x, _) => one_at_ok(alloc, x, outcome),
        TypedForm::Select(arms) => target_at_arm(alloc, frame, arms.as_slice(), outcome),
        TypedForm::Call(o, arguments) => {
            arguments_set(alloc, frame, o, arguments.as_slice(), outcome)
        }
        TypedForm::Return(m) => one_at_ok(alloc, m, outcome),
        TypedForm::ReturnBy(m, _) => one_at_ok(alloc, m, outcome),
        TypedForm::Create(o, _) => one_at_ok(alloc, o, outcome),
        TypedForm::If(_, _, _) => Ok(Vec::new(alloc)),
        TypedForm::While(_, _) => Ok(Vec::new(alloc)),
        TypedForm::Raise(_) => Ok(Vec::new(alloc)),
        TypedForm::Leave => Ok(Vec::new(alloc)),
        TypedForm::Try(_, _) => Ok(Vec::new(alloc)),
    }
}
