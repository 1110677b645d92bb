//! What each outcome of a form makes, as its row of the statement table has it.
ghost use Rattle.std.specs.Prelude.{◌≡◌, ◌++◌, ◌∷◌, [], IfOk, OnOk, map};
ghost use Rattle.herm_model.specs.Paths as paths;
ghost use Rattle.herm_model.specs.Statements as model;
ghost use Rattle.herm_model.specs.FactsOfStatements.{row, full, full_of_each, received_from, sent_to, received_at, kept_by_call, at_ok, at_turn, at_component, at_arm, at_exception};
ghost use Rattle.herm_types.specs.View.{path_view, fact_view};
ghost use Rattle.herm_typed.specs.Blocks.{typed_arm_view};
ghost use Rattle.herm_typed.specs.View.{typed_path_view, typed_atom_view, outcome_view};
ghost use Rattle.herm_judge.specs.View.{table_of, variables_of};
ghost use Rattle.herm_effects.specs.Rows.{made_at};

use crate::arguments::{kept_for, push_arguments_at};
use crate::gone::set_by_call;
use crate::paths::copy;
use crate::ports::{push_received, push_sent};
use crate::present::{push_full, push_full_each};
use herm_base::ExcNo;
use herm_judge::{Frame, call_raises};
use herm_typed::{Outcome, TypedAtom, TypedForm, TypedPath, TypedStmt};
use herm_types::{Fact, Path};
use std::alloc::{AllocError, Global};

/// A full value at the path.
fn full_value(alloc: Global, frame: &Frame, x: &TypedPath) -> Result<Vec<Fact>, AllocError>
    ensures { IfOk result (λ v. map fact_view v.items ≡ full (table_of frame.now) (variables_of frame.now) (typed_path_view x.now)) }
{
    let mut out = Vec::with_capacity(alloc, 2)?;
    push_full(alloc, frame, &x.path, &mut out)?;
    Ok(out)
}

/// A full value at the normal outcome.
fn full_at_ok(
    alloc: Global,
    frame: &Frame,
    x: &TypedPath,
    outcome: Outcome,
) -> Result<Vec<Fact>, AllocError>
    ensures { IfOk result (λ v. map fact_view v.items ≡ at_ok (full (table_of frame.now) (variables_of frame.now) (typed_path_view x.now)) (outcome_view outcome)) }
{
    match outcome {
        Outcome::Ok => full_value(alloc, frame, x),
        _ => Ok(Vec::new(alloc)),
    }
}

/// A full row at the turn of a loop.
fn full_at_turn(
    alloc: Global,
    frame: &Frame,
    x: &TypedPath,
    outcome: Outcome,
) -> Result<Vec<Fact>, AllocError>
    ensures { IfOk result (λ v. map fact_view v.items ≡ at_turn (full (table_of frame.now) (variables_of frame.now) (typed_path_view x.now)) (outcome_view outcome)) }
{
    match outcome {
        Outcome::Turn => full_value(alloc, frame, x),
        _ => Ok(Vec::new(alloc)),
    }
}

/// Appends `init` of a path.
fn push_init(alloc: Global, p: &TypedPath, out: &mut Vec<Fact>) -> Result<(), AllocError>
    ensures { OnOk result (map fact_view out.new.items ≡ map fact_view out.old.items ++ paths.init (typed_path_view p.now) ∷ []) }
{
    let path = copy(alloc, &p.path)?;
    out.push(Fact::Init(path))?;
    Ok(())
}

/// Appends `case` of a variant's path.
fn push_case(
    alloc: Global,
    v: &TypedPath,
    component: u32,
    out: &mut Vec<Fact>,
) -> Result<(), AllocError>
    ensures { OnOk result (map fact_view out.new.items ≡ map fact_view out.old.items ++ paths.case (typed_path_view v.now) component ∷ []) }
{
    let path = copy(alloc, &v.path)?;
    out.push(Fact::Case(path, component))?;
    Ok(())
}

/// A value, and nothing of its parts, at the normal outcome.
fn init_at_ok(alloc: Global, x: &TypedPath, outcome: Outcome) -> Result<Vec<Fact>, AllocError>
    ensures { IfOk result (λ v. map fact_view v.items ≡ at_ok (paths.init (typed_path_view x.now) ∷ []) (outcome_view outcome)) }
{
    match outcome {
        Outcome::Ok => {
            let mut out = Vec::with_capacity(alloc, 1)?;
            push_init(alloc, x, &mut out)?;
            Ok(out)
        }
        _ => Ok(Vec::new(alloc)),
    }
}

/// A `unite` makes the variant, with its component known.
fn unite_makes(
    alloc: Global,
    v: &TypedPath,
    component: u32,
    outcome: Outcome,
) -> Result<Vec<Fact>, AllocError>
    ensures { IfOk result (λ facts. map fact_view facts.items ≡ at_ok (paths.init (typed_path_view v.now) ∷ paths.case (typed_path_view v.now) component ∷ []) (outcome_view outcome)) }
{
    let mut out = Vec::new(alloc);
    match outcome {
        Outcome::Ok => {
            push_init(alloc, v, &mut out)?;
            push_case(alloc, v, component, &mut out)?;
            Ok(out)
        }
        _ => Ok(out),
    }
}

/// A `reveal` makes the component known.
fn reveal_makes(
    alloc: Global,
    v: &TypedPath,
    component: u32,
    outcome: Outcome,
) -> Result<Vec<Fact>, AllocError>
    ensures { IfOk result (λ facts. map fact_view facts.items ≡ at_ok (paths.case (typed_path_view v.now) component ∷ []) (outcome_view outcome)) }
{
    let mut out = Vec::new(alloc);
    match outcome {
        Outcome::Ok => {
            push_case(alloc, v, component, &mut out)?;
            Ok(out)
        }
        _ => Ok(out),
    }
}

/// A `case` makes the component of its arm known.
fn case_makes(alloc: Global, v: &TypedPath, outcome: Outcome) -> Result<Vec<Fact>, AllocError>
    ensures { IfOk result (λ facts. map fact_view facts.items ≡ at_component (λ c. paths.case (typed_path_view v.now) c ∷ []) (outcome_view outcome)) }
{
    let mut out = Vec::new(alloc);
    match outcome {
        Outcome::Component(component) => {
            push_case(alloc, v, component, &mut out)?;
            Ok(out)
        }
        _ => Ok(out),
    }
}

/// A message that could not be sent is there again.
fn send_makes(
    alloc: Global,
    frame: &Frame,
    x: &TypedPath,
    o: &TypedPath,
    outcome: Outcome,
) -> Result<Vec<Fact>, AllocError>
    ensures { IfOk result (λ v. map fact_view v.items ≡ at_exception (λ e. sent_to (table_of frame.now) (variables_of frame.now) (typed_path_view o.now) (typed_path_view x.now)) (outcome_view outcome)) }
{
    let mut out = Vec::new(alloc);
    match outcome {
        Outcome::Raised(_) => {
            push_sent(alloc, frame, o, &x.path, &mut out)?;
            Ok(out)
        }
        _ => Ok(out),
    }
}

/// The declared facts of a message that is received.
fn received(
    alloc: Global,
    frame: &Frame,
    x: &TypedPath,
    i: &TypedPath,
) -> Result<Vec<Fact>, AllocError>
    ensures { IfOk result (λ v. map fact_view v.items ≡ received_from (table_of frame.now) (variables_of frame.now) (typed_path_view i.now) (typed_path_view x.now)) }
{
    let mut out = Vec::new(alloc);
    push_received(alloc, frame, i, &x.path, &mut out)?;
    Ok(out)
}

/// A `receive` makes the declared facts of its message.
fn receive_makes(
    alloc: Global,
    frame: &Frame,
    x: &TypedPath,
    i: &TypedPath,
    outcome: Outcome,
) -> Result<Vec<Fact>, AllocError>
    ensures { IfOk result (λ v. map fact_view v.items ≡ at_ok (received_from (table_of frame.now) (variables_of frame.now) (typed_path_view i.now) (typed_path_view x.now)) (outcome_view outcome)) }
{
    match outcome {
        Outcome::Ok => received(alloc, frame, x, i),
        _ => Ok(Vec::new(alloc)),
    }
}

/// The declared facts of the message of the arm at a place.
fn received_at(
    alloc: Global,
    frame: &Frame,
    arms: &[(TypedPath, TypedPath, Vec<TypedStmt>)],
    place: u32,
) -> Result<Vec<Fact>, AllocError>
    ensures { IfOk result (λ v. map fact_view v.items ≡ received_at (table_of frame.now) (variables_of frame.now) (map typed_arm_view arms.now) place) }
{
    match arms.get(place as usize) {
        None => Ok(Vec::new(alloc)),
        Some((port, target, _)) => received(alloc, frame, target, port),
    }
}

/// A `select` makes the declared facts of the message of the arm that is taken.
fn select_makes(
    alloc: Global,
    frame: &Frame,
    arms: &[(TypedPath, TypedPath, Vec<TypedStmt>)],
    outcome: Outcome,
) -> Result<Vec<Fact>, AllocError>
    ensures { IfOk result (λ v. map fact_view v.items ≡ at_arm (received_at (table_of frame.now) (variables_of frame.now) (map typed_arm_view arms.now)) (outcome_view outcome)) }
{
    match outcome {
        Outcome::Arm(place) => received_at(alloc, frame, arms, place),
        _ => Ok(Vec::new(alloc)),
    }
}

/// A full value at each path.
fn full_values(alloc: Global, frame: &Frame, paths: &[Path]) -> Result<Vec<Fact>, AllocError>
    ensures { IfOk result (λ v. map fact_view v.items ≡ full_of_each (table_of frame.now) (variables_of frame.now) (map path_view paths.now)) }
{
    let mut out = Vec::new(alloc);
    push_full_each(alloc, frame, paths, &mut out)?;
    Ok(out)
}

/// The paths of the arguments of a call that an exception keeps.
fn kept_by_call(
    alloc: Global,
    frame: &Frame,
    o: &TypedPath,
    arguments: &[TypedAtom],
    e: ExcNo,
) -> Result<Vec<Path>, AllocError>
    ensures { IfOk result (λ v. map path_view v.items ≡ kept_by_call (table_of frame.now) (variables_of frame.now) (typed_path_view o.now) (map typed_atom_view arguments.now) e.0) }
{
    let mut out = Vec::new(alloc);
    let places = kept_for(call_raises(frame, o), e);
    push_arguments_at(alloc, arguments, places, &mut out)?;
    Ok(out)
}

/// A call makes the arguments that come back: all of them, and at an exception those that it keeps.
fn call_makes(
    alloc: Global,
    frame: &Frame,
    o: &TypedPath,
    arguments: &[TypedAtom],
    outcome: Outcome,
) -> Result<Vec<Fact>, AllocError>
    ensures { IfOk result (λ v. map fact_view v.items ≡ (row (table_of frame.now) (variables_of frame.now) (model.Call (typed_path_view o.now) (map typed_atom_view arguments.now))).made (outcome_view outcome)) }
{
    match outcome {
        Outcome::Ok => {
            let set = set_by_call(alloc, frame, o, arguments)?;
            full_values(alloc, frame, set.as_slice())
        }
        Outcome::Raised(e) => {
            let kept = kept_by_call(alloc, frame, o, arguments, e)?;
            full_values(alloc, frame, kept.as_slice())
        }
        _ => Ok(Vec::new(alloc)),
    }
}

/// The facts that an outcome of a form makes.
pub fn made(
    alloc: Global,
    frame: &Frame,
    form: &TypedForm,
    outcome: Outcome,
) -> Result<Vec<Fact>, AllocError>
    ensures { IfOk result (λ v. map fact_view v.items ≡ made_at frame.now form.now outcome) }
{
    match form {
        TypedForm::Assign(x, _) => full_at_ok(alloc, frame, x, outcome),
        TypedForm::Move(_, x) => full_at_ok(alloc, frame, x, outcome),
        TypedForm::New(x) => init_at_ok(alloc, x, outcome),
        TypedForm::Discard(_) => Ok(Vec::new(alloc)),
        TypedForm::Unite(v, c, _) => unite_makes(alloc, v, *c, outcome),
        TypedForm::Dissolve(_, _, y) => full_at_ok(alloc, frame, y, outcome),
        TypedForm::Reveal(v, c) => reveal_makes(alloc, v, *c, outcome),
        TypedForm::Case(v, _) => case_makes(alloc, v, outcome),
        TypedForm::Wrap(_, p) => init_at_ok(alloc, p, outcome),
        TypedForm::Unwrap(_, _, y) => full_at_ok(alloc, frame, y, outcome),
        TypedForm::Insert(_, _) => Ok(Vec::new(alloc)),
        TypedForm::Remove(r, _, _) => full_at_ok(alloc, frame, r, outcome),
        TypedForm::Get(r, _, _) => full_at_ok(alloc, frame, r, outcome),
        TypedForm::For(r, _, _) => full_at_turn(alloc, frame, r, outcome),
        TypedForm::Connect(o, _) => init_at_ok(alloc, o, outcome),
        TypedForm::Send(x, o) => send_makes(alloc, frame, x, o, outcome),
        TypedForm::Receive(x, i) => receive_makes(alloc, frame, x, i, outcome),
        TypedForm::Select(arms) => select_makes(alloc, frame, arms.as_slice(), outcome),
        TypedForm::Call(o, arguments) => {
            call_makes(alloc, frame, o, arguments.as_slice(), outcome)
        }
        TypedForm::Return(_) => Ok(Vec::new(alloc)),
        TypedForm::ReturnBy(_, _) => Ok(Vec::new(alloc)),
        TypedForm::Create(o, _) => init_at_ok(alloc, o, outcome),
        TypedForm::If(_, _, _) => Ok(Vec::new(alloc)),
        TypedForm::While(_, _) => Ok(Vec::new(alloc)),
        TypedForm::Raise(_) => Ok(Vec::new(alloc)),
        TypedForm::Leave => Ok(Vec::new(alloc)),
        TypedForm::Try(_, _) => Ok(Vec::new(alloc)),
    }
}
