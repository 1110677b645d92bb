//! What each form needs, as its row of the statement table has it.
ghost use Rattle.std.specs.Prelude.{◌≡◌, ◌++◌, ◌∷◌, [], IfOk, OnOk, map, flat_map};
ghost use Rattle.herm_model.specs.Paths as paths;
ghost use Rattle.herm_model.specs.Expressions.{paths_read, paths_among};
ghost use Rattle.herm_model.specs.Statements as model;
ghost use Rattle.herm_model.specs.FactsOfStatements.{row, present, full, full_of_each, room_for, sent_to, returned, returned_by};
ghost use Rattle.herm_types.specs.View.{fact_view};
ghost use Rattle.herm_typed.specs.Blocks.{typed_arm_view};
ghost use Rattle.herm_typed.specs.View.{typed_path_view, typed_atom_view, typed_expr_view};
ghost use Rattle.herm_judge.specs.View.{table_of, variables_of};
ghost use Rattle.herm_effects.specs.Rows.{needed_at};

use crate::arguments::{Way, kept_for, parts_at, push_arguments, returned_places};
use crate::paths::copy;
use crate::ports::{parameters_at, push_sent, raises_at};
use crate::present::{push_full, push_full_each, push_present, push_room, push_room_each};
use crate::reads::{push_among, push_read};
use herm_base::ExcNo;
use herm_judge::{Frame, call_parameters};
use herm_typed::{TypedAtom, TypedExpr, TypedForm, TypedPath, TypedStmt};
use herm_types::Fact;
use std::alloc::{AllocError, Global};

/// A value at the path.
fn present_alone(alloc: Global, frame: &Frame, p: &TypedPath) -> Result<Vec<Fact>, AllocError>
    ensures { IfOk result (λ v. map fact_view v.items ≡ present (table_of frame.now) (variables_of frame.now) (typed_path_view p.now)) }
{
    let mut out = Vec::with_capacity(alloc, 1)?;
    push_present(alloc, frame, &p.path, &mut out)?;
    Ok(out)
}

/// A place for a value at the path.
fn room_alone(alloc: Global, frame: &Frame, p: &TypedPath) -> Result<Vec<Fact>, AllocError>
    ensures { IfOk result (λ v. map fact_view v.items ≡ room_for (table_of frame.now) (variables_of frame.now) (typed_path_view p.now)) }
{
    let mut out = Vec::new(alloc);
    push_room(alloc, frame, &p.path, &mut out)?;
    Ok(out)
}

/// A place at the target, and a full value at the source.
fn room_and_full(
    alloc: Global,
    frame: &Frame,
    target: &TypedPath,
    source: &TypedPath,
) -> Result<Vec<Fact>, AllocError>
    ensures { IfOk result (λ v. map fact_view v.items ≡ room_for (table_of frame.now) (variables_of frame.now) (typed_path_view target.now) ++ full (table_of frame.now) (variables_of frame.now) (typed_path_view source.now)) }
{
    let mut out = Vec::new(alloc);
    push_room(alloc, frame, &target.path, &mut out)?;
    push_full(alloc, frame, &source.path, &mut out)?;
    Ok(out)
}

/// A place at the target, and a value at the source.
fn room_and_present(
    alloc: Global,
    frame: &Frame,
    target: &TypedPath,
    source: &TypedPath,
) -> Result<Vec<Fact>, AllocError>
    ensures { IfOk result (λ v. map fact_view v.items ≡ room_for (table_of frame.now) (variables_of frame.now) (typed_path_view target.now) ++ present (table_of frame.now) (variables_of frame.now) (typed_path_view source.now)) }
{
    let mut out = Vec::with_capacity(alloc, 2)?;
    push_room(alloc, frame, &target.path, &mut out)?;
    push_present(alloc, frame, &source.path, &mut out)?;
    Ok(out)
}

/// Appends the facts by which each path that an expression reads is full.
fn push_expression(
    alloc: Global,
    frame: &Frame,
    e: &TypedExpr,
    out: &mut Vec<Fact>,
) -> Result<(), AllocError>
    ensures { OnOk result (map fact_view out.new.items ≡ map fact_view out.old.items ++ full_of_each (table_of frame.now) (variables_of frame.now) (paths_read (typed_expr_view e.now))) }
{
    let mut paths = Vec::new(alloc);
    push_read(alloc, e, &mut paths)?;
    push_full_each(alloc, frame, paths.as_slice(), out)?;
    Ok(())
}

/// What a test needs: each path that its expression reads, full.
fn expression_alone(alloc: Global, frame: &Frame, e: &TypedExpr) -> Result<Vec<Fact>, AllocError>
    ensures { IfOk result (λ v. map fact_view v.items ≡ full_of_each (table_of frame.now) (variables_of frame.now) (paths_read (typed_expr_view e.now))) }
{
    let mut out = Vec::with_capacity(alloc, 2)?;
    push_expression(alloc, frame, e, &mut out)?;
    Ok(out)
}

/// What an assignment needs: a place at the target, and each path that the expression reads, full.
fn room_and_expression(
    alloc: Global,
    frame: &Frame,
    x: &TypedPath,
    e: &TypedExpr,
) -> Result<Vec<Fact>, AllocError>
    ensures { IfOk result (λ v. map fact_view v.items ≡ room_for (table_of frame.now) (variables_of frame.now) (typed_path_view x.now) ++ full_of_each (table_of frame.now) (variables_of frame.now) (paths_read (typed_expr_view e.now))) }
{
    let mut out = Vec::new(alloc);
    push_room(alloc, frame, &x.path, &mut out)?;
    push_expression(alloc, frame, e, &mut out)?;
    Ok(out)
}

/// What a `dissolve` needs: a place for the component's value, and that the variant has the component.
fn dissolve_needs(
    alloc: Global,
    frame: &Frame,
    v: &TypedPath,
    component: u32,
    y: &TypedPath,
) -> Result<Vec<Fact>, AllocError>
    ensures { IfOk result (λ facts. map fact_view facts.items ≡ room_for (table_of frame.now) (variables_of frame.now) (typed_path_view y.now) ++ paths.case (typed_path_view v.now) component ∷ []) }
{
    let mut out = Vec::new(alloc);
    push_room(alloc, frame, &y.path, &mut out)?;
    let path = copy(alloc, &v.path)?;
    out.push(Fact::Case(path, component))?;
    Ok(out)
}

/// What an `insert` needs: a full row, and the table.
fn insert_needs(
    alloc: Global,
    frame: &Frame,
    r: &TypedPath,
    t: &TypedPath,
) -> Result<Vec<Fact>, AllocError>
    ensures { IfOk result (λ v. map fact_view v.items ≡ full (table_of frame.now) (variables_of frame.now) (typed_path_view r.now) ++ present (table_of frame.now) (variables_of frame.now) (typed_path_view t.now)) }
{
    let mut out = Vec::new(alloc);
    push_full(alloc, frame, &r.path, &mut out)?;
    push_present(alloc, frame, &t.path, &mut out)?;
    Ok(out)
}

/// What `remove` and `get` need: a place for the row, the table, and the keys.
fn row_needs(
    alloc: Global,
    frame: &Frame,
    r: &TypedPath,
    t: &TypedPath,
    keys: &[TypedAtom],
) -> Result<Vec<Fact>, AllocError>
    ensures { IfOk result (λ v. map fact_view v.items ≡ room_for (table_of frame.now) (variables_of frame.now) (typed_path_view r.now) ++ present (table_of frame.now) (variables_of frame.now) (typed_path_view t.now) ++ full_of_each (table_of frame.now) (variables_of frame.now) (paths_among (map typed_atom_view keys.now))) }
{
    let mut read = Vec::new(alloc);
    push_among(alloc, keys, &mut read)?;
    let mut out = room_and_present(alloc, frame, r, t)?;
    push_full_each(alloc, frame, read.as_slice(), &mut out)?;
    Ok(out)
}

/// What a `send` needs: the declared facts of the message, and the port.
fn send_needs(
    alloc: Global,
    frame: &Frame,
    x: &TypedPath,
    o: &TypedPath,
) -> Result<Vec<Fact>, AllocError>
    ensures { IfOk result (λ v. map fact_view v.items ≡ sent_to (table_of frame.now) (variables_of frame.now) (typed_path_view o.now) (typed_path_view x.now) ++ present (table_of frame.now) (variables_of frame.now) (typed_path_view o.now)) }
{
    let mut out = Vec::new(alloc);
    push_sent(alloc, frame, o, &x.path, &mut out)?;
    push_present(alloc, frame, &o.path, &mut out)?;
    Ok(out)
}

/// Appends a place for the message of each arm.
fn push_targets(
    alloc: Global,
    frame: &Frame,
    arms: &[(TypedPath, TypedPath, Vec<TypedStmt>)],
    out: &mut Vec<Fact>,
) -> Result<(), AllocError>
    ensures { OnOk result (map fact_view out.new.items ≡ map fact_view out.old.items ++ flat_map (λ a. room_for (table_of frame.now) (variables_of frame.now) a.target) (map typed_arm_view arms.now)) }
{
    for (_, target, _) in arms {
        push_room(alloc, frame, &target.path, out)?;
    }
    Ok(())
}

/// Appends a value at the port of each arm.
fn push_ports(
    alloc: Global,
    frame: &Frame,
    arms: &[(TypedPath, TypedPath, Vec<TypedStmt>)],
    out: &mut Vec<Fact>,
) -> Result<(), AllocError>
    ensures { OnOk result (map fact_view out.new.items ≡ map fact_view out.old.items ++ flat_map (λ a. present (table_of frame.now) (variables_of frame.now) a.port) (map typed_arm_view arms.now)) }
{
    for (port, _, _) in arms {
        push_present(alloc, frame, &port.path, out)?;
    }
    Ok(())
}

/// What a `select` needs: a place for each message, and each port.
fn select_needs(
    alloc: Global,
    frame: &Frame,
    arms: &[(TypedPath, TypedPath, Vec<TypedStmt>)],
) -> Result<Vec<Fact>, AllocError>
    ensures { IfOk result (λ v. map fact_view v.items ≡ (row (table_of frame.now) (variables_of frame.now) (model.Select (map typed_arm_view arms.now))).needed) }
{
    let mut out = Vec::new(alloc);
    push_targets(alloc, frame, arms, &mut out)?;
    push_ports(alloc, frame, arms, &mut out)?;
    Ok(out)
}

/// What a call needs: a place for each argument that is set, the port, and the arguments that go to the callee.
fn call_needs(
    alloc: Global,
    frame: &Frame,
    o: &TypedPath,
    arguments: &[TypedAtom],
) -> Result<Vec<Fact>, AllocError>
    ensures { IfOk result (λ v. map fact_view v.items ≡ (row (table_of frame.now) (variables_of frame.now) (model.Call (typed_path_view o.now) (map typed_atom_view arguments.now))).needed) }
{
    let params = call_parameters(frame, o);
    let mut set = Vec::new(alloc);
    push_arguments(alloc, Way::Returned, params, arguments, &mut set)?;
    let mut given = Vec::new(alloc);
    push_arguments(alloc, Way::Given, params, arguments, &mut given)?;
    let mut out = Vec::new(alloc);
    push_room_each(alloc, frame, set.as_slice(), &mut out)?;
    push_present(alloc, frame, &o.path, &mut out)?;
    push_full_each(alloc, frame, given.as_slice(), &mut out)?;
    Ok(out)
}

/// What a `return` of a callmessage needs of the parameters at these places.
fn returned_parts(
    alloc: Global,
    frame: &Frame,
    m: &TypedPath,
    places: &[u32],
) -> Result<Vec<Fact>, AllocError>
    ensures { IfOk result (λ v. map fact_view v.items ≡ present (table_of frame.now) (variables_of frame.now) (typed_path_view m.now) ++ full_of_each (table_of frame.now) (variables_of frame.now) (map (λ i. typed_path_view m.now ++ i ∷ []) places.now)) }
{
    let parts = parts_at(alloc, &m.path, places)?;
    let mut out = Vec::new(alloc);
    push_present(alloc, frame, &m.path, &mut out)?;
    push_full_each(alloc, frame, parts.as_slice(), &mut out)?;
    Ok(out)
}

/// What a `return` needs: the callmessage, and the parameters that come back, full.
fn return_needs(alloc: Global, frame: &Frame, m: &TypedPath) -> Result<Vec<Fact>, AllocError>
    ensures { IfOk result (λ v. map fact_view v.items ≡ present (table_of frame.now) (variables_of frame.now) (typed_path_view m.now) ++ full_of_each (table_of frame.now) (variables_of frame.now) (returned (table_of frame.now) (variables_of frame.now) (typed_path_view m.now))) }
{
    let places = returned_places(alloc, parameters_at(frame, m))?;
    let out = returned_parts(alloc, frame, m, places.as_slice())?;
    Ok(out)
}

/// What a `return` by an exception needs: the callmessage, and the parameters that the exception keeps, full.
fn return_by_needs(
    alloc: Global,
    frame: &Frame,
    m: &TypedPath,
    e: ExcNo,
) -> Result<Vec<Fact>, AllocError>
    ensures { IfOk result (λ v. map fact_view v.items ≡ present (table_of frame.now) (variables_of frame.now) (typed_path_view m.now) ++ full_of_each (table_of frame.now) (variables_of frame.now) (returned_by (table_of frame.now) (variables_of frame.now) (typed_path_view m.now) e.0)) }
{
    let out = returned_parts(alloc, frame, m, kept_for(raises_at(frame, m), e))?;
    Ok(out)
}

/// The facts that a form needs, in the order written.
pub fn needed(alloc: Global, frame: &Frame, form: &TypedForm) -> Result<Vec<Fact>, AllocError>
    ensures { IfOk result (λ v. map fact_view v.items ≡ needed_at frame.now form.now) }
{
    match form {
        TypedForm::Assign(x, e) => room_and_expression(alloc, frame, x, e),
        TypedForm::Move(y, x) => room_and_full(alloc, frame, x, y),
        TypedForm::New(x) => room_alone(alloc, frame, x),
        TypedForm::Discard(x) => present_alone(alloc, frame, x),
        TypedForm::Unite(v, _, y) => room_and_full(alloc, frame, v, y),
        TypedForm::Dissolve(v, c, y) => dissolve_needs(alloc, frame, v, *c, y),
        TypedForm::Reveal(v, _) => present_alone(alloc, frame, v),
        TypedForm::Case(v, _) => present_alone(alloc, frame, v),
        TypedForm::Wrap(y, p) => room_and_full(alloc, frame, p, y),
        TypedForm::Unwrap(p, _, y) => room_and_present(alloc, frame, y, p),
        TypedForm::Insert(r, t) => insert_needs(alloc, frame, r, t),
        TypedForm::Remove(r, t, keys) => row_needs(alloc, frame, r, t, keys.as_slice()),
        TypedForm::Get(r, t, keys) => row_needs(alloc, frame, r, t, keys.as_slice()),
        TypedForm::For(r, t, _) => room_and_present(alloc, frame, r, t),
        TypedForm::Connect(o, i) => room_and_present(alloc, frame, o, i),
        TypedForm::Send(x, o) => send_needs(alloc, frame, x, o),
        TypedForm::Receive(x, i) => room_and_present(alloc, frame, x, i),
        TypedForm::Select(arms) => select_needs(alloc, frame, arms.as_slice()),
        TypedForm::Call(o, arguments) => call_needs(alloc, frame, o, arguments.as_slice()),
        TypedForm::Return(m) => return_needs(alloc, frame, m),
        TypedForm::ReturnBy(m, e) => return_by_needs(alloc, frame, m, *e),
        TypedForm::Create(o, _) => room_alone(alloc, frame, o),
        TypedForm::If(e, _, _) => expression_alone(alloc, frame, e),
        TypedForm::While(e, _) => expression_alone(alloc, frame, e),
        TypedForm::Raise(_) => Ok(Vec::new(alloc)),
        TypedForm::Leave => Ok(Vec::new(alloc)),
        TypedForm::Try(_, _) => Ok(Vec::new(alloc)),
    }
}
