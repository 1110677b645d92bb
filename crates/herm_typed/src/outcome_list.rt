//! The outcomes of statements.
ghost use Rattle.std.specs.Prelude.{ℕ, ◌≡◌, ◌∷◌, [], ◌++◌, List, length, map, slice_get, option_map, option_and_then, IfOk, MatchOption};
ghost use Rattle.herm_model.specs.Lists.{range};
ghost use Rattle.herm_model.specs.Calls.{led_to, message_type, raises_of};
ghost use Rattle.herm_model.specs.Outcomes.{component, arm, disconnected, with_number, rising, raised, raised_by, raised_by_new};
ghost use Rattle.herm_types.specs.View.{shape_view, raise_decl_view};
ghost use Rattle.herm_typed.specs.declared.statements.TypedStmt.{out-TypedStmt};
ghost use Rattle.herm_typed.specs.View.{typed_expr_view, outcome_view};
ghost use Rattle.herm_typed.specs.Outcomes.{IsPlaceFor, raises_from, KnowsOutcomes, normal_of, exceptions_of, outcomes_of};

use crate::expressions::TypedExpr;
use crate::raises::expression_raises;
use crate::statements::{TypedForm, TypedStmt};
use herm_base::{ExcNo, TypeNo};
use herm_types::{RaiseDecl, Shape, TypeTable};
use std::alloc::{AllocError, Global};

/// How a statement can go on. An arm of a `select` is its place from 0 on.
#[derive(Clone, Copy, Debug, PartialEq, Eq)]
pub enum Outcome {
    Ok,
    True,
    False,
    Turn,
    Done,
    Component(u32),
    Arm(u32),
    Raised(ExcNo),
}

/// The numbers of predefined exceptions.
const OVERFLOW: ExcNo = ExcNo(0);

const DEPLETION: ExcNo = ExcNo(1);

const CASE_ERROR: ExcNo = ExcNo(2);

const POLYMORPH_MISMATCH: ExcNo = ExcNo(3);

const DUPLICATE_KEY: ExcNo = ExcNo(4);

const NOT_FOUND: ExcNo = ExcNo(5);

const DISCONNECTED: ExcNo = ExcNo(6);

/// The inport type to which an outport leads.
fn port_of(types: &TypeTable, t: TypeNo) -> Option<TypeNo>
    ensures { option_map (λ t. t.0) result ≡ option_and_then led_to (slice_get types.now.shapes t.0) }
{
    if t.0 as usize >= types.len() {
        return None;
    }
    match types.shape(t) {
        Shape::Outport { port } => Some(*port),
        _ => None,
    }
}

/// The type of the messages of an inport.
fn message_of(types: &TypeTable, t: TypeNo) -> Option<TypeNo>
    ensures { option_map (λ t. t.0) result ≡ option_and_then message_type (slice_get types.now.shapes t.0) }
{
    if t.0 as usize >= types.len() {
        return None;
    }
    match types.shape(t) {
        Shape::Inport { message, facts: _ } => Some(*message),
        _ => None,
    }
}

/// Where a number belongs among rising ones; none where it is one of them.
fn place_for(numbers: &[ExcNo], e: ExcNo) -> Option<usize>
    ensures { MatchOption result (with_number e.0 (map (λ n. n.0) numbers.now) ≡ map (λ n. n.0) numbers.now) (IsPlaceFor numbers.now e) }
{
    'places: for (i, n) in numbers.iter().enumerate() {
        if e.0 < n.0 {
            return Some(i);
        }
        if e.0 == n.0 {
            return None;
        }
    }
    Some(numbers.len())
}

/// An exception's number at its place among rising ones, without repeats.
fn add_number(numbers: &mut Vec<ExcNo>, e: ExcNo) -> Result<(), AllocError>
    ensures { IfOk result (λ u. map (λ n. n.0) numbers.new.items ≡ with_number e.0 (map (λ n. n.0) numbers.old.items)) }
{
    match place_for(numbers.as_slice(), e) {
        None => Ok(()),
        Some(place) => {
            numbers.insert(place, e)?;
            Ok(())
        }
    }
}

/// The outcomes of the arms of a `case`.
fn components<T>(alloc: Global, arms: &[(u32, T)]) -> Result<Vec<Outcome>, AllocError>
    ensures { IfOk result (λ v. map outcome_view v.items ≡ map (λ a. component a.0) arms.now) }
{
    let mut found = Vec::new(alloc);
    for (c, _) in arms {
        found.push(Outcome::Component(*c))?;
    }
    Ok(found)
}

/// The outcomes of so many arms of a `select`; no memory suffices for more arms than there are numbers.
fn select_arms(alloc: Global, count: usize) -> Result<Vec<Outcome>, AllocError>
    ensures { IfOk result (λ v. map outcome_view v.items ≡ map arm (range 0 count)) }
{
    if count > u32::MAX as usize {
        return Err(AllocError);
    }
    let mut found = Vec::new(alloc);
    for i in 0..count {
        found.push(Outcome::Arm(i as u32))?;
    }
    Ok(found)
}

/// The exceptions that a callmessage declares, with Disconnected, by rising number.
fn call_numbers(alloc: Global, raises: &[RaiseDecl]) -> Result<Vec<ExcNo>, AllocError>
    ensures { IfOk result (λ v. map (λ n. n.0) v.items ≡ rising (disconnected ∷ map (λ r. r.exception) (map raise_decl_view raises.now))) }
{
    let mut found = Vec::new(alloc);
    let mut left = raises.len();
    'declared: while left > 0 {
        left -= 1;
        add_number(&mut found, raises[left].exc)?;
    }
    add_number(&mut found, DISCONNECTED)?;
    Ok(found)
}

/// The exceptions that a call of an outport of this type can raise.
fn call_raises(alloc: Global, types: &TypeTable, o: TypeNo) -> Result<Vec<ExcNo>, AllocError>
    ensures { IfOk result (λ v. map (λ n. n.0) v.items ≡ rising (disconnected ∷ map (λ r. r.exception) (raises_from types.now.shapes o.0))) }
{
    let port = match port_of(types, o) {
        Some(port) => port,
        None => return call_numbers(alloc, &[]),
    };
    let message = match message_of(types, port) {
        Some(message) => message,
        None => return call_numbers(alloc, &[]),
    };
    if message.0 as usize >= types.len() {
        return call_numbers(alloc, &[]);
    }
    match types.shape(message) {
        Shape::CallMessage { params: _, raises } => call_numbers(alloc, raises.as_slice()),
        _ => call_numbers(alloc, &[]),
    }
}

/// One outcome.
fn one(alloc: Global, a: Outcome) -> Result<Vec<Outcome>, AllocError>
    ensures { IfOk result (λ v. map outcome_view v.items ≡ outcome_view a ∷ []) }
{
    let mut found = Vec::new(alloc);
    found.push(a)?;
    Ok(found)
}

/// Two outcomes.
fn two(alloc: Global, a: Outcome, b: Outcome) -> Result<Vec<Outcome>, AllocError>
    ensures { IfOk result (λ v. map outcome_view v.items ≡ outcome_view a ∷ outcome_view b ∷ []) }
{
    let mut found = Vec::new(alloc);
    found.push(a)?;
    found.push(b)?;
    Ok(found)
}

/// The normal outcomes of a form, in order.
fn normal(alloc: Global, form: &TypedForm) -> Result<Vec<Outcome>, AllocError>
    ensures { IfOk result (λ v. map outcome_view v.items ≡ normal_of form.now) }
{
    match form {
        TypedForm::Case(_, arms) => components(alloc, arms.as_slice()),
        TypedForm::Select(arms) => {
            let arms = arms.as_slice();
            select_arms(alloc, arms.len())
        }
        TypedForm::For(_, _, _) => two(alloc, Outcome::Turn, Outcome::Done),
        TypedForm::If(_, _, _) => two(alloc, Outcome::True, Outcome::False),
        TypedForm::While(_, _) => two(alloc, Outcome::True, Outcome::False),
        TypedForm::Raise(_) => Ok(Vec::new(alloc)),
        TypedForm::Try(_, _) => Ok(Vec::new(alloc)),
        TypedForm::Assign(_, _) => one(alloc, Outcome::Ok),
        TypedForm::Move(_, _) => one(alloc, Outcome::Ok),
        TypedForm::New(_) => one(alloc, Outcome::Ok),
        TypedForm::Discard(_) => one(alloc, Outcome::Ok),
        TypedForm::Unite(_, _, _) => one(alloc, Outcome::Ok),
        TypedForm::Dissolve(_, _, _) => one(alloc, Outcome::Ok),
        TypedForm::Reveal(_, _) => one(alloc, Outcome::Ok),
        TypedForm::Wrap(_, _) => one(alloc, Outcome::Ok),
        TypedForm::Unwrap(_, _, _) => one(alloc, Outcome::Ok),
        TypedForm::Insert(_, _) => one(alloc, Outcome::Ok),
        TypedForm::Remove(_, _, _) => one(alloc, Outcome::Ok),
        TypedForm::Get(_, _, _) => one(alloc, Outcome::Ok),
        TypedForm::Connect(_, _) => one(alloc, Outcome::Ok),
        TypedForm::Send(_, _) => one(alloc, Outcome::Ok),
        TypedForm::Receive(_, _) => one(alloc, Outcome::Ok),
        TypedForm::Call(_, _) => one(alloc, Outcome::Ok),
        TypedForm::Return(_) => one(alloc, Outcome::Ok),
        TypedForm::ReturnBy(_, _) => one(alloc, Outcome::Ok),
        TypedForm::Create(_, _) => one(alloc, Outcome::Ok),
        TypedForm::Leave => one(alloc, Outcome::Ok),
    }
}

/// One exception.
fn one_number(alloc: Global, a: ExcNo) -> Result<Vec<ExcNo>, AllocError>
    ensures { IfOk result (λ v. v.items ≡ a ∷ []) }
{
    let mut found = Vec::new(alloc);
    found.push(a)?;
    Ok(found)
}

/// Two exceptions.
fn two_numbers(alloc: Global, a: ExcNo, b: ExcNo) -> Result<Vec<ExcNo>, AllocError>
    ensures { IfOk result (λ v. v.items ≡ a ∷ b ∷ []) }
{
    let mut found = Vec::new(alloc);
    found.push(a)?;
    found.push(b)?;
    Ok(found)
}

/// The exceptions that an expression can raise.
fn of_expression(alloc: Global, e: &TypedExpr) -> Result<Vec<ExcNo>, AllocError>
    ensures { IfOk result (λ v. map (λ n. n.0) v.items ≡ raised_by (typed_expr_view e.now)) }
{
    let found = expression_raises(e);
    if found.overflow {
        if found.depletion {
            return two_numbers(alloc, OVERFLOW, DEPLETION);
        }
        return one_number(alloc, OVERFLOW);
    }
    if found.depletion {
        return one_number(alloc, DEPLETION);
    }
    Ok(Vec::new(alloc))
}

/// The exceptions that `new` can raise for a type.
fn of_new(alloc: Global, types: &TypeTable, t: TypeNo) -> Result<Vec<ExcNo>, AllocError>
    ensures { IfOk result (λ v. map (λ n. n.0) v.items ≡ raised_by_new (slice_get types.now.shapes t.0)) }
{
    match message_of(types, t) {
        Some(_) => one_number(alloc, DEPLETION),
        None => Ok(Vec::new(alloc)),
    }
}

/// The exceptions that a form can raise, by rising number.
fn exceptions(alloc: Global, types: &TypeTable, form: &TypedForm) -> Result<Vec<ExcNo>, AllocError>
    ghost variables: { List ℕ }
    requires { KnowsOutcomes types.now.shapes variables form.now }
    ensures { IfOk result (λ v. map (λ n. n.0) v.items ≡ exceptions_of types.now.shapes variables form.now) }
{
    match form {
        TypedForm::Assign(_, e) => of_expression(alloc, e),
        TypedForm::Move(_, _) => Ok(Vec::new(alloc)),
        TypedForm::New(x) => of_new(alloc, types, x.of),
        TypedForm::Discard(_) => Ok(Vec::new(alloc)),
        TypedForm::Unite(_, _, _) => Ok(Vec::new(alloc)),
        TypedForm::Dissolve(_, _, _) => Ok(Vec::new(alloc)),
        TypedForm::Reveal(_, _) => one_number(alloc, CASE_ERROR),
        TypedForm::Case(_, _) => Ok(Vec::new(alloc)),
        TypedForm::Wrap(_, _) => one_number(alloc, DEPLETION),
        TypedForm::Unwrap(_, _, _) => one_number(alloc, POLYMORPH_MISMATCH),
        TypedForm::Insert(_, _) => two_numbers(alloc, DEPLETION, DUPLICATE_KEY),
        TypedForm::Remove(_, _, _) => one_number(alloc, NOT_FOUND),
        TypedForm::Get(_, _, _) => one_number(alloc, NOT_FOUND),
        TypedForm::For(_, _, _) => Ok(Vec::new(alloc)),
        TypedForm::Connect(_, _) => Ok(Vec::new(alloc)),
        TypedForm::Send(_, _) => one_number(alloc, DISCONNECTED),
        TypedForm::Receive(_, _) => Ok(Vec::new(alloc)),
        TypedForm::Select(_) => Ok(Vec::new(alloc)),
        TypedForm::Call(o, _) => call_raises(alloc, types, o.of),
        TypedForm::Return(_) => Ok(Vec::new(alloc)),
        TypedForm::ReturnBy(_, _) => Ok(Vec::new(alloc)),
        TypedForm::Create(_, _) => one_number(alloc, DEPLETION),
        TypedForm::If(e, _, _) => of_expression(alloc, e),
        TypedForm::While(e, _) => of_expression(alloc, e),
        TypedForm::Raise(e) => one_number(alloc, *e),
        TypedForm::Leave => Ok(Vec::new(alloc)),
        TypedForm::Try(_, _) => Ok(Vec::new(alloc)),
    }
}

/// Exceptions as outcomes behind others.
fn add_raised(found: &mut Vec<Outcome>, numbers: &[ExcNo]) -> Result<(), AllocError>
    ensures { IfOk result (λ u. map outcome_view found.new.items ≡ map outcome_view found.old.items ++ map (λ n. raised n.0) numbers.now) }
{
    'numbers: for e in numbers {
        found.push(Outcome::Raised(*e))?;
    }
    Ok(())
}

/// The outcomes of a statement, in the order of the statement table: the normal ones, then the exceptions by number. A
/// `try` has none. The types beside the paths of a `new` or a `call` are those of the variables.
pub fn outcomes(alloc: Global, types: &TypeTable, s: &TypedStmt) -> Result<Vec<Outcome>, AllocError>
    ghost variables: { List ℕ }
    requires known { KnowsOutcomes types.now.shapes variables (out-TypedStmt s.now).form }
    ensures { IfOk result (λ v. map outcome_view v.items ≡ outcomes_of types.now.shapes variables (out-TypedStmt s.now).form) }
{
    let mut found = normal(alloc, &s.form)?;
    let raised = exceptions(alloc, types, &s.form)?;
    add_raised(&mut found, raised.as_slice())?;
    Ok(found)
}
