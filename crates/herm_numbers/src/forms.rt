//! Statements without blocks, by number. Each form is a function that is not inlined: what chooses among them would else set up the
//! variables of all of them at each statement.
ghost use Rattle.std.specs.Prelude.{◌≡◌, [], map, IfOk};
ghost use Rattle.herm_syntax.specs.View.{name_view, path_form_view, atom_view, expr_view};
ghost use Rattle.herm_syntax.specs.Trees as trees;
ghost use Rattle.herm_naming.specs.Numbers.{path_number, type_seen, part_number, without_last, component_number, exception_number};
ghost use Rattle.herm_naming.specs.Meaning.{statement_number, process_number};
ghost use Rattle.herm_typed.specs.View.{typed_path_view, typed_form_view};
ghost use Rattle.herm_numbers.specs.View.{scope_view, number_of, IsKnown};
ghost use Rattle.herm_typed.specs.Within.{statements_within};
ghost use Rattle.herm_typed.specs.Beside.{types_beside};
ghost use Rattle.herm_numbers.specs.Beside.{seen_at, types_seen};

use crate::atoms::{atoms, type_number};
use crate::expressions::expression;
use crate::paths::{part, path, path_from};
use crate::scope::Scope;
use herm_base::{ExcNo, Name};
use herm_syntax::{Atom, Expr, PathForm};
use herm_typed::{TypedForm, TypedPath};
use std::alloc::{AllocError, Global};

/// Two paths by number.
pub fn two_paths(
    alloc: Global,
    scope: &Scope,
    p: &PathForm,
    q: &PathForm,
) -> Result<(TypedPath, TypedPath), AllocError>
    requires known { IsKnown scope.now }
    ensures first { IfOk result (λ r. typed_path_view r.0 ≡ path_number (scope_view scope.now) (path_form_view p.now)) }
    ensures second { IfOk result (λ r. typed_path_view r.1 ≡ path_number (scope_view scope.now) (path_form_view q.now)) }
    ensures first_of { IfOk result (λ r. r.0.of.0 ≡ seen_at (scope_view scope.now) (typed_path_view r.0)) }
    ensures second_of { IfOk result (λ r. r.1.of.0 ≡ seen_at (scope_view scope.now) (typed_path_view r.1)) }
{
    let p = path(alloc, scope, p)?;
    let q = path(alloc, scope, q)?;
    Ok((p, q))
}

/// The number of the component with this name of the value at a path.
#[tactic(auto, using(crate::proofs::Components::part_at))]
pub fn component_of(scope: &Scope, v: &TypedPath, name: &[u8]) -> u32
    requires known { IsKnown scope.now }
    requires of { v.now.of.0 ≡ number_of scope.now.types.now (type_seen (scope_view scope.now) (typed_path_view v.now)) }
    ensures number { result ≡ part_number scope.now.types.now (type_seen (scope_view scope.now) (typed_path_view v.now)) name.now }
{
    let (number, _) = part(scope, Some(v.of), name);
    number
}

/// The path of a variant without the component that is its last part, and the component's number.
fn component(alloc: Global, scope: &Scope, c: &PathForm) -> Result<(TypedPath, u32), AllocError>
    requires known { IsKnown scope.now }
    ensures path { IfOk result (λ r. typed_path_view r.0 ≡ path_number (scope_view scope.now) (without_last (path_form_view c.now))) }
    ensures number { IfOk result (λ r. r.1 ≡ component_number (scope_view scope.now) (path_form_view c.now)) }
    ensures of { IfOk result (λ r. r.0.of.0 ≡ seen_at (scope_view scope.now) (typed_path_view r.0)) }
{
    let names = c.parts.as_slice();
    match names.split_last() {
        None => {
            let v = path_from(alloc, scope, names)?;
            let number = component_of(scope, &v, &[]);
            Ok((v, number))
        }
        Some((last, before)) => {
            let v = path_from(alloc, scope, before)?;
            let number = component_of(scope, &v, last.text.bytes());
            Ok((v, number))
        }
    }
}

/// The number of an exception, or the one behind the last where none has the name.
pub fn exception_number(scope: &Scope, name: &Name) -> ExcNo
    requires known { IsKnown scope.now }
    ensures number { result.0 ≡ exception_number scope.now.types.now (name_view name.now) }
{
    ExcNo(scope.exceptions.number(name.text.bytes()))
}

/// The number of a process, or the one behind the last where none has the name.
fn process_number(scope: &Scope, name: &Name) -> u32
    requires known { IsKnown scope.now }
    ensures number { result ≡ process_number (scope_view scope.now) (name_view name.now) }
{
    scope.processes.number(name.text.bytes())
}

#[inline(never)]
pub fn assign(alloc: Global, scope: &Scope, x: &PathForm, e: &Expr) -> Result<TypedForm, AllocError>
    requires known { IsKnown scope.now }
    ensures meaning { IfOk result (λ f. typed_form_view f ≡ statement_number (scope_view scope.now) (trees.Assign (path_form_view x.now) (expr_view e.now))) }
    ensures within { IfOk result (λ f. statements_within f ≡ []) }
    ensures types { IfOk result (λ f. types_beside f ≡ types_seen (scope_view scope.now) (typed_form_view f)) }
{
    let x = path(alloc, scope, x)?;
    let e = expression(alloc, scope, e)?;
    Ok(TypedForm::Assign(x, e))
}

#[inline(never)]
pub fn unwrap(
    alloc: Global,
    scope: &Scope,
    p: &PathForm,
    name: &Name,
    y: &PathForm,
) -> Result<TypedForm, AllocError>
    requires known { IsKnown scope.now }
    ensures meaning { IfOk result (λ f. typed_form_view f ≡ statement_number (scope_view scope.now) (trees.Unwrap (path_form_view p.now) (name_view name.now) (path_form_view y.now))) }
    ensures within { IfOk result (λ f. statements_within f ≡ []) }
    ensures types { IfOk result (λ f. types_beside f ≡ types_seen (scope_view scope.now) (typed_form_view f)) }
{
    let (p, y) = two_paths(alloc, scope, p, y)?;
    let t = type_number(scope.types, name.text.bytes());
    Ok(TypedForm::Unwrap(p, t, y))
}

#[tactic(auto, using(crate::proofs::Beside::atoms_beside))]
#[inline(never)]
pub fn call(
    alloc: Global,
    scope: &Scope,
    o: &PathForm,
    arguments: &[Atom],
) -> Result<TypedForm, AllocError>
    requires known { IsKnown scope.now }
    ensures meaning { IfOk result (λ f. typed_form_view f ≡ statement_number (scope_view scope.now) (trees.Call (path_form_view o.now) (map atom_view arguments.now))) }
    ensures within { IfOk result (λ f. statements_within f ≡ []) }
    ensures types { IfOk result (λ f. types_beside f ≡ types_seen (scope_view scope.now) (typed_form_view f)) }
{
    let o = path(alloc, scope, o)?;
    let arguments = atoms(alloc, scope, arguments)?;
    Ok(TypedForm::Call(o, arguments))
}

#[inline(never)]
pub fn return_by(
    alloc: Global,
    scope: &Scope,
    m: &PathForm,
    name: &Name,
) -> Result<TypedForm, AllocError>
    requires known { IsKnown scope.now }
    ensures meaning { IfOk result (λ f. typed_form_view f ≡ statement_number (scope_view scope.now) (trees.ReturnBy (path_form_view m.now) (name_view name.now))) }
    ensures within { IfOk result (λ f. statements_within f ≡ []) }
    ensures types { IfOk result (λ f. types_beside f ≡ types_seen (scope_view scope.now) (typed_form_view f)) }
{
    let m = path(alloc, scope, m)?;
    Ok(TypedForm::ReturnBy(m, exception_number(scope, name)))
}

#[inline(never)]
pub fn create(
    alloc: Global,
    scope: &Scope,
    o: &PathForm,
    name: &Name,
) -> Result<TypedForm, AllocError>
    requires known { IsKnown scope.now }
    ensures meaning { IfOk result (λ f. typed_form_view f ≡ statement_number (scope_view scope.now) (trees.Create (path_form_view o.now) (name_view name.now))) }
    ensures within { IfOk result (λ f. statements_within f ≡ []) }
    ensures types { IfOk result (λ f. types_beside f ≡ types_seen (scope_view scope.now) (typed_form_view f)) }
{
    let o = path(alloc, scope, o)?;
    Ok(TypedForm::Create(o, process_number(scope, name)))
}

#[inline(never)]
pub fn raise(scope: &Scope, name: &Name) -> TypedForm
    requires known { IsKnown scope.now }
    ensures meaning { typed_form_view result ≡ statement_number (scope_view scope.now) (trees.Raise (name_view name.now)) }
    ensures within { statements_within result ≡ [] }
    ensures types { types_beside result ≡ types_seen (scope_view scope.now) (typed_form_view result) }
{
    TypedForm::Raise(exception_number(scope, name))
}

#[inline(never)]
pub fn unite(
    alloc: Global,
    scope: &Scope,
    c: &PathForm,
    y: &PathForm,
) -> Result<TypedForm, AllocError>
    requires known { IsKnown scope.now }
    ensures meaning { IfOk result (λ f. typed_form_view f ≡ statement_number (scope_view scope.now) (trees.Unite (path_form_view c.now) (path_form_view y.now))) }
    ensures within { IfOk result (λ f. statements_within f ≡ []) }
    ensures types { IfOk result (λ f. types_beside f ≡ types_seen (scope_view scope.now) (typed_form_view f)) }
{
    let (v, number) = component(alloc, scope, c)?;
    let y = path(alloc, scope, y)?;
    Ok(TypedForm::Unite(v, number, y))
}

#[inline(never)]
pub fn dissolve(
    alloc: Global,
    scope: &Scope,
    c: &PathForm,
    y: &PathForm,
) -> Result<TypedForm, AllocError>
    requires known { IsKnown scope.now }
    ensures meaning { IfOk result (λ f. typed_form_view f ≡ statement_number (scope_view scope.now) (trees.Dissolve (path_form_view c.now) (path_form_view y.now))) }
    ensures within { IfOk result (λ f. statements_within f ≡ []) }
    ensures types { IfOk result (λ f. types_beside f ≡ types_seen (scope_view scope.now) (typed_form_view f)) }
{
    let (v, number) = component(alloc, scope, c)?;
    let y = path(alloc, scope, y)?;
    Ok(TypedForm::Dissolve(v, number, y))
}

#[inline(never)]
pub fn reveal(alloc: Global, scope: &Scope, c: &PathForm) -> Result<TypedForm, AllocError>
    requires known { IsKnown scope.now }
    ensures meaning { IfOk result (λ f. typed_form_view f ≡ statement_number (scope_view scope.now) (trees.Reveal (path_form_view c.now))) }
    ensures within { IfOk result (λ f. statements_within f ≡ []) }
    ensures types { IfOk result (λ f. types_beside f ≡ types_seen (scope_view scope.now) (typed_form_view f)) }
{
    let (v, number) = component(alloc, scope, c)?;
    Ok(TypedForm::Reveal(v, number))
}

#[inline(never)]
pub fn move_to(
    alloc: Global,
    scope: &Scope,
    p: &PathForm,
    q: &PathForm,
) -> Result<TypedForm, AllocError>
    requires known { IsKnown scope.now }
    ensures meaning { IfOk result (λ f. typed_form_view f ≡ statement_number (scope_view scope.now) (trees.Move (path_form_view p.now) (path_form_view q.now))) }
    ensures within { IfOk result (λ f. statements_within f ≡ []) }
    ensures types { IfOk result (λ f. types_beside f ≡ types_seen (scope_view scope.now) (typed_form_view f)) }
{
    let (p, q) = two_paths(alloc, scope, p, q)?;
    Ok(TypedForm::Move(p, q))
}

#[inline(never)]
pub fn wrap(
    alloc: Global,
    scope: &Scope,
    p: &PathForm,
    q: &PathForm,
) -> Result<TypedForm, AllocError>
    requires known { IsKnown scope.now }
    ensures meaning { IfOk result (λ f. typed_form_view f ≡ statement_number (scope_view scope.now) (trees.Wrap (path_form_view p.now) (path_form_view q.now))) }
    ensures within { IfOk result (λ f. statements_within f ≡ []) }
    ensures types { IfOk result (λ f. types_beside f ≡ types_seen (scope_view scope.now) (typed_form_view f)) }
{
    let (p, q) = two_paths(alloc, scope, p, q)?;
    Ok(TypedForm::Wrap(p, q))
}

#[inline(never)]
pub fn insert(
    alloc: Global,
    scope: &Scope,
    p: &PathForm,
    q: &PathForm,
) -> Result<TypedForm, AllocError>
    requires known { IsKnown scope.now }
    ensures meaning { IfOk result (λ f. typed_form_view f ≡ statement_number (scope_view scope.now) (trees.Insert (path_form_view p.now) (path_form_view q.now))) }
    ensures within { IfOk result (λ f. statements_within f ≡ []) }
    ensures types { IfOk result (λ f. types_beside f ≡ types_seen (scope_view scope.now) (typed_form_view f)) }
{
    let (p, q) = two_paths(alloc, scope, p, q)?;
    Ok(TypedForm::Insert(p, q))
}

#[inline(never)]
pub fn connect(
    alloc: Global,
    scope: &Scope,
    p: &PathForm,
    q: &PathForm,
) -> Result<TypedForm, AllocError>
    requires known { IsKnown scope.now }
    ensures meaning { IfOk result (λ f. typed_form_view f ≡ statement_number (scope_view scope.now) (trees.Connect (path_form_view p.now) (path_form_view q.now))) }
    ensures within { IfOk result (λ f. statements_within f ≡ []) }
    ensures types { IfOk result (λ f. types_beside f ≡ types_seen (scope_view scope.now) (typed_form_view f)) }
{
    let (p, q) = two_paths(alloc, scope, p, q)?;
    Ok(TypedForm::Connect(p, q))
}

#[inline(never)]
pub fn send(
    alloc: Global,
    scope: &Scope,
    p: &PathForm,
    q: &PathForm,
) -> Result<TypedForm, AllocError>
    requires known { IsKnown scope.now }
    ensures meaning { IfOk result (λ f. typed_form_view f ≡ statement_number (scope_view scope.now) (trees.Send (path_form_view p.now) (path_form_view q.now))) }
    ensures within { IfOk result (λ f. statements_within f ≡ []) }
    ensures types { IfOk result (λ f. types_beside f ≡ types_seen (scope_view scope.now) (typed_form_view f)) }
{
    let (p, q) = two_paths(alloc, scope, p, q)?;
    Ok(TypedForm::Send(p, q))
}

#[inline(never)]
pub fn receive(
    alloc: Global,
    scope: &Scope,
    p: &PathForm,
    q: &PathForm,
) -> Result<TypedForm, AllocError>
    requires known { IsKnown scope.now }
    ensures meaning { IfOk result (λ f. typed_form_view f ≡ statement_number (scope_view scope.now) (trees.Receive (path_form_view p.now) (path_form_view q.now))) }
    ensures within { IfOk result (λ f. statements_within f ≡ []) }
    ensures types { IfOk result (λ f. types_beside f ≡ types_seen (scope_view scope.now) (typed_form_view f)) }
{
    let (p, q) = two_paths(alloc, scope, p, q)?;
    Ok(TypedForm::Receive(p, q))
}

#[inline(never)]
pub fn make(alloc: Global, scope: &Scope, p: &PathForm) -> Result<TypedForm, AllocError>
    requires known { IsKnown scope.now }
    ensures meaning { IfOk result (λ f. typed_form_view f ≡ statement_number (scope_view scope.now) (trees.New (path_form_view p.now))) }
    ensures within { IfOk result (λ f. statements_within f ≡ []) }
    ensures types { IfOk result (λ f. types_beside f ≡ types_seen (scope_view scope.now) (typed_form_view f)) }
{
    let p = path(alloc, scope, p)?;
    Ok(TypedForm::New(p))
}

#[inline(never)]
pub fn discard(alloc: Global, scope: &Scope, p: &PathForm) -> Result<TypedForm, AllocError>
    requires known { IsKnown scope.now }
    ensures meaning { IfOk result (λ f. typed_form_view f ≡ statement_number (scope_view scope.now) (trees.Discard (path_form_view p.now))) }
    ensures within { IfOk result (λ f. statements_within f ≡ []) }
    ensures types { IfOk result (λ f. types_beside f ≡ types_seen (scope_view scope.now) (typed_form_view f)) }
{
    let p = path(alloc, scope, p)?;
    Ok(TypedForm::Discard(p))
}

#[inline(never)]
pub fn give_back(alloc: Global, scope: &Scope, p: &PathForm) -> Result<TypedForm, AllocError>
    requires known { IsKnown scope.now }
    ensures meaning { IfOk result (λ f. typed_form_view f ≡ statement_number (scope_view scope.now) (trees.Return (path_form_view p.now))) }
    ensures within { IfOk result (λ f. statements_within f ≡ []) }
    ensures types { IfOk result (λ f. types_beside f ≡ types_seen (scope_view scope.now) (typed_form_view f)) }
{
    let p = path(alloc, scope, p)?;
    Ok(TypedForm::Return(p))
}

#[tactic(auto, using(crate::proofs::Beside::atoms_beside))]
#[inline(never)]
pub fn remove(
    alloc: Global,
    scope: &Scope,
    r: &PathForm,
    t: &PathForm,
    keys: &[Atom],
) -> Result<TypedForm, AllocError>
    requires known { IsKnown scope.now }
    ensures meaning { IfOk result (λ f. typed_form_view f ≡ statement_number (scope_view scope.now) (trees.Remove (path_form_view r.now) (path_form_view t.now) (map atom_view keys.now))) }
    ensures within { IfOk result (λ f. statements_within f ≡ []) }
    ensures types { IfOk result (λ f. types_beside f ≡ types_seen (scope_view scope.now) (typed_form_view f)) }
{
    let (r, t) = two_paths(alloc, scope, r, t)?;
    let keys = atoms(alloc, scope, keys)?;
    Ok(TypedForm::Remove(r, t, keys))
}

#[tactic(auto, using(crate::proofs::Beside::atoms_beside))]
#[inline(never)]
pub fn get(
    alloc: Global,
    scope: &Scope,
    r: &PathForm,
    t: &PathForm,
    keys: &[Atom],
) -> Result<TypedForm, AllocError>
    requires known { IsKnown scope.now }
    ensures meaning { IfOk result (λ f. typed_form_view f ≡ statement_number (scope_view scope.now) (trees.Get (path_form_view r.now) (path_form_view t.now) (map atom_view keys.now))) }
    ensures within { IfOk result (λ f. statements_within f ≡ []) }
    ensures types { IfOk result (λ f. types_beside f ≡ types_seen (scope_view scope.now) (typed_form_view f)) }
{
    let (r, t) = two_paths(alloc, scope, r, t)?;
    let keys = atoms(alloc, scope, keys)?;
    Ok(TypedForm::Get(r, t, keys))
}
