//! Whether the types of a statement fit.
ghost use Rattle.std.specs.Prelude.{◌≡◌, ◌&&◌, not, map, slice_get, true};
ghost use Rattle.herm_meaning.specs.Names.{IsWellNamed};
ghost use Rattle.herm_model.specs.Statements as model;
ghost use Rattle.herm_naming.specs.Fits.{is_own, is_seen, fits_form, fits_row, fits_keys, fits_test, fits_statement};
ghost use Rattle.herm_typed.specs.Blocks.{typed_arm_view};
ghost use Rattle.herm_typed.specs.View.{typed_path_view, typed_atom_view, typed_expr_view, typed_form_view};
ghost use Rattle.herm_judge.specs.View.{kind, kinds, table_of, variables_of, ports_of, is_nil};

use crate::arms::{are_arms_fit, has_every_arm, is_arm_fit};
use crate::atoms::{are_atoms_fit, may_have_keys, takes_parameters};
use crate::frame::Frame;
use crate::paths::{is_own, is_seen, type_of};
use crate::shapes::{
    can_be_new, is_callmessage, is_polymorph, may_be_variant, may_equal, may_have_rows, may_hold,
    may_lead, may_raise, may_take,
};
use crate::sight::expression_seen;
use herm_base::{ExcNo, TypeNo};
use herm_typed::{TypedAtom, TypedExpr, TypedForm, TypedPath, TypedStmt};

fn assign_fits(frame: &Frame, x: &TypedPath, e: &TypedExpr) -> bool
    requires well { IsWellNamed frame.now.types.now }
    ensures fits { result ≡ fits_form (table_of frame.now) (variables_of frame.now) (ports_of frame.now) (model.Assign (typed_path_view x.now) (typed_expr_view e.now)) }
{
    let e = expression_seen(frame, e);
    is_own(frame, &x.path) && (e.fits && may_equal(frame.types, type_of(frame, &x.path), e.gives))
}

fn both_own(frame: &Frame, p: &TypedPath, q: &TypedPath) -> bool
    ensures own { result ≡ (is_own (table_of frame.now) (variables_of frame.now) (typed_path_view p.now) && is_own (table_of frame.now) (variables_of frame.now) (typed_path_view q.now)) }
{
    is_own(frame, &p.path) && is_own(frame, &q.path)
}

fn own_and_seen(frame: &Frame, p: &TypedPath, q: &TypedPath) -> bool
    ensures own { result ≡ (is_own (table_of frame.now) (variables_of frame.now) (typed_path_view p.now) && is_seen (table_of frame.now) (variables_of frame.now) (typed_path_view q.now)) }
{
    is_own(frame, &p.path) && is_seen(frame, &q.path)
}

fn move_fits(frame: &Frame, y: &TypedPath, x: &TypedPath) -> bool
    ensures fits { result ≡ fits_form (table_of frame.now) (variables_of frame.now) (ports_of frame.now) (model.Move (typed_path_view y.now) (typed_path_view x.now)) }
{
    both_own(frame, y, x)
        && may_equal(
            frame.types,
            type_of(frame, &y.path),
            type_of(frame, &x.path),
        )
}

fn new_fits(frame: &Frame, x: &TypedPath) -> bool
    ensures fits { result ≡ fits_form (table_of frame.now) (variables_of frame.now) (ports_of frame.now) (model.New (typed_path_view x.now)) }
{
    is_own(frame, &x.path) && can_be_new(frame.types, type_of(frame, &x.path))
}

fn component_fits(frame: &Frame, v: &TypedPath, component: u32, y: &TypedPath) -> bool
    ensures unite { result ≡ fits_form (table_of frame.now) (variables_of frame.now) (ports_of frame.now) (model.Unite (typed_path_view v.now) component (typed_path_view y.now)) }
    ensures dissolve { result ≡ fits_form (table_of frame.now) (variables_of frame.now) (ports_of frame.now) (model.Dissolve (typed_path_view v.now) component (typed_path_view y.now)) }
{
    both_own(frame, v, y)
        && may_hold(
            frame.types,
            type_of(frame, &v.path),
            component,
            type_of(frame, &y.path),
        )
}

fn reveal_fits(frame: &Frame, v: &TypedPath, component: u32) -> bool
    ensures fits { result ≡ fits_form (table_of frame.now) (variables_of frame.now) (ports_of frame.now) (model.Reveal (typed_path_view v.now) component) }
{
    is_seen(frame, &v.path) && may_be_variant(frame.types, type_of(frame, &v.path))
}

fn case_fits(frame: &Frame, v: &TypedPath, arms: &[(u32, Vec<TypedStmt>)]) -> bool
    ensures fits { result ≡ (fits_form (table_of frame.now) (variables_of frame.now) (ports_of frame.now) (model.Case (typed_path_view v.now) (map (λ a. a.0) arms.now)) && not (is_nil arms.now)) }
{
    (is_seen(frame, &v.path) && has_every_arm(frame.types, type_of(frame, &v.path), arms))
        && is_some(arms)
}

fn is_some<T>(list: &[T]) -> bool
    ensures some { result ≡ not (is_nil list.now) }
{
    !list.is_empty()
}

fn wrap_fits(frame: &Frame, y: &TypedPath, p: &TypedPath) -> bool
    ensures fits { result ≡ fits_form (table_of frame.now) (variables_of frame.now) (ports_of frame.now) (model.Wrap (typed_path_view y.now) (typed_path_view p.now)) }
{
    both_own(frame, y, p) && is_polymorph(frame.types, type_of(frame, &p.path))
}

fn unwrap_fits(frame: &Frame, p: &TypedPath, t: TypeNo, y: &TypedPath) -> bool
    ensures fits { result ≡ fits_form (table_of frame.now) (variables_of frame.now) (ports_of frame.now) (model.Unwrap (typed_path_view p.now) t.0 (typed_path_view y.now)) }
{
    both_own(frame, p, y)
        && (is_polymorph(frame.types, type_of(frame, &p.path))
            && may_equal(frame.types, Some(t), type_of(frame, &y.path)))
}

fn row_fits(frame: &Frame, r: &TypedPath, t: &TypedPath) -> bool
    ensures fits { result ≡ fits_row (table_of frame.now) (variables_of frame.now) (typed_path_view r.now) (typed_path_view t.now) }
{
    own_and_seen(frame, r, t)
        && may_have_rows(
            frame.types,
            type_of(frame, &t.path),
            type_of(frame, &r.path),
        )
}

fn keys_fit(frame: &Frame, t: &TypedPath, keys: &[TypedAtom]) -> bool
    ensures fit { result ≡ fits_keys (table_of frame.now) (variables_of frame.now) (typed_path_view t.now) (map typed_atom_view keys.now) }
{
    are_atoms_fit(frame, keys) && may_have_keys(frame, type_of(frame, &t.path), keys)
}

fn connect_fits(frame: &Frame, o: &TypedPath, i: &TypedPath) -> bool
    ensures fits { result ≡ fits_form (table_of frame.now) (variables_of frame.now) (ports_of frame.now) (model.Connect (typed_path_view o.now) (typed_path_view i.now)) }
{
    own_and_seen(frame, o, i)
        && may_lead(
            frame.types,
            type_of(frame, &o.path),
            type_of(frame, &i.path),
        )
}

fn send_fits(frame: &Frame, x: &TypedPath, o: &TypedPath) -> bool
    ensures fits { result ≡ fits_form (table_of frame.now) (variables_of frame.now) (ports_of frame.now) (model.Send (typed_path_view x.now) (typed_path_view o.now)) }
{
    own_and_seen(frame, x, o)
        && may_take(
            frame.types,
            type_of(frame, &o.path),
            type_of(frame, &x.path),
        )
}

fn select_fits(frame: &Frame, arms: &[(TypedPath, TypedPath, Vec<TypedStmt>)]) -> bool
    ensures fits { result ≡ (fits_form (table_of frame.now) (variables_of frame.now) (ports_of frame.now) (model.Select (map typed_arm_view arms.now)) && not (is_nil arms.now)) }
{
    are_arms_fit(frame, arms) && is_some(arms)
}

fn call_fits(frame: &Frame, o: &TypedPath, arguments: &[TypedAtom]) -> bool
    ensures fits { result ≡ fits_form (table_of frame.now) (variables_of frame.now) (ports_of frame.now) (model.Call (typed_path_view o.now) (map typed_atom_view arguments.now)) }
{
    (is_seen(frame, &o.path) && are_atoms_fit(frame, arguments))
        && takes_parameters(frame, type_of(frame, &o.path), arguments)
}

fn return_fits(frame: &Frame, m: &TypedPath) -> bool
    ensures fits { result ≡ fits_form (table_of frame.now) (variables_of frame.now) (ports_of frame.now) (model.Return (typed_path_view m.now)) }
{
    is_own(frame, &m.path) && is_callmessage(frame.types, type_of(frame, &m.path))
}

fn return_by_fits(frame: &Frame, m: &TypedPath, e: ExcNo) -> bool
    ensures fits { result ≡ fits_form (table_of frame.now) (variables_of frame.now) (ports_of frame.now) (model.ReturnBy (typed_path_view m.now) e.0) }
{
    is_own(frame, &m.path) && may_raise(frame.types, type_of(frame, &m.path), e)
}

fn port_type(ports: &[TypeNo], process: u32) -> Option<TypeNo>
    ensures of { kind result ≡ slice_get (kinds ports.now) process }
{
    ports.get(process as usize).copied()
}

fn create_fits(frame: &Frame, o: &TypedPath, process: u32) -> bool
    ensures fits { result ≡ fits_form (table_of frame.now) (variables_of frame.now) (ports_of frame.now) (model.Create (typed_path_view o.now) process) }
{
    is_own(frame, &o.path)
        && may_lead(
            frame.types,
            type_of(frame, &o.path),
            port_type(frame.ports, process),
        )
}

fn test_fits(frame: &Frame, e: &TypedExpr) -> bool
    requires well { IsWellNamed frame.now.types.now }
    ensures fits { result ≡ fits_test (table_of frame.now) (variables_of frame.now) (typed_expr_view e.now) }
{
    let e = expression_seen(frame, e);
    e.fits && may_equal(frame.types, e.gives, Some(TypeNo(0)))
}

fn and_some(fits: bool) -> bool
    ensures some { result ≡ (fits && true) }
{
    fits
}

/// Whether the types of a statement fit, apart from those of the statements within it; it has an arm or a handler at
/// least.
pub fn is_statement_fit(frame: &Frame, form: &TypedForm) -> bool
    requires well { IsWellNamed frame.now.types.now }
    ensures fits { result ≡ fits_statement (table_of frame.now) (variables_of frame.now) (ports_of frame.now) (typed_form_view form.now) }
{
    match form {
        TypedForm::Assign(x, e) => assign_fits(frame, x, e),
        TypedForm::Move(y, x) => move_fits(frame, y, x),
        TypedForm::New(x) => new_fits(frame, x),
        TypedForm::Discard(x) => is_own(frame, &x.path),
        TypedForm::Unite(v, c, y) => component_fits(frame, v, *c, y),
        TypedForm::Dissolve(v, c, y) => component_fits(frame, v, *c, y),
        TypedForm::Reveal(v, c) => reveal_fits(frame, v, *c),
        TypedForm::Case(v, arms) => case_fits(frame, v, arms.as_slice()),
        TypedForm::Wrap(y, p) => wrap_fits(frame, y, p),
        TypedForm::Unwrap(p, t, y) => unwrap_fits(frame, p, *t, y),
        TypedForm::Insert(r, t) => row_fits(frame, r, t),
        TypedForm::Remove(r, t, keys) => {
            row_fits(frame, r, t) && keys_fit(frame, t, keys.as_slice())
        }
        TypedForm::Get(r, t, keys) => {
            row_fits(frame, r, t) && keys_fit(frame, t, keys.as_slice())
        }
        TypedForm::For(r, t, _) => row_fits(frame, r, t),
        TypedForm::Connect(o, i) => connect_fits(frame, o, i),
        TypedForm::Send(x, o) => send_fits(frame, x, o),
        TypedForm::Receive(x, i) => is_arm_fit(frame, x, i),
        TypedForm::Select(arms) => select_fits(frame, arms.as_slice()),
        TypedForm::Call(o, arguments) => call_fits(frame, o, arguments.as_slice()),
        TypedForm::Return(m) => return_fits(frame, m),
        TypedForm::ReturnBy(m, e) => return_by_fits(frame, m, *e),
        TypedForm::Create(o, n) => create_fits(frame, o, *n),
        TypedForm::If(e, _, _) => and_some(test_fits(frame, e)),
        TypedForm::While(e, _) => test_fits(frame, e),
        TypedForm::Raise(_) => true,
        TypedForm::Leave => true,
        TypedForm::Try(_, handled) => is_some(handled.as_slice()),
    }
}
