//! Whether the names of a statement are there.
ghost use Rattle.std.specs.Prelude.{ℕ, ◌≡◌, ◌&&◌, ◌++◌, ◌∷◌, [], true, length, map, nat_lt};
ghost use Rattle.herm_model.specs.Lists.{all_pass};
ghost use Rattle.herm_model.specs.Expressions.{paths_among};
ghost use Rattle.herm_naming.specs.UnknownNames.{is_there, is_literal_there, literals_among, is_form_there, is_statement_there};
ghost use Rattle.herm_model.specs.Statements as model;
ghost use Rattle.herm_typed.specs.Blocks.{typed_arm_view};
ghost use Rattle.herm_typed.specs.View.{typed_path_view, typed_atom_view, typed_form_view};
ghost use Rattle.herm_judge.specs.View.{table_of, variables_of};
ghost use Rattle.herm_meaning.specs.Names.{IsWellNamed};

use crate::arms::{are_arms_there, are_components_there, are_handlers_there, is_component_there};
use crate::atoms::{are_literals_there, are_paths_there};
use crate::frame::Frame;
use crate::paths::is_there;
use crate::shapes::is_known;
use crate::sight::expression_seen;
use herm_base::ExcNo;
use herm_typed::{TypedAtom, TypedForm, TypedPath, TypedStmt};
use herm_types::TypeTable;

/// All of the paths, where a statement names no literal and nothing else.
fn paths_alone(paths: bool) -> bool
    ensures all { result ≡ (paths && (true && true)) }
{
    paths
}

fn one(p: bool) -> bool
    ensures all { result ≡ (p && true) }
{
    p
}

fn two(p: bool, q: bool) -> bool
    ensures all { result ≡ (p && (q && true)) }
{
    p && q
}

fn three(p: bool, q: bool, r: bool) -> bool
    ensures all { result ≡ (p && (q && (r && true))) }
{
    p && q && r
}

/// The paths with the literals.
fn with_literals(paths: bool, literals: bool) -> bool
    ensures all { result ≡ (paths && (literals && true)) }
{
    paths && literals
}

/// The paths with another name.
fn with_other(paths: bool, other: bool) -> bool
    ensures all { result ≡ (paths && (true && other)) }
{
    paths && other
}

fn is_exception(types: &TypeTable, e: ExcNo) -> bool
    ensures there { result ≡ nat_lt e.0 (length types.now.exceptions) }
{
    (e.0 as usize) < types.exceptions().len()
}

fn is_process(frame: &Frame, process: u32) -> bool
    ensures there { result ≡ nat_lt process (length frame.now.ports.now) }
{
    (process as usize) < frame.ports.len()
}

fn both_there(frame: &Frame, p: &TypedPath, q: &TypedPath) -> bool
    ensures there { result ≡ (is_there (table_of frame.now) (variables_of frame.now) (typed_path_view p.now) && (is_there (table_of frame.now) (variables_of frame.now) (typed_path_view q.now) && true)) }
{
    two(is_there(frame, &p.path), is_there(frame, &q.path))
}

fn one_there(frame: &Frame, p: &TypedPath) -> bool
    ensures there { result ≡ (is_there (table_of frame.now) (variables_of frame.now) (typed_path_view p.now) && true) }
{
    one(is_there(frame, &p.path))
}

fn component_named(frame: &Frame, v: &TypedPath, component: u32, y: &TypedPath) -> bool
    ensures there { result ≡ (is_there (table_of frame.now) (variables_of frame.now) (typed_path_view v.now) && (is_there (table_of frame.now) (variables_of frame.now) (typed_path_view v.now ++ (component ∷ [])) && (is_there (table_of frame.now) (variables_of frame.now) (typed_path_view y.now) && true))) }
{
    three(
        is_there(frame, &v.path),
        is_component_there(frame, v, component),
        is_there(frame, &y.path),
    )
}

fn keys_there(frame: &Frame, r: &TypedPath, t: &TypedPath, keys: &[TypedAtom]) -> bool
    ensures there { result ≡ ((is_there (table_of frame.now) (variables_of frame.now) (typed_path_view r.now) && (is_there (table_of frame.now) (variables_of frame.now) (typed_path_view t.now) && all_pass (is_there (table_of frame.now) (variables_of frame.now)) (paths_among (map typed_atom_view keys.now)))) && (all_pass (is_literal_there (table_of frame.now)) (literals_among (map typed_atom_view keys.now)) && true)) }
{
    with_literals(
        is_there(frame, &r.path) && (is_there(frame, &t.path) && are_paths_there(frame, keys)),
        are_literals_there(frame.types, keys),
    )
}

fn case_there(frame: &Frame, v: &TypedPath, arms: &[(u32, Vec<TypedStmt>)]) -> bool
    ensures there { (exceptions processes : ℕ) → result ≡ is_form_there (table_of frame.now) (variables_of frame.now) exceptions processes (model.Case (typed_path_view v.now) (map (λ a. a.0) arms.now)) }
{
    paths_alone(is_there(frame, &v.path) && are_components_there(frame, v, arms))
}

fn select_there(frame: &Frame, arms: &[(TypedPath, TypedPath, Vec<TypedStmt>)]) -> bool
    ensures there { (exceptions processes : ℕ) → result ≡ is_form_there (table_of frame.now) (variables_of frame.now) exceptions processes (model.Select (map typed_arm_view arms.now)) }
{
    paths_alone(are_arms_there(frame, arms))
}

/// Whether all names of a statement are there, apart from those of the statements within it; `leave` has its loop.
pub fn is_statement_there(frame: &Frame, in_loop: bool, form: &TypedForm) -> bool
    requires well { IsWellNamed frame.now.types.now }
    ensures there { result ≡ is_statement_there (table_of frame.now) (variables_of frame.now) (length frame.now.types.now.exceptions) (length frame.now.ports.now) in_loop (typed_form_view form.now) }
{
    match form {
        TypedForm::Assign(x, e) => {
            let e = expression_seen(frame, e);
            with_literals(is_there(frame, &x.path) && e.there, e.literals)
        }
        TypedForm::Move(y, x) => paths_alone(both_there(frame, y, x)),
        TypedForm::New(x) => paths_alone(one_there(frame, x)),
        TypedForm::Discard(x) => paths_alone(one_there(frame, x)),
        TypedForm::Unite(v, c, y) => paths_alone(component_named(frame, v, *c, y)),
        TypedForm::Dissolve(v, c, y) => paths_alone(component_named(frame, v, *c, y)),
        TypedForm::Reveal(v, c) => paths_alone(two(
            is_there(frame, &v.path),
            is_component_there(frame, v, *c),
        )),
        TypedForm::Case(v, arms) => case_there(frame, v, arms.as_slice()),
        TypedForm::Wrap(y, p) => paths_alone(both_there(frame, y, p)),
        TypedForm::Unwrap(p, t, y) => {
            with_other(both_there(frame, p, y), is_known(frame.types, Some(*t)))
        }
        TypedForm::Insert(r, t) => paths_alone(both_there(frame, r, t)),
        TypedForm::Remove(r, t, keys) => keys_there(frame, r, t, keys.as_slice()),
        TypedForm::Get(r, t, keys) => keys_there(frame, r, t, keys.as_slice()),
        TypedForm::For(r, t, _) => paths_alone(both_there(frame, r, t)),
        TypedForm::Connect(o, i) => paths_alone(both_there(frame, o, i)),
        TypedForm::Send(x, o) => paths_alone(both_there(frame, x, o)),
        TypedForm::Receive(x, i) => paths_alone(both_there(frame, x, i)),
        TypedForm::Select(arms) => select_there(frame, arms.as_slice()),
        TypedForm::Call(o, arguments) => with_literals(
            is_there(frame, &o.path) && are_paths_there(frame, arguments.as_slice()),
            are_literals_there(frame.types, arguments.as_slice()),
        ),
        TypedForm::Return(m) => paths_alone(one_there(frame, m)),
        TypedForm::ReturnBy(m, e) => {
            with_other(one_there(frame, m), is_exception(frame.types, *e))
        }
        TypedForm::Create(o, n) => with_other(one_there(frame, o), is_process(frame, *n)),
        TypedForm::If(e, _, _) => {
            let e = expression_seen(frame, e);
            with_literals(e.there, e.literals)
        }
        TypedForm::While(e, _) => {
            let e = expression_seen(frame, e);
            with_literals(e.there, e.literals)
        }
        TypedForm::Raise(e) => with_other(true, is_exception(frame.types, *e)),
        TypedForm::Leave => in_loop,
        TypedForm::Try(_, handled) => {
            are_handlers_there(frame.types.exceptions().len(), handled.as_slice())
        }
    }
}
