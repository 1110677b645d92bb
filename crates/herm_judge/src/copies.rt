//! Whether what a statement copies may be copied.
ghost use Rattle.std.specs.Prelude.{◌≡◌, ◌&&◌, map, is_some, option_and_then};
ghost use Rattle.herm_model.specs.Expressions.{paths_among};
ghost use Rattle.herm_meaning.specs.Names.{IsWellNamed};
ghost use Rattle.herm_model.specs.Lists.{list_of};
ghost use Rattle.herm_model.specs.Calls.{parameters_of, raises_of, message_type, led_to, shape_at, call_parameters, call_raises};
ghost use Rattle.herm_model.specs.Statements as model;
ghost use Rattle.herm_naming.specs.Fits.{shape_of, may_be, type_of};
ghost use Rattle.herm_naming.specs.Copies.{may_copy_each, may_copy_rows, copies_form, copies_statement};
ghost use Rattle.herm_types.specs.View.{param_view, raise_decl_view};
ghost use Rattle.herm_typed.specs.View.{typed_path_view, typed_atom_view, typed_form_view};
ghost use Rattle.herm_judge.specs.View.{kind, table_of, variables_of};

use crate::atoms::{are_arguments_copied, are_keys_copied};
use crate::frame::Frame;
use crate::paths::type_of;
use crate::shapes::{may_copy_rows, shape_of};
use crate::sight::expression_seen;
use herm_base::TypeNo;
use herm_typed::{TypedAtom, TypedForm, TypedPath};
use herm_types::{Param, RaiseDecl, Shape, TypeTable};

/// The inport type to which an outport leads.
fn port_of(types: &TypeTable, o: Option<TypeNo>) -> Option<TypeNo>
    ensures port { kind result ≡ option_and_then led_to (shape_of types.now.shapes (kind o)) }
{
    match shape_of(types, o) {
        None => None,
        Some(shape) => match shape {
            Shape::Outport { port } => Some(*port),
            _ => None,
        },
    }
}

/// The type of the messages of an inport.
fn message_of(types: &TypeTable, i: Option<TypeNo>) -> Option<TypeNo>
    ensures message { kind result ≡ option_and_then message_type (shape_of types.now.shapes (kind i)) }
{
    match shape_of(types, i) {
        None => None,
        Some(shape) => match shape {
            Shape::Inport { message, facts: _ } => Some(*message),
            _ => None,
        },
    }
}

/// The parameters of a callmessage, none where the type is another one.
fn parameters_of(types: &TypeTable, m: Option<TypeNo>) -> &[Param]
    ensures parameters { map param_view result.now ≡ list_of parameters_of (shape_of types.now.shapes (kind m)) }
{
    match shape_of(types, m) {
        None => &[],
        Some(shape) => match shape {
            Shape::CallMessage { params, raises: _ } => params.as_slice(),
            _ => &[],
        },
    }
}

/// The parameters of the callmessages that an outport takes.
pub fn call_parameters<'a>(frame: &Frame<'a>, o: &TypedPath) -> &'a [Param]
    ensures parameters { map param_view result.now ≡ call_parameters (table_of frame.now) (variables_of frame.now) (typed_path_view o.now) }
{
    let port = port_of(frame.types, type_of(frame, &o.path));
    let message = message_of(frame.types, port);
    parameters_of(frame.types, message)
}

/// The exceptions of a callmessage, none where the type is another one.
fn raises_of(types: &TypeTable, m: Option<TypeNo>) -> &[RaiseDecl]
    ensures raises { map raise_decl_view result.now ≡ list_of raises_of (shape_of types.now.shapes (kind m)) }
{
    match shape_of(types, m) {
        None => &[],
        Some(shape) => match shape {
            Shape::CallMessage { params: _, raises } => raises.as_slice(),
            _ => &[],
        },
    }
}

/// The exceptions of the callmessages that an outport takes.
pub fn call_raises<'a>(frame: &Frame<'a>, o: &TypedPath) -> &'a [RaiseDecl]
    ensures raises { map raise_decl_view result.now ≡ call_raises (table_of frame.now) (variables_of frame.now) (typed_path_view o.now) }
{
    let port = port_of(frame.types, type_of(frame, &o.path));
    let message = message_of(frame.types, port);
    raises_of(frame.types, message)
}

/// Whether a `new` at a path makes an inport, which can be refused.
pub fn may_be_refused(frame: &Frame, x: &TypedPath) -> bool
    ensures refused { result ≡ is_some (option_and_then message_type (shape_at (table_of frame.now) (variables_of frame.now) (typed_path_view x.now))) }
{
    message_of(frame.types, type_of(frame, &x.path)).is_some()
}

fn get_copies(frame: &Frame, t: &TypedPath, keys: &[TypedAtom]) -> bool
    requires well { IsWellNamed frame.now.types.now }
    ensures copies { result ≡ (may_copy_each (table_of frame.now) (variables_of frame.now) (paths_among (map typed_atom_view keys.now)) && may_be (table_of frame.now) (may_copy_rows (table_of frame.now)) (type_of (table_of frame.now) (variables_of frame.now) (typed_path_view t.now))) }
{
    are_keys_copied(frame, keys) && may_copy_rows(frame.types, type_of(frame, &t.path))
}

fn call_copies(frame: &Frame, o: &TypedPath, arguments: &[TypedAtom]) -> bool
    requires well { IsWellNamed frame.now.types.now }
    ensures copies { result ≡ copies_form (table_of frame.now) (variables_of frame.now) (model.Call (typed_path_view o.now) (map typed_atom_view arguments.now)) }
{
    are_arguments_copied(frame, call_parameters(frame, o), arguments)
}

/// Whether what a statement copies may be copied, apart from the statements within it.
pub fn is_statement_copied(frame: &Frame, form: &TypedForm) -> bool
    requires well { IsWellNamed frame.now.types.now }
    ensures copies { result ≡ copies_statement (table_of frame.now) (variables_of frame.now) (typed_form_view form.now) }
{
    match form {
        TypedForm::Assign(_, e) => expression_seen(frame, e).copies,
        TypedForm::Remove(_, _, keys) => are_keys_copied(frame, keys.as_slice()),
        TypedForm::Get(_, t, keys) => get_copies(frame, t, keys.as_slice()),
        TypedForm::For(_, t, _) => may_copy_rows(frame.types, type_of(frame, &t.path)),
        TypedForm::Call(o, arguments) => call_copies(frame, o, arguments.as_slice()),
        TypedForm::If(e, _, _) => expression_seen(frame, e).copies,
        TypedForm::While(e, _) => expression_seen(frame, e).copies,
        TypedForm::Try(_, _) => true,
        _ => true,
    }
}
