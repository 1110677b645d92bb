//! The operands of forms.
ghost use Rattle.std.specs.Prelude.{◌≡◌, ◌++◌, ◌∷◌, [], map, IfOk, OnOk};
ghost use Rattle.herm_model.specs.Calls as model;
ghost use Rattle.herm_types.specs.View.{mode_view, param_view};
ghost use Rattle.herm_typed.specs.View.{typed_path_view, typed_atom_view, typed_expr_view};
ghost use Rattle.herm_fronts.specs.Frames.{table_of, variables_of};
ghost use Rattle.herm_fronts.specs.Operands.{operands_of};
ghost use Rattle.herm_fronts.specs.Forms.{form_seen, atom_operand, input_operand, input_operands, front_operands, count_behind};
ghost use Rattle.herm_fronts.specs.View.{item_view};

use crate::expressions::{Item, expression, push_literal, push_load};
use crate::frame::Frame;
use crate::shapes::call_parameters;
use herm_typed::{TypedAtom, TypedExpr, TypedForm, TypedPath};
use herm_types::{Mode, Param};
use std::alloc::{AllocError, Global};

/// Appends a key or an argument.
fn push_atom<'a>(
    alloc: Global,
    atom: &'a TypedAtom,
    out: &mut Vec<Item<'a>>,
) -> Result<(), AllocError>
    ensures { OnOk result (map item_view out.new.items ≡ map item_view out.old.items ++ atom_operand (typed_atom_view atom.now) ∷ []) }
{
    match atom {
        TypedAtom::Literal(literal) => {
            push_literal(literal, out)?;
            Ok(())
        }
        TypedAtom::Path(p) => {
            push_load(alloc, &p.path, out)?;
            Ok(())
        }
    }
}

/// Appends an argument, where the mode of its parameter is `in`.
fn push_input<'a>(
    alloc: Global,
    mode: Mode,
    atom: &'a TypedAtom,
    out: &mut Vec<Item<'a>>,
) -> Result<(), AllocError>
    ensures { OnOk result (map item_view out.new.items ≡ map item_view out.old.items ++ input_operand (mode_view mode) (typed_atom_view atom.now)) }
{
    match mode {
        Mode::In => {
            push_atom(alloc, atom, out)?;
            Ok(())
        }
        Mode::Inout => Ok(()),
        Mode::Out => Ok(()),
    }
}

/// Keys, from left to right.
fn keys_of<'a>(alloc: Global, keys: &'a [TypedAtom]) -> Result<Vec<Item<'a>>, AllocError>
    ensures { IfOk result (λ v. map item_view v.items ≡ map atom_operand (map typed_atom_view keys.now)) }
{
    let mut out = Vec::with_capacity(alloc, keys.len())?;
    'keys: for key in keys {
        push_atom(alloc, key, &mut out)?;
    }
    Ok(out)
}

/// The arguments of parameters of mode `in`, in their order.
fn inputs_of<'a>(
    alloc: Global,
    params: &[Param],
    atoms: &'a [TypedAtom],
) -> Result<Vec<Item<'a>>, AllocError>
    ensures { IfOk result (λ v. map item_view v.items ≡ input_operands (map param_view params.now) (map typed_atom_view atoms.now)) }
{
    let mut out = Vec::new(alloc);
    let mut left = atoms;
    'params: for param in params {
        match left {
            [] => return Ok(out),
            [atom, more @ ..] => {
                push_input(alloc, param.mode, atom, &mut out)?;
                left = more;
            }
        }
    }
    Ok(out)
}

/// The operands of an expression.
pub fn expression_of<'a>(alloc: Global, e: &'a TypedExpr) -> Result<Vec<Item<'a>>, AllocError>
    ensures { IfOk result (λ v. map item_view v.items ≡ operands_of (typed_expr_view e.now)) }
{
    let mut out = Vec::new(alloc);
    expression(alloc, e, &mut out)?;
    Ok(out)
}

/// The arguments of a call that are on the stack.
fn call_inputs<'a>(
    alloc: Global,
    frame: &Frame,
    o: &TypedPath,
    arguments: &'a [TypedAtom],
) -> Result<Vec<Item<'a>>, AllocError>
    ensures { IfOk result (λ v. map item_view v.items ≡ input_operands (model.call_parameters (table_of frame.now) (variables_of frame.now) (typed_path_view o.now)) (map typed_atom_view arguments.now)) }
{
    let params = call_parameters(frame, &o.path);
    let inputs = inputs_of(alloc, params, arguments)?;
    Ok(inputs)
}

/// The operands of a form, from left to right.
pub fn operands_of<'a>(
    alloc: Global,
    frame: &Frame,
    form: &'a TypedForm,
) -> Result<Vec<Item<'a>>, AllocError>
    ensures { IfOk result (λ v. map item_view v.items ≡ front_operands (table_of frame.now) (variables_of frame.now) (form_seen form.now)) }
{
    match form {
        TypedForm::Assign(_, e) => expression_of(alloc, e),
        TypedForm::Remove(_, _, keys) => keys_of(alloc, keys.as_slice()),
        TypedForm::Get(_, _, keys) => keys_of(alloc, keys.as_slice()),
        TypedForm::Call(o, arguments) => call_inputs(alloc, frame, o, arguments.as_slice()),
        TypedForm::If(e, _, _) => expression_of(alloc, e),
        TypedForm::While(e, _) => expression_of(alloc, e),
        TypedForm::Case(_, _) => Ok(Vec::new(alloc)),
        TypedForm::For(_, _, _) => Ok(Vec::new(alloc)),
        TypedForm::Select(_) => Ok(Vec::new(alloc)),
        TypedForm::Try(_, _) => Ok(Vec::new(alloc)),
        _ => Ok(Vec::new(alloc)),
    }
}

/// How many instructions a form has behind its operands.
pub fn count_behind(form: &TypedForm) -> u32
    ensures { result ≡ count_behind (form_seen form.now) }
{
    match form {
        TypedForm::For(_, _, _) => 4,
        TypedForm::Leave => 0,
        TypedForm::Try(_, _) => 0,
        TypedForm::Case(_, _) => 1,
        TypedForm::Select(_) => 1,
        TypedForm::If(_, _, _) => 1,
        TypedForm::While(_, _) => 1,
        _ => 1,
    }
}
