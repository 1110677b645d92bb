//! Instructions of calls and of their answers.
ghost use Rattle.std.specs.Prelude.{◌≡◌, ◌++◌, ◌∷◌, [], map, IfOk};
ghost use Rattle.herm_model.specs.Lists.{list_of};
ghost use Rattle.herm_model.specs.Calls as calls;
ghost use Rattle.herm_instructions.specs.Instructions as model;
ghost use Rattle.herm_types.specs.View.{mode_view, param_view, path_view};
ghost use Rattle.herm_typed.specs.View.{typed_path_view, typed_atom_view};
ghost use Rattle.herm_fronts.specs.Frames.{table_of, variables_of};
ghost use Rattle.herm_translated.specs.Fronts.{argument_by, arguments_of};
ghost use Rattle.herm_code.specs.View.{instr_view, argument_view};

use crate::frame::Frame;
use crate::one::one;
use crate::paths::{copy_path, copy_raises};
use crate::shapes::{call_parameters, call_raises, kept_for, raises_at};
use herm_base::ExcNo;
use herm_code::{Arg, Instr};
use herm_typed::{TypedAtom, TypedPath};
use herm_types::{Mode, Param};
use std::alloc::{AllocError, Global};

/// An argument, by the mode of its parameter.
fn argument_by(alloc: Global, mode: Mode, atom: &TypedAtom) -> Result<Arg, AllocError>
    ensures { IfOk result (λ a. argument_view a ≡ argument_by (mode_view mode) (typed_atom_view atom.now)) }
{
    match atom {
        TypedAtom::Literal(_) => match mode {
            Mode::In => Ok(Arg::In),
            Mode::Inout => Ok(Arg::In),
            Mode::Out => Ok(Arg::In),
        },
        TypedAtom::Path(p) => match mode {
            Mode::In => Ok(Arg::In),
            Mode::Inout => {
                let path = copy_path(alloc, &p.path)?;
                Ok(Arg::Inout(path))
            }
            Mode::Out => {
                let path = copy_path(alloc, &p.path)?;
                Ok(Arg::Out(path))
            }
        },
    }
}

/// An argument for each parameter.
fn arguments_of(
    alloc: Global,
    params: &[Param],
    atoms: &[TypedAtom],
) -> Result<Vec<Arg>, AllocError>
    ensures { IfOk result (λ v. map argument_view v.items ≡ arguments_of (map param_view params.now) (map typed_atom_view atoms.now)) }
{
    let mut found = Vec::new(alloc);
    let mut left = atoms;
    'params: for param in params {
        match left {
            [] => return Ok(found),
            [atom, more @ ..] => {
                let argument = argument_by(alloc, param.mode, atom)?;
                found.push(argument)?;
                left = more;
            }
        }
    }
    Ok(found)
}

pub fn call(
    alloc: Global,
    frame: &Frame,
    o: &TypedPath,
    atoms: &[TypedAtom],
) -> Result<Vec<Instr>, AllocError>
    ensures { IfOk result (λ v. map instr_view v.items ≡ model.Call (typed_path_view o.now) (arguments_of (calls.call_parameters (table_of frame.now) (variables_of frame.now) (typed_path_view o.now)) (map typed_atom_view atoms.now)) (calls.call_raises (table_of frame.now) (variables_of frame.now) (typed_path_view o.now)) ∷ []) }
{
    let outport = copy_path(alloc, &o.path)?;
    let arguments = arguments_of(alloc, call_parameters(frame, &o.path), atoms)?;
    let keeps = copy_raises(alloc, call_raises(frame, &o.path))?;
    one(alloc, Instr::Call(outport, arguments, keeps))
}

pub fn answer(alloc: Global, m: &TypedPath) -> Result<Vec<Instr>, AllocError>
    ensures { IfOk result (λ v. map instr_view v.items ≡ model.Return (typed_path_view m.now) ∷ []) }
{
    let message = copy_path(alloc, &m.path)?;
    one(alloc, Instr::Return(message))
}

pub fn answer_by(
    alloc: Global,
    frame: &Frame,
    m: &TypedPath,
    e: ExcNo,
) -> Result<Vec<Instr>, AllocError>
    ensures { IfOk result (λ v. map instr_view v.items ≡ model.ReturnBy (typed_path_view m.now) e.0 (calls.kept_for (list_of calls.raises_of (calls.shape_at (table_of frame.now) (variables_of frame.now) (typed_path_view m.now))) e.0) ∷ []) }
{
    let message = copy_path(alloc, &m.path)?;
    let kept = Vec::from_slice(alloc, kept_for(raises_at(frame, &m.path), e))?;
    one(alloc, Instr::ReturnBy(message, e, kept))
}
