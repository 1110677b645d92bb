//! Instructions of forms on values and polymorphs.
ghost use Rattle.std.specs.Prelude.{◌≡◌, ◌∷◌, [], map, IfOk};
ghost use Rattle.herm_instructions.specs.Instructions as model;
ghost use Rattle.herm_typed.specs.View.{typed_path_view};
ghost use Rattle.herm_fronts.specs.Frames.{table_of, variables_of};
ghost use Rattle.herm_translated.specs.Fronts.{type_of};
ghost use Rattle.herm_code.specs.View.{instr_view};

use crate::frame::Frame;
use crate::one::one;
use crate::paths::copy_path;
use crate::shapes::type_number;
use herm_base::TypeNo;
use herm_code::Instr;
use herm_typed::TypedPath;
use std::alloc::{AllocError, Global};

pub fn store(alloc: Global, x: &TypedPath) -> Result<Vec<Instr>, AllocError>
    ensures { IfOk result (λ v. map instr_view v.items ≡ model.Store (typed_path_view x.now) ∷ []) }
{
    let path = copy_path(alloc, &x.path)?;
    one(alloc, Instr::Store(path))
}

pub fn moved(alloc: Global, y: &TypedPath, x: &TypedPath) -> Result<Vec<Instr>, AllocError>
    ensures { IfOk result (λ v. map instr_view v.items ≡ model.Move (typed_path_view y.now) (typed_path_view x.now) ∷ []) }
{
    let source = copy_path(alloc, &y.path)?;
    let target = copy_path(alloc, &x.path)?;
    one(alloc, Instr::Move(source, target))
}

pub fn new(alloc: Global, frame: &Frame, x: &TypedPath) -> Result<Vec<Instr>, AllocError>
    ensures { IfOk result (λ v. map instr_view v.items ≡ model.New (typed_path_view x.now) (type_of (table_of frame.now) (variables_of frame.now) (typed_path_view x.now)) ∷ []) }
{
    let t = type_number(frame, &x.path);
    let path = copy_path(alloc, &x.path)?;
    one(alloc, Instr::New(path, t))
}

pub fn discard(alloc: Global, x: &TypedPath) -> Result<Vec<Instr>, AllocError>
    ensures { IfOk result (λ v. map instr_view v.items ≡ model.Discard (typed_path_view x.now) ∷ []) }
{
    let path = copy_path(alloc, &x.path)?;
    one(alloc, Instr::Discard(path))
}

pub fn wrap(
    alloc: Global,
    frame: &Frame,
    y: &TypedPath,
    p: &TypedPath,
) -> Result<Vec<Instr>, AllocError>
    ensures { IfOk result (λ v. map instr_view v.items ≡ model.Wrap (typed_path_view y.now) (type_of (table_of frame.now) (variables_of frame.now) (typed_path_view y.now)) (typed_path_view p.now) ∷ []) }
{
    let t = type_number(frame, &y.path);
    let content = copy_path(alloc, &y.path)?;
    let target = copy_path(alloc, &p.path)?;
    one(alloc, Instr::Wrap(content, t, target))
}

pub fn unwrap(
    alloc: Global,
    p: &TypedPath,
    t: TypeNo,
    y: &TypedPath,
) -> Result<Vec<Instr>, AllocError>
    ensures { IfOk result (λ v. map instr_view v.items ≡ model.Unwrap (typed_path_view p.now) t.0 (typed_path_view y.now) ∷ []) }
{
    let source = copy_path(alloc, &p.path)?;
    let target = copy_path(alloc, &y.path)?;
    one(alloc, Instr::Unwrap(source, t, target))
}
