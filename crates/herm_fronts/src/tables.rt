//! Instructions of forms on tables.
ghost use Rattle.std.specs.Prelude.{◌≡◌, ◌∷◌, [], ◌+◌, map, length, IfOk};
ghost use Rattle.herm_model.specs.Outcomes.{done};
ghost use Rattle.herm_instructions.specs.Instructions as model;
ghost use Rattle.herm_typed.specs.View.{typed_path_view, typed_atom_view};
ghost use Rattle.herm_code.specs.View.{instr_view};
ghost use Rattle.herm_fronts.specs.Blocks.{exits_view};

use crate::departures::{Exits, exit_at};
use crate::numbers::{small, sum};
use crate::one::one;
use crate::paths::copy_path;
use herm_code::Instr;
use herm_typed::{Outcome, TypedAtom, TypedPath};
use std::alloc::{AllocError, Global};

pub fn insert(alloc: Global, r: &TypedPath, t: &TypedPath) -> Result<Vec<Instr>, AllocError>
    ensures { IfOk result (λ v. map instr_view v.items ≡ model.Insert (typed_path_view r.now) (typed_path_view t.now) ∷ []) }
{
    let row = copy_path(alloc, &r.path)?;
    let table = copy_path(alloc, &t.path)?;
    one(alloc, Instr::Insert(row, table))
}

pub fn remove(
    alloc: Global,
    r: &TypedPath,
    t: &TypedPath,
    keys: &[TypedAtom],
) -> Result<Vec<Instr>, AllocError>
    ensures { IfOk result (λ v. map instr_view v.items ≡ model.Remove (typed_path_view r.now) (typed_path_view t.now) (length (map typed_atom_view keys.now)) ∷ []) }
{
    let count = small(keys.len())?;
    let row = copy_path(alloc, &r.path)?;
    let table = copy_path(alloc, &t.path)?;
    one(alloc, Instr::Remove(row, table, count))
}

pub fn get(
    alloc: Global,
    r: &TypedPath,
    t: &TypedPath,
    keys: &[TypedAtom],
) -> Result<Vec<Instr>, AllocError>
    ensures { IfOk result (λ v. map instr_view v.items ≡ model.Get (typed_path_view r.now) (typed_path_view t.now) (length (map typed_atom_view keys.now)) ∷ []) }
{
    let count = small(keys.len())?;
    let row = copy_path(alloc, &r.path)?;
    let table = copy_path(alloc, &t.path)?;
    one(alloc, Instr::Get(row, table, count))
}

/// A loop over the rows of a table: they are copied, and control goes past the second step to the test.
pub fn loop_over(
    alloc: Global,
    number: u32,
    here: u32,
    exits: &Exits<'_>,
    r: &TypedPath,
    t: &TypedPath,
) -> Result<Vec<Instr>, AllocError>
    ensures { IfOk result (λ v. map instr_view v.items ≡ model.LoopStart (typed_path_view t.now) number ∷ model.Jump (here + 3) ∷ model.Step ∷ model.LoopNext (typed_path_view r.now) number (exits_view exits.now done) ∷ []) }
{
    let table = copy_path(alloc, &t.path)?;
    let row = copy_path(alloc, &r.path)?;
    let test = sum(here, 3)?;
    let over = exit_at(exits, Outcome::Done)?;
    let code = vec![in alloc;
        Instr::LoopStart(table, number),
        Instr::Jump(test),
        Instr::Step,
        Instr::LoopNext(row, number, over),
    ]?;
    Ok(code)
}
