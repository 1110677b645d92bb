//! Instructions of forms on ports and processes.
ghost use Rattle.std.specs.Prelude.{◌≡◌, ◌++◌, ◌∷◌, [], map, IfOk};
ghost use Rattle.herm_instructions.specs.Instructions as model;
ghost use Rattle.herm_types.specs.View.{fact_view};
ghost use Rattle.herm_typed.specs.View.{typed_path_view};
ghost use Rattle.herm_typed.specs.Blocks.{typed_arm_view};
ghost use Rattle.herm_fronts.specs.Frames.{table_of, variables_of};
ghost use Rattle.herm_translated.specs.Fronts.{choices_from, trimmed};
ghost use Rattle.herm_code.specs.View.{instr_view, choice_view};
ghost use Rattle.herm_fronts.specs.Blocks.{exits_view};

use crate::departures::Exits;
use crate::exits::{next_exit, walk_along};
use crate::frame::Frame;
use crate::numbers::small;
use crate::one::one;
use crate::paths::copy_path;
use crate::trims::trim_of;
use herm_code::{Arm, Instr};
use herm_typed::{Outcome, TypedPath, TypedStmt};
use herm_types::Fact;
use std::alloc::{AllocError, Global};

pub fn connect(alloc: Global, o: &TypedPath, i: &TypedPath) -> Result<Vec<Instr>, AllocError>
    ensures { IfOk result (λ v. map instr_view v.items ≡ model.Connect (typed_path_view o.now) (typed_path_view i.now) ∷ []) }
{
    let outport = copy_path(alloc, &o.path)?;
    let inport = copy_path(alloc, &i.path)?;
    one(alloc, Instr::Connect(outport, inport))
}

/// A message is sent without what it has beyond the facts at which it travels.
pub fn send(
    alloc: Global,
    frame: &Frame,
    facts: &[Fact],
    x: &TypedPath,
    o: &TypedPath,
) -> Result<Vec<Instr>, AllocError>
    ensures { IfOk result (λ v. map instr_view v.items ≡ model.Send (typed_path_view x.now) (typed_path_view o.now) (trimmed (table_of frame.now) (variables_of frame.now) (map fact_view facts.now) (typed_path_view x.now) (typed_path_view o.now)) ∷ []) }
{
    let trim = trim_of(alloc, frame, facts, &x.path, &o.path)?;
    let message = copy_path(alloc, &x.path)?;
    let outport = copy_path(alloc, &o.path)?;
    one(alloc, Instr::Send(message, outport, trim))
}

pub fn receive(alloc: Global, x: &TypedPath, i: &TypedPath) -> Result<Vec<Instr>, AllocError>
    ensures { IfOk result (λ v. map instr_view v.items ≡ model.Receive (typed_path_view x.now) (typed_path_view i.now) ∷ []) }
{
    let target = copy_path(alloc, &x.path)?;
    let inport = copy_path(alloc, &i.path)?;
    one(alloc, Instr::Receive(target, inport))
}

/// The arms of a `select`, each with the index that it goes to.
fn choices(
    alloc: Global,
    exits: &Exits<'_>,
    arms: &[(TypedPath, TypedPath, Vec<TypedStmt>)],
) -> Result<Vec<Arm>, AllocError>
    ensures { IfOk result (λ v. map choice_view v.items ≡ choices_from (exits_view exits.now) 0 (map typed_arm_view arms.now)) }
{
    let mut found = Vec::with_capacity(alloc, arms.len())?;
    let mut walk = walk_along(exits);
    'arms: for (place, arm) in arms.iter().enumerate() {
        let place = small(place)?;
        let port = copy_path(alloc, &arm.0.path)?;
        let target = copy_path(alloc, &arm.1.path)?;
        let index = next_exit(exits, &mut walk, Outcome::Arm(place))?;
        found.push(Arm {
            port,
            target,
            index,
        })?;
    }
    Ok(found)
}

pub fn select(
    alloc: Global,
    exits: &Exits<'_>,
    arms: &[(TypedPath, TypedPath, Vec<TypedStmt>)],
) -> Result<Vec<Instr>, AllocError>
    ensures { IfOk result (λ v. map instr_view v.items ≡ model.Select (choices_from (exits_view exits.now) 0 (map typed_arm_view arms.now)) ∷ []) }
{
    let arms = choices(alloc, exits, arms)?;
    one(alloc, Instr::Select(arms))
}

pub fn create(alloc: Global, o: &TypedPath, process: u32) -> Result<Vec<Instr>, AllocError>
    ensures { IfOk result (λ v. map instr_view v.items ≡ model.Create (typed_path_view o.now) process ∷ []) }
{
    let outport = copy_path(alloc, &o.path)?;
    one(alloc, Instr::Create(outport, process))
}
