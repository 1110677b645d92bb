//! Instructions of forms on variants.
ghost use Rattle.std.specs.Prelude.{◌≡◌, ◌∷◌, [], map, IfOk};
ghost use Rattle.herm_model.specs.Lists.{map_or, range};
ghost use Rattle.herm_model.specs.Calls.{shape_at};
ghost use Rattle.herm_model.specs.Facts as facts;
ghost use Rattle.herm_model.specs.Outcomes.{component};
ghost use Rattle.herm_instructions.specs.Instructions as model;
ghost use Rattle.herm_typed.specs.View.{typed_path_view};
ghost use Rattle.herm_fronts.specs.Frames.{table_of, variables_of};
ghost use Rattle.herm_code.specs.View.{instr_view};
ghost use Rattle.herm_fronts.specs.Blocks.{exits_view};

use crate::departures::Exits;
use crate::exits::component_exits;
use crate::frame::Frame;
use crate::one::one;
use crate::paths::copy_path;
use crate::shapes::component_count;
use herm_code::Instr;
use herm_typed::TypedPath;
use std::alloc::{AllocError, Global};

pub fn unite(
    alloc: Global,
    v: &TypedPath,
    component: u32,
    y: &TypedPath,
) -> Result<Vec<Instr>, AllocError>
    ensures { IfOk result (λ code. map instr_view code.items ≡ model.Unite (typed_path_view v.now) component (typed_path_view y.now) ∷ []) }
{
    let variant = copy_path(alloc, &v.path)?;
    let source = copy_path(alloc, &y.path)?;
    one(alloc, Instr::Unite(variant, component, source))
}

pub fn dissolve(
    alloc: Global,
    v: &TypedPath,
    component: u32,
    y: &TypedPath,
) -> Result<Vec<Instr>, AllocError>
    ensures { IfOk result (λ code. map instr_view code.items ≡ model.Dissolve (typed_path_view v.now) component (typed_path_view y.now) ∷ []) }
{
    let variant = copy_path(alloc, &v.path)?;
    let target = copy_path(alloc, &y.path)?;
    one(alloc, Instr::Dissolve(variant, component, target))
}

pub fn reveal(alloc: Global, v: &TypedPath, component: u32) -> Result<Vec<Instr>, AllocError>
    ensures { IfOk result (λ code. map instr_view code.items ≡ model.Reveal (typed_path_view v.now) component ∷ []) }
{
    let variant = copy_path(alloc, &v.path)?;
    one(alloc, Instr::Reveal(variant, component))
}

pub fn case(
    alloc: Global,
    frame: &Frame,
    exits: &Exits<'_>,
    v: &TypedPath,
) -> Result<Vec<Instr>, AllocError>
    ensures { IfOk result (λ code. map instr_view code.items ≡ model.CaseOf (typed_path_view v.now) (map (λ c. exits_view exits.now (component c)) (range 0 (map_or 0 facts.component_count (shape_at (table_of frame.now) (variables_of frame.now) (typed_path_view v.now))))) ∷ []) }
{
    let indices = component_exits(alloc, exits, component_count(frame, &v.path))?;
    let variant = copy_path(alloc, &v.path)?;
    one(alloc, Instr::CaseOf(variant, indices))
}
