//! The facts by which a value is at a path, and those by which it is full.
ghost use Rattle.std.specs.Prelude.{◌≡◌, ◌++◌, ◌∷◌, [], OnOk, IsTrue, map, flat_map, slice_get};
ghost use Rattle.herm_model.specs.Lists.{list_of};
ghost use Rattle.herm_model.specs.Facts as model;
ghost use Rattle.herm_model.specs.FactsOfStatements.{present, full, full_of_each, room_for};
ghost use Rattle.herm_model.specs.Paths.{init};
ghost use Rattle.herm_model.specs.Types.{full_parts};
ghost use Rattle.herm_types.specs.View.{path_view, fact_view, shape_view};
ghost use Rattle.herm_judge.specs.View.{kind, table_of, variables_of};

use crate::paths::{copy, parent_of};
use herm_base::{TypeNo, VarNo};
use herm_judge::{Frame, passes_component, type_of};
use herm_types::{Fact, Path, Shape, TypeTable};
use std::alloc::{AllocError, Global};

/// The type of a variable.
fn variable_type(frame: &Frame, var: VarNo) -> Option<TypeNo>
    ensures { kind result ≡ slice_get (variables_of frame.now) var.0 }
{
    frame.of.get(var.0 as usize).copied()
}

/// Appends the facts by which there is a value at the path.
pub fn push_present(
    alloc: Global,
    frame: &Frame,
    p: &Path,
    out: &mut Vec<Fact>,
) -> Result<(), AllocError>
    ensures { OnOk result (map fact_view out.new.items ≡ map fact_view out.old.items ++ present (table_of frame.now) (variables_of frame.now) (path_view p.now)) }
{
    let of = variable_type(frame, p.var);
    frame.types.push_facts_to(alloc, of, p, out)?;
    Ok(())
}

/// Appends the facts that give the path a place: a value at its parent, where it is no whole variable.
pub fn push_room(
    alloc: Global,
    frame: &Frame,
    p: &Path,
    out: &mut Vec<Fact>,
) -> Result<(), AllocError>
    ensures { OnOk result (map fact_view out.new.items ≡ map fact_view out.old.items ++ room_for (table_of frame.now) (variables_of frame.now) (path_view p.now)) }
{
    let parts = p.parts.as_slice();
    if parts.len() == 0 {
        return Ok(());
    }
    let parent = parent_of(alloc, p)?;
    push_present(alloc, frame, &parent, out)?;
    Ok(())
}

/// Appends the facts.
pub fn push_all(facts: Vec<Fact>, out: &mut Vec<Fact>) -> Result<(), AllocError>
    ensures { OnOk result (map fact_view out.new.items ≡ map fact_view out.old.items ++ map fact_view facts.items) }
{
    for fact in facts {
        out.push(fact)?;
    }
    Ok(())
}

/// Whether a full value of the shape has no parts with facts of their own.
fn is_plain(shape: &Shape) -> bool
    ensures { IsTrue result → full_parts (shape_view shape.now) ≡ [] }
{
    match shape {
        Shape::Boolean => true,
        Shape::Integer => true,
        Shape::Text => true,
        Shape::Names(_) => true,
        Shape::Fields(_) => false,
        Shape::Cases(_) => true,
        Shape::Rows { row: _, keys: _ } => true,
        Shape::Poly => true,
        Shape::Inport {
            message: _,
            facts: _,
        } => true,
        Shape::Outport { port: _ } => true,
        Shape::CallMessage {
            params: _,
            raises: _,
        } => false,
    }
}

/// Appends `init` of the path.
fn push_init(alloc: Global, p: &Path, out: &mut Vec<Fact>) -> Result<(), AllocError>
    ensures { OnOk result (map fact_view out.new.items ≡ map fact_view out.old.items ++ init (path_view p.now) ∷ []) }
{
    let path = copy(alloc, p)?;
    out.push(Fact::Init(path))?;
    Ok(())
}

/// Appends the facts of a full value of a type at the path.
fn push_value(
    alloc: Global,
    types: &TypeTable,
    t: Option<TypeNo>,
    p: &Path,
    out: &mut Vec<Fact>,
) -> Result<(), AllocError>
    ensures { OnOk result (map fact_view out.new.items ≡ map fact_view out.old.items ++ list_of (λ t. model.full_facts types.now.shapes t (path_view p.now)) (kind t)) }
{
    let t = match t {
        Some(t) => t,
        None => return Ok(()),
    };
    if t.0 as usize >= types.len() {
        return Ok(());
    }
    if is_plain(types.shape(t)) {
        push_init(alloc, p, out)?;
        return Ok(());
    }
    let facts = types.full_facts(alloc, p, t)?;
    push_all(facts, out)?;
    Ok(())
}

/// Appends the facts by which the value at the path is full. What lies in a component is full where the component is known.
pub fn push_full(
    alloc: Global,
    frame: &Frame,
    p: &Path,
    out: &mut Vec<Fact>,
) -> Result<(), AllocError>
    ensures { OnOk result (map fact_view out.new.items ≡ map fact_view out.old.items ++ full (table_of frame.now) (variables_of frame.now) (path_view p.now)) }
{
    push_present(alloc, frame, p, out)?;
    if passes_component(frame, p) {
        return Ok(());
    }
    push_value(alloc, frame.types, type_of(frame, p), p, out)?;
    Ok(())
}

/// Appends the facts by which the value at each path is full.
pub fn push_full_each(
    alloc: Global,
    frame: &Frame,
    paths: &[Path],
    out: &mut Vec<Fact>,
) -> Result<(), AllocError>
    ensures { OnOk result (map fact_view out.new.items ≡ map fact_view out.old.items ++ full_of_each (table_of frame.now) (variables_of frame.now) (map path_view paths.now)) }
{
    for p in paths {
        push_full(alloc, frame, p, out)?;
    }
    Ok(())
}

/// Appends the facts that give each path a place.
pub fn push_room_each(
    alloc: Global,
    frame: &Frame,
    paths: &[Path],
    out: &mut Vec<Fact>,
) -> Result<(), AllocError>
    ensures { OnOk result (map fact_view out.new.items ≡ map fact_view out.old.items ++ flat_map (room_for (table_of frame.now) (variables_of frame.now)) (map path_view paths.now)) }
{
    for p in paths {
        push_room(alloc, frame, p, out)?;
    }
    Ok(())
}
