//! The facts at which messages travel.
ghost use Rattle.std.specs.Prelude.{◌≡◌, ◌++◌, [], ◌∷◌, false, IfOk, OnOk, map, cond, slice_get, option_map, Some};
ghost use Rattle.herm_model.specs.Paths as model;
ghost use Rattle.herm_model.specs.Types as types;
ghost use Rattle.herm_model.specs.Facts as facts;
ghost use Rattle.herm_types.specs.View.{path_view, fact_view, shape_view};
ghost use Rattle.herm_types.specs.Table.{shapes_view};
ghost use Rattle.herm_types.specs.Messages.{number_of};

use crate::copying::copy_fact;
use crate::fact::{Fact, Path};
use crate::shape::Shape;
use herm_base::{TypeNo, VarNo};
use std::alloc::{AllocError, Global};

/// The type of the part at a place of a shape.
fn part_type(shape: &Shape, place: u32) -> Option<TypeNo>
    ensures { number_of result ≡ types.part_type (shape_view shape.now) place }
{
    match shape {
        Shape::Fields(parts) => {
            let part = parts.as_slice().get(place as usize)?;
            Some(part.of)
        }
        Shape::Cases(parts) => {
            let part = parts.as_slice().get(place as usize)?;
            Some(part.of)
        }
        Shape::CallMessage { params, raises: _ } => {
            let param = params.as_slice().get(place as usize)?;
            Some(param.of)
        }
        _ => None,
    }
}

/// The type of the part at a place of a type, where there is one.
fn part_of(shapes: &[Shape], t: Option<TypeNo>, place: u32) -> Option<TypeNo>
    ensures { number_of result ≡ types.part_of (shapes_view shapes.now) (number_of t) place }
{
    let t = t?;
    let shape = shapes.get(t.0 as usize)?;
    let part = part_type(shape, place)?;
    Some(part)
}

fn is_cases(shape: &Shape) -> bool
    ensures { result ≡ types.is_cases (shape_view shape.now) }
{
    matches!(shape, Shape::Cases(_))
}

/// Whether a type is a variant.
fn is_variant(shapes: &[Shape], t: Option<TypeNo>) -> bool
    ensures { result ≡ types.is_variant (shapes_view shapes.now) (number_of t) }
{
    match t {
        Some(t) => match shapes.get(t.0 as usize) {
            Some(shape) => is_cases(shape),
            None => false,
        },
        None => false,
    }
}

fn path_to(alloc: Global, var: VarNo, parts: &[u32]) -> Result<Path, AllocError>
    ensures { IfOk result (λ p. path_view p ≡ var.0 ∷ parts.now) }
{
    let parts = Vec::from_slice(alloc, parts)?;
    Ok(Path { var, parts })
}

/// Appends `init` of a path that passes through no component.
fn push_init(
    alloc: Global,
    out: &mut Vec<Fact>,
    var: VarNo,
    at: &[u32],
    within: bool,
) -> Result<(), AllocError>
    ensures { OnOk result (map fact_view out.new.items ≡ map fact_view out.old.items ++ cond within [] (model.init (var.0 ∷ at.now) ∷ [])) }
{
    if within {
        return Ok(());
    }
    let path = path_to(alloc, var, at)?;
    out.push(Fact::Init(path))?;
    Ok(())
}

/// Appends `case` of a variant's path.
fn push_case(
    alloc: Global,
    out: &mut Vec<Fact>,
    var: VarNo,
    at: &[u32],
    variant: bool,
    component: u32,
) -> Result<(), AllocError>
    ensures { OnOk result (map fact_view out.new.items ≡ map fact_view out.old.items ++ cond variant (model.case (var.0 ∷ at.now) component ∷ []) []) }
{
    if !variant {
        return Ok(());
    }
    let path = path_to(alloc, var, at)?;
    out.push(Fact::Case(path, component))?;
    Ok(())
}

/// Appends the facts by which there is a value at a path, whose variable has this type.
pub fn push_facts_to(
    alloc: Global,
    shapes: &[Shape],
    of: Option<TypeNo>,
    var: VarNo,
    parts: &[u32],
    out: &mut Vec<Fact>,
) -> Result<(), AllocError>
    ensures { OnOk result (map fact_view out.new.items ≡ map fact_view out.old.items ++ facts.facts_from (shapes_view shapes.now) (var.0 ∷ []) (number_of of) false parts.now) }
{
    let mut t = of;
    let mut within = false;
    for (place, part) in parts.iter().enumerate() {
        let at = &parts[..place];
        push_init(alloc, out, var, at, within)?;
        let variant = is_variant(shapes, t);
        push_case(alloc, out, var, at, variant, *part)?;
        t = part_of(shapes, t, *part);
        within = within || variant;
    }
    push_init(alloc, out, var, parts, within)?;
    Ok(())
}

/// The type of a variable, where the message is variable 0 and there is no other.
fn variable_type(message: TypeNo, var: VarNo) -> Option<TypeNo>
    ensures { number_of result ≡ slice_get (message.0 ∷ []) var.0 }
{
    if var.0 == 0 { Some(message) } else { None }
}

/// Appends the facts before a fact.
fn push_prefixes(
    alloc: Global,
    shapes: &[Shape],
    message: TypeNo,
    fact: &Fact,
    out: &mut Vec<Fact>,
) -> Result<(), AllocError>
    ensures { OnOk result (map fact_view out.new.items ≡ map fact_view out.old.items ++ facts.prefixes (shapes_view shapes.now) (message.0 ∷ []) (fact_view fact.now)) }
{
    match fact {
        Fact::Init(path) => {
            let parts = path.parts.as_slice();
            let count = parts.len();
            if count == 0 {
                return Ok(());
            }
            let of = variable_type(message, path.var);
            let before = &parts[..count - 1];
            push_facts_to(alloc, shapes, of, path.var, before, out)?;
            Ok(())
        }
        Fact::Case(path, _) => {
            let of = variable_type(message, path.var);
            push_facts_to(alloc, shapes, of, path.var, path.parts.as_slice(), out)?;
            Ok(())
        }
    }
}

/// Appends a fact, and the facts before it in front.
pub fn push_with_prefixes(
    alloc: Global,
    shapes: &[Shape],
    message: TypeNo,
    fact: &Fact,
    out: &mut Vec<Fact>,
) -> Result<(), AllocError>
    ensures { OnOk result (map fact_view out.new.items ≡ map fact_view out.old.items ++ facts.with_prefixes (shapes_view shapes.now) (message.0 ∷ []) (fact_view fact.now)) }
{
    push_prefixes(alloc, shapes, message, fact, out)?;
    let copy = copy_fact(alloc, fact)?;
    out.push(copy)?;
    Ok(())
}

/// A fact of variable 0, said of the value at a path.
fn said_at(alloc: Global, path: &Path, fact: &Fact) -> Result<Fact, AllocError>
    ensures { IfOk result (λ f. fact_view f ≡ facts.said_at (path_view path.now) (fact_view fact.now)) }
{
    match fact {
        Fact::Init(below) => {
            let path = joined(alloc, path, below)?;
            Ok(Fact::Init(path))
        }
        Fact::Case(below, component) => {
            let path = joined(alloc, path, below)?;
            Ok(Fact::Case(path, *component))
        }
    }
}

/// The path that goes on as another does behind its variable.
fn joined(alloc: Global, path: &Path, below: &Path) -> Result<Path, AllocError>
    ensures { IfOk result (λ p. path_view p ≡ path_view path.now ++ below.now.parts.items) }
{
    let mut parts = Vec::from_slice(alloc, path.parts.as_slice())?;
    parts.extend_from_slice(below.parts.as_slice())?;
    Ok(Path {
        var: path.var,
        parts,
    })
}

pub fn all_said(alloc: Global, path: &Path, list: &[Fact]) -> Result<Vec<Fact>, AllocError>
    ensures { IfOk result (λ v. map fact_view v.items ≡ map (facts.said_at (path_view path.now)) (map fact_view list.now)) }
{
    let mut out = Vec::new(alloc);
    for fact in list {
        let said = said_at(alloc, path, fact)?;
        out.push(said)?;
    }
    Ok(out)
}
