//! The facts of a set, in order.
ghost use Rattle.std.specs.Prelude.{◌≡◌, ◌++◌, ◌∷◌, [], cond, map, flat_map, true, IfOk, OnOk};
ghost use Rattle.herm_model.specs.Paths as paths;
ghost use Rattle.herm_types.specs.View.{path_view, fact_view};
ghost use Rattle.herm_typestate.specs.Facts.{has_fact};
ghost use Rattle.herm_fronts.specs.Frames.{table_of, variables_of};
ghost use Rattle.herm_fronts.specs.Held.{part_view, held_from, held_inside, held_through, held_facts};

use crate::frame::Frame;
use crate::numbers::small;
use crate::parts::{GREATEST_DEPTH, component_parts, held_parts, is_plain};
use crate::paths::{copy_path, part_path};
use herm_base::{TypeNo, VarNo};
use herm_types::{Fact, Path, TypeTable};
use herm_typestate::State;
use std::alloc::{AllocError, Global};

/// A path of a type, and whether it passes through a component.
#[derive(Drop)]
pub struct Place {
    pub path: Path,
    pub of: TypeNo,
    pub within: bool,
}

/// `init` of a path.
fn init_of(alloc: Global, p: &Path) -> Result<Fact, AllocError>
    ensures { IfOk result (λ f. fact_view f ≡ paths.init (path_view p.now)) }
{
    let path = copy_path(alloc, p)?;
    Ok(Fact::Init(path))
}

/// `case` of a variant's path.
fn case_of(alloc: Global, p: &Path, component: u32) -> Result<Fact, AllocError>
    ensures { IfOk result (λ f. fact_view f ≡ paths.case (path_view p.now) component) }
{
    let path = copy_path(alloc, p)?;
    Ok(Fact::Case(path, component))
}

/// Appends that there is a value at a path, where it is held.
fn push_value(state: &State, path: Path, out: &mut Vec<Fact>) -> Result<(), AllocError>
    ensures { OnOk result (map fact_view out.new.items ≡ map fact_view out.old.items ++ cond (has_fact state.now (paths.init (path_view path))) (paths.init (path_view path) ∷ []) []) }
{
    let fact = Fact::Init(path);
    if !state.holds(&fact) {
        return Ok(());
    }
    out.push(fact)?;
    Ok(())
}

/// Appends what is held at a path of a type and below it.
#[cycle(holding)]
fn push_held(
    alloc: Global,
    types: &TypeTable,
    state: &State,
    depth: u32,
    at: Place,
    out: &mut Vec<Fact>,
) -> Result<(), AllocError>
    ensures { OnOk result (map fact_view out.new.items ≡ map fact_view out.old.items ++ held_from types.now.shapes (has_fact state.now) depth at.within at.of.0 (path_view at.path)) }
{
    if depth == 0 {
        return Ok(());
    }
    if at.within {
        push_inside(alloc, types, state, depth - 1, &at, out)?;
        return Ok(());
    }
    if is_plain(types, at.of) {
        push_value(state, at.path, out)?;
        return Ok(());
    }
    let fact = init_of(alloc, &at.path)?;
    if !state.holds(&fact) {
        return Ok(());
    }
    out.push(fact)?;
    push_inside(alloc, types, state, depth - 1, &at, out)?;
    Ok(())
}

/// Appends what is held below a path of a type.
#[cycle(holding)]
fn push_inside(
    alloc: Global,
    types: &TypeTable,
    state: &State,
    depth: u32,
    at: &Place,
    out: &mut Vec<Fact>,
) -> Result<(), AllocError>
    ensures { OnOk result (map fact_view out.new.items ≡ map fact_view out.old.items ++ held_inside types.now.shapes (has_fact state.now) depth at.now.within at.now.of.0 (path_view at.now.path)) }
{
    let parts = held_parts(alloc, types, at.of)?;
    push_parts(alloc, types, state, depth, at, parts.as_slice(), out)?;
    let components = component_parts(alloc, types, at.of)?;
    push_components(alloc, types, state, depth, at, components.as_slice(), out)?;
    Ok(())
}

/// Appends what is held of parts of the value at a path.
#[cycle(holding)]
fn push_parts(
    alloc: Global,
    types: &TypeTable,
    state: &State,
    depth: u32,
    at: &Place,
    parts: &[(u32, TypeNo)],
    out: &mut Vec<Fact>,
) -> Result<(), AllocError>
    ensures { OnOk result (map fact_view out.new.items ≡ map fact_view out.old.items ++ flat_map (λ part. held_from types.now.shapes (has_fact state.now) depth at.now.within part.1 (path_view at.now.path ++ part.0 ∷ [])) (map part_view parts.now)) }
{
    'parts: for (place, t) in parts {
        let part = Place {
            path: part_path(alloc, &at.path, *place)?,
            of: *t,
            within: at.within,
        };
        push_held(alloc, types, state, depth, part, out)?;
    }
    Ok(())
}

/// Appends what is held of the components of the variant at a path.
#[cycle(holding)]
fn push_components(
    alloc: Global,
    types: &TypeTable,
    state: &State,
    depth: u32,
    at: &Place,
    parts: &[(u32, TypeNo)],
    out: &mut Vec<Fact>,
) -> Result<(), AllocError>
    ensures { OnOk result (map fact_view out.new.items ≡ map fact_view out.old.items ++ flat_map (λ part. cond (has_fact state.now (paths.case (path_view at.now.path) part.0)) (paths.case (path_view at.now.path) part.0 ∷ held_from types.now.shapes (has_fact state.now) depth true part.1 (path_view at.now.path ++ part.0 ∷ [])) []) (map part_view parts.now)) }
{
    'components: for (place, t) in parts {
        push_component(alloc, types, state, depth, at, *place, *t, out)?;
    }
    Ok(())
}

/// Appends what is held of a component, where it is known.
#[cycle(holding)]
fn push_component(
    alloc: Global,
    types: &TypeTable,
    state: &State,
    depth: u32,
    at: &Place,
    place: u32,
    t: TypeNo,
    out: &mut Vec<Fact>,
) -> Result<(), AllocError>
    ensures { OnOk result (map fact_view out.new.items ≡ map fact_view out.old.items ++ cond (has_fact state.now (paths.case (path_view at.now.path) place)) (paths.case (path_view at.now.path) place ∷ held_from types.now.shapes (has_fact state.now) depth true t.0 (path_view at.now.path ++ place ∷ [])) []) }
{
    let fact = case_of(alloc, &at.path, place)?;
    if !state.holds(&fact) {
        return Ok(());
    }
    out.push(fact)?;
    let part = Place {
        path: part_path(alloc, &at.path, place)?,
        of: t,
        within: true,
    };
    push_held(alloc, types, state, depth, part, out)?;
    Ok(())
}

/// The facts of a set that are of the variables, through so many types.
fn held_through(
    alloc: Global,
    frame: &Frame,
    state: &State,
    depth: u32,
) -> Result<Vec<Fact>, AllocError>
    ensures { IfOk result (λ v. map fact_view v.items ≡ held_through (table_of frame.now) (has_fact state.now) depth (variables_of frame.now)) }
{
    let mut out = Vec::with_capacity(alloc, 8)?;
    'variables: for (number, t) in frame.of.iter().enumerate() {
        let number = small(number)?;
        let at = Place {
            path: Path {
                var: VarNo(number),
                parts: Vec::new(alloc),
            },
            of: *t,
            within: false,
        };
        push_held(alloc, frame.types, state, depth, at, &mut out)?;
    }
    out.shrink_to_fit();
    Ok(out)
}

/// The facts of a set that are of the variables, by variables and then by parts, each behind those that it needs.
pub fn held_facts(alloc: Global, frame: &Frame, state: &State) -> Result<Vec<Fact>, AllocError>
    ensures { IfOk result (λ v. map fact_view v.items ≡ held_facts (table_of frame.now) (has_fact state.now) (variables_of frame.now)) }
{
    let found = held_through(alloc, frame, state, GREATEST_DEPTH)?;
    Ok(found)
}
