//! The paths that each edge of a flow finalises.
ghost use Rattle.std.specs.Prelude.{◌≡◌, ◌∷◌, ◌++◌, [], cond, true, false, map, filter, IfOk, OnOk, IsTrue, ◌&&◌, nat_lt, length};
ghost use Rattle.herm_model.specs.Paths as model;
ghost use Rattle.herm_model.specs.Labels.{label_at};
ghost use Rattle.herm_model.specs.laws.ExcessLaws.{IsExcess};
ghost use Rattle.herm_model.specs.Lists.{any_pass, IsIn};
ghost use Rattle.herm_model.specs.ControlPaths.{held_after_edge};
ghost use Rattle.herm_types.specs.View.{path_view, fact_view};
ghost use Rattle.herm_typestate.specs.Facts.{has_fact};
ghost use Rattle.herm_flow.specs.View.{target_view, edge_view, point_view, flow_view};
ghost use Rattle.herm_check.specs.View.{labels_view};
ghost use Rattle.herm_coerce.specs.View.{coercions_view};
ghost use Rattle.herm_coerce.specs.Coerced.{IsDropped, AreDropped, ArePointsDropped, IsEntryDropped, AreCoercions};

use herm_base::VarNo;
use herm_check::{behind, is_value_held_behind};
use herm_flow::{Edge, Flow, Point, Target};
use herm_types::{Fact, Path};
use herm_typestate::{Labels, State};
use std::alloc::{AllocError, Global};

/// The paths that are finalised where a process begins, and by the places of points and of their edges those that are finalised
/// behind an edge.
#[derive(Drop)]
pub struct Coercions {
    pub entry: Vec<Path>,
    pub at: Vec<Vec<Vec<Path>>>,
}

/// What is left of the facts where none is kept.
fn beyond_nothing(alloc: Global, state: &State) -> Result<Vec<Path>, AllocError>
    ensures { IfOk result (λ paths. IsExcess (has_fact state.now) (λ f. false) (map path_view paths.items)) }
{
    let nothing = State::empty(alloc, 0)?;
    let paths = state.excess(alloc, &nothing)?;
    Ok(paths)
}

/// What is left of the facts beyond the label of a point.
fn beyond_point(
    alloc: Global,
    state: &State,
    labels: &Labels,
    at: u32,
) -> Result<Vec<Path>, AllocError>
    ensures { IfOk result (λ paths. IsExcess (has_fact state.now) (labels_view labels.now at) (map path_view paths.items)) }
{
    match labels.at.as_slice().get(at as usize) {
        Some(low) => {
            let paths = state.excess(alloc, low)?;
            Ok(paths)
        }
        None => {
            let paths = beyond_nothing(alloc, state)?;
            Ok(paths)
        }
    }
}

/// What is left of the facts beyond the label of a target.
fn beyond(
    alloc: Global,
    state: &State,
    labels: &Labels,
    to: Target,
) -> Result<Vec<Path>, AllocError>
    ensures { IfOk result (λ paths. IsExcess (has_fact state.now) (label_at (labels_view labels.now) (target_view to)) (map path_view paths.items)) }
{
    match to {
        Target::Point(at) => {
            let paths = beyond_point(alloc, state, labels, at)?;
            Ok(paths)
        }
        Target::End => {
            let paths = beyond_nothing(alloc, state)?;
            Ok(paths)
        }
        Target::EndBy(_) => {
            let paths = beyond_nothing(alloc, state)?;
            Ok(paths)
        }
    }
}

/// Whether each fact that the edge makes is in the set.
fn are_made_in(low: &State, makes: &[Fact]) -> bool
    ensures { IsTrue result → (f : model.Fact) → any_pass (model.same_fact f) (map fact_view makes.now) ≡ true → has_fact low.now f ≡ true }
{
    for fact in makes {
        if !low.holds(fact) {
            return false;
        }
    }
    true
}

/// Whether each fact that the edge makes is in the label of a point.
fn are_made_at_point(labels: &Labels, edge: &Edge, at: u32) -> bool
    ensures { IsTrue result → (f : model.Fact) → any_pass (model.same_fact f) (edge_view edge.now).makes ≡ true → labels_view labels.now at f ≡ true }
{
    let Some(low) = labels.at.as_slice().get(at as usize) else {
        return false;
    };
    are_made_in(low, edge.makes())
}

/// Whether each of the facts, and each that the edge makes, is in the low set. Then all that is held behind the edge is in it. Where
/// false, all of that may be in it too, since an edge takes facts away.
fn has_all_behind(low: &State, state: &State, edge: &Edge) -> bool
    ensures { IsTrue result → (f : model.Fact) → held_after_edge (edge_view edge.now) f (has_fact state.now f) ≡ true → has_fact low.now f ≡ true }
{
    if !are_made_in(low, edge.makes()) {
        return false;
    }
    state.is_below(low)
}

/// Whether the label of a point is found to have all that is held behind the edge.
fn is_carried_to(state: &State, labels: &Labels, edge: &Edge, at: u32) -> bool
    ensures { IsTrue result → (f : model.Fact) → held_after_edge (edge_view edge.now) f (has_fact state.now f) ≡ true → labels_view labels.now at f ≡ true }
{
    let Some(low) = labels.at.as_slice().get(at as usize) else {
        return false;
    };
    has_all_behind(low, state, edge)
}

/// Whether the label of the target is found to have all that is held behind the edge.
fn is_carried(state: &State, labels: &Labels, edge: &Edge) -> bool
    ensures { IsTrue result → (f : model.Fact) → held_after_edge (edge_view edge.now) f (has_fact state.now f) ≡ true → label_at (labels_view labels.now) (target_view edge.now.to) f ≡ true }
{
    let Target::Point(at) = edge.to else {
        return false;
    };
    is_carried_to(state, labels, edge, at)
}

/// Whether each fact that the edge makes is in the label of the target.
fn are_made_at(labels: &Labels, edge: &Edge) -> bool
    ensures { IsTrue result → (f : model.Fact) → any_pass (model.same_fact f) (edge_view edge.now).makes ≡ true → label_at (labels_view labels.now) (target_view edge.now.to) f ≡ true }
{
    if edge.makes().is_empty() {
        return true;
    }
    let Target::Point(at) = edge.to else {
        return false;
    };
    are_made_at_point(labels, edge, at)
}

/// Whether a value is held behind the edge at each of the paths, where it is held before it.
fn are_held(edge: &Edge, paths: &[Path]) -> bool
    ensures { IsTrue result → (x : model.Path) → IsIn x (map path_view paths.now) → held_after_edge (edge_view edge.now) (model.init x) true ≡ true }
{
    for path in paths {
        if !is_value_held_behind(edge, path, true) {
            return false;
        }
    }
    true
}

/// Appends the path, where a value at it is held behind the edge.
fn push_held(edge: &Edge, path: Path, out: &mut Vec<Path>) -> Result<(), AllocError>
    ensures { OnOk result (map path_view out.new.items ≡ map path_view out.old.items ++ cond (held_after_edge (edge_view edge.now) (model.init (path_view path)) true) (path_view path ∷ []) []) }
{
    if is_value_held_behind(edge, &path, true) {
        out.push(path)?;
    }
    Ok(())
}

/// Those of the paths at which a value is held behind the edge, where it is held before it.
fn held_behind(alloc: Global, edge: &Edge, paths: Vec<Path>) -> Result<Vec<Path>, AllocError>
    ensures { IfOk result (λ v. map path_view v.items ≡ filter (λ p. held_after_edge (edge_view edge.now) (model.init p) true) (map path_view paths.items)) }
{
    let mut out = Vec::new(alloc);
    for path in paths {
        push_held(edge, path, &mut out)?;
    }
    Ok(out)
}

/// What an edge finalises, by a copy of the facts as they are behind it.
fn dropped_behind(
    alloc: Global,
    state: &State,
    labels: &Labels,
    edge: &Edge,
) -> Result<Vec<Path>, AllocError>
    ensures { IfOk result (λ paths. IsDropped (labels_view labels.now) (has_fact state.now) (edge_view edge.now) (map path_view paths.items)) }
{
    let after = behind(alloc, state, edge)?;
    let paths = beyond(alloc, &after, labels, edge.to)?;
    Ok(paths)
}

/// What an edge finalises, where these facts are held before it. Where the edge makes what is held before it, or what is in the label
/// of the target, it is that part of what is left of the facts before it which the edge does not take away.
fn left_behind(
    alloc: Global,
    state: &State,
    labels: &Labels,
    edge: &Edge,
) -> Result<Vec<Path>, AllocError>
    ensures { IfOk result (λ paths. IsDropped (labels_view labels.now) (has_fact state.now) (edge_view edge.now) (map path_view paths.items)) }
{
    let before = beyond(alloc, state, labels, edge.to)?;
    if are_made_in(state, edge.makes()) && are_held(edge, before.as_slice()) {
        return Ok(before);
    }
    if are_made_at(labels, edge) {
        let paths = held_behind(alloc, edge, before)?;
        return Ok(paths);
    }
    let paths = dropped_behind(alloc, state, labels, edge)?;
    Ok(paths)
}

/// How many facts and paths are few.
const FEW: usize = 8;

/// Whether the edge makes and takes away so little that each path may be compared with all of it.
fn changes_little(edge: &Edge) -> bool {
    edge.makes().len() <= FEW && edge.kills().len() <= FEW
}

/// What an edge finalises, where these facts are held before it. Where it is found to finalise nothing, no fact is looked for.
fn dropped(
    alloc: Global,
    state: &State,
    labels: &Labels,
    edge: &Edge,
) -> Result<Vec<Path>, AllocError>
    ensures { IfOk result (λ paths. IsDropped (labels_view labels.now) (has_fact state.now) (edge_view edge.now) (map path_view paths.items)) }
{
    if is_carried(state, labels, edge) {
        return Ok(Vec::new(alloc));
    }
    if changes_little(edge) {
        let paths = left_behind(alloc, state, labels, edge)?;
        return Ok(paths);
    }
    let paths = dropped_behind(alloc, state, labels, edge)?;
    Ok(paths)
}

/// What each edge finalises.
fn all_dropped(
    alloc: Global,
    state: &State,
    labels: &Labels,
    edges: &[Edge],
) -> Result<Vec<Vec<Path>>, AllocError>
    ensures { IfOk result (λ found. AreDropped (labels_view labels.now) (has_fact state.now) (map edge_view edges.now) (map (λ e. map path_view e.items) found.items)) }
{
    let mut found = Vec::with_capacity(alloc, edges.len())?;
    for edge in edges {
        found.push(dropped(alloc, state, labels, edge)?)?;
    }
    Ok(found)
}

/// What each edge of the point at a place finalises.
fn dropped_at(
    alloc: Global,
    labels: &Labels,
    at: usize,
    point: &Point,
) -> Result<Vec<Vec<Path>>, AllocError>
    ensures { IfOk result (λ found. AreDropped (labels_view labels.now) (labels_view labels.now at) (point_view point.now).edges (map (λ e. map path_view e.items) found.items)) }
{
    match labels.at.as_slice().get(at) {
        Some(state) => {
            let found = all_dropped(alloc, state, labels, point.edges.as_slice())?;
            Ok(found)
        }
        None => {
            let nothing = State::empty(alloc, 0)?;
            let found = all_dropped(alloc, &nothing, labels, point.edges.as_slice())?;
            Ok(found)
        }
    }
}

/// What the edges of each point finalise.
fn edges_dropped(
    alloc: Global,
    flow: &Flow,
    labels: &Labels,
) -> Result<Vec<Vec<Vec<Path>>>, AllocError>
    ensures { IfOk result (λ found. ArePointsDropped (labels_view labels.now) 0 (flow_view flow.now).points (map (λ p. map (λ e. map path_view e.items) p.items) found.items)) }
{
    let mut found = Vec::with_capacity(alloc, flow.points.len())?;
    for (at, point) in flow.points.as_slice().iter().enumerate() {
        found.push(dropped_at(alloc, labels, at, point)?)?;
    }
    Ok(found)
}

fn port(alloc: Global) -> Path
    ensures { path_view result ≡ 0 ∷ [] }
{
    Path {
        var: VarNo(0),
        parts: Vec::new(alloc),
    }
}

/// Whether the port keeps its value where a process begins.
fn keeps_port(alloc: Global, flow: &Flow, labels: &Labels) -> bool
    ensures { result ≡ label_at (labels_view labels.now) (flow_view flow.now).entry (model.init (0 ∷ [])) }
{
    if flow.points.is_empty() {
        return false;
    }
    let Some(first) = labels.at.as_slice().first() else {
        return false;
    };
    let kept = first.holds(&Fact::Init(port(alloc)));
    kept
}

/// The port, where it does not keep its value as a process begins.
fn entry_dropped(alloc: Global, flow: &Flow, labels: &Labels) -> Result<Vec<Path>, AllocError>
    ensures { IfOk result (λ paths. map path_view paths.items ≡ cond (label_at (labels_view labels.now) (flow_view flow.now).entry (model.init (0 ∷ []))) [] ((0 ∷ []) ∷ [])) }
{
    let mut paths = Vec::new(alloc);
    if keeps_port(alloc, flow, labels) {
        return Ok(paths);
    }
    paths.push(port(alloc))?;
    Ok(paths)
}

/// What each edge finalises, and what is finalised where the process begins: what is held there and is not in the label of the point
/// to which control goes. At an end it is all that is held. A process begins with a value at its port alone, so at the
/// beginning it is the port, where there is no point or its label lacks the port's `init`, or else nothing.
pub fn coerce(alloc: Global, flow: &Flow, labels: &Labels) -> Result<Coercions, AllocError>
    ensures coercions { IfOk result (λ c. AreCoercions (flow_view flow.now) (labels_view labels.now) (coercions_view c)) }
    ensures port { IfOk result (λ c. map path_view c.entry.items ≡ cond (nat_lt 0 (length flow.now.points.items) && labels_view labels.now 0 (model.init (0 ∷ []))) [] ((0 ∷ []) ∷ [])) }
{
    let entry = entry_dropped(alloc, flow, labels)?;
    let at = edges_dropped(alloc, flow, labels)?;
    Ok(Coercions { entry, at })
}
