//! What outcomes make and take away. Those of a statement share it where it is found to be the same.
ghost use Rattle.std.specs.Prelude.{◌≡◌, IfOk, IfSome, IsTrue, map};
ghost use Rattle.herm_model.specs.Paths.{same_path};
ghost use Rattle.herm_model.specs.FactsOfStatements.{received_at, set_at};
ghost use Rattle.herm_types.specs.View.{path_view, fact_view};
ghost use Rattle.herm_typed.specs.Blocks.{typed_arm_view};
ghost use Rattle.herm_judge.specs.View.{kind, table_of, variables_of};
ghost use Rattle.herm_effects.specs.Rows.{makes_at, kills_at};
ghost use Rattle.herm_flow.specs.View.{edge_view};
ghost use Rattle.herm_flow.specs.Edges.{AreEdgesOf};

use crate::flow::{Change, Edge};
use herm_base::TypeNo;
use herm_effects::{kills_of, makes_of};
use herm_judge::{Frame, type_of};
use herm_typed::{Outcome, TypedForm, TypedPath, TypedStmt};
use herm_types::Path;
use std::alloc::{AllocError, Global};
use std::rc::Rc;

/// How many of the edges before it an edge is compared with.
pub const NEAR: usize = 64;

/// Whether two paths are the same.
pub fn is_same_path(a: &Path, b: &Path) -> bool
    ensures same { result ≡ same_path (path_view a.now) (path_view b.now) }
    ensures equal { IsTrue result → path_view a.now ≡ path_view b.now }
{
    a.var == b.var && a.parts.as_slice() == b.parts.as_slice()
}

fn is_same_type(a: Option<TypeNo>, b: Option<TypeNo>) -> bool
    ensures { IsTrue result → kind a ≡ kind b }
{
    match (a, b) {
        (Some(a), Some(b)) => a.0 == b.0,
        (None, None) => true,
        _ => false,
    }
}

/// Whether the arms at two places receive messages of one type at one path.
fn are_arms_alike(
    frame: &Frame,
    arms: &[(TypedPath, TypedPath, Vec<TypedStmt>)],
    a: u32,
    b: u32,
) -> bool
    ensures made { IsTrue result → received_at (table_of frame.now) (variables_of frame.now) (map typed_arm_view arms.now) a ≡ received_at (table_of frame.now) (variables_of frame.now) (map typed_arm_view arms.now) b }
    ensures gone { IsTrue result → set_at (table_of frame.now) (variables_of frame.now) (map typed_arm_view arms.now) a ≡ set_at (table_of frame.now) (variables_of frame.now) (map typed_arm_view arms.now) b }
{
    let Some((port, target, _)) = arms.get(a as usize) else {
        return false;
    };
    let Some((other_port, other, _)) = arms.get(b as usize) else {
        return false;
    };
    if !is_same_path(&target.path, &other.path) {
        return false;
    }
    is_same_type(type_of(frame, &port.path), type_of(frame, &other_port.path))
}

/// Whether two outcomes of a form are found to make and take away the same. Where false, they may too.
pub fn are_alike(frame: &Frame, form: &TypedForm, a: Outcome, b: Outcome) -> bool
    ensures makes { IsTrue result → makes_at frame.now form.now a ≡ makes_at frame.now form.now b }
    ensures kills { IsTrue result → kills_at frame.now form.now a ≡ kills_at frame.now form.now b }
{
    let TypedForm::Select(arms) = form else {
        return false;
    };
    match (a, b) {
        (Outcome::Arm(a), Outcome::Arm(b)) => are_arms_alike(frame, arms.as_slice(), a, b),
        _ => false,
    }
}

/// An edge of the form, one of these, that is found to make and take away the same.
fn alike_among<'a>(
    frame: &Frame,
    form: &TypedForm,
    outcome: Outcome,
    edges: &'a [Edge],
) -> Option<&'a Edge>
    requires edges { AreEdgesOf (table_of frame.now) (variables_of frame.now) form.now (map edge_view edges.now) }
    ensures makes { IfSome result (λ e. map fact_view e.now.change.value.makes.items ≡ makes_at frame.now form.now outcome) }
    ensures kills { IfSome result (λ e. map path_view e.now.change.value.kills.items ≡ kills_at frame.now form.now outcome) }
{
    let first = edges.len().saturating_sub(NEAR);
    'each: for i in first..edges.len() {
        let edge = &edges[i];
        if are_alike(frame, form, edge.outcome, outcome) {
            return Some(edge);
        }
    }
    None
}

/// What an outcome of a form makes and takes away.
fn made(
    alloc: Global,
    frame: &Frame,
    form: &TypedForm,
    outcome: Outcome,
) -> Result<Rc<Change>, AllocError>
    ensures makes { IfOk result (λ c. map fact_view c.value.makes.items ≡ makes_at frame.now form.now outcome) }
    ensures kills { IfOk result (λ c. map path_view c.value.kills.items ≡ kills_at frame.now form.now outcome) }
{
    let makes = makes_of(alloc, frame, form, outcome)?;
    let kills = kills_of(alloc, frame, form, outcome)?;
    let change = Rc::new(alloc, Change { makes, kills })?;
    Ok(change)
}

/// What an outcome of a form makes and takes away, shared with one of these edges of the form where it is found to be the same.
pub fn change_of(
    alloc: Global,
    frame: &Frame,
    form: &TypedForm,
    outcome: Outcome,
    edges: &[Edge],
) -> Result<Rc<Change>, AllocError>
    requires edges { AreEdgesOf (table_of frame.now) (variables_of frame.now) form.now (map edge_view edges.now) }
    ensures makes { IfOk result (λ c. map fact_view c.value.makes.items ≡ makes_at frame.now form.now outcome) }
    ensures kills { IfOk result (λ c. map path_view c.value.kills.items ≡ kills_at frame.now form.now outcome) }
{
    match alike_among(frame, form, outcome, edges) {
        Some(edge) => {
            let shared = edge.change.clone()?;
            Ok(shared)
        }
        None => {
            let change = made(alloc, frame, form, outcome)?;
            Ok(change)
        }
    }
}
