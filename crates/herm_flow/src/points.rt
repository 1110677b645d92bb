//! A statement as a point, with all its edges or as one of the flow that is checked.
ghost use Rattle.std.specs.Prelude.{◌≡◌, List, ◌∷◌, [], IfOk, OnOk, map};
ghost use Rattle.herm_model.specs.Targets.{Target as TargetOf};
ghost use Rattle.herm_model.specs.ControlPaths.{Edge as EdgeOf};
ghost use Rattle.herm_typed.specs.declared.statements.TypedStmt.{out-TypedStmt};
ghost use Rattle.herm_typed.specs.View.{outcome_view};
ghost use Rattle.herm_typed.specs.Outcomes.{KnowsOutcomes, outcomes_of};
ghost use Rattle.herm_judge.specs.View.{table_of, variables_of};
ghost use Rattle.herm_effects.specs.Rows.{needs_at};
ghost use Rattle.herm_flow.specs.View.{target_view, catch_view};
ghost use Rattle.herm_flow.specs.Edges.{exits_from, edge_at, point_at};
ghost use Rattle.herm_flow.specs.Onward.{AreOnwardEdges, IsOnwardPoint};
ghost use Rattle.herm_flow.specs.OnwardView.{onward_point_view};
ghost use Rattle.herm_flow.specs.Kept.{points_view, Adds};

use crate::calls::{Notes, call_outcomes};
use crate::edges::{outcomes_at, whole_point};
use crate::flow::Target;
use crate::kept::{Kept, Points};
use crate::leads::leads_on;
use crate::lists::lists_of;
use crate::onward::OnwardPoint;
use crate::starts::Catch;
use herm_base::StmtNo;
use herm_effects::needs_of;
use herm_judge::Frame;
use herm_typed::{Outcome, TypedForm, TypedStmt};
use std::alloc::{AllocError, Global};

/// The point of a statement by its number, with edges of those of these outcomes that lead on, of which the normal ones lead to these
/// targets in their order. Those that are found to repeat another are left out.
fn point_with(
    alloc: Global,
    frame: &Frame,
    s: &TypedStmt,
    number: u32,
    outcomes: &[Outcome],
    leads: &[Target],
    catches: &[Catch],
) -> Result<OnwardPoint, AllocError>
    ensures number { IfOk result (λ q. (onward_point_view q).number ≡ number) }
    ensures needs { IfOk result (λ q. (onward_point_view q).needs ≡ needs_at frame.now (out-TypedStmt s.now).form) }
    ensures edges { IfOk result (λ q. AreOnwardEdges (onward_point_view q).edges (map (edge_at (table_of frame.now) (variables_of frame.now) (out-TypedStmt s.now).form) (exits_from (map outcome_view outcomes.now) (map target_view leads.now) (map catch_view catches.now)))) }
{
    let needs = needs_of(alloc, frame, &s.form)?;
    let found = leads_on(alloc, outcomes, leads, catches)?;
    let lists = lists_of(alloc, frame, &s.form, found.as_slice())?;
    Ok(OnwardPoint {
        stmt: StmtNo(number),
        needs,
        made: lists.made,
        gone: lists.gone,
        edges: lists.edges,
    })
}

/// The outcomes of a statement that cover the others where they lead on: all, but for a call those that `call_outcomes` gives.
fn onward_outcomes(
    alloc: Global,
    notes: &mut Notes,
    frame: &Frame,
    s: &TypedStmt,
    catches: &[Catch],
) -> Result<Vec<Outcome>, AllocError>
    requires known { KnowsOutcomes (table_of frame.now) (variables_of frame.now) (out-TypedStmt s.now).form }
    ensures edges { IfOk result (λ v. (leads : List TargetOf) (left : List EdgeOf) → AreOnwardEdges left (map (edge_at (table_of frame.now) (variables_of frame.now) (out-TypedStmt s.now).form) (exits_from (map outcome_view v.items) leads (map catch_view catches.now))) → AreOnwardEdges left (map (edge_at (table_of frame.now) (variables_of frame.now) (out-TypedStmt s.now).form) (exits_from (outcomes_of (table_of frame.now) (variables_of frame.now) (out-TypedStmt s.now).form) leads (map catch_view catches.now)))) }
{
    match &s.form {
        TypedForm::Call(o, arguments) => {
            let found = call_outcomes(alloc, notes, frame, o, arguments.as_slice(), catches)?;
            Ok(found)
        }
        _ => {
            let found = outcomes_at(alloc, frame, s)?;
            Ok(found)
        }
    }
}

/// The point of a statement by its number in the flow that is checked: its normal outcomes lead to these targets.
fn onward_point(
    alloc: Global,
    notes: &mut Notes,
    frame: &Frame,
    s: &TypedStmt,
    number: u32,
    leads: &[Target],
    catches: &[Catch],
) -> Result<OnwardPoint, AllocError>
    requires known { KnowsOutcomes (table_of frame.now) (variables_of frame.now) (out-TypedStmt s.now).form }
    ensures point { IfOk result (λ q. IsOnwardPoint (point_at (table_of frame.now) (variables_of frame.now) (out-TypedStmt s.now).form number (map target_view leads.now) (map catch_view catches.now)) (onward_point_view q)) }
{
    let found = onward_outcomes(alloc, notes, frame, s, catches)?;
    let point = point_with(alloc, frame, s, number, found.as_slice(), leads, catches)?;
    Ok(point)
}

/// One point more: a statement by its number, whose normal outcomes lead to these targets, with the edges that are kept.
pub fn push_point(
    alloc: Global,
    frame: &Frame,
    s: &TypedStmt,
    number: u32,
    leads: &[Target],
    catches: &[Catch],
    kept: Kept,
    notes: &mut Notes,
    points: &mut Points,
) -> Result<(), AllocError>
    requires known { KnowsOutcomes (table_of frame.now) (variables_of frame.now) (out-TypedStmt s.now).form }
    ensures points { OnOk result (Adds kept (points_view kept points.old) (points_view kept points.new) (point_at (table_of frame.now) (variables_of frame.now) (out-TypedStmt s.now).form number (map target_view leads.now) (map catch_view catches.now) ∷ [])) }
{
    match kept {
        Kept::All => {
            let point = whole_point(alloc, frame, s, number, leads, catches)?;
            points.whole.push(point)?;
            Ok(())
        }
        Kept::Onward => {
            let point = onward_point(alloc, notes, frame, s, number, leads, catches)?;
            points.onward.push(point)?;
            Ok(())
        }
    }
}
