//! A statement as a point, and where its outcomes lead.
ghost use Rattle.std.specs.Prelude.{◌≡◌, ℕ, List, ◌∷◌, [], ◌++◌, IfOk, OnOk, map, drop, option_map};
ghost use Rattle.herm_model.specs.Handlers.{caught};
ghost use Rattle.herm_typed.specs.declared.statements.TypedStmt.{out-TypedStmt};
ghost use Rattle.herm_typed.specs.View.{outcome_view};
ghost use Rattle.herm_typed.specs.Outcomes.{KnowsOutcomes, outcomes_of};
ghost use Rattle.herm_judge.specs.View.{table_of, variables_of};
ghost use Rattle.herm_flow.specs.View.{target_view, catch_view, edge_view, point_view};
ghost use Rattle.herm_flow.specs.Edges.{raised_in, exit_of, left_of, exits_from, an_exit, edge_at, point_at, AreEdgesOf};

use crate::changes::change_of;
use crate::flow::{Edge, Point, Target};
use crate::starts::Catch;
use herm_base::{ExcNo, StmtNo};
use herm_effects::needs_of;
use herm_judge::Frame;
use herm_typed::{Outcome, TypedForm, TypedStmt, outcomes};
use std::alloc::{AllocError, Global};

/// Where an exception leads: to the nearest handler for it, or to the end by it.
pub fn caught_at(catches: &[Catch], e: ExcNo) -> Target
    ensures target { target_view result ≡ caught (map catch_view catches.now) e.0 }
{
    'each: for c in catches {
        if c.exception.0 == e.0 {
            return c.target;
        }
    }
    Target::EndBy(e)
}

/// The exception of an outcome, where it is one.
pub fn exception_of(outcome: Outcome) -> Option<ExcNo>
    ensures exception { option_map (λ e. e.0) result ≡ raised_in (outcome_view outcome) }
{
    match outcome {
        Outcome::Raised(e) => Some(e),
        Outcome::Ok => None,
        Outcome::True => None,
        Outcome::False => None,
        Outcome::Turn => None,
        Outcome::Done => None,
        Outcome::Component(_) => None,
        Outcome::Arm(_) => None,
    }
}

/// The edge of an outcome that leads there. It may share what it makes and takes away with one of these.
fn edge_of(
    alloc: Global,
    frame: &Frame,
    form: &TypedForm,
    outcome: Outcome,
    to: Target,
    edges: &[Edge],
) -> Result<Edge, AllocError>
    requires edges { AreEdgesOf (table_of frame.now) (variables_of frame.now) form.now (map edge_view edges.now) }
    ensures edge { IfOk result (λ e. edge_view e ≡ edge_at (table_of frame.now) (variables_of frame.now) form.now (an_exit (outcome_view outcome) (target_view to))) }
{
    let change = change_of(alloc, frame, form, outcome, edges)?;
    Ok(Edge {
        outcome,
        change,
        to,
    })
}

/// One edge more.
fn push_edge(
    alloc: Global,
    frame: &Frame,
    form: &TypedForm,
    outcome: Outcome,
    to: Target,
    edges: &mut Vec<Edge>,
) -> Result<(), AllocError>
    requires edges { AreEdgesOf (table_of frame.now) (variables_of frame.now) form.now (map edge_view edges.old.items) }
    ensures edges { OnOk result (map edge_view edges.new.items ≡ map edge_view edges.old.items ++ (edge_at (table_of frame.now) (variables_of frame.now) form.now (an_exit (outcome_view outcome) (target_view to)) ∷ [])) }
{
    let edge = edge_of(alloc, frame, form, outcome, to, edges.as_slice())?;
    edges.push(edge)?;
    Ok(())
}

/// The edge of one outcome: an exception leads to its handler, a normal outcome to the first of the targets that are left.
/// How many targets are then taken.
fn follow(
    alloc: Global,
    frame: &Frame,
    form: &TypedForm,
    outcome: Outcome,
    leads: &[Target],
    taken: usize,
    catches: &[Catch],
    edges: &mut Vec<Edge>,
) -> Result<usize, AllocError>
    requires edges { AreEdgesOf (table_of frame.now) (variables_of frame.now) form.now (map edge_view edges.old.items) }
    ensures edges { IfOk result (λ n. map edge_view edges.new.items ≡ map edge_view edges.old.items ++ map (edge_at (table_of frame.now) (variables_of frame.now) form.now) (exit_of (outcome_view outcome) (raised_in (outcome_view outcome)) (map target_view (drop taken leads.now)) (map catch_view catches.now))) }
    ensures left { IfOk result (λ n. map target_view (drop n leads.now) ≡ left_of (raised_in (outcome_view outcome)) (map target_view (drop taken leads.now))) }
{
    let exception = exception_of(outcome);
    match exception {
        Some(e) => {
            let to = caught_at(catches, e);
            push_edge(alloc, frame, form, outcome, to, edges)?;
            Ok(taken)
        }
        None => {
            if taken >= leads.len() {
                return Ok(taken);
            }
            push_edge(alloc, frame, form, outcome, leads[taken], edges)?;
            Ok(taken + 1)
        }
    }
}

/// The edges of a statement with these outcomes, of which the normal ones lead to these targets in their order.
fn edges_of(
    alloc: Global,
    frame: &Frame,
    form: &TypedForm,
    outcomes: &[Outcome],
    leads: &[Target],
    catches: &[Catch],
) -> Result<Vec<Edge>, AllocError>
    ensures edges { IfOk result (λ v. map edge_view v.items ≡ map (edge_at (table_of frame.now) (variables_of frame.now) form.now) (exits_from (map outcome_view outcomes.now) (map target_view leads.now) (map catch_view catches.now))) }
{
    let mut edges = Vec::with_capacity(alloc, outcomes.len())?;
    let mut taken = 0;
    'each: for outcome in outcomes {
        let n = follow(
            alloc, frame, form, *outcome, leads, taken, catches, &mut edges,
        )?;
        taken = n;
    }
    Ok(edges)
}

/// The outcomes of a statement, in order.
pub fn outcomes_at(alloc: Global, frame: &Frame, s: &TypedStmt) -> Result<Vec<Outcome>, AllocError>
    ghost variables: { List ℕ }
    requires known { KnowsOutcomes (table_of frame.now) variables (out-TypedStmt s.now).form }
    ensures outcomes { IfOk result (λ v. map outcome_view v.items ≡ outcomes_of (table_of frame.now) variables (out-TypedStmt s.now).form) }
{
    let found = outcomes(alloc, frame.types, s)?;
    Ok(found)
}

/// The point of a statement by its number, with all its edges, of which the normal ones lead to these targets.
pub fn whole_point(
    alloc: Global,
    frame: &Frame,
    s: &TypedStmt,
    number: u32,
    leads: &[Target],
    catches: &[Catch],
) -> Result<Point, AllocError>
    requires known { KnowsOutcomes (table_of frame.now) (variables_of frame.now) (out-TypedStmt s.now).form }
    ensures point { IfOk result (λ p. point_view p ≡ point_at (table_of frame.now) (variables_of frame.now) (out-TypedStmt s.now).form number (map target_view leads.now) (map catch_view catches.now)) }
{
    let needs = needs_of(alloc, frame, &s.form)?;
    let found = outcomes_at(alloc, frame, s)?;
    let edges = edges_of(alloc, frame, &s.form, found.as_slice(), leads, catches)?;
    Ok(Point {
        stmt: StmtNo(number),
        needs,
        edges,
    })
}
