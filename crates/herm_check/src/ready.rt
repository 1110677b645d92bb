//! Whether a flow is one that may be checked.
ghost use Rattle.std.specs.Prelude.{◌≡◌, ◌<◌, ℕ, true, map, length};
ghost use Rattle.herm_model.specs.Lists.{IsIn, any_pass};
ghost use Rattle.herm_model.specs.Statements.{Differ};
ghost use Rattle.herm_model.specs.Outcomes as outcomes;
ghost use Rattle.herm_model.specs.ControlPaths.{IsReached};
ghost use Rattle.herm_model.specs.Targets.{node};
ghost use Rattle.herm_model.specs.laws.FlowLaws.{EdgesDiffer};
ghost use Rattle.herm_typed.specs.View.{outcome_view};
ghost use Rattle.herm_flow.specs.declared.onward.OnwardEdge.{OnwardEdge as EdgeOf};
ghost use Rattle.herm_flow.specs.OnwardView.{onward_flow_view};
ghost use Rattle.herm_check.specs.Labelled.{LeadThere, is_reached};

use crate::checking::{CheckFault, check};
use crate::label::Label;
use crate::labels::settled;
use crate::missing::Missing;
use crate::numbering::numbering_of;
use herm_flow::{OnwardEdge, OnwardFlow};
use herm_typed::Outcome;
use std::alloc::Global;

fn same_outcome(a: Outcome, b: Outcome) -> bool
    ensures { result ≡ outcomes.same_outcome (outcome_view a) (outcome_view b) }
{
    match a {
        Outcome::Ok => matches!(b, Outcome::Ok),
        Outcome::True => matches!(b, Outcome::True),
        Outcome::False => matches!(b, Outcome::False),
        Outcome::Turn => matches!(b, Outcome::Turn),
        Outcome::Done => matches!(b, Outcome::Done),
        Outcome::Component(c) => match b {
            Outcome::Component(d) => c == d,
            _ => false,
        },
        Outcome::Arm(c) => match b {
            Outcome::Arm(d) => c == d,
            _ => false,
        },
        Outcome::Raised(c) => match b {
            Outcome::Raised(d) => c.0 == d.0,
            _ => false,
        },
    }
}

fn is_among(edges: &[OnwardEdge], outcome: Outcome) -> bool
    ensures { result ≡ any_pass (outcomes.same_outcome (outcome_view outcome)) (map (λ (e : EdgeOf). outcome_view e.outcome) edges.now) }
{
    for edge in edges {
        if same_outcome(outcome, edge.outcome) {
            return true;
        }
    }
    false
}

fn differ(edges: &[OnwardEdge]) -> bool
    ensures { result ≡ true → Differ (map (λ (e : EdgeOf). outcome_view e.outcome) edges.now) }
{
    for i in 0..edges.len() {
        if is_among(&edges[i + 1..], edges[i].outcome) {
            return false;
        }
    }
    true
}

fn lead_there(edges: &[OnwardEdge], count: usize) -> bool
    ensures { result ≡ true → (e : EdgeOf) → IsIn e edges.now → e.to < count }
{
    for edge in edges {
        if edge.to as usize >= count {
            return false;
        }
    }
    true
}

fn all_differ(flow: &OnwardFlow) -> bool
    ensures { result ≡ true → EdgesDiffer (onward_flow_view flow.now) }
{
    for point in &flow.points {
        if !differ(point.edges.as_slice()) {
            return false;
        }
    }
    true
}

fn all_lead_there(flow: &OnwardFlow) -> bool
    ensures { result ≡ true → LeadThere (onward_flow_view flow.now) }
{
    let count = flow.points.len();
    for point in &flow.points {
        if !lead_there(point.edges.as_slice(), count) {
            return false;
        }
    }
    true
}

fn are_reached(labels: &[Label]) -> bool
    ensures { result ≡ true → (i : ℕ) → i < length labels.now → is_reached labels.now i ≡ true }
{
    for i in 0..labels.len() {
        if !labels[i].reached {
            return false;
        }
    }
    true
}

/// Whether control paths are found to lead to all points.
fn are_all_reached(alloc: Global, flow: &OnwardFlow) -> bool
    requires differ { EdgesDiffer (onward_flow_view flow.now) }
    requires there { LeadThere (onward_flow_view flow.now) }
    ensures { result ≡ true → (i : ℕ) → i < length flow.now.points.items → IsReached (onward_flow_view flow.now) (node i) }
{
    let Ok(numbering) = numbering_of(alloc, flow) else {
        return false;
    };
    let Ok(labels) = settled(alloc, flow, &numbering) else {
        return false;
    };
    are_reached(labels.as_slice())
}

/// What the check says is missing, where it may be asked and memory was there.
pub fn missing_in(alloc: Global, flow: &OnwardFlow, vars: usize) -> Option<Missing> {
    if !all_differ(flow) || !all_lead_there(flow) {
        return None;
    }
    if !are_all_reached(alloc, flow) {
        return None;
    }
    match check(alloc, flow, vars) {
        Ok(labels) => {
            drop(labels);
            Some(Missing {
                lost: Vec::new(alloc),
                searches: Vec::new(alloc),
                facts: Vec::new(alloc),
            })
        }
        Err(CheckFault::Missing(missing)) => Some(missing),
        Err(CheckFault::Memory) => None,
    }
}
