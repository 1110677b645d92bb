//! The facts that are held on every control path to each point.
ghost use Rattle.std.specs.Prelude.{◌≡◌, ◌+◌, ◌≤◌, ◌<◌, ℕ, true, false, [], ◌∷◌, length, IfOk, OnOk, IfSome, IfNone, ◌&&◌, Some, slice_get};
ghost use Rattle.herm_model.specs.Lists.{IsIn};
ghost use Rattle.herm_model.specs.Paths.{Fact as FactOf, init};
ghost use Rattle.herm_model.specs.Targets.{node};
ghost use Rattle.herm_model.specs.ControlPaths.{IsReached, held_at_start};
ghost use Rattle.herm_model.specs.laws.FlowLaws.{EdgesDiffer};
ghost use Rattle.herm_model.specs.Labels.{AreExact};
ghost use Rattle.herm_facts.specs.NumberSets.{has_number};
ghost use Rattle.herm_facts.specs.FactNumbers.{AreApart};
ghost use Rattle.herm_check.specs.declared.label.Label.{Label as LabelOf};
ghost use Rattle.herm_flow.specs.declared.onward.OnwardPoint.{OnwardPoint};
ghost use Rattle.herm_flow.specs.OnwardView.{onward_flow_view};
ghost use Rattle.herm_facts.specs.declared.fact_numbers.FactNumbers.{FactNumbers as FactNumbersOf};
ghost use Rattle.herm_check.specs.View.{labels_view, edge_in};
ghost use Rattle.herm_check.specs.Lists.{AreListsOf};
ghost use Rattle.herm_check.specs.Numberings.{in_set, HasNumber, AreOfFacts};
ghost use Rattle.herm_check.specs.Weights.{weight};
ghost use Rattle.herm_check.specs.Labelled.{is_reached, is_pending, holds_at, all_facts, IsNumberingOf, AreLabels, AreDone, IsLeft, LeadThere};
ghost use Rattle.herm_check.specs.Followed.{IsFollowed};

use crate::label::{Label, join};
use crate::label_states::states;
use crate::lists::ListsOf;
use crate::numbering::{Numbering, numbering_of, start_fact};
use crate::set_behind::{hold, numbers_behind};
use herm_facts::{FactNumbers, NumberSet};
use herm_flow::{OnwardEdge, OnwardFlow};
use herm_typestate::Labels;
use std::alloc::{AllocError, Global};

/// How many edges are few.
const SMALL: usize = 16;

/// So many points that no path has reached.
fn blank(alloc: Global, count: usize) -> Result<Vec<Label>, AllocError>
    ensures many { IfOk result (λ ls. length ls.items ≡ count) }
    ensures reached { IfOk result (λ ls. (i : ℕ) → is_reached ls.items i ≡ false) }
    ensures none { IfOk result (λ ls. (i : ℕ) (l : LabelOf) (n : ℕ) → slice_get ls.items i ≡ Some l → has_number l.held n ≡ false) }
{
    let mut labels = Vec::with_capacity(alloc, count)?;
    for _ in 0..count {
        labels.push(Label {
            reached: false,
            pending: false,
            held: NumberSet::none(alloc),
        })?;
    }
    Ok(labels)
}

/// The label of the first point as a process begins: there is a value at the port alone.
fn first_label(alloc: Global, numbers: &FactNumbers) -> Result<Label, AllocError>
    requires apart { AreApart numbers.now }
    requires number { HasNumber numbers.now (init (0 ∷ [])) }
    ensures reached { IfOk result (λ l. l.reached ≡ true) }
    ensures pending { IfOk result (λ l. l.pending ≡ true) }
    ensures facts { IfOk result (λ l. (f : FactOf) → in_set numbers.now l.held f ≡ held_at_start f) }
    ensures known { IfOk result (λ l. AreOfFacts numbers.now l.held) }
{
    let mut held = NumberSet::none(alloc);
    let start = start_fact(alloc);
    hold(numbers, &mut held, &start)?;
    Ok(Label {
        reached: true,
        pending: true,
        held,
    })
}

/// The labels as a process begins: there is a value at its port, and it is still to leave its first point.
fn begin(alloc: Global, flow: &OnwardFlow, numbering: &Numbering) -> Result<Vec<Label>, AllocError>
    requires numbered { IsNumberingOf flow.now numbering.now }
    ensures { IfOk result (λ ls. AreLabels numbering.now.facts (onward_flow_view flow.now) ls.items) }
{
    let count = flow.points.len();
    let mut labels = blank(alloc, count)?;
    if count == 0 {
        return Ok(labels);
    }
    let first = first_label(alloc, &numbering.facts)?;
    labels[0] = first;
    Ok(labels)
}

/// Follows an edge from the point at a place, with what is held there.
fn follow(
    alloc: Global,
    lists: &ListsOf,
    edge: &OnwardEdge,
    i: usize,
    labels: &mut Vec<Label>,
) -> Result<(), AllocError>
    requires within { i < length labels.old.items }
    requires there { edge.now.to < length labels.old.items }
    ensures { OnOk result ((ns : FactNumbersOf) (p : OnwardPoint) → AreApart ns → AreListsOf ns p lists.now → ((f : FactOf) → IsIn f (edge_in p edge.now).makes → HasNumber ns f) → ((j : ℕ) (l : LabelOf) → slice_get labels.old.items j ≡ Some l → AreOfFacts ns l.held) → IsFollowed ns (edge_in p edge.now) (holds_at ns labels.old.items i) labels.old.items labels.new.items) }
{
    let after = numbers_behind(alloc, &labels[i].held, lists, edge)?;
    let label = &mut labels[edge.to as usize];
    join(label, after);
    Ok(())
}

/// Carries what is held at a point along each of its edges.
fn follow_all(
    alloc: Global,
    flow: &OnwardFlow,
    numbering: &Numbering,
    i: usize,
    labels: &mut Vec<Label>,
) -> Result<(), AllocError>
    requires differ { EdgesDiffer (onward_flow_view flow.now) }
    requires there { LeadThere (onward_flow_view flow.now) }
    requires numbered { IsNumberingOf flow.now numbering.now }
    requires within { i < length flow.now.points.items }
    requires left { IsLeft numbering.now.facts (onward_flow_view flow.now) i [] labels.old.items }
    ensures labels { OnOk result (AreLabels numbering.now.facts (onward_flow_view flow.now) labels.new.items) }
    ensures less { OnOk result (weight numbering.now.facts (all_facts flow.now) labels.new.items ≤ weight numbering.now.facts (all_facts flow.now) labels.old.items) }
{
    let point = &flow.points[i];
    let lists = &numbering.lists[i];
    for k in 0..point.edges.len() {
        let edge = &point.edges[k];
        follow(alloc, lists, edge, i, labels)?;
    }
    Ok(())
}

/// Leaves a point: what is held there is carried along each of its edges.
fn leave(
    alloc: Global,
    flow: &OnwardFlow,
    numbering: &Numbering,
    i: usize,
    labels: &mut Vec<Label>,
) -> Result<(), AllocError>
    requires differ { EdgesDiffer (onward_flow_view flow.now) }
    requires there { LeadThere (onward_flow_view flow.now) }
    requires numbered { IsNumberingOf flow.now numbering.now }
    requires labels { AreLabels numbering.now.facts (onward_flow_view flow.now) labels.old.items }
    requires within { i < length labels.old.items }
    requires reached { is_reached labels.old.items i ≡ true }
    requires pending { is_pending labels.old.items i ≡ true }
    ensures labels { OnOk result (AreLabels numbering.now.facts (onward_flow_view flow.now) labels.new.items) }
    ensures less { OnOk result (weight numbering.now.facts (all_facts flow.now) labels.new.items + 1 ≤ weight numbering.now.facts (all_facts flow.now) labels.old.items) }
{
    let label = &mut labels[i];
    label.pending = false;
    follow_all(alloc, flow, numbering, i, labels)?;
    Ok(())
}

fn is_waiting(label: &Label) -> bool
    ensures { result ≡ (label.now.reached && label.now.pending) }
{
    label.reached && label.pending
}

/// The first point from a place on that is still to be left.
fn next_from(labels: &[Label], from: usize) -> Option<usize>
    ensures some { IfSome result (λ i. (i < length labels.now) × (is_reached labels.now i ≡ true) × (is_pending labels.now i ≡ true)) }
    ensures none { IfNone result ((i : ℕ) → from ≤ i → is_reached labels.now i ≡ true → is_pending labels.now i ≡ false) }
{
    for i in from..labels.len() {
        if is_waiting(&labels[i]) {
            return Some(i);
        }
    }
    None
}

/// Whether a point has few edges.
fn is_small(flow: &OnwardFlow, i: usize) -> bool {
    match flow.points.get(i) {
        Some(point) => point.edges.len() <= SMALL,
        None => false,
    }
}

/// The first point with few edges from a place on that is still to be left.
fn next_small(flow: &OnwardFlow, labels: &[Label], from: usize) -> Option<usize>
    ensures some { IfSome result (λ i. (i < length labels.now) × (is_reached labels.now i ≡ true) × (is_pending labels.now i ≡ true)) }
{
    for i in from..labels.len() {
        if is_waiting(&labels[i]) && is_small(flow, i) {
            return Some(i);
        }
    }
    None
}

/// The next point from a place on with few edges that is still to be left, or behind the last one from the first on; else the first one
/// of all. So loops settle first, and a point of many edges in a loop around them is left once for all that they lose.
fn next(flow: &OnwardFlow, labels: &[Label], from: usize) -> Option<usize>
    ensures some { IfSome result (λ i. (i < length labels.now) × (is_reached labels.now i ≡ true) × (is_pending labels.now i ≡ true)) }
    ensures none { IfNone result ((i : ℕ) → is_reached labels.now i ≡ true → is_pending labels.now i ≡ false) }
{
    if let Some(i) = next_small(flow, labels, from) {
        return Some(i);
    }
    if let Some(i) = next_small(flow, labels, 0) {
        return Some(i);
    }
    next_from(labels, 0)
}

/// The labels when no point is still to be left.
pub fn settled(
    alloc: Global,
    flow: &OnwardFlow,
    numbering: &Numbering,
) -> Result<Vec<Label>, AllocError>
    requires differ { EdgesDiffer (onward_flow_view flow.now) }
    requires there { LeadThere (onward_flow_view flow.now) }
    requires numbered { IsNumberingOf flow.now numbering.now }
    ensures { IfOk result (λ ls. AreDone numbering.now.facts (onward_flow_view flow.now) ls.items) }
{
    let mut labels = begin(alloc, flow, numbering)?;
    let mut from = 0;
    while let Some(i) = next(flow, labels.as_slice(), from) {
        leave(alloc, flow, numbering, i, &mut labels)?;
        from = i;
    }
    Ok(labels)
}

/// Exactly the facts that are held on every control path to each point. A point that no path reaches has none.
pub fn labels_of(alloc: Global, flow: &OnwardFlow, vars: usize) -> Result<Labels, AllocError>
    requires differ { EdgesDiffer (onward_flow_view flow.now) }
    requires there { LeadThere (onward_flow_view flow.now) }
    ensures many { IfOk result (λ labels. length labels.at.items ≡ length flow.now.points.items) }
    ensures exact { IfOk result (λ labels. AreExact (onward_flow_view flow.now) (labels_view labels)) }
    ensures unreached { IfOk result (λ labels. (i : ℕ) (f : FactOf) → (IsReached (onward_flow_view flow.now) (node i) → ⊥) → labels_view labels i f ≡ false) }
{
    let numbering = numbering_of(alloc, flow)?;
    let settled = settled(alloc, flow, &numbering)?;
    let at = states(alloc, &numbering.facts, vars, settled.as_slice())?;
    Ok(Labels { at })
}
