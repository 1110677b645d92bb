//! Whether control goes on from a front to the next block, with no jump.
ghost use Rattle.std.specs.Prelude.{◌≡◌, map};
ghost use Rattle.herm_model.specs.Outcomes.{ok, same_outcome};
ghost use Rattle.herm_typed.specs.View.{outcome_view};
ghost use Rattle.herm_translated.specs.BlockLabels.{goes_to_first};
ghost use Rattle.herm_translated.specs.CodeBlocks.{is_for, is_one_plain, is_plain_edge};
ghost use Rattle.herm_fronts.specs.Blocks.{arrival_view, departure_view, marked_view};
ghost use Rattle.herm_fronts.specs.Forms.{form_seen};
ghost use Rattle.herm_blocks.specs.Seen.{seen_node};
ghost use Rattle.herm_blocks.specs.Scopes.{is_for_in, goes_on};

use crate::node::Node;
use herm_fronts::departures::{Arrival, Departure};
use herm_typed::{Outcome, TypedForm};

/// Whether a form is a `for`.
pub fn is_for(form: &TypedForm) -> bool
    ensures { result ≡ is_for (form_seen form.now) }
{
    match form {
        TypedForm::For(_, _, _) => true,
        TypedForm::Case(_, _) => false,
        TypedForm::Select(_) => false,
        TypedForm::If(_, _, _) => false,
        TypedForm::While(_, _) => false,
        TypedForm::Try(_, _) => false,
        _ => false,
    }
}

/// Whether the node at a place is a `for`.
fn is_for_at(nodes: &[Node<'_>], place: usize) -> bool
    ensures { result ≡ is_for_in (map seen_node nodes.now) place }
{
    match nodes.get(place) {
        Some(node) => is_for(node.form),
        None => false,
    }
}

/// Whether an outcome is `ok`.
pub fn is_ok(outcome: Outcome) -> bool
    ensures { result ≡ same_outcome (outcome_view outcome) ok }
{
    match outcome {
        Outcome::Ok => true,
        Outcome::True => false,
        Outcome::False => false,
        Outcome::Turn => false,
        Outcome::Done => false,
        Outcome::Component(_) => false,
        Outcome::Arm(_) => false,
        Outcome::Raised(_) => false,
    }
}

/// Whether an edge arrives at the first step of a node's block.
fn arrives_first(arrival: Arrival, place: usize) -> bool
    ensures { result ≡ goes_to_first place (arrival_view arrival) }
{
    match arrival {
        Arrival::Block(node) => node as usize == place,
        Arrival::SecondStep(_) => false,
        Arrival::End => false,
        Arrival::EndBy(_) => false,
    }
}

/// Whether an edge goes by `ok` to the block at the next place, and drops nothing.
#[tactic(auto, using(crate::proofs::PlainEdges::plain_is))]
fn is_plain(edge: &Departure<'_>, next: usize) -> bool
    ensures { result ≡ is_plain_edge next (departure_view edge.now).outcome (departure_view edge.now).drops (departure_view edge.now).slots (departure_view edge.now).arrival }
{
    if !is_ok(edge.outcome) {
        return false;
    }
    if !edge.drops.is_empty() {
        return false;
    }
    if !edge.slots.is_empty() {
        return false;
    }
    arrives_first(edge.arrival, next)
}

/// Whether there is one edge, by `ok` to the block at the next place, which drops nothing.
fn is_one_plain(edges: &[Departure<'_>], next: usize) -> bool
    ensures { result ≡ is_one_plain next (map (λ d. d.departure) (map marked_view edges.now)) }
{
    match edges {
        [] => false,
        [edge] => is_plain(edge, next),
        [_, _, ..] => false,
    }
}

/// Whether control goes on to the block at the next place: there is one edge, which leads there by `ok` and drops nothing, and there is no `for`.
pub fn goes_on(nodes: &[Node<'_>], next: usize, edges: &[Departure<'_>]) -> bool
    ensures { result ≡ goes_on (map seen_node nodes.now) next (map marked_view edges.now) }
{
    is_one_plain(edges, next) && !is_for_at(nodes, next)
}
