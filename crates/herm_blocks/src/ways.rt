//! The ways out of each node.
ghost use Rattle.std.specs.Prelude.{◌≡◌, ◌+◌, [], map, IfOk};
ghost use Rattle.herm_fronts.specs.Blocks.{marked_view};
ghost use Rattle.herm_fronts.specs.Frames.{table_of, variables_of};
ghost use Rattle.herm_blocks.specs.Views.{slots_view};
ghost use Rattle.herm_blocks.specs.Seen.{drops_view, seen_node, ways_view};
ghost use Rattle.herm_blocks.specs.Scopes.{list_at, edges_left, edges_by, ways_at, ways_by};

use crate::edges::{Scope, departures};
use crate::node::Node;
use crate::onward::goes_on;
use crate::slots::{open_slots, slots_within};
use herm_base::TypeNo;
use herm_fronts::departures::Departure;
use herm_fronts::frame::Frame;
use herm_types::Path;
use std::alloc::{AllocError, Global};

/// The ways out of a node: the slots around it, whether control goes on to the next block, and otherwise its edges.
#[derive(Drop)]
pub struct Ways<'a> {
    pub node: Node<'a>,
    pub slots: Vec<(u32, TypeNo)>,
    pub onward: bool,
    pub departures: Vec<Departure<'a>>,
}

/// What is dropped on the edges of the node at a place.
fn drops_at(drops: &[Vec<Vec<Path>>], place: usize) -> &[Vec<Path>]
    ensures { drops_view result.now ≡ list_at (map (λ v. drops_view v.items) drops.now) place }
{
    match drops.get(place) {
        Some(drops) => drops.as_slice(),
        None => &[],
    }
}

/// Edges, where control does not go on without them.
fn edges_left<'a>(alloc: Global, onward: bool, edges: Vec<Departure<'a>>) -> Vec<Departure<'a>>
    ensures { map marked_view result.items ≡ edges_left onward (map marked_view edges.entry.items) }
{
    if onward {
        return Vec::new(alloc);
    }
    edges
}

/// The edges of a node that has these slots around it.
fn edges_of<'a>(
    alloc: Global,
    frame: &Frame<'_>,
    scope: &Scope<'_>,
    slots: &[(u32, TypeNo)],
    node: Node<'a>,
    drops: &'a [Vec<Path>],
) -> Result<Vec<Departure<'a>>, AllocError>
    ensures { IfOk result (λ v. map marked_view v.items ≡ edges_by (table_of frame.now) (variables_of frame.now) scope.now.numbers.now scope.now.lengths.now (slots_view slots.now) (seen_node node.entry) (drops_view drops.now)) }
{
    let within = slots_within(alloc, frame, node.point.stmt.0, node.form, slots)?;
    let edges = departures(
        alloc,
        scope,
        within.as_slice(),
        node.point.edges.as_slice(),
        drops,
    )?;
    Ok(edges)
}

/// The ways out of a node that has these slots around it.
fn ways_at<'a>(
    alloc: Global,
    frame: &Frame<'_>,
    scope: &Scope<'_>,
    nodes: &[Node<'a>],
    next: usize,
    slots: Vec<(u32, TypeNo)>,
    node: Node<'a>,
    drops: &'a [Vec<Path>],
) -> Result<Ways<'a>, AllocError>
    ensures { IfOk result (λ w. ways_view w ≡ ways_at (table_of frame.now) (variables_of frame.now) scope.now.numbers.now scope.now.lengths.now (map seen_node nodes.now) next (slots_view slots.items) (seen_node node.entry) (drops_view drops.now)) }
{
    let edges = edges_of(alloc, frame, scope, slots.as_slice(), node, drops)?;
    let onward = goes_on(nodes, next, edges.as_slice());
    let departures = edges_left(alloc, onward, edges);
    Ok(Ways {
        node,
        slots,
        onward,
        departures,
    })
}

/// The ways out of each node, in order.
pub fn ways_of<'a>(
    alloc: Global,
    frame: &Frame<'_>,
    scope: &Scope<'_>,
    nodes: &[Node<'a>],
    drops: &'a [Vec<Vec<Path>>],
) -> Result<Vec<Ways<'a>>, AllocError>
    ensures { IfOk result (λ v. map ways_view v.items ≡ ways_by (table_of frame.now) (variables_of frame.now) scope.now.numbers.now scope.now.lengths.now (map seen_node nodes.now) 0 [] (map seen_node nodes.now) (map (λ v. drops_view v.items) drops.now)) }
{
    let mut found = Vec::with_capacity(alloc, nodes.len())?;
    let mut before = Vec::new(alloc);
    'nodes: for i in 0..nodes.len() {
        let node = nodes[i];
        let number = node.point.stmt.0;
        let slots = open_slots(alloc, scope.lengths, number, before.as_slice())?;
        before = slots_within(alloc, frame, number, node.form, slots.as_slice())?;
        let dropped = drops_at(drops, i);
        found.push(ways_at(alloc, frame, scope, nodes, i + 1, slots, node, dropped)?)?;
    }
    Ok(found)
}
