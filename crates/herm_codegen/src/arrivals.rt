//! At which blocks edges arrive, found in one pass over all edges.
ghost use Rattle.std.specs.Prelude.{◌≡◌, map, replicate, false, IfOk};
ghost use Rattle.herm_translated.specs.Departures as model;
ghost use Rattle.herm_fronts.specs.Blocks.{arrival_view, departure_view};
ghost use Rattle.herm_blocks.specs.Views.{block_view};
ghost use Rattle.herm_codegen.specs.Arrivals.{marks_view, marked, with_arrival, with_entry, with_edges, with_blocks, all_marks, is_marked_at};

use herm_blocks::Block;
use herm_fronts::departures::{Arrival, Departure};
use std::alloc::{AllocError, Global};

/// For each block whether an edge arrives at its first step, and whether one arrives at its second step.
#[derive(Drop)]
pub struct Arrivals {
    pub first: Vec<bool>,
    pub again: Vec<bool>,
}

/// Whether there is a mark at a place.
fn is_marked(marks: &[bool], place: usize) -> bool
    ensures { result ≡ is_marked_at marks.now place }
{
    match marks.get(place) {
        Some(mark) => *mark,
        None => false,
    }
}

impl Arrivals {
    /// Whether an edge arrives at the first step of the block at a place.
    pub fn is_first(&self, place: usize) -> bool
        ensures { result ≡ is_marked_at self.now.first.items place }
    {
        is_marked(self.first.as_slice(), place)
    }

    /// Whether an edge arrives at its second step.
    pub fn is_again(&self, place: usize) -> bool
        ensures { result ≡ is_marked_at self.now.again.items place }
    {
        is_marked(self.again.as_slice(), place)
    }
}

/// A mark at one place more; behind the end there is none.
#[tactic(auto, using(crate::proofs::MarkedArrivals::set_marked, crate::proofs::MarkedArrivals::marked_behind))]
fn mark(marks: &mut Vec<bool>, place: usize)
    ensures { marks.new.items ≡ marked place marks.old.items }
{
    if place < marks.len() {
        marks[place] = true;
    }
}

/// Marks where an edge arrives.
fn mark_arrival(arrivals: &mut Arrivals, arrival: Arrival)
    ensures { marks_view arrivals.new ≡ with_arrival (arrival_view arrival) (marks_view arrivals.old) }
{
    match arrival {
        Arrival::Block(node) => mark(&mut arrivals.first, node as usize),
        Arrival::SecondStep(node) => mark(&mut arrivals.again, node as usize),
        Arrival::End => {}
        Arrival::EndBy(_) => {}
    }
}

/// Marks where a process begins.
fn mark_entry(arrivals: &mut Arrivals, arrival: Arrival)
    ensures { marks_view arrivals.new ≡ with_entry (arrival_view arrival) (marks_view arrivals.old) }
{
    match arrival {
        Arrival::Block(node) => mark(&mut arrivals.first, node as usize),
        Arrival::SecondStep(_) => {}
        Arrival::End => {}
        Arrival::EndBy(_) => {}
    }
}

/// Marks where edges arrive.
fn mark_edges(arrivals: &mut Arrivals, edges: &[Departure<'_>])
    ensures { marks_view arrivals.new ≡ with_edges (map departure_view edges.now) (marks_view arrivals.old) }
{
    'edges: for edge in edges {
        mark_arrival(arrivals, edge.arrival);
    }
}

/// Marks where the edges of blocks arrive.
fn mark_blocks(arrivals: &mut Arrivals, blocks: &[Block<'_>])
    ensures { marks_view arrivals.new ≡ with_blocks (map block_view blocks.now) (marks_view arrivals.old) }
{
    'each: for block in blocks {
        mark_edges(arrivals, block.departures.as_slice());
    }
}

/// No mark at so many places.
fn unmarked(alloc: Global, count: usize) -> Result<Vec<bool>, AllocError>
    ensures { IfOk result (λ v. v.items ≡ replicate count false) }
{
    Ok(vec![in alloc; false; count]?)
}

/// Where the edges of blocks arrive, and that to where the process begins.
pub fn arrivals_of(
    alloc: Global,
    entry: &Departure<'_>,
    blocks: &[Block<'_>],
) -> Result<Arrivals, AllocError>
    ensures { IfOk result (λ a. marks_view a ≡ all_marks (departure_view entry.now) (map block_view blocks.now)) }
{
    let mut arrivals = Arrivals {
        first: unmarked(alloc, blocks.len())?,
        again: unmarked(alloc, blocks.len())?,
    };
    mark_entry(&mut arrivals, entry.arrival);
    mark_blocks(&mut arrivals, blocks);
    Ok(arrivals)
}
