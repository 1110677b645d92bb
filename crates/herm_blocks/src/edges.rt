//! The edges of a node: what each drops, which loops it leaves, and where it arrives.
ghost use Rattle.std.specs.Prelude.{◌≡◌, ◌++◌, map, nat_eq, IfOk};
ghost use Rattle.herm_model.specs.Lists.{any_pass};
ghost use Rattle.herm_types.specs.View.{path_view};
ghost use Rattle.herm_translated.specs.CodeBlocks.{first_list, further_lists};
ghost use Rattle.herm_flow.specs.View.{edge_view};
ghost use Rattle.herm_fronts.specs.Blocks.{arrival_view, marked_view};
ghost use Rattle.herm_blocks.specs.Views.{slots_view};
ghost use Rattle.herm_blocks.specs.Seen.{drops_view, exit_view};
ghost use Rattle.herm_blocks.specs.Scopes.{is_inside_by, number_by, left_by, arrives_by, marked_by, departures_by};

use crate::lengths::is_within;
use herm_base::TypeNo;
use herm_flow::{Edge, Target};
use herm_fronts::departures::{Arrival, Departure};
use herm_typed::Outcome;
use herm_types::{Fact, Path};
use std::alloc::{AllocError, Global};

/// Of each node its statement's number, and the lengths of loops by their numbers.
#[derive(Clone, Copy)]
pub struct Scope<'a> {
    pub numbers: &'a [u32],
    pub lengths: &'a [u32],
}

/// An outcome, with what it makes and takes away, and where it leads.
#[derive(Clone, Copy)]
pub struct Exit<'a> {
    pub outcome: Outcome,
    pub makes: &'a [Fact],
    pub kills: &'a [Path],
    pub to: Target,
}

/// Whether a node is inside the loop with a number.
fn is_inside(scope: &Scope<'_>, node: usize, of: u32) -> bool
    ensures { result ≡ is_inside_by scope.now.numbers.now scope.now.lengths.now node of }
{
    match scope.numbers.get(node) {
        Some(number) => is_within(scope.lengths, *number, of),
        None => false,
    }
}

/// The number of a node's statement.
fn number_at(scope: &Scope<'_>, node: usize) -> u32
    ensures { result ≡ number_by scope.now.numbers.now node }
{
    match scope.numbers.get(node) {
        Some(number) => *number,
        None => 0,
    }
}

/// Whether a slot is that of the loop with a number.
fn has_slot(slots: &[(u32, TypeNo)], number: u32) -> bool
    ensures { result ≡ any_pass (λ s. nat_eq s.number number) (slots_view slots.now) }
{
    'slots: for slot in slots {
        if slot.0 == number {
            return true;
        }
    }
    false
}

/// Where an edge to a node arrives: a `for` whose slot is there goes on with its second step.
fn arrival_at(scope: &Scope<'_>, slots: &[(u32, TypeNo)], node: u32) -> Arrival
    ensures { arrival_view result ≡ arrives_by scope.now.numbers.now scope.now.lengths.now (slots_view slots.now) node }
{
    if has_slot(slots, number_at(scope, node as usize)) {
        return Arrival::SecondStep(node);
    }
    Arrival::Block(node)
}

/// The slots of the loops that an edge to a node leaves.
fn slots_left(
    alloc: Global,
    scope: &Scope<'_>,
    slots: &[(u32, TypeNo)],
    node: u32,
) -> Result<Vec<u32>, AllocError>
    ensures { IfOk result (λ v. v.items ≡ left_by scope.now.numbers.now scope.now.lengths.now (slots_view slots.now) node) }
{
    let mut found = Vec::new(alloc);
    'slots: for slot in slots {
        if !is_inside(scope, node as usize, slot.0) {
            found.push(slot.0)?;
        }
    }
    Ok(found)
}

/// An edge, where there are these slots; at an end nothing is left to drop.
pub fn departure<'a>(
    alloc: Global,
    scope: &Scope<'_>,
    slots: &[(u32, TypeNo)],
    exit: Exit<'a>,
    drops: &'a [Path],
) -> Result<Departure<'a>, AllocError>
    ensures { IfOk result (λ d. marked_view d ≡ marked_by scope.now.numbers.now scope.now.lengths.now (slots_view slots.now) (exit_view exit.entry) (map path_view drops.now)) }
{
    match exit.to {
        Target::Point(node) => {
            let left = slots_left(alloc, scope, slots, node)?;
            let arrival = arrival_at(scope, slots, node);
            Ok(Departure {
                outcome: exit.outcome,
                makes: exit.makes,
                kills: exit.kills,
                drops,
                slots: left,
                arrival,
            })
        }
        Target::End => Ok(Departure {
            outcome: exit.outcome,
            makes: exit.makes,
            kills: exit.kills,
            drops: &[],
            slots: Vec::new(alloc),
            arrival: Arrival::End,
        }),
        Target::EndBy(e) => Ok(Departure {
            outcome: exit.outcome,
            makes: exit.makes,
            kills: exit.kills,
            drops: &[],
            slots: Vec::new(alloc),
            arrival: Arrival::EndBy(e),
        }),
    }
}

/// What is dropped on the first of some edges.
fn first_drops(drops: &[Vec<Path>]) -> &[Path]
    ensures { map path_view result.now ≡ first_list (drops_view drops.now) }
{
    match drops {
        [] => &[],
        [first, ..] => first.as_slice(),
    }
}

/// What is dropped on the others.
fn further_drops(drops: &[Vec<Path>]) -> &[Vec<Path>]
    ensures { drops_view result.now ≡ further_lists (drops_view drops.now) }
{
    match drops {
        [] => &[],
        [_, rest @ ..] => rest,
    }
}

/// An edge of a flow.
fn exit_of<'a>(edge: &'a Edge) -> Exit<'a>
    ensures { exit_view result ≡ edge_view edge.now }
{
    Exit {
        outcome: edge.outcome,
        makes: edge.makes(),
        kills: edge.kills(),
        to: edge.to,
    }
}

/// The edges of a node, each with what it drops.
pub fn departures<'a>(
    alloc: Global,
    scope: &Scope<'_>,
    slots: &[(u32, TypeNo)],
    edges: &'a [Edge],
    drops: &'a [Vec<Path>],
) -> Result<Vec<Departure<'a>>, AllocError>
    ensures { IfOk result (λ v. map marked_view v.items ≡ departures_by scope.now.numbers.now scope.now.lengths.now (slots_view slots.now) (map edge_view edges.now) (drops_view drops.now)) }
{
    let mut found = Vec::with_capacity(alloc, edges.len())?;
    let mut left = drops;
    'edges: for edge in edges {
        let first = first_drops(left);
        found.push(departure(alloc, scope, slots, exit_of(edge), first)?)?;
        left = further_drops(left);
    }
    Ok(found)
}
