//! The blocks of a checked process.
ghost use Rattle.std.specs.Prelude.{◌≡◌, [], map, length, IfOk};
ghost use Rattle.herm_model.specs.Lists.{IsIn};
ghost use Rattle.herm_model.specs.Outcomes.{ok};
ghost use Rattle.herm_model.specs.laws.FlowLaws.{first_of};
ghost use Rattle.herm_types.specs.View.{path_view};
ghost use Rattle.herm_typed.specs.View.{typed_process_view};
ghost use Rattle.herm_translated.specs.CodeBlocks.{blocks_of, entry_edge};
ghost use Rattle.herm_translated.specs.Settled.{settled};
ghost use Rattle.herm_flow.specs.View.{target_view};
ghost use Rattle.herm_fronts.specs.Blocks.{departure_view};
ghost use Rattle.herm_fronts.specs.Frames.{table_of, variables_of};
ghost use Rattle.herm_blocks.specs.CheckedProcesses.{checked_view, held_lists, HasFlow};
ghost use Rattle.herm_blocks.specs.Scopes.{departure_by, blocks_by};
ghost use Rattle.herm_blocks.specs.Seen.{drops_view, seen_node, marked_block};
ghost use Rattle.herm_blocks.specs.Views.{block_view, IsMarked, IsUnmarked};
ghost use Rattle.herm_blocks.specs.declared.block.Block.{Block};

use crate::block::{Block, Blocks};
use crate::checked::CheckedProcess;
use crate::edges::{Exit, Scope, departure};
use crate::led::led_of;
use crate::lengths::lengths_of;
use crate::node::{Node, nodes_of, numbers_of, types_of};
use crate::settle::settle;
use crate::ways::ways_of;
use herm_flow::{Point, Target};
use herm_fronts::departures::Departure;
use herm_fronts::frame::Frame;
use herm_fronts::nodes::nodes_in;
use herm_typed::Outcome;
use herm_types::TypeTable;
use std::alloc::{AllocError, Global};

/// Where a process begins that has these points.
fn first_of(points: &[Point]) -> Target
    ensures { target_view result ≡ first_of (length points.now) }
{
    if points.is_empty() {
        return Target::End;
    }
    Target::Point(0)
}

/// The edge to where a process begins.
fn entry_edge<'a>(
    alloc: Global,
    scope: &Scope<'_>,
    checked: &CheckedProcess<'a>,
) -> Result<Departure<'a>, AllocError>
    ensures entry { IfOk result (λ d. departure_view d ≡ departure_by scope.now.numbers.now scope.now.lengths.now [] ok (first_of (length checked.now.flow.now.points.items)) (map path_view checked.now.coercions.now.entry.items)) }
    ensures unmarked { IfOk result (λ d. IsUnmarked d) }
{
    let exit = Exit {
        outcome: Outcome::Ok,
        makes: &[],
        kills: &[],
        to: first_of(checked.flow.points.as_slice()),
    };
    let entry = departure(alloc, scope, &[], exit, checked.coercions.entry.as_slice())?;
    Ok(entry)
}

/// The blocks of these nodes, where a process begins by this edge.
fn blocks_in<'a>(
    alloc: Global,
    frame: &Frame<'_>,
    scope: &Scope<'_>,
    entry: &Departure<'_>,
    nodes: &[Node<'a>],
    checked: &CheckedProcess<'a>,
) -> Result<Vec<Block<'a>>, AllocError>
    ensures { IfOk result (λ v. map marked_block v.items ≡ blocks_by (table_of frame.now) (variables_of frame.now) scope.now.numbers.now scope.now.lengths.now (departure_view entry.now) (map seen_node nodes.now) (held_lists (table_of frame.now) (variables_of frame.now) checked.now.labels.now.at.items) (map (λ v. drops_view v.items) checked.now.coercions.now.at.items)) }
{
    let ways = ways_of(alloc, frame, scope, nodes, checked.coercions.at.as_slice())?;
    let led = led_of(alloc, entry, ways.as_slice())?;
    let states = checked.labels.at.as_slice();
    let blocks = settle(alloc, frame, states, led.as_slice(), ways)?;
    Ok(blocks)
}

/// The blocks of a process that has these nodes.
fn blocks_with<'a>(
    alloc: Global,
    frame: &Frame<'_>,
    scope: &Scope<'_>,
    nodes: &[Node<'a>],
    checked: &CheckedProcess<'a>,
) -> Result<Blocks<'a>, AllocError>
    ensures entry { IfOk result (λ b. departure_view b.entry ≡ departure_by scope.now.numbers.now scope.now.lengths.now [] ok (first_of (length checked.now.flow.now.points.items)) (map path_view checked.now.coercions.now.entry.items)) }
    ensures unmarked { IfOk result (λ b. IsUnmarked b.entry) }
    ensures blocks { IfOk result (λ b. map marked_block b.blocks.items ≡ blocks_by (table_of frame.now) (variables_of frame.now) scope.now.numbers.now scope.now.lengths.now (departure_view b.entry) (map seen_node nodes.now) (held_lists (table_of frame.now) (variables_of frame.now) checked.now.labels.now.at.items) (map (λ v. drops_view v.items) checked.now.coercions.now.at.items)) }
{
    let entry = entry_edge(alloc, scope, checked)?;
    let blocks = blocks_in(alloc, frame, scope, &entry, nodes, checked)?;
    Ok(Blocks { entry, blocks })
}

/// The blocks of a checked process, one for each node in order, and the edge to where it begins, which makes and takes away nothing. Each edge of a
/// block is marked with what its outcome makes and takes away. Code reference, "Blocks".
///
/// # Errors
///
/// Where memory is wanting.
pub fn blocks_of<'a>(
    alloc: Global,
    types: &TypeTable,
    checked: &CheckedProcess<'a>,
) -> Result<Blocks<'a>, AllocError>
    requires flow { HasFlow types.now.shapes checked.now }
    ensures entry { IfOk result (λ b. departure_view b.entry ≡ entry_edge (checked_view types.now.shapes checked.now)) }
    ensures unmarked { IfOk result (λ b. IsUnmarked b.entry) }
    ensures blocks { IfOk result (λ b. map block_view b.blocks.items ≡ blocks_of (settled (checked_view types.now.shapes checked.now))) }
    ensures marked { IfOk result (λ b. (x : Block) → IsIn x b.blocks.items → IsMarked types.now.shapes (typed_process_view checked.now.process.now).variables x) }
{
    let of = types_of(alloc, checked.process.vars.as_slice())?;
    let frame = Frame {
        types,
        of: of.as_slice(),
    };
    let points = checked.flow.points.as_slice();
    let found = nodes_in(alloc, checked.process.body.as_slice())?;
    let nodes = nodes_of(alloc, found.forms.as_slice(), points)?;
    let numbers = numbers_of(alloc, points)?;
    let lengths = lengths_of(alloc, found.loops.as_slice())?;
    let scope = Scope {
        numbers: numbers.as_slice(),
        lengths: lengths.as_slice(),
    };
    let blocks = blocks_with(alloc, &frame, &scope, nodes.as_slice(), checked)?;
    Ok(blocks)
}
