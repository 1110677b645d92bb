//! Where blocks begin.
ghost use Rattle.std.specs.Prelude.{◌≡◌, ◌+◌, ◌≤◌, map, IfOk, MatchResult};
ghost use Rattle.herm_model.specs.Lists.{total};
ghost use Rattle.herm_translated.specs.Departures.{edge_length};
ghost use Rattle.herm_fronts.specs.Frames.{table_of, variables_of};
ghost use Rattle.herm_fronts.specs.Forms.{form_seen};
ghost use Rattle.herm_fronts.specs.Blocks.{departure_view};
ghost use Rattle.herm_fronts.specs.Lengths.{count_front, count_block, starts_from, end_from};
ghost use Rattle.herm_blocks.specs.Views.{block_view};
ghost use Rattle.herm_codegen.specs.Emitted.{fronts_in};

use herm_blocks::Block;
use herm_fronts::departures::{Departure, Starts, edge_length};
use herm_fronts::frame::Frame;
use herm_fronts::numbers::{small, sum};
use herm_fronts::operands::{count_behind, operands_of};
use herm_typed::TypedForm;
use std::alloc::{AllocError, Global};

/// How many instructions the front of a form has.
fn front_length(alloc: Global, frame: &Frame, form: &TypedForm) -> Result<u32, AllocError>
    ensures { IfOk result (λ n. n ≡ count_front (table_of frame.now) (variables_of frame.now) (form_seen form.now)) }
{
    let operands = operands_of(alloc, frame, form)?;
    let count = small(operands.len())?;
    let length = sum(count, count_behind(form))?;
    Ok(length)
}

/// How many instructions the front of each block has.
pub fn fronts_of(alloc: Global, frame: &Frame, blocks: &[Block<'_>]) -> Result<Vec<u32>, AllocError>
    ensures { IfOk result (λ v. v.items ≡ fronts_in (table_of frame.now) (variables_of frame.now) (map block_view blocks.now)) }
{
    let mut fronts = Vec::with_capacity(alloc, blocks.len())?;
    'each: for block in blocks {
        let length = front_length(alloc, frame, block.form)?;
        fronts.push(length)?;
    }
    Ok(fronts)
}

/// How many instructions edges have; refused only where the number does not fit.
fn edges_length(edges: &[Departure<'_>]) -> Result<u32, AllocError>
    ensures { MatchResult result (λ n. n ≡ total edge_length (map departure_view edges.now)) (λ e. 4294967296 ≤ total edge_length (map departure_view edges.now)) }
{
    let mut length = 0;
    'edges: for edge in edges {
        let more = edge_length(edge)?;
        length = sum(length, more)?;
    }
    Ok(length)
}

/// The index behind a block that begins at an index and has a front of this length; refused only where it does not fit.
pub fn end_of(frame: &Frame, at: u32, front: u32, block: &Block<'_>) -> Result<u32, AllocError>
    requires front { front ≡ count_front (table_of frame.now) (variables_of frame.now) (form_seen block.now.form.now) }
    ensures end { MatchResult result (λ n. n ≡ at + count_block (table_of frame.now) (variables_of frame.now) (block_view block.now)) (λ e. 4294967296 ≤ at + count_block (table_of frame.now) (variables_of frame.now) (block_view block.now)) }
{
    let edges = edges_length(block.departures.as_slice())?;
    let behind = sum(front, edges)?;
    let length = sum(1, behind)?;
    let end = sum(at, length)?;
    Ok(end)
}

/// The indices at which blocks with fronts of these lengths begin, the first at this one.
pub fn starts_of(
    alloc: Global,
    frame: &Frame,
    first: u32,
    blocks: &[Block<'_>],
    fronts: &[u32],
) -> Result<Starts, AllocError>
    requires fronts { fronts.now ≡ fronts_in (table_of frame.now) (variables_of frame.now) (map block_view blocks.now) }
    ensures at { IfOk result (λ s. s.at.items ≡ starts_from first (map (count_block (table_of frame.now) (variables_of frame.now)) (map block_view blocks.now))) }
    ensures end { IfOk result (λ s. s.end ≡ end_from first (map (count_block (table_of frame.now) (variables_of frame.now)) (map block_view blocks.now))) }
{
    let mut at = Vec::with_capacity(alloc, blocks.len())?;
    let mut end = first;
    let mut left = fronts;
    'each: for block in blocks {
        match left {
            [] => return Ok(Starts { at, end }),
            [front, more @ ..] => {
                at.push(end)?;
                end = end_of(frame, end, *front, block)?;
                left = more;
            }
        }
    }
    Ok(Starts { at, end })
}
