//! The instructions of blocks, each with its landings.
ghost use Rattle.std.specs.Prelude.{◌≡◌, ◌+◌, ◌≤◌, ◌++◌, ◌∷◌, [], map, flat_map, drop, length, IfOk, MatchResult, OnOk};
ghost use Rattle.herm_types.specs.View.{fact_view};
ghost use Rattle.herm_fronts.specs.Frames.{table_of, variables_of};
ghost use Rattle.herm_translated.specs.Departures as model;
ghost use Rattle.herm_translated.specs.Layout.{landings_by};
ghost use Rattle.herm_code.specs.View.{instr_view};
ghost use Rattle.herm_fronts.specs.Operands.{instruction_of};
ghost use Rattle.herm_fronts.specs.Forms.{form_seen};
ghost use Rattle.herm_fronts.specs.Blocks.{departure_view, exits_view, landings_view, starts_view};
ghost use Rattle.herm_fronts.specs.Lengths.{count_front, count_block};
ghost use Rattle.herm_codegen.specs.Emitted.{AreAppended, keyed_exit, keyed_front, keyed_code, keyed_lines, keyed_lines_from, fronts_in};
ghost use Rattle.herm_blocks.specs.Views.{block_view};
ghost use Rattle.herm_fronts.specs.View.{item_view, key_view};

use crate::layout::end_of;
use herm_base::ExcNo;
use herm_blocks::Block;
use herm_code::Instr;
use herm_fronts::behind::{Site, behind_operands};
use herm_fronts::constants::{Key, place};
use herm_fronts::departures::{Departure, Exits, Starts, push_edge};
use herm_fronts::exits::landings_at;
use herm_fronts::expressions::Item;
use herm_fronts::frame::Frame;
use herm_fronts::numbers::sum;
use herm_fronts::operands::operands_of;
use herm_fronts::raised::exceptions_of;
use indexmap::IndexSet;
use std::alloc::{AllocError, Global};

/// Instructions by index, and for each its landings.
#[derive(Drop)]
pub struct Lines {
    pub code: Vec<Instr>,
    pub landings: Vec<Vec<(ExcNo, u32)>>,
}

/// Each exception that an instruction can raise, and where its edge begins.
fn landings_of(
    alloc: Global,
    frame: &Frame,
    exits: &Exits<'_>,
    instr: &Instr,
) -> Result<Vec<(ExcNo, u32)>, AllocError>
    ensures { IfOk result (λ v. landings_view v.items ≡ landings_by (table_of frame.now) (variables_of frame.now) (exits_view exits.now) (instr_view instr.now)) }
{
    let exceptions = exceptions_of(alloc, frame, instr)?;
    let found = landings_at(alloc, exits, exceptions.as_slice())?;
    Ok(found)
}

/// Appends the landings of instructions, which raise to these edges.
pub fn push_landings(
    alloc: Global,
    frame: &Frame,
    exits: &Exits<'_>,
    code: &[Instr],
    landings: &mut Vec<Vec<(ExcNo, u32)>>,
) -> Result<(), AllocError>
    ensures { OnOk result (map (λ ls. landings_view ls.items) landings.new.items ≡ map (λ ls. landings_view ls.items) landings.old.items ++ map (landings_by (table_of frame.now) (variables_of frame.now) (exits_view exits.now)) (map instr_view code.now)) }
{
    'code: for instr in code {
        let found = landings_of(alloc, frame, exits, instr)?;
        landings.push(found)?;
    }
    Ok(())
}

/// The instructions from an index on.
fn code_from(code: &[Instr], first: usize) -> &[Instr]
    ensures { result.now ≡ drop first code.now }
{
    if code.len() < first {
        return &[];
    }
    &code[first..]
}

/// The instruction of an operand, with the number of its constant.
fn instruction_of(keys: &IndexSet<Key>, item: Item<'_>) -> Result<Instr, AllocError>
    ensures { IfOk result (λ i. instr_view i ≡ instruction_of (map key_view keys.now.keys) (item_view item.entry)) }
{
    match item {
        Item::Literal(literal) => {
            let number = place(keys, literal)?;
            Ok(Instr::Const(number))
        }
        Item::Done(instr) => Ok(instr),
    }
}

/// Appends operands, with the numbers of their constants.
fn push_operands(
    keys: &IndexSet<Key>,
    items: Vec<Item<'_>>,
    out: &mut Vec<Instr>,
) -> Result<(), AllocError>
    ensures { OnOk result (map instr_view out.new.items ≡ map instr_view out.old.items ++ map (instruction_of (map key_view keys.now.keys)) (map item_view items.entry.items)) }
{
    'items: for item in items {
        let instr = instruction_of(keys, item)?;
        out.push(instr)?;
    }
    Ok(())
}

/// Appends instructions.
fn push_all(mut code: Vec<Instr>, out: &mut Vec<Instr>) -> Result<(), AllocError>
    ensures { OnOk result (map instr_view out.new.items ≡ map instr_view out.old.items ++ map instr_view code.items) }
{
    out.append(&mut code)?;
    Ok(())
}

/// Appends edges in order.
fn push_edges(
    alloc: Global,
    starts: &Starts,
    edges: &[Departure<'_>],
    out: &mut Vec<Instr>,
) -> Result<(), AllocError>
    ensures { OnOk result (map instr_view out.new.items ≡ map instr_view out.old.items ++ flat_map (model.edge_code (starts_view starts.now)) (map departure_view edges.now)) }
{
    'edges: for edge in edges {
        push_edge(alloc, starts, edge, out)?;
    }
    Ok(())
}

/// The edges of a block that begins at an index and has a front of this length; refused only where the first begins at an index that does not
/// fit.
fn exits_of<'a>(
    frame: &Frame,
    at: u32,
    front: u32,
    block: &'a Block<'a>,
) -> Result<Exits<'a>, AllocError>
    requires front { front ≡ count_front (table_of frame.now) (variables_of frame.now) (form_seen block.now.form.now) }
    ensures { MatchResult result (λ e. exits_view e ≡ keyed_exit (table_of frame.now) (variables_of frame.now) at (block_view block.now)) (λ e. 4294967296 ≤ at + (1 + front)) }
{
    let length = sum(1, front)?;
    let first = sum(at, length)?;
    Ok(Exits {
        first,
        edges: block.departures.as_slice(),
    })
}

/// Appends the step of a block and its front.
fn push_front(
    alloc: Global,
    frame: &Frame,
    keys: &IndexSet<Key>,
    at: u32,
    block: &Block<'_>,
    exits: &Exits<'_>,
    out: &mut Vec<Instr>,
) -> Result<(), AllocError>
    ensures { OnOk result (map instr_view out.new.items ≡ map instr_view out.old.items ++ keyed_front (table_of frame.now) (variables_of frame.now) (map key_view keys.now.keys) at (exits_view exits.now) (block_view block.now)) }
{
    out.push(Instr::Step)?;
    let operands = operands_of(alloc, frame, block.form)?;
    push_operands(keys, operands, out)?;
    let here = sum(at, 1)?;
    let site = Site {
        facts: block.facts.as_slice(),
        number: block.statement,
        here,
        exits: *exits,
    };
    let behind = behind_operands(alloc, frame, &site, block.form)?;
    push_all(behind, out)?;
    Ok(())
}

/// Appends the instructions of a block: its step, its front and its edges.
fn push_code(
    alloc: Global,
    frame: &Frame,
    keys: &IndexSet<Key>,
    starts: &Starts,
    at: u32,
    block: &Block<'_>,
    exits: &Exits<'_>,
    out: &mut Vec<Instr>,
) -> Result<(), AllocError>
    ensures { OnOk result (map instr_view out.new.items ≡ map instr_view out.old.items ++ keyed_code (table_of frame.now) (variables_of frame.now) (map key_view keys.now.keys) (starts_view starts.now) at (exits_view exits.now) (block_view block.now)) }
{
    push_front(alloc, frame, keys, at, block, exits, out)?;
    push_edges(alloc, starts, block.departures.as_slice(), out)?;
    Ok(())
}

/// Appends the block that begins at an index and has a front of this length. Gives the index behind it.
fn push_block(
    alloc: Global,
    frame: &Frame,
    keys: &IndexSet<Key>,
    starts: &Starts,
    at: u32,
    front: u32,
    block: &Block<'_>,
    lines: &mut Lines,
) -> Result<u32, AllocError>
    requires front { front ≡ count_front (table_of frame.now) (variables_of frame.now) (form_seen block.now.form.now) }
    ensures lines { OnOk result (AreAppended (keyed_lines (table_of frame.now) (variables_of frame.now) (map key_view keys.now.keys) (starts_view starts.now) at (block_view block.now)) lines.old lines.new) }
    ensures end { IfOk result (λ n. n ≡ at + count_block (table_of frame.now) (variables_of frame.now) (block_view block.now)) }
{
    let exits = exits_of(frame, at, front, block)?;
    let first = lines.code.len();
    push_code(
        alloc,
        frame,
        keys,
        starts,
        at,
        block,
        &exits,
        &mut lines.code,
    )?;
    let code = code_from(lines.code.as_slice(), first);
    push_landings(alloc, frame, &exits, code, &mut lines.landings)?;
    let end = end_of(frame, at, front, block)?;
    Ok(end)
}

/// Appends blocks with fronts of these lengths, of which the first begins at an index.
pub fn push_blocks(
    alloc: Global,
    frame: &Frame,
    keys: &IndexSet<Key>,
    starts: &Starts,
    first: u32,
    blocks: &[Block<'_>],
    fronts: &[u32],
    lines: &mut Lines,
) -> Result<(), AllocError>
    requires fronts { fronts.now ≡ fronts_in (table_of frame.now) (variables_of frame.now) (map block_view blocks.now) }
    ensures lines { OnOk result (AreAppended (keyed_lines_from (table_of frame.now) (variables_of frame.now) (map key_view keys.now.keys) (starts_view starts.now) first (map block_view blocks.now)) lines.old lines.new) }
{
    let mut at = first;
    let mut left = fronts;
    'each: for block in blocks {
        match left {
            [] => return Ok(()),
            [front, more @ ..] => {
                at = push_block(alloc, frame, keys, starts, at, *front, block, lines)?;
                left = more;
            }
        }
    }
    Ok(())
}
