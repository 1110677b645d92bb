//! The code module of blocks.
ghost use Rattle.std.specs.Prelude.{◌≡◌, map, IfOk};
ghost use Rattle.herm_code.specs.View.{instr_view, module_view};
ghost use Rattle.herm_fronts.specs.Frames.{table_of, variables_of};
ghost use Rattle.herm_fronts.specs.Blocks.{departure_view, landings_view, starts_view};
ghost use Rattle.herm_fronts.specs.View.{key_view};
ghost use Rattle.herm_blocks.specs.Views.{block_view};
ghost use Rattle.herm_codegen.specs.Emitted.{fronts_in};
ghost use Rattle.herm_codegen.specs.Listed.{listed_view};
ghost use Rattle.herm_codegen.specs.Modules.{entry_lines, all_lines, all_labels, keyed_module};

use crate::arrivals::arrivals_of;
use crate::labels::labels_of;
use crate::layout::{fronts_of, starts_of};
use crate::lines::{Lines, push_blocks, push_landings};
use herm_base::Word;
use herm_blocks::Block;
use herm_code::{CodeModule, Label};
use herm_fronts::constants::Key;
use herm_fronts::departures::{Departure, Exits, Starts, edge_length, push_edge};
use herm_fronts::frame::Frame;
use indexmap::IndexSet;
use std::alloc::{AllocError, Global};

/// The lines of the edge to where a process begins.
fn entry_lines(
    alloc: Global,
    frame: &Frame,
    starts: &Starts,
    entry: &Departure<'_>,
) -> Result<Lines, AllocError>
    ensures code { IfOk result (λ l. map instr_view l.code.items ≡ map (λ x. x.instruction) (entry_lines (table_of frame.now) (variables_of frame.now) (starts_view starts.now) (departure_view entry.now))) }
    ensures landings { IfOk result (λ l. map (λ ls. landings_view ls.items) l.landings.items ≡ map (λ x. x.landings) (entry_lines (table_of frame.now) (variables_of frame.now) (starts_view starts.now) (departure_view entry.now))) }
{
    let exits = Exits {
        first: 0,
        edges: &[],
    };
    let count = starts.end as usize;
    let mut code = Vec::with_capacity(alloc, count)?;
    push_edge(alloc, starts, entry, &mut code)?;
    let mut landings = Vec::with_capacity(alloc, count)?;
    push_landings(alloc, frame, &exits, code.as_slice(), &mut landings)?;
    Ok(Lines { code, landings })
}

/// The lines of a module: the edge to where its process begins, and then blocks with fronts of these lengths.
fn lines_of(
    alloc: Global,
    frame: &Frame,
    keys: &IndexSet<Key>,
    entry: &Departure<'_>,
    blocks: &[Block<'_>],
    fronts: &[u32],
) -> Result<Lines, AllocError>
    requires fronts { fronts.now ≡ fronts_in (table_of frame.now) (variables_of frame.now) (map block_view blocks.now) }
    ensures code { IfOk result (λ l. map instr_view l.code.items ≡ map (λ x. x.instruction) (all_lines (table_of frame.now) (variables_of frame.now) (map key_view keys.now.keys) (departure_view entry.now) (map block_view blocks.now))) }
    ensures landings { IfOk result (λ l. map (λ ls. landings_view ls.items) l.landings.items ≡ map (λ x. x.landings) (all_lines (table_of frame.now) (variables_of frame.now) (map key_view keys.now.keys) (departure_view entry.now) (map block_view blocks.now))) }
{
    let first = edge_length(entry)?;
    let starts = starts_of(alloc, frame, first, blocks, fronts)?;
    let mut lines = entry_lines(alloc, frame, &starts, entry)?;
    push_blocks(
        alloc, frame, keys, &starts, first, blocks, fronts, &mut lines,
    )?;
    Ok(lines)
}

/// The labels of blocks with fronts of these lengths, behind the edge to where their process begins.
fn labels_behind(
    alloc: Global,
    frame: &Frame,
    entry: &Departure<'_>,
    blocks: Vec<Block<'_>>,
    fronts: &[u32],
) -> Result<Vec<(u32, Label)>, AllocError>
    requires fronts { fronts.now ≡ fronts_in (table_of frame.now) (variables_of frame.now) (map block_view blocks.items) }
    ensures labels { IfOk result (λ v. map listed_view v.items ≡ all_labels (table_of frame.now) (variables_of frame.now) (departure_view entry.now) blocks.entry.items) }
{
    let first = edge_length(entry)?;
    let arrivals = arrivals_of(alloc, entry, blocks.as_slice())?;
    let labels = labels_of(alloc, frame, &arrivals, first, blocks, fronts)?;
    Ok(labels)
}

/// The code module of an edge to where its process begins, and of blocks.
pub fn module_of(
    alloc: Global,
    frame: &Frame,
    keys: &IndexSet<Key>,
    name: Word,
    entry: &Departure<'_>,
    blocks: Vec<Block<'_>>,
) -> Result<CodeModule, AllocError>
    ensures code { IfOk result (λ m. module_view m ≡ keyed_module (table_of frame.now) (variables_of frame.now) (map key_view keys.now.keys) (departure_view entry.now) blocks.entry.items) }
    ensures name { IfOk result (λ m. m.name ≡ name) }
{
    let fronts = fronts_of(alloc, frame, blocks.as_slice())?;
    let fronts = fronts.as_slice();
    let lines = lines_of(alloc, frame, keys, entry, blocks.as_slice(), fronts)?;
    let labels = labels_behind(alloc, frame, entry, blocks, fronts)?;
    let vars = Vec::from_slice(alloc, frame.of)?;
    Ok(CodeModule {
        name,
        vars,
        code: lines.code,
        landings: lines.landings,
        labels,
    })
}
