//! The facts of each block.
ghost use Rattle.std.specs.Prelude.{◌≡◌, [], ℕ, false, map, get_or, IfOk};
ghost use Rattle.herm_types.specs.View.{fact_view};
ghost use Rattle.herm_fronts.specs.Forms.{form_seen};
ghost use Rattle.herm_fronts.specs.Frames.{table_of, variables_of};
ghost use Rattle.herm_blocks.specs.CheckedProcesses.{held_lists};
ghost use Rattle.herm_blocks.specs.Seen.{ways_view, marked_block};
ghost use Rattle.herm_blocks.specs.Scopes.{list_at, facts_by, block_with, settled_by};

use crate::block::Block;
use crate::handed::handed_unless;
use crate::onward::is_for;
use crate::ways::Ways;
use herm_fronts::frame::Frame;
use herm_fronts::held::held_facts;
use herm_typed::TypedForm;
use herm_types::Fact;
use herm_typestate::State;
use std::alloc::{AllocError, Global};

/// The facts of the label of the node at a place.
fn label_at(
    alloc: Global,
    frame: &Frame<'_>,
    states: &[State],
    place: usize,
) -> Result<Vec<Fact>, AllocError>
    ensures { IfOk result (λ v. map fact_view v.items ≡ list_at (held_lists (table_of frame.now) (variables_of frame.now) states.now) place) }
{
    match states.get(place) {
        Some(state) => {
            let facts = held_facts(alloc, frame, state)?;
            Ok(facts)
        }
        None => Ok(Vec::new(alloc)),
    }
}

/// The facts of the block of a node at a place: those of its label where an edge leads to it and at a `for`, at any other what is handed on.
fn facts_at(
    alloc: Global,
    frame: &Frame<'_>,
    states: &[State],
    led: bool,
    form: &TypedForm,
    place: usize,
    handed: Vec<Fact>,
) -> Result<Vec<Fact>, AllocError>
    ensures { IfOk result (λ v. map fact_view v.items ≡ facts_by led (form_seen form.now) (list_at (held_lists (table_of frame.now) (variables_of frame.now) states.now) place) (map fact_view handed.items)) }
{
    if led || is_for(form) {
        let facts = label_at(alloc, frame, states, place)?;
        return Ok(facts);
    }
    Ok(handed)
}

/// Whether the block at a place is marked.
fn is_led(led: &[bool], place: usize) -> bool
    ensures { result ≡ get_or led.now place false }
{
    match led.get(place) {
        Some(led) => *led,
        None => false,
    }
}

/// The block of a node that has these facts.
fn block_with<'a>(ways: Ways<'a>, facts: Vec<Fact>) -> Block<'a>
    ensures { marked_block result ≡ block_with (ways_view ways.entry) (map fact_view facts.items) }
{
    Block {
        statement: ways.node.point.stmt.0,
        form: ways.node.form,
        facts,
        slots: ways.slots,
        onward: ways.onward,
        departures: ways.departures,
    }
}

/// Blocks with settled facts.
pub fn settle<'a>(
    alloc: Global,
    frame: &Frame<'_>,
    states: &[State],
    led: &[bool],
    ways: Vec<Ways<'a>>,
) -> Result<Vec<Block<'a>>, AllocError>
    ensures { IfOk result (λ v. map marked_block v.items ≡ settled_by (λ i. get_or led.now i false) (held_lists (table_of frame.now) (variables_of frame.now) states.now) 0 [] (map ways_view ways.entry.items)) }
{
    let mut found = Vec::with_capacity(alloc, ways.len())?;
    let mut handed = Vec::new(alloc);
    'ways: for way in ways {
        let place = found.len();
        let node = way.node;
        let facts = facts_at(
            alloc,
            frame,
            states,
            is_led(led, place),
            node.form,
            place,
            handed,
        )?;
        let next = is_led(led, place + 1);
        handed = handed_unless(alloc, next, node.point.edges.as_slice(), facts.as_slice())?;
        found.push(block_with(way, facts))?;
    }
    Ok(found)
}
