//! The labels of blocks.
ghost use Rattle.std.specs.Prelude.{◌≡◌, ◌+◌, ◌≤◌, ◌++◌, ◌∷◌, [], map, filter, IfOk, MatchResult, OnOk};
ghost use Rattle.herm_model.specs.Lists.{any_pass};
ghost use Rattle.herm_model.specs.Paths.{is_at_or_below, path_of};
ghost use Rattle.herm_types.specs.View.{path_view, fact_view};
ghost use Rattle.herm_typed.specs.View.{outcome_view};
ghost use Rattle.herm_translated.specs.CodeBlocks.{is_for, own_slot, slots_within};
ghost use Rattle.herm_translated.specs.BlockLabels as model;
ghost use Rattle.herm_fronts.specs.Frames.{table_of, variables_of};
ghost use Rattle.herm_fronts.specs.Forms.{form_seen};
ghost use Rattle.herm_fronts.specs.Blocks.{marked_view};
ghost use Rattle.herm_fronts.specs.Lengths.{count_front, count_block};
ghost use Rattle.herm_blocks.specs.Views.{block_view, slots_view};
ghost use Rattle.herm_codegen.specs.Arrivals.{is_marked_at};
ghost use Rattle.herm_codegen.specs.Emitted.{fronts_in};
ghost use Rattle.herm_codegen.specs.Listed.{listed_view, labels_inside, is_left, fact_left, facts_behind, first_label, edge_label, edge_labels_with, keyed_labels, keyed_labels_from};

use crate::arrivals::Arrivals;
use crate::layout::end_of;
use herm_base::TypeNo;
use herm_blocks::Block;
use herm_code::Label;
use herm_fronts::departures::{Departure, SECOND_STEP, edge_length};
use herm_fronts::frame::Frame;
use herm_fronts::numbers::sum;
use herm_fronts::paths::{copy_fact, push_facts};
use herm_fronts::shapes::shape_at;
use herm_typed::{Outcome, TypedForm};
use herm_types::{Fact, Path, Shape};
use std::alloc::{AllocError, Global};

/// Appends the label of an index, with an empty stack.
fn push_label(
    alloc: Global,
    index: u32,
    facts: Vec<Fact>,
    slots: &[(u32, TypeNo)],
    out: &mut Vec<(u32, Label)>,
) -> Result<(), AllocError>
    ensures { OnOk result (map listed_view out.new.items ≡ map listed_view out.old.items ++ model.listed_with index (map fact_view facts.items) (slots_view slots.now) ∷ []) }
{
    let slots = Vec::from_slice(alloc, slots)?;
    let label = Label {
        stack: Vec::new(alloc),
        facts,
        slots,
    };
    out.push((index, label))?;
    Ok(())
}

/// Equal facts.
fn copy_facts(alloc: Global, facts: &[Fact]) -> Result<Vec<Fact>, AllocError>
    ensures { IfOk result (λ v. map fact_view v.items ≡ map fact_view facts.now) }
{
    let mut copies = Vec::with_capacity(alloc, facts.len())?;
    push_facts(alloc, facts, &mut copies)?;
    Ok(copies)
}

/// Whether the edge of an outcome is the target of a jump or a landing.
fn is_named(outcome: Outcome) -> bool
    ensures { result ≡ model.is_named (outcome_view outcome) }
{
    match outcome {
        Outcome::Ok => false,
        Outcome::True => false,
        Outcome::False => true,
        Outcome::Turn => false,
        Outcome::Done => true,
        Outcome::Component(_) => true,
        Outcome::Arm(_) => true,
        Outcome::Raised(_) => true,
    }
}

/// Whether numbers begin with others.
fn begin_with(numbers: &[u32], first: &[u32]) -> bool
    ensures { result ≡ is_at_or_below first.now numbers.now }
{
    let count = first.len();
    if numbers.len() < count {
        return false;
    }
    first == &numbers[..count]
}

/// Whether the second path is the first, or goes on from it.
fn is_at_or_below(first: &Path, path: &Path) -> bool
    ensures { result ≡ is_at_or_below (path_view first.now) (path_view path.now) }
{
    first.var.0 == path.var.0 && begin_with(path.parts.as_slice(), first.parts.as_slice())
}

/// The path that a fact speaks of.
fn path_of(fact: &Fact) -> &Path
    ensures { path_view result.now ≡ path_of (fact_view fact.now) }
{
    match fact {
        Fact::Init(path) => path,
        Fact::Case(path, _) => path,
    }
}

/// Whether a fact is taken away with one of these paths.
fn is_gone(gone: &[Path], fact: &Fact) -> bool
    ensures { result ≡ any_pass (λ p. is_at_or_below p (path_of (fact_view fact.now))) (map path_view gone.now) }
{
    'gone: for path in gone {
        if is_at_or_below(path, path_of(fact)) {
            return true;
        }
    }
    false
}

/// Appends a fact, where it is not taken away.
fn push_if_left(
    alloc: Global,
    gone: &[Path],
    fact: &Fact,
    out: &mut Vec<Fact>,
) -> Result<(), AllocError>
    ensures { OnOk result (map fact_view out.new.items ≡ map fact_view out.old.items ++ fact_left (map path_view gone.now) (fact_view fact.now)) }
{
    if is_gone(gone, fact) {
        return Ok(());
    }
    let fact = copy_fact(alloc, fact)?;
    out.push(fact)?;
    Ok(())
}

/// Appends the facts that are not taken away.
#[tactic(auto, using(crate::proofs::LeftFacts::one_left))]
fn push_left(
    alloc: Global,
    gone: &[Path],
    facts: &[Fact],
    out: &mut Vec<Fact>,
) -> Result<(), AllocError>
    ensures { OnOk result (map fact_view out.new.items ≡ map fact_view out.old.items ++ filter (is_left (map path_view gone.now)) (map fact_view facts.now)) }
{
    'facts: for fact in facts {
        push_if_left(alloc, gone, fact, out)?;
    }
    Ok(())
}

/// What an edge makes, and those of these facts that it does not take away.
fn facts_behind(
    alloc: Global,
    edge: &Departure<'_>,
    facts: &[Fact],
) -> Result<Vec<Fact>, AllocError>
    ensures { IfOk result (λ v. map fact_view v.items ≡ facts_behind (map fact_view edge.now.makes.now) (map path_view edge.now.kills.now) (map fact_view facts.now)) }
{
    let mut out = Vec::with_capacity(alloc, facts.len())?;
    push_facts(alloc, edge.makes, &mut out)?;
    push_left(alloc, edge.kills, facts, &mut out)?;
    Ok(out)
}

/// Whether a form is a `for`.
fn is_loop(form: &TypedForm) -> bool
    ensures { result ≡ is_for (form_seen form.now) }
{
    match form {
        TypedForm::For(_, _, _) => true,
        TypedForm::Case(_, _) => false,
        TypedForm::Select(_) => false,
        TypedForm::If(_, _, _) => false,
        TypedForm::While(_, _) => false,
        TypedForm::Try(_, _) => false,
        _ => false,
    }
}

/// Appends the labels within a `for`: of its second step, where control comes there, and of the test behind it.
fn push_within(
    alloc: Global,
    at: u32,
    again: bool,
    form: &TypedForm,
    facts: &[Fact],
    slots: &[(u32, TypeNo)],
    out: &mut Vec<(u32, Label)>,
) -> Result<(), AllocError>
    ensures { OnOk result (map listed_view out.new.items ≡ map listed_view out.old.items ++ labels_inside at again (map fact_view facts.now) (slots_view slots.now) (form_seen form.now)) }
{
    if !is_loop(form) {
        return Ok(());
    }
    let second = sum(at, SECOND_STEP)?;
    if again {
        let facts = copy_facts(alloc, facts)?;
        push_label(alloc, second, facts, slots, out)?;
    }
    let test = sum(second, 1)?;
    let facts = copy_facts(alloc, facts)?;
    push_label(alloc, test, facts, slots, out)?;
    Ok(())
}

/// Appends the label of an edge that begins at an index, where it is named.
fn push_edge_label(
    alloc: Global,
    at: u32,
    facts: &[Fact],
    slots: &[(u32, TypeNo)],
    edge: &Departure<'_>,
    out: &mut Vec<(u32, Label)>,
) -> Result<(), AllocError>
    ensures { OnOk result (map listed_view out.new.items ≡ map listed_view out.old.items ++ edge_label at (map fact_view facts.now) (slots_view slots.now) (marked_view edge.now)) }
{
    if !is_named(edge.outcome) {
        return Ok(());
    }
    let behind = facts_behind(alloc, edge, facts)?;
    push_label(alloc, at, behind, slots, out)?;
    Ok(())
}

/// Appends the labels of edges, of which the first begins at an index.
fn push_edge_labels(
    alloc: Global,
    first: u32,
    facts: &[Fact],
    slots: &[(u32, TypeNo)],
    edges: &[Departure<'_>],
    out: &mut Vec<(u32, Label)>,
) -> Result<(), AllocError>
    ensures { OnOk result (map listed_view out.new.items ≡ map listed_view out.old.items ++ edge_labels_with first (map fact_view facts.now) (slots_view slots.now) (map marked_view edges.now)) }
{
    let mut at = first;
    'edges: for edge in edges {
        push_edge_label(alloc, at, facts, slots, edge, out)?;
        let length = edge_length(edge)?;
        at = sum(at, length)?;
    }
    Ok(())
}

/// Appends the slot of a `for`, which has its statement's number.
fn push_own_slot(
    frame: &Frame,
    number: u32,
    form: &TypedForm,
    out: &mut Vec<(u32, TypeNo)>,
) -> Result<(), AllocError>
    ensures { OnOk result (slots_view out.new.items ≡ slots_view out.old.items ++ own_slot (table_of frame.now) (variables_of frame.now) number (form_seen form.now)) }
{
    let table = match form {
        TypedForm::For(_, t, _) => t,
        TypedForm::Case(_, _) => return Ok(()),
        TypedForm::Select(_) => return Ok(()),
        TypedForm::If(_, _, _) => return Ok(()),
        TypedForm::While(_, _) => return Ok(()),
        TypedForm::Try(_, _) => return Ok(()),
        _ => return Ok(()),
    };
    match shape_at(frame, &table.path) {
        None => Ok(()),
        Some(shape) => match shape {
            Shape::Rows { row, keys: _ } => {
                out.push((number, *row))?;
                Ok(())
            }
            _ => Ok(()),
        },
    }
}

/// The slots of a form's edges, where there are these at its first step.
fn slots_within(
    alloc: Global,
    frame: &Frame,
    number: u32,
    form: &TypedForm,
    slots: &[(u32, TypeNo)],
) -> Result<Vec<(u32, TypeNo)>, AllocError>
    ensures { IfOk result (λ v. slots_view v.items ≡ slots_within (table_of frame.now) (variables_of frame.now) number (form_seen form.now) (slots_view slots.now)) }
{
    let mut within = Vec::new(alloc);
    push_own_slot(frame, number, form, &mut within)?;
    within.extend_from_slice(slots)?;
    Ok(within)
}

/// Appends the label of a block's first step, where an edge leads there.
fn push_first_label(
    alloc: Global,
    at: u32,
    first: bool,
    block: Block<'_>,
    out: &mut Vec<(u32, Label)>,
) -> Result<(), AllocError>
    ensures { OnOk result (map listed_view out.new.items ≡ map listed_view out.old.items ++ first_label at first (map fact_view block.entry.facts.items) (slots_view block.entry.slots.items)) }
{
    if !first {
        return Ok(());
    }
    push_label(alloc, at, block.facts, block.slots.as_slice(), out)?;
    Ok(())
}

/// Where the edges of a block begin that begins at an index and has a front of this length; refused only where it does not fit.
fn edges_at(at: u32, front: u32) -> Result<u32, AllocError>
    ensures { MatchResult result (λ n. n ≡ at + (1 + front)) (λ e. 4294967296 ≤ at + (1 + front)) }
{
    let behind = sum(1, front)?;
    let first = sum(at, behind)?;
    Ok(first)
}

/// Appends the labels within a block and of its edges, which begin at an index.
fn push_further_labels(
    alloc: Global,
    frame: &Frame,
    at: u32,
    again: bool,
    edges: u32,
    block: &Block<'_>,
    out: &mut Vec<(u32, Label)>,
) -> Result<(), AllocError>
    ensures { OnOk result (map listed_view out.new.items ≡ map listed_view out.old.items ++ (labels_inside at again (map fact_view block.now.facts.items) (model.edge_slots (table_of frame.now) (variables_of frame.now) (block_view block.now)) (form_seen block.now.form.now) ++ edge_labels_with edges (map fact_view block.now.facts.items) (model.edge_slots (table_of frame.now) (variables_of frame.now) (block_view block.now)) (map marked_view block.now.departures.items))) }
{
    let slots = slots_within(
        alloc,
        frame,
        block.statement,
        block.form,
        block.slots.as_slice(),
    )?;
    let slots = slots.as_slice();
    let facts = block.facts.as_slice();
    push_within(alloc, at, again, block.form, facts, slots, out)?;
    push_edge_labels(alloc, edges, facts, slots, block.departures.as_slice(), out)?;
    Ok(())
}

/// Appends the labels of a block that begins at an index and has a front of this length. Gives the index behind it.
fn push_block_labels(
    alloc: Global,
    frame: &Frame,
    at: u32,
    front: u32,
    first: bool,
    again: bool,
    block: Block<'_>,
    out: &mut Vec<(u32, Label)>,
) -> Result<u32, AllocError>
    requires front { front ≡ count_front (table_of frame.now) (variables_of frame.now) (form_seen block.form.now) }
    ensures labels { OnOk result (map listed_view out.new.items ≡ map listed_view out.old.items ++ keyed_labels (table_of frame.now) (variables_of frame.now) at first again block.entry) }
    ensures end { IfOk result (λ n. n ≡ at + count_block (table_of frame.now) (variables_of frame.now) (block_view block.entry)) }
{
    let end = end_of(frame, at, front, &block)?;
    let edges = edges_at(at, front)?;
    let mut further = Vec::new(alloc);
    push_further_labels(alloc, frame, at, again, edges, &block, &mut further)?;
    push_first_label(alloc, at, first, block, out)?;
    out.append(&mut further)?;
    Ok(end)
}

/// The same for the block at a place, where edges arrive at these.
fn push_labels_at(
    alloc: Global,
    frame: &Frame,
    arrivals: &Arrivals,
    place: usize,
    at: u32,
    front: u32,
    block: Block<'_>,
    out: &mut Vec<(u32, Label)>,
) -> Result<u32, AllocError>
    requires front { front ≡ count_front (table_of frame.now) (variables_of frame.now) (form_seen block.form.now) }
    ensures labels { OnOk result (map listed_view out.new.items ≡ map listed_view out.old.items ++ keyed_labels (table_of frame.now) (variables_of frame.now) at (is_marked_at arrivals.now.first.items place) (is_marked_at arrivals.now.again.items place) block.entry) }
    ensures end { IfOk result (λ n. n ≡ at + count_block (table_of frame.now) (variables_of frame.now) (block_view block.entry)) }
{
    let first = arrivals.is_first(place);
    let again = arrivals.is_again(place);
    let end = push_block_labels(alloc, frame, at, front, first, again, block, out)?;
    Ok(end)
}

/// The labels of blocks with fronts of these lengths, of which the first begins at an index, where edges arrive at these.
pub fn labels_of(
    alloc: Global,
    frame: &Frame,
    arrivals: &Arrivals,
    first: u32,
    blocks: Vec<Block<'_>>,
    fronts: &[u32],
) -> Result<Vec<(u32, Label)>, AllocError>
    requires fronts { fronts.now ≡ fronts_in (table_of frame.now) (variables_of frame.now) (map block_view blocks.items) }
    ensures labels { IfOk result (λ v. map listed_view v.items ≡ keyed_labels_from (table_of frame.now) (variables_of frame.now) (is_marked_at arrivals.now.first.items) (is_marked_at arrivals.now.again.items) 0 first blocks.entry.items) }
{
    let mut out = Vec::with_capacity(alloc, blocks.len())?;
    let mut at = first;
    let mut left = blocks.into_iter();
    'each: for (place, front) in fronts.iter().enumerate() {
        match left.next() {
            None => return Ok(out),
            Some(block) => {
                at = push_labels_at(alloc, frame, arrivals, place, at, *front, block, &mut out)?;
            }
        }
    }
    out.shrink_to_fit();
    Ok(out)
}
