//! What is wrong at a name.
ghost use Rattle.std.specs.Prelude.{◌≡◌, ℕ, List, IfOk, not, false, take, map};
ghost use Rattle.herm_model.specs.Paths.{Fact};
ghost use Rattle.herm_model.specs.Types as types;
ghost use Rattle.herm_model.specs.Copyable.{IsCopyable};
ghost use Rattle.herm_model.specs.TypedExpressions.{HasShape, is_scalar_shape};
ghost use Rattle.herm_syntax.specs.View.{shape_form_view, dfact_view};
ghost use Rattle.herm_types.specs.View.{shape_view};
ghost use Rattle.herm_meaning.specs.Marks.{a_type, an_exception, a_part, an_input, a_content, a_row, a_key, a_port, a_raised, a_kept};
ghost use Rattle.herm_meaning.specs.DefinitionFaults.{IsJudged, IsSettled, IsNoRecord, IsNoKey, HasBadFacts, HasBadShape};
ghost use Rattle.herm_graph.specs.Tells.{Tells};
ghost use Rattle.herm_defs.specs.Judged.{IsCodeAt, marked, first_code};
ghost use Rattle.herm_defs.specs.Plain.{is_record, is_inport, passes, no_key};

use crate::context::Context;
use crate::facts::bad_facts;
use crate::fault::DefCode;
use crate::keeps::any_keeps_badly;
use crate::names::Names;
use herm_base::Name;
use herm_syntax::{DFact, ShapeForm};
use herm_types::{Part, Shape};
use std::alloc::{AllocError, Global};

/// Of each code whether it holds at a name.
#[derive(Clone, Copy)]
pub struct CodeTests {
    pub unknown: bool,
    pub twice: bool,
    pub cycle: bool,
    pub deep: bool,
    pub bad_key: bool,
    pub bad_state: bool,
}

/// The first code that holds.
fn first(tests: CodeTests) -> Option<DefCode>
    ensures { result ≡ first_code tests }
{
    if tests.unknown {
        return Some(DefCode::Unknown);
    }
    if tests.twice {
        return Some(DefCode::Twice);
    }
    if tests.cycle {
        return Some(DefCode::Cycle);
    }
    if tests.deep {
        return Some(DefCode::Deep);
    }
    if tests.bad_key {
        return Some(DefCode::BadKey);
    }
    if tests.bad_state {
        return Some(DefCode::BadState);
    }
    None
}

/// Where only a name that is unknown or was there before can be wrong, the code there.
fn first_of_two(unknown: bool, twice: bool) -> Option<DefCode>
    ensures { result ≡ first_code record { unknown = unknown; twice = twice; cycle = false; deep = false; bad_key = false; bad_state = false } }
{
    first(CodeTests {
        unknown,
        twice,
        cycle: false,
        deep: false,
        bad_key: false,
        bad_state: false,
    })
}

/// The same with what else can be wrong at a key or a state.
fn first_of_four(unknown: bool, twice: bool, bad_key: bool, bad_state: bool) -> Option<DefCode>
    ensures { result ≡ first_code record { unknown = unknown; twice = twice; cycle = false; deep = false; bad_key = bad_key; bad_state = bad_state } }
{
    first(CodeTests {
        unknown,
        twice,
        cycle: false,
        deep: false,
        bad_key,
        bad_state,
    })
}

// ---- shapes

fn is_record(shape: &Shape) -> bool
    ensures { result ≡ is_record (shape_view shape.now) }
{
    matches!(shape, Shape::Fields(_))
}

fn is_scalar(shape: &Shape) -> bool
    ensures { result ≡ is_scalar_shape (shape_view shape.now) }
{
    matches!(
        shape,
        Shape::Boolean | Shape::Integer | Shape::Text | Shape::Names(_)
    )
}

fn is_inport(shape: &Shape) -> bool
    ensures { result ≡ is_inport (shape_view shape.now) }
{
    matches!(
        shape,
        Shape::Inport {
            message: _,
            facts: _
        }
    )
}

/// Whether a type is there and a record.
pub fn is_record_at(context: &Context, t: usize) -> bool
    ensures { result ≡ passes is_record context.now.shapes t }
{
    match context.shape(t) {
        Some(shape) => is_record(shape),
        None => false,
    }
}

fn is_inport_at(context: &Context, t: usize) -> bool
    ensures { result ≡ passes is_inport context.now.shapes t }
{
    match context.shape(t) {
        Some(shape) => is_inport(shape),
        None => false,
    }
}

/// Whether a type is there and no scalar.
fn is_no_scalar_at(context: &Context, t: usize) -> bool
    ensures { result ≡ passes (λ s. not (is_scalar_shape s)) context.now.shapes t }
{
    match context.shape(t) {
        Some(shape) => !is_scalar(shape),
        None => false,
    }
}

/// Whether the part at a place of a shape is none of a record, or is known and no scalar.
fn is_no_key(context: &Context, shape: &Shape, place: usize) -> bool
    ensures { result ≡ no_key context.now.shapes (shape_view shape.now) place }
{
    match shape {
        Shape::Fields(parts) => is_no_scalar_part(context, parts.as_slice(), place),
        _ => false,
    }
}

fn is_no_scalar_part(context: &Context, parts: &[Part], place: usize) -> bool
    ensures { result ≡ no_key context.now.shapes (types.fields (map (λ p. p.of.0) parts.now)) place }
{
    match parts.get(place) {
        Some(part) => is_no_scalar_at(context, part.of.0 as usize),
        None => true,
    }
}

/// Whether a part cannot be of the key of a table with these rows.
fn is_no_key_at(context: &Context, row: usize, place: usize) -> bool
    ensures { result ≡ passes (λ s. no_key context.now.shapes s place) context.now.shapes row }
{
    match context.shape(row) {
        Some(shape) => is_no_key(context, shape, place),
        None => false,
    }
}

// ---- what is wrong with types that are known and reach no cycle

fn is_bad_row(context: &Context, t: usize) -> bool
    ensures { Tells result (IsJudged context.now t × IsNoRecord context.now t) }
{
    let is_bad = !is_record_at(context, t);
    context.is_judged(t) && is_bad
}

fn is_bad_port(context: &Context, t: usize) -> bool
    ensures { Tells result (IsJudged context.now t × ((message : ℕ) (declared : List Fact) → HasShape context.now.shapes t (types.inport message declared) → ⊥)) }
{
    let is_bad = !is_inport_at(context, t);
    context.is_judged(t) && is_bad
}

fn is_bad_input(context: &Context, t: usize) -> bool
    ensures { Tells result (IsJudged context.now t × IsSettled context.now t × (IsCopyable context.now.shapes t → ⊥)) }
{
    let is_settled = context.is_settled(t);
    let is_copyable = context.is_copyable(t);
    context.is_judged(t) && is_settled && !is_copyable
}

fn is_bad_key(context: &Context, row: usize, name: &Name) -> bool
    ensures { Tells result (IsJudged context.now row × (ts : List ℕ) × HasShape context.now.shapes row (types.fields ts) × IsNoKey context.now row ts name.now.text) }
{
    let is_bad = is_no_key_at(context, row, context.part_place(row, name));
    context.is_judged(row) && is_bad
}

fn is_bad_inport(
    alloc: Global,
    context: &Context,
    t: usize,
    facts: &[DFact],
) -> Result<bool, AllocError>
    ensures { IfOk result (λ b. Tells b (IsJudged context.now t × HasBadFacts context.now t (map dfact_view facts.now))) }
{
    if !context.is_judged(t) {
        return Ok(false);
    }
    let is_bad = bad_facts(alloc, context, t, facts)?;
    Ok(is_bad)
}

/// Whether a shape declares facts or keeps parameters badly.
fn is_bad_shape(alloc: Global, context: &Context, shape: &ShapeForm) -> Result<bool, AllocError>
    ensures { IfOk result (λ b. Tells b (HasBadShape context.now (shape_form_view shape.now))) }
{
    match shape {
        ShapeForm::Inport { message, facts } => {
            let t = context.type_of(message);
            let is_bad = is_bad_inport(alloc, context, t, facts.as_slice())?;
            Ok(is_bad)
        }
        ShapeForm::CallMessage { params, raises } => {
            let is_bad = any_keeps_badly(alloc, context, params.as_slice(), raises.as_slice())?;
            Ok(is_bad)
        }
        _ => Ok(false),
    }
}

// ---- the code at a name

/// The code at a name that must be a type.
pub fn content_code(context: &Context, name: &Name) -> Option<DefCode>
    ensures { IsCodeAt context.now (marked name.now a_content) result }
{
    let is_type = context.is_type(context.type_of(name));
    first_of_two(!is_type, false)
}

/// The code at the name of a table's row.
pub fn row_code(context: &Context, name: &Name) -> Option<DefCode>
    ensures { IsCodeAt context.now (marked name.now a_row) result }
{
    let t = context.type_of(name);
    let is_type = context.is_type(t);
    let is_bad = is_bad_row(context, t);
    first_of_four(!is_type, false, is_bad, false)
}

/// The code at the name of the type that an outport leads to.
pub fn port_code(context: &Context, name: &Name) -> Option<DefCode>
    ensures { IsCodeAt context.now (marked name.now a_port) result }
{
    let t = context.type_of(name);
    let is_type = context.is_type(t);
    let is_bad = is_bad_port(context, t);
    first_of_four(!is_type, false, false, is_bad)
}

/// The code at a part, behind those of its list up to its place.
pub fn part_code(context: &Context, names: &Names, place: usize, name: &Name) -> Option<DefCode>
    ensures part { IsCodeAt context.now (marked name.now (a_part (take place names.now))) result }
    ensures kept { IsCodeAt context.now (marked name.now (a_kept (take place names.now))) result }
{
    let is_repeated = names.is_before(name.text.bytes(), place);
    first_of_two(false, is_repeated)
}

/// The code at a parameter of mode `in`, behind those of its list up to its place.
pub fn input_code(
    context: &Context,
    names: &Names,
    place: usize,
    name: &Name,
    content: &Name,
) -> Option<DefCode>
    ensures { IsCodeAt context.now (marked name.now (an_input (take place names.now) content.now.text)) result }
{
    let is_repeated = names.is_before(name.text.bytes(), place);
    let is_bad = is_bad_input(context, context.type_of(content));
    first_of_four(false, is_repeated, false, is_bad)
}

/// The code at a part of a table's key, behind those of the key up to its place.
pub fn key_code(
    context: &Context,
    names: &Names,
    place: usize,
    name: &Name,
    row: &Name,
) -> Option<DefCode>
    ensures { IsCodeAt context.now (marked name.now (a_key (take place names.now) row.now.text)) result }
{
    let is_repeated = names.is_before(name.text.bytes(), place);
    let is_bad = is_bad_key(context, context.type_of(row), name);
    first_of_four(false, is_repeated, is_bad, false)
}

/// The code at an exception in `raises`, behind those of the list up to its place.
pub fn raised_code(context: &Context, names: &Names, place: usize, name: &Name) -> Option<DefCode>
    ensures { IsCodeAt context.now (marked name.now (a_raised (take place names.now))) result }
{
    let is_known = context.is_exception(context.exception_of(name));
    let is_repeated = names.is_before(name.text.bytes(), place);
    first_of_two(!is_known, is_repeated)
}

/// The code at the name of the exception with a number.
pub fn exception_code(context: &Context, number: usize, name: &Name) -> Option<DefCode>
    ensures { IsCodeAt context.now (marked name.now (an_exception number)) result }
{
    first_of_two(false, context.has_exception_before(number, name))
}

/// The code at the name of the type with a number, which is defined with this shape.
pub fn type_code(
    alloc: Global,
    context: &Context,
    number: usize,
    name: &Name,
    shape: &ShapeForm,
) -> Result<Option<DefCode>, AllocError>
    ensures { IfOk result (λ code. IsCodeAt context.now (marked name.now (a_type number (shape_form_view shape.now))) code) }
{
    let bad_state = is_bad_shape(alloc, context, shape)?;
    Ok(first(CodeTests {
        unknown: false,
        twice: context.has_type_before(number, name),
        cycle: context.reaches_itself(number),
        deep: context.is_deep(number),
        bad_key: false,
        bad_state,
    }))
}
