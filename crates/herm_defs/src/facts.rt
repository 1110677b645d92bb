//! Facts that an inport type declares.
ghost use Rattle.std.specs.Prelude.{◌≡◌, ◌++◌, [], ◌∷◌, true, IfOk, OnOk, map, slice_get};
ghost use Rattle.herm_model.specs.Lists.{map_or};
ghost use Rattle.herm_model.specs.WellFormedTables.{field_type};
ghost use Rattle.herm_syntax.specs.View.{name_view, dfact_view};
ghost use Rattle.herm_types.specs.View.{shape_view};
ghost use Rattle.herm_meaning.specs.Walks as model;
ghost use Rattle.herm_meaning.specs.DefinitionFaults.{HasBadFacts};
ghost use Rattle.herm_graph.specs.Tells.{Tells};
ghost use Rattle.herm_defs.specs.declared.facts.Walked.TheVariants.{Ended, Left};
ghost use Rattle.herm_defs.specs.Plain.{passes};
ghost use Rattle.herm_defs.specs.PlainFacts.{walked_as, has_left, no_component, case_test, bad_fact, path_key, fact_key, written_key, marked_bytes, differs, has_bad_fact};

use crate::context::Context;
use crate::judge::is_record_at;
use crate::names::Names;
use herm_base::{Name, Word};
use herm_syntax::DFact;
use herm_types::Shape;
use std::alloc::{AllocError, Global};

/// Where a path of names of fields leads: to a type, from the fields, or to a type that is unknown.
#[derive(Clone, Copy)]
pub enum Walked {
    Ended(usize),
    Left,
    MetUnknown,
}

/// The field at a place of a shape.
fn field_at(shape: &Shape, place: usize) -> Walked
    ensures { result ≡ map_or Left (λ u. Ended u) (field_type (shape_view shape.now) place) }
{
    match shape {
        Shape::Fields(parts) => match parts.as_slice().get(place) {
            Some(part) => Walked::Ended(part.of.0 as usize),
            None => Walked::Left,
        },
        _ => Walked::Left,
    }
}

/// Where one name of a field leads from a type.
fn step(context: &Context, t: usize, name: &Name) -> Walked
    ensures { result ≡ walked_as (model.walk context.now t (name.now.text ∷ [])) }
{
    let place = context.part_place(t, name);
    match context.shape(t) {
        Some(shape) => field_at(shape, place),
        None => Walked::MetUnknown,
    }
}

/// Where names of fields lead from a type.
fn walk(context: &Context, message: usize, names: &[Name]) -> Walked
    ensures { result ≡ walked_as (model.walk context.now message (map name_view names.now)) }
{
    let mut t = message;
    for name in names {
        match step(context, t, name) {
            Walked::Ended(next) => t = next,
            Walked::Left => return Walked::Left,
            Walked::MetUnknown => return Walked::MetUnknown,
        }
    }
    Walked::Ended(t)
}

/// Whether a path leaves the fields of a message.
fn leaves_fields(context: &Context, message: usize, path: &[Name]) -> bool
    ensures { result ≡ has_left (walked_as (model.walk context.now message (map name_view path.now))) }
{
    match walk(context, message, path) {
        Walked::Ended(_) => false,
        Walked::Left => true,
        Walked::MetUnknown => false,
    }
}

fn has_no_component(shape: &Shape, place: usize) -> bool
    ensures { result ≡ no_component (shape_view shape.now) place }
{
    match shape {
        Shape::Cases(parts) => !(place < parts.len()),
        _ => true,
    }
}

/// Whether a type is there and has no component at a place.
fn is_no_component_at(context: &Context, t: usize, place: usize) -> bool
    ensures { result ≡ passes (λ s. no_component s place) context.now.shapes t }
{
    match context.shape(t) {
        Some(shape) => has_no_component(shape, place),
        None => false,
    }
}

fn is_there(context: &Context, t: usize) -> bool
    ensures { result ≡ passes (λ s. true) context.now.shapes t }
{
    match context.shape(t) {
        Some(_) => true,
        None => false,
    }
}

/// Whether the fact at a place is a case of another component.
fn is_other(facts: &[DFact], place: usize, component: &Name) -> bool
    ensures { result ≡ differs component.now.text (slice_get (map dfact_view facts.now) place) }
{
    match facts.get(place) {
        Some(DFact::Case(_, other)) => component.text.bytes() != other.text.bytes(),
        _ => false,
    }
}

/// Whether a component at the end of a path cannot be declared, where it may be another than that of the path's first case.
fn is_bad_end(context: &Context, walked: Walked, component: &Name, is_other: bool) -> bool
    ensures { result ≡ case_test context.now component.now.text is_other walked }
{
    match walked {
        Walked::Ended(t) => {
            let place = context.part_place(t, component);
            let is_none = is_no_component_at(context, t, place);
            let is_there = is_there(context, t);
            is_none || is_there && is_other
        }
        Walked::Left => true,
        Walked::MetUnknown => false,
    }
}

/// Appends bytes so that it shows where they end.
fn push_name(bytes: &mut Vec<u8>, name: &Name) -> Result<(), AllocError>
    ensures { OnOk result (bytes.new.items ≡ bytes.old.items ++ marked_bytes name.now.text []) }
{
    for byte in name.text.bytes() {
        bytes.push(1)?;
        bytes.push(*byte)?;
    }
    bytes.push(0)?;
    Ok(())
}

fn push_path(bytes: &mut Vec<u8>, path: &[Name]) -> Result<(), AllocError>
    ensures { OnOk result (bytes.new.items ≡ bytes.old.items ++ path_key (map name_view path.now)) }
{
    for name in path {
        push_name(bytes, name)?;
    }
    Ok(())
}

/// A word by which a path is told from all others.
fn path_key(alloc: Global, path: &[Name]) -> Result<Word, AllocError>
    ensures { IfOk result (λ w. w ≡ path_key (map name_view path.now)) }
{
    let mut bytes = Vec::new(alloc);
    push_path(&mut bytes, path)?;
    Ok(Word::from_vec(bytes))
}

/// A word by which a path is told from all others of its kind and those of the other kinds.
fn kind_key(alloc: Global, kind: u8, path: &[Name]) -> Result<Word, AllocError>
    ensures { IfOk result (λ w. w ≡ kind ∷ path_key (map name_view path.now)) }
{
    let mut bytes = Vec::new(alloc);
    bytes.push(kind)?;
    push_path(&mut bytes, path)?;
    Ok(Word::from_vec(bytes))
}

fn case_key(alloc: Global, path: &[Name], component: &Name) -> Result<Word, AllocError>
    ensures { IfOk result (λ w. w ≡ 2 ∷ path_key (component.now.text ∷ map name_view path.now)) }
{
    let mut bytes = Vec::new(alloc);
    bytes.push(2)?;
    push_name(&mut bytes, component)?;
    push_path(&mut bytes, path)?;
    Ok(Word::from_vec(bytes))
}

/// A word by which a declared fact is told from all others.
pub fn written_key(alloc: Global, fact: &DFact) -> Result<Word, AllocError>
    ensures { IfOk result (λ w. w ≡ written_key (dfact_view fact.now)) }
{
    match fact {
        DFact::Init(path) => {
            let key = kind_key(alloc, 0, path.as_slice())?;
            Ok(key)
        }
        DFact::Full(path) => {
            let key = kind_key(alloc, 1, path.as_slice())?;
            Ok(key)
        }
        DFact::Case(path, component) => {
            let key = case_key(alloc, path.as_slice(), component)?;
            Ok(key)
        }
    }
}

fn no_path(alloc: Global) -> Result<Word, AllocError>
    ensures { IfOk result (λ w. w ≡ 2 ∷ []) }
{
    let mut bytes = Vec::with_capacity(alloc, 1)?;
    bytes.push(2)?;
    Ok(Word::from_vec(bytes))
}

/// The word of a case's path, and one that is no path's for other facts.
fn fact_key(alloc: Global, fact: &DFact) -> Result<Word, AllocError>
    ensures { IfOk result (λ w. w ≡ fact_key (dfact_view fact.now)) }
{
    match fact {
        DFact::Init(_) => no_path(alloc),
        DFact::Full(_) => no_path(alloc),
        DFact::Case(path, _) => path_key(alloc, path.as_slice()),
    }
}

/// The words of facts, found by their bytes.
fn fact_keys(alloc: Global, facts: &[DFact]) -> Result<Names, AllocError>
    ensures { IfOk result (λ keys. keys ≡ map fact_key (map dfact_view facts.now)) }
{
    let mut words = Vec::with_capacity(alloc, facts.len())?;
    for fact in facts {
        let word = fact_key(alloc, fact)?;
        words.push(word)?;
    }
    let keys = Names::of(alloc, words)?;
    Ok(keys)
}

/// Whether a case cannot be declared, or has another component than the first of its path.
fn is_bad_case(
    alloc: Global,
    context: &Context,
    message: usize,
    facts: &[DFact],
    keys: &Names,
    path: &[Name],
    component: &Name,
) -> Result<bool, AllocError>
    requires keys { keys.now ≡ map fact_key (map dfact_view facts.now) }
    ensures { IfOk result (λ b. b ≡ case_test context.now component.now.text (differs component.now.text (slice_get (map dfact_view facts.now) (model.place_of (map fact_key (map dfact_view facts.now)) (path_key (map name_view path.now))))) (walked_as (model.walk context.now message (map name_view path.now)))) }
{
    let key = path_key(alloc, path)?;
    let is_other = is_other(facts, keys.place(key.bytes()), component);
    Ok(is_bad_end(context, walk(context, message, path), component, is_other))
}

/// Whether a fact cannot be declared beside the others.
fn is_bad_fact(
    alloc: Global,
    context: &Context,
    message: usize,
    facts: &[DFact],
    keys: &Names,
    fact: &DFact,
) -> Result<bool, AllocError>
    requires keys { keys.now ≡ map fact_key (map dfact_view facts.now) }
    ensures { IfOk result (λ b. b ≡ bad_fact context.now message (map dfact_view facts.now) (dfact_view fact.now)) }
{
    match fact {
        DFact::Init(path) => Ok(leaves_fields(context, message, path.as_slice())),
        DFact::Full(path) => Ok(leaves_fields(context, message, path.as_slice())),
        DFact::Case(path, component) => {
            let is_bad = is_bad_case(
                alloc,
                context,
                message,
                facts,
                keys,
                path.as_slice(),
                component,
            )?;
            Ok(is_bad)
        }
    }
}

/// Whether some fact cannot be declared beside the others.
fn any_bad_fact(
    alloc: Global,
    context: &Context,
    message: usize,
    facts: &[DFact],
) -> Result<bool, AllocError>
    ensures { IfOk result (λ b. b ≡ has_bad_fact context.now message (map dfact_view facts.now)) }
{
    let keys = fact_keys(alloc, facts)?;
    let mut any = false;
    for fact in facts {
        let is_bad = is_bad_fact(alloc, context, message, facts, &keys, fact)?;
        any = any || is_bad;
    }
    Ok(any)
}

/// Whether facts of a message cannot be declared.
pub fn bad_facts(
    alloc: Global,
    context: &Context,
    message: usize,
    facts: &[DFact],
) -> Result<bool, AllocError>
    ensures { IfOk result (λ b. Tells b (HasBadFacts context.now message (map dfact_view facts.now))) }
{
    if facts.is_empty() {
        return Ok(false);
    }
    if !is_record_at(context, message) {
        return Ok(true);
    }
    let any = any_bad_fact(alloc, context, message, facts)?;
    Ok(any)
}
