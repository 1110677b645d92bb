//! Keys, declared facts and kept parameters are looked up in the outline of definitions.
ghost use Rattle.std.specs.Prelude.{◌≡◌, ◌<◌, ◌^◌, ◌++◌, [], ◌∷◌, List, IfOk, OnOk, map, flat_map, length};
ghost use Rattle.herm_syntax.specs.Trees.{DeclaredFact};
ghost use Rattle.herm_syntax.specs.View.{name_view, dfact_view, shape_form_view};
ghost use Rattle.herm_types.specs.View.{fact_view, shape_view, parts_view};
ghost use Rattle.herm_meaning.specs.Walks.{place_of, parts_of};
ghost use Rattle.herm_meaning.specs.Meaning.{fact_meant, meant_shape, part_names};
ghost use Rattle.herm_model.specs.Facts.{full_facts, without_repeats};
ghost use Rattle.herm_defs.specs.Distinct.{AreListed};
ghost use Rattle.herm_defs.specs.Few.{part_total};
ghost use Rattle.herm_defs.specs.Steps.{init_meant, full_meant, case_meant};

use crate::calls::call_of;
use crate::distinct::DistinctFacts;
use crate::facts::written_key;
use crate::fields::{place_in, walk_fields};
use crate::names::Names;
use crate::outline::numbered_shape;
use herm_base::{Name, TypeNo, VarNo, Word};
use herm_syntax::{DFact, ShapeForm};
use herm_types::{Fact, Path, Shape, TypeTable};
use indexmap::IndexSet;
use std::alloc::{AllocError, Global};

/// The place of a part with a name, or the number of parts, none for a type that is not there.
fn part_place(table: &TypeTable, t: TypeNo, name: &[u8]) -> u32
    ensures { result ≡ place_of (parts_of table.now t.0) name.now }
{
    table.keeps();
    if t.0 as usize >= table.len() {
        return 0;
    }
    let place = place_in(table.shape(t), name);
    place as u32
}

/// The places of the fields of a table's key.
fn keys_of(
    alloc: Global,
    table: &TypeTable,
    row: TypeNo,
    keys: &[Name],
) -> Result<Vec<u32>, AllocError>
    ensures { IfOk result (λ v. v.items ≡ map (place_of (parts_of table.now row.0)) (map name_view keys.now)) }
{
    let mut places = Vec::with_capacity(alloc, keys.len())?;
    for key in keys {
        places.push(part_place(table, row, key.text.bytes()))?;
    }
    Ok(places)
}

/// The fact that `init` of a path lists, none where it ends nowhere.
fn init_facts(
    alloc: Global,
    table: &TypeTable,
    message: TypeNo,
    path: &[Name],
) -> Result<Vec<Fact>, AllocError>
    ensures { IfOk result (λ v. map fact_view v.items ≡ init_meant table.now message.0 (map name_view path.now)) }
{
    let mut facts = Vec::new(alloc);
    match walk_fields(alloc, table, message, path)? {
        Some((parts, _)) => {
            let var = VarNo(0);
            facts.push(Fact::Init(Path { var, parts }))?;
            Ok(facts)
        }
        None => Ok(facts),
    }
}

/// The facts of a full value of a type, none for a type that is not there.
fn full_of(
    alloc: Global,
    table: &TypeTable,
    parts: Vec<u32>,
    t: TypeNo,
) -> Result<Vec<Fact>, AllocError>
    ensures { IfOk result (λ v. map fact_view v.items ≡ full_facts table.now.shapes t.0 (0 ∷ parts.items)) }
{
    if t.0 as usize >= table.len() {
        return Ok(Vec::new(alloc));
    }
    let path = Path {
        var: VarNo(0),
        parts,
    };
    let facts = table.full_facts(alloc, &path, t)?;
    Ok(facts)
}

/// The facts that `full` of a path lists.
fn full_path_facts(
    alloc: Global,
    table: &TypeTable,
    message: TypeNo,
    path: &[Name],
) -> Result<Vec<Fact>, AllocError>
    ensures { IfOk result (λ v. map fact_view v.items ≡ full_meant table.now message.0 (map name_view path.now)) }
{
    match walk_fields(alloc, table, message, path)? {
        Some((parts, t)) => {
            let full = full_of(alloc, table, parts, t)?;
            Ok(full)
        }
        None => Ok(Vec::new(alloc)),
    }
}

/// The fact that `case` of a path lists.
fn case_facts(
    alloc: Global,
    table: &TypeTable,
    message: TypeNo,
    path: &[Name],
    component: &Name,
) -> Result<Vec<Fact>, AllocError>
    ensures { IfOk result (λ v. map fact_view v.items ≡ case_meant table.now message.0 (map name_view path.now) (name_view component.now)) }
{
    let mut facts = Vec::new(alloc);
    match walk_fields(alloc, table, message, path)? {
        Some((parts, t)) => {
            let place = part_place(table, t, component.text.bytes());
            let var = VarNo(0);
            facts.push(Fact::Case(Path { var, parts }, place))?;
            Ok(facts)
        }
        None => Ok(facts),
    }
}

/// The facts that a declared fact lists, for a message of a type.
fn meant_facts(
    alloc: Global,
    table: &TypeTable,
    message: TypeNo,
    fact: &DFact,
) -> Result<Vec<Fact>, AllocError>
    ensures { IfOk result (λ v. map fact_view v.items ≡ fact_meant table.now message.0 (dfact_view fact.now)) }
{
    match fact {
        DFact::Init(path) => {
            let facts = init_facts(alloc, table, message, path.as_slice())?;
            Ok(facts)
        }
        DFact::Full(path) => {
            let facts = full_path_facts(alloc, table, message, path.as_slice())?;
            Ok(facts)
        }
        DFact::Case(path, component) => {
            let facts = case_facts(alloc, table, message, path.as_slice(), component)?;
            Ok(facts)
        }
    }
}

/// Adds the facts that a declared fact lists, where it was not written before.
fn add_written(
    alloc: Global,
    table: &TypeTable,
    message: TypeNo,
    fact: &DFact,
    written: &mut IndexSet<Word>,
    facts: &mut DistinctFacts,
) -> Result<(), AllocError>
    ensures { OnOk result ((ds : List DeclaredFact) → AreListed table.now message.0 ds written.old.keys facts.old → AreListed table.now message.0 (ds ++ dfact_view fact.now ∷ []) written.new.keys facts.new) }
{
    let key = written_key(alloc, fact)?;
    if !written.insert(key)? {
        return Ok(());
    }
    let meant = meant_facts(alloc, table, message, fact)?;
    facts.append(alloc, meant)?;
    Ok(())
}

/// The facts that declared facts list, each once. What is written twice is looked up once.
fn distinct_facts(
    alloc: Global,
    table: &TypeTable,
    message: TypeNo,
    list: &[DFact],
) -> Result<Vec<Fact>, AllocError>
    ensures { IfOk result (λ v. map fact_view v.items ≡ without_repeats (flat_map (fact_meant table.now message.0) (map dfact_view list.now))) }
{
    let mut written = IndexSet::new(alloc);
    let mut facts = DistinctFacts::new(alloc);
    for fact in list {
        add_written(alloc, table, message, fact, &mut written, &mut facts)?;
    }
    Ok(facts.into_facts())
}

/// The facts that are declared of a message. A declared fact alone lists none twice.
fn facts_of(
    alloc: Global,
    table: &TypeTable,
    message: TypeNo,
    list: &[DFact],
) -> Result<Vec<Fact>, AllocError>
    ensures { IfOk result (λ v. map fact_view v.items ≡ without_repeats (flat_map (fact_meant table.now message.0) (map dfact_view list.now))) }
{
    match list {
        [fact] => {
            let facts = meant_facts(alloc, table, message, fact)?;
            Ok(facts)
        }
        _ => {
            let facts = distinct_facts(alloc, table, message, list)?;
            Ok(facts)
        }
    }
}

/// A shape with its key, its declared facts and its kept parameters, which are looked up in the outline.
pub fn read_shape(
    alloc: Global,
    types: &Names,
    exceptions: &Names,
    table: &TypeTable,
    form: &ShapeForm,
) -> Result<Shape, AllocError>
    requires few { part_total form.now < 2 ^ 31 }
    requires few_types { length types.now < 2 ^ 32 }
    requires few_exceptions { length exceptions.now < 2 ^ 32 }
    requires types { types.now ≡ table.now.names }
    requires exceptions { exceptions.now ≡ table.now.exceptions }
    ensures shape { IfOk result (λ s. shape_view s ≡ meant_shape table.now (shape_form_view form.now)) }
    ensures parts { IfOk result (λ s. parts_view s ≡ part_names (shape_form_view form.now)) }
{
    match form {
        ShapeForm::Rows { row, keys } => {
            let t = TypeNo(types.number(row.text.bytes()));
            let places = keys_of(alloc, table, t, keys.as_slice())?;
            Ok(Shape::Rows {
                row: t,
                keys: places,
            })
        }
        ShapeForm::Inport { message, facts } => {
            let t = TypeNo(types.number(message.text.bytes()));
            let declared = facts_of(alloc, table, t, facts.as_slice())?;
            Ok(Shape::Inport {
                message: t,
                facts: declared,
            })
        }
        ShapeForm::CallMessage { params, raises } => {
            let (params, raises) = (params.as_slice(), raises.as_slice());
            let shape = call_of(alloc, types, exceptions, params, raises)?;
            Ok(shape)
        }
        _ => {
            let shape = numbered_shape(alloc, types, exceptions, form)?;
            Ok(shape)
        }
    }
}
