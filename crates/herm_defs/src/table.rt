//! The table that definitions without a fault mean.
ghost use Rattle.std.specs.Prelude.{◌≡◌, ◌<◌, ◌^◌, ◌++◌, [], IfOk, OnOk, map, length};
ghost use Rattle.herm_types.specs.View.{shape_view, parts_view};
ghost use Rattle.herm_meaning.specs.Items.{types_in, exceptions_in, types_by, exceptions_by};
ghost use Rattle.herm_meaning.specs.Meaning.{type_names, exception_names, part_names, numbered_shape, meant_shape, outline, meaning};
ghost use Rattle.herm_meaning.specs.DefinitionFaults.{AreFaultsOf};
ghost use Rattle.herm_defs.specs.Seen.{item_seen};
ghost use Rattle.herm_defs.specs.Few.{AreFew, form_total};

use crate::gather::{exception_words, type_words};
use crate::names::Names;
use crate::outline::numbered_shape;
use crate::read::read_shape;
use herm_base::Word;
use herm_syntax::{DefForm, DefItem};
use herm_types::{Shape, TypeTable};
use std::alloc::{AllocError, Global};

/// Appends an item's name and its shape without key and facts, where it defines a type.
fn push_outlined(
    alloc: Global,
    defined: &mut Vec<(Word, Shape)>,
    types: &Names,
    exceptions: &Names,
    item: &DefItem,
) -> Result<(), AllocError>
    requires few { form_total item.now.form < 2 ^ 31 }
    requires few_types { length types.now < 2 ^ 32 }
    requires few_exceptions { length exceptions.now < 2 ^ 32 }
    ensures names { OnOk result (map (λ d. d.0) defined.new.items ≡ map (λ d. d.0) defined.old.items ++ map (λ d. d.0) (types_by item.now.name.text item.now.form [])) }
    ensures shapes { OnOk result (map (λ d. shape_view d.1) defined.new.items ≡ map (λ d. shape_view d.1) defined.old.items ++ map (λ d. numbered_shape types.now exceptions.now d.1) (types_by item.now.name.text item.now.form [])) }
    ensures parts { OnOk result (map (λ d. parts_view d.1) defined.new.items ≡ map (λ d. parts_view d.1) defined.old.items ++ map (λ d. part_names d.1) (types_by item.now.name.text item.now.form [])) }
{
    match &item.form {
        DefForm::Shaped(form) => {
            let word = item.name.text.clone()?;
            let shape = numbered_shape(alloc, types, exceptions, form)?;
            defined.push((word, shape))?;
            Ok(())
        }
        DefForm::Exception => Ok(()),
    }
}

/// The names of the types that are defined, and their shapes without keys and facts.
fn outlined_of(
    alloc: Global,
    types: &Names,
    exceptions: &Names,
    items: &[(u32, &DefItem)],
) -> Result<Vec<(Word, Shape)>, AllocError>
    requires few { AreFew (map item_seen items.now) }
    requires few_types { length types.now < 2 ^ 32 }
    requires few_exceptions { length exceptions.now < 2 ^ 32 }
    ensures names { IfOk result (λ v. map (λ d. d.0) v.items ≡ map (λ d. d.0) (types_in (map item_seen items.now))) }
    ensures shapes { IfOk result (λ v. map (λ d. shape_view d.1) v.items ≡ map (λ d. numbered_shape types.now exceptions.now d.1) (types_in (map item_seen items.now))) }
    ensures parts { IfOk result (λ v. map (λ d. parts_view d.1) v.items ≡ map (λ d. part_names d.1) (types_in (map item_seen items.now))) }
{
    let mut defined = Vec::new(alloc);
    for item in items {
        push_outlined(alloc, &mut defined, types, exceptions, item.1)?;
    }
    Ok(defined)
}

/// Appends an item's name and its whole shape, where it defines a type.
fn push_defined(
    alloc: Global,
    defined: &mut Vec<(Word, Shape)>,
    types: &Names,
    exceptions: &Names,
    table: &TypeTable,
    item: &DefItem,
) -> Result<(), AllocError>
    requires few { form_total item.now.form < 2 ^ 31 }
    requires few_types { length types.now < 2 ^ 32 }
    requires few_exceptions { length exceptions.now < 2 ^ 32 }
    requires types { types.now ≡ table.now.names }
    requires exceptions { exceptions.now ≡ table.now.exceptions }
    ensures names { OnOk result (map (λ d. d.0) defined.new.items ≡ map (λ d. d.0) defined.old.items ++ map (λ d. d.0) (types_by item.now.name.text item.now.form [])) }
    ensures shapes { OnOk result (map (λ d. shape_view d.1) defined.new.items ≡ map (λ d. shape_view d.1) defined.old.items ++ map (λ d. meant_shape table.now d.1) (types_by item.now.name.text item.now.form [])) }
    ensures parts { OnOk result (map (λ d. parts_view d.1) defined.new.items ≡ map (λ d. parts_view d.1) defined.old.items ++ map (λ d. part_names d.1) (types_by item.now.name.text item.now.form [])) }
{
    match &item.form {
        DefForm::Shaped(form) => {
            let word = item.name.text.clone()?;
            let shape = read_shape(alloc, types, exceptions, table, form)?;
            defined.push((word, shape))?;
            Ok(())
        }
        DefForm::Exception => Ok(()),
    }
}

/// The names of the types that are defined, and their whole shapes.
fn defined_of(
    alloc: Global,
    types: &Names,
    exceptions: &Names,
    table: &TypeTable,
    items: &[(u32, &DefItem)],
) -> Result<Vec<(Word, Shape)>, AllocError>
    requires few { AreFew (map item_seen items.now) }
    requires few_types { length types.now < 2 ^ 32 }
    requires few_exceptions { length exceptions.now < 2 ^ 32 }
    requires types { types.now ≡ table.now.names }
    requires exceptions { exceptions.now ≡ table.now.exceptions }
    ensures names { IfOk result (λ v. map (λ d. d.0) v.items ≡ map (λ d. d.0) (types_in (map item_seen items.now))) }
    ensures shapes { IfOk result (λ v. map (λ d. shape_view d.1) v.items ≡ map (λ d. meant_shape table.now d.1) (types_in (map item_seen items.now))) }
    ensures parts { IfOk result (λ v. map (λ d. parts_view d.1) v.items ≡ map (λ d. part_names d.1) (types_in (map item_seen items.now))) }
{
    let mut defined = Vec::new(alloc);
    for item in items {
        push_defined(alloc, &mut defined, types, exceptions, table, item.1)?;
    }
    Ok(defined)
}

/// Appends an item's name, where it defines an exception.
fn push_word(words: &mut Vec<Word>, item: &DefItem) -> Result<(), AllocError>
    ensures { OnOk result (words.new.items ≡ words.old.items ++ exceptions_by item.now.name.text item.now.form []) }
{
    match &item.form {
        DefForm::Shaped(_) => Ok(()),
        DefForm::Exception => {
            let word = item.name.text.clone()?;
            words.push(word)?;
            Ok(())
        }
    }
}

/// The names of the exceptions that are defined.
fn exceptions_of(alloc: Global, items: &[(u32, &DefItem)]) -> Result<Vec<Word>, AllocError>
    ensures { IfOk result (λ v. v.items ≡ exceptions_in (map item_seen items.now)) }
{
    let mut words = Vec::new(alloc);
    for item in items {
        push_word(&mut words, item.1)?;
    }
    Ok(words)
}

/// The outline of definitions as a table.
fn outline_of(
    alloc: Global,
    types: &Names,
    exceptions: &Names,
    items: &[(u32, &DefItem)],
) -> Result<TypeTable, AllocError>
    requires faultless { AreFaultsOf (map item_seen items.now) [] }
    requires few { AreFew (map item_seen items.now) }
    requires few_types { length types.now < 2 ^ 32 }
    requires few_exceptions { length exceptions.now < 2 ^ 32 }
    requires types { types.now ≡ type_names (map item_seen items.now) }
    requires exceptions { exceptions.now ≡ exception_names (map item_seen items.now) }
    ensures { IfOk result (λ t. t ≡ outline (map item_seen items.now)) }
{
    let defined = outlined_of(alloc, types, exceptions, items)?;
    let words = exceptions_of(alloc, items)?;
    let table = TypeTable::new(alloc, defined, words)?;
    Ok(table)
}

/// The table that definitions mean, by their outline.
fn meaning_of(
    alloc: Global,
    types: &Names,
    exceptions: &Names,
    table: &TypeTable,
    items: &[(u32, &DefItem)],
) -> Result<TypeTable, AllocError>
    requires faultless { AreFaultsOf (map item_seen items.now) [] }
    requires few { AreFew (map item_seen items.now) }
    requires few_types { length types.now < 2 ^ 32 }
    requires few_exceptions { length exceptions.now < 2 ^ 32 }
    requires types { types.now ≡ type_names (map item_seen items.now) }
    requires exceptions { exceptions.now ≡ exception_names (map item_seen items.now) }
    requires outline { table.now ≡ outline (map item_seen items.now) }
    ensures { IfOk result (λ t. t ≡ meaning (map item_seen items.now)) }
{
    let defined = defined_of(alloc, types, exceptions, table, items)?;
    let words = exceptions_of(alloc, items)?;
    let whole = TypeTable::new(alloc, defined, words)?;
    Ok(whole)
}

/// The table that definitions without a fault mean.
pub fn table_of(alloc: Global, items: &[(u32, &DefItem)]) -> Result<TypeTable, AllocError>
    requires faultless { AreFaultsOf (map item_seen items.now) [] }
    requires few { AreFew (map item_seen items.now) }
    requires few_types { length (type_names (map item_seen items.now)) < 2 ^ 32 }
    requires few_exceptions { length (exception_names (map item_seen items.now)) < 2 ^ 32 }
    ensures { IfOk result (λ t. t ≡ meaning (map item_seen items.now)) }
{
    let words = type_words(alloc, items)?;
    let types = Names::of(alloc, words)?;
    let words = exception_words(alloc, items)?;
    let exceptions = Names::of(alloc, words)?;
    let lean = outline_of(alloc, &types, &exceptions, items)?;
    let table = meaning_of(alloc, &types, &exceptions, &lean, items)?;
    Ok(table)
}
