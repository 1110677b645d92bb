//! The names and shapes of all types, and the names of all exceptions, by number.
ghost use Rattle.std.specs.Prelude.{◌≡◌, ◌<◌, ◌^◌, ◌++◌, [], IfOk, OnOk, map, length};
ghost use Rattle.herm_types.specs.View.{shape_view, parts_view};
ghost use Rattle.herm_meaning.specs.Items.{types_in, exceptions_in};
ghost use Rattle.herm_meaning.specs.Meaning.{type_names, exception_names, outline, numbered_shape, part_names};
ghost use Rattle.herm_defs.specs.Seen.{item_seen};
ghost use Rattle.herm_defs.specs.Few.{AreFew, form_total};
ghost use Rattle.herm_meaning.specs.Items.{types_by, exceptions_by};

use crate::names::Names;
use crate::outline::numbered_shape;
use herm_base::Word;
use herm_syntax::{DefForm, DefItem};
use herm_types::{Shape, predefined_exceptions, predefined_names, predefined_shapes};
use std::alloc::{AllocError, Global};

/// Appends an item's name, where it defines a type.
fn push_type(words: &mut Vec<Word>, item: &DefItem) -> Result<(), AllocError>
    ensures { OnOk result (words.new.items ≡ words.old.items ++ map (λ d. d.0) (types_by item.now.name.text item.now.form [])) }
{
    match &item.form {
        DefForm::Shaped(_) => {
            let word = item.name.text.clone()?;
            words.push(word)?;
            Ok(())
        }
        DefForm::Exception => Ok(()),
    }
}

/// Appends an item's name, where it defines an exception.
fn push_exception(words: &mut Vec<Word>, item: &DefItem) -> Result<(), AllocError>
    ensures { OnOk result (words.new.items ≡ words.old.items ++ exceptions_by item.now.name.text item.now.form []) }
{
    match &item.form {
        DefForm::Shaped(_) => Ok(()),
        DefForm::Exception => {
            let word = item.name.text.clone()?;
            words.push(word)?;
            Ok(())
        }
    }
}

/// The names of all types.
pub fn type_words(alloc: Global, items: &[(u32, &DefItem)]) -> Result<Vec<Word>, AllocError>
    ensures { IfOk result (λ v. v.items ≡ type_names (map item_seen items.now)) }
{
    let mut words = predefined_names(alloc)?;
    for item in items {
        push_type(&mut words, item.1)?;
    }
    Ok(words)
}

/// The names of all exceptions.
pub fn exception_words(alloc: Global, items: &[(u32, &DefItem)]) -> Result<Vec<Word>, AllocError>
    ensures { IfOk result (λ v. v.items ≡ exception_names (map item_seen items.now)) }
{
    let mut words = predefined_exceptions(alloc)?;
    for item in items {
        push_exception(&mut words, item.1)?;
    }
    Ok(words)
}

/// Appends an item's shape, where it defines a type.
fn push_shape(
    alloc: Global,
    shapes: &mut Vec<Shape>,
    types: &Names,
    exceptions: &Names,
    item: &DefItem,
) -> Result<(), AllocError>
    requires few { form_total item.now.form < 2 ^ 31 }
    requires types { length types.now < 2 ^ 32 }
    requires exceptions { length exceptions.now < 2 ^ 32 }
    ensures shapes { OnOk result (map shape_view shapes.new.items ≡ map shape_view shapes.old.items ++ map (λ d. numbered_shape types.now exceptions.now d.1) (types_by item.now.name.text item.now.form [])) }
    ensures parts { OnOk result (map parts_view shapes.new.items ≡ map parts_view shapes.old.items ++ map (λ d. part_names d.1) (types_by item.now.name.text item.now.form [])) }
{
    match &item.form {
        DefForm::Shaped(form) => {
            let shape = numbered_shape(alloc, types, exceptions, form)?;
            shapes.push(shape)?;
            Ok(())
        }
        DefForm::Exception => Ok(()),
    }
}

/// The shapes of all types, with numbers in place of names, without keys and facts.
pub fn shapes_of(
    alloc: Global,
    types: &Names,
    exceptions: &Names,
    items: &[(u32, &DefItem)],
) -> Result<Vec<Shape>, AllocError>
    requires few { AreFew (map item_seen items.now) }
    requires few_types { length types.now < 2 ^ 32 }
    requires few_exceptions { length exceptions.now < 2 ^ 32 }
    requires types { types.now ≡ type_names (map item_seen items.now) }
    requires exceptions { exceptions.now ≡ exception_names (map item_seen items.now) }
    ensures shapes { IfOk result (λ v. map shape_view v.items ≡ (outline (map item_seen items.now)).shapes) }
    ensures parts { IfOk result (λ v. map parts_view v.items ≡ (outline (map item_seen items.now)).parts) }
{
    let mut shapes = predefined_shapes(alloc)?;
    for item in items {
        push_shape(alloc, &mut shapes, types, exceptions, item.1)?;
    }
    Ok(shapes)
}
