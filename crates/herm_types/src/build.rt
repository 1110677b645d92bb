//! Tables are made.
ghost use Rattle.std.specs.Prelude.{◌≡◌, IfOk, OnOk, map, ◌++◌};
ghost use Rattle.herm_model.specs.Statements.{Differ};
ghost use Rattle.herm_meaning.specs.Names.{IsWellNamed};
ghost use Rattle.herm_types.specs.Table.{table_of, defined_table, IsSized};

use crate::copyable::copyable_of;
use crate::copying::{copy_shapes, copy_words};
use crate::declared::all_declared;
use crate::predefined::{predefined_exceptions, predefined_names, predefined_shapes};
use crate::shape::Shape;
use crate::table::TypeTable;
use herm_base::Word;
use indexmap::IndexSet;
use std::alloc::{AllocError, Global};

/// The names by their bytes, where all differ.
fn index_of(alloc: Global, names: &[Word]) -> Result<IndexSet<Vec<u8>>, AllocError>
    requires { Differ names.now }
    ensures { IfOk result (λ index. map (λ k. k.items) index.keys ≡ names.now) }
{
    let mut index = IndexSet::with_capacity(alloc, names.len())?;
    for name in names {
        let bytes = Vec::from_slice(alloc, name.bytes())?;
        index.insert(bytes)?;
    }
    Ok(index)
}

/// The table with these names of types, shapes and names of exceptions, which are all that there are.
pub fn assemble(
    alloc: Global,
    names: Vec<Word>,
    shapes: Vec<Shape>,
    exceptions: Vec<Word>,
) -> Result<TypeTable, AllocError>
    requires well_named { IsWellNamed (table_of names.items shapes.items exceptions.items) }
    requires sized { IsSized (table_of names.items shapes.items exceptions.items) }
    ensures { IfOk result (λ t. t ≡ table_of names.items shapes.items exceptions.items) }
{
    let copyable = copyable_of(alloc, shapes.as_slice())?;
    let declared = all_declared(alloc, shapes.as_slice())?;
    let index = index_of(alloc, names.as_slice())?;
    Ok(TypeTable {
        names,
        index,
        shapes,
        exceptions,
        copyable,
        declared,
    })
}

/// Appends the names and the shapes of defined types.
fn append_types(
    names: &mut Vec<Word>,
    shapes: &mut Vec<Shape>,
    defined: Vec<(Word, Shape)>,
) -> Result<(), AllocError>
    ensures names { OnOk result (names.new.items ≡ names.old.items ++ map (λ d. d.0) defined.items) }
    ensures shapes { OnOk result (shapes.new.items ≡ shapes.old.items ++ map (λ d. d.1) defined.items) }
{
    for (name, shape) in defined {
        names.push(name)?;
        shapes.push(shape)?;
    }
    Ok(())
}

fn append_words(words: &mut Vec<Word>, more: Vec<Word>) -> Result<(), AllocError>
    ensures { OnOk result (words.new.items ≡ words.old.items ++ more.items) }
{
    for word in more {
        words.push(word)?;
    }
    Ok(())
}

impl TypeTable {
    /// The table that has the predefined types and exceptions and then these, numbered in order. All of them together
    /// keep the rules of definitions.
    pub fn new(
        alloc: Global,
        defined: Vec<(Word, Shape)>,
        exceptions: Vec<Word>,
    ) -> Result<TypeTable, AllocError>
        requires well_named { IsWellNamed (defined_table defined.items exceptions.items) }
        requires sized { IsSized (defined_table defined.items exceptions.items) }
        ensures { IfOk result (λ t. t ≡ defined_table defined.items exceptions.items) }
    {
        let mut names = predefined_names(alloc)?;
        let mut shapes = predefined_shapes(alloc)?;
        append_types(&mut names, &mut shapes, defined)?;
        let mut all = predefined_exceptions(alloc)?;
        append_words(&mut all, exceptions)?;
        let table = assemble(alloc, names, shapes, all)?;
        Ok(table)
    }

    /// An equal table.
    pub fn copy(&self, alloc: Global) -> Result<TypeTable, AllocError>
        ensures { IfOk result (λ t. t ≡ self.now) }
    {
        let names = copy_words(alloc, self.names.as_slice())?;
        let shapes = copy_shapes(alloc, self.shapes.as_slice())?;
        let exceptions = copy_words(alloc, self.exceptions.as_slice())?;
        let table = assemble(alloc, names, shapes, exceptions)?;
        Ok(table)
    }
}
