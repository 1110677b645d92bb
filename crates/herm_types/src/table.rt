//! The table of types.
ghost use Rattle.std.specs.Prelude.{◌≡◌, ◌<◌, ◌↔◌, length, map, slice_get, Some, IfOk, IsTrue, option_map};
ghost use Rattle.herm_types.specs.View.{shape_view, parts_view};
ghost use Rattle.std.specs.List.{position};
ghost use Rattle.std.specs.Str.{bytes_eq};
ghost use Rattle.herm_model.specs.Copyable.{IsCopyable};
ghost use Rattle.herm_meaning.specs.Names.{IsWellNamed};
ghost use Rattle.herm_types.specs.Table.{IsSized};

use crate::fact::Fact;
use crate::shape::Shape;
use herm_base::{TypeNo, Word};
use indexmap::IndexSet;
use std::marker::Model;

/// The types and exceptions of a program by number, the predefined ones first. It keeps the rules of definitions.
#[derive(Drop)]
pub struct TypeTable {
    pub(crate) names: Vec<Word>,
    pub(crate) index: IndexSet<Vec<u8>>,
    pub(crate) shapes: Vec<Shape>,
    pub(crate) exceptions: Vec<Word>,
    pub(crate) copyable: Vec<bool>,
    pub(crate) declared: Vec<Vec<Fact>>,
}

impl Model for TypeTable {
    ghost use Rattle.herm_meaning.specs.Names.{NamedTable};

    ghost Value = { NamedTable };

    ghost use Rattle.herm_types.specs.Table.{type_table_view, IsKept};

    ghost view = { type_table_view };

    ghost invariant = { IsKept };
}

impl TypeTable {
    /// What every table keeps: the rules of definitions, and numbers of 32 bits. Nothing is done.
    pub fn keeps(&self)
        ensures well_named { IsWellNamed self.now }
        ensures sized { IsSized self.now }
    {
        let _count = self.shapes.len();
    }

    /// How many types there are.
    pub fn len(&self) -> usize
        ensures { result ≡ length self.now.shapes }
    {
        self.shapes.len()
    }

    /// The name of a type.
    pub fn name(&self, t: TypeNo) -> &Word
        requires { t.0 < length self.now.names }
        ensures { slice_get self.now.names t.0 ≡ Some result.now }
    {
        &self.names[t.0 as usize]
    }

    /// The names of all exceptions, by number.
    pub fn exceptions(&self) -> &[Word]
        ensures { result.now ≡ self.now.exceptions }
    {
        self.exceptions.as_slice()
    }

    /// The shape of a type.
    pub fn shape(&self, t: TypeNo) -> &Shape
        requires { t.0 < length self.now.shapes }
        ensures shape { slice_get self.now.shapes t.0 ≡ Some (shape_view result.now) }
        ensures parts { slice_get self.now.parts t.0 ≡ Some (parts_view result.now) }
    {
        &self.shapes[t.0 as usize]
    }

    /// The type with this name.
    pub fn type_named(&self, name: &[u8]) -> Option<TypeNo>
        ensures { option_map (λ t. t.0) result ≡ position (bytes_eq name.now) self.now.names }
    {
        match self.index.get_index_of(name) {
            Some(place) => Some(TypeNo(place as u32)),
            None => None,
        }
    }

    /// Whether the values of a type may be copied.
    pub fn is_copyable(&self, t: TypeNo) -> bool
        requires { t.0 < length self.now.shapes }
        ensures { IsTrue result ↔ IsCopyable self.now.shapes t.0 }
    {
        self.copyable[t.0 as usize]
    }
}
