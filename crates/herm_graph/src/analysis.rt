//! What is so of each type of a table.
ghost use Rattle.std.specs.Prelude.{◌≡◌, ◌<◌, ◌^◌, IfOk, length};
ghost use Rattle.herm_meaning.specs.Names.{NamedTable};
ghost use Rattle.herm_types.specs.Table.{shapes_view};
ghost use Rattle.herm_graph.specs.Analysed.{Analyses};

use crate::copies::{copyable_of, unsettled_of};
use crate::cycles::{cycles_of, meeting_cycles, meeting_unknown};
use crate::depth::deep_of;
use crate::links::{all_composed, all_named};
use herm_types::Shape;
use std::alloc::{AllocError, Global};

/// A test of each type, by its number.
#[derive(Drop)]
pub struct TypeTests {
    /// It reaches itself by the names in shapes.
    pub cycles: Vec<bool>,
    /// It is one that reaches itself, or reaches one.
    pub meets_cycle: Vec<bool>,
    /// A name in its shape is unknown, or in that of a type that it reaches.
    pub meets_unknown: Vec<bool>,
    /// It is too deep, or has too many paths.
    pub deep: Vec<bool>,
    pub copyable: Vec<bool>,
    /// Whether it is copyable depends on an unknown type.
    pub unsettled: Vec<bool>,
}

/// The tests of types of these shapes, where there are so many exceptions.
pub fn tests_of(alloc: Global, shapes: &[Shape], exceptions: u32) -> Result<TypeTests, AllocError>
    requires few { length shapes.now < 2 ^ 32 }
    ensures analyses { IfOk result (λ tests. (table : NamedTable) → table.shapes ≡ shapes_view shapes.now → length table.exceptions ≡ exceptions → Analyses table tests) }
{
    let next = all_named(alloc, shapes)?;
    let composed = all_composed(alloc, shapes)?;
    let cycles = cycles_of(alloc, shapes, next.as_slice())?;
    let meets_cycle = meeting_cycles(alloc, shapes, next.as_slice(), cycles.as_slice())?;
    let meets_unknown = meeting_unknown(alloc, shapes, next.as_slice(), exceptions)?;
    let deep = deep_of(alloc, shapes, next.as_slice())?;
    let copyable = copyable_of(alloc, shapes, composed.as_slice())?;
    let unsettled = unsettled_of(alloc, shapes, composed.as_slice())?;
    Ok(TypeTests {
        cycles,
        meets_cycle,
        meets_unknown,
        deep,
        copyable,
        unsettled,
    })
}
