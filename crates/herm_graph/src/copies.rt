//! Which types are copyable, and of which this depends on types that are unknown.
ghost use Rattle.std.specs.Prelude.{◌≡◌, ◌<◌, ◌^◌, ◌||◌, ℕ, IfOk, IsTrue, ◌↔◌, map, length};
ghost use Rattle.herm_model.specs.Types as types;
ghost use Rattle.herm_model.specs.Copyable as copyable;
ghost use Rattle.herm_model.specs.WellFormedTables.{IsType};
ghost use Rattle.herm_meaning.specs.Names.{NamedTable};
ghost use Rattle.herm_meaning.specs.DefinitionFaults.{IsSettled};
ghost use Rattle.herm_types.specs.Table.{says, shapes_view};
ghost use Rattle.herm_types.specs.View.{shape_view};
ghost use Rattle.herm_types.specs.Chosen.{lists};
ghost use Rattle.herm_graph.specs.Links.{composed_types};
ghost use Rattle.herm_graph.specs.Tells.{Tells, Refutes};

use crate::graph::{Rule, reached, says};
use crate::links::{is_composed, is_plain};
use crate::unknown::any_unknown_in;
use herm_types::Shape;
use std::alloc::{AllocError, Global};

/// Which types are copyable where their parts are.
fn may_copy(alloc: Global, shapes: &[Shape]) -> Result<Vec<bool>, AllocError>
    ensures { IfOk result (λ v. v.items ≡ map (λ s. copyable.is_plain (shape_view s) || copyable.is_composed (shape_view s)) shapes.now) }
{
    let mut tests = Vec::with_capacity(alloc, shapes.len())?;
    for shape in shapes {
        tests.push(is_plain(shape) || is_composed(shape))?;
    }
    Ok(tests)
}

/// Which types are copyable.
pub fn copyable_of(
    alloc: Global,
    shapes: &[Shape],
    composed: &[Vec<u32>],
) -> Result<Vec<bool>, AllocError>
    requires few { length composed.now < 2 ^ 32 }
    requires composed { lists composed.now ≡ map composed_types (shapes_view shapes.now) }
    ensures { IfOk result (λ v. (t : ℕ) → Tells (says v.items t) (copyable.IsCopyable (shapes_view shapes.now) t)) }
{
    let may = may_copy(alloc, shapes)?;
    let copyable = reached(alloc, Rule::AllOf, may.as_slice(), composed)?;
    Ok(copyable)
}

/// Of two lists of tests, what either says.
fn either(alloc: Global, a: &[bool], b: &[bool]) -> Result<Vec<bool>, AllocError>
    ensures { IfOk result (λ v. (t : ℕ) → t < length a.now → says v.items t ≡ (says a.now t || says b.now t)) }
{
    let mut tests = Vec::with_capacity(alloc, a.len())?;
    for t in 0..a.len() {
        let said = match b.get(t) {
            Some(test) => *test,
            None => false,
        };
        tests.push(a[t] || said)?;
    }
    Ok(tests)
}

/// Of which types it depends on an unknown type whether they are copyable.
pub fn unsettled_of(
    alloc: Global,
    shapes: &[Shape],
    composed: &[Vec<u32>],
) -> Result<Vec<bool>, AllocError>
    requires few { length composed.now < 2 ^ 32 }
    requires composed { lists composed.now ≡ map composed_types (shapes_view shapes.now) }
    ensures { IfOk result (λ v. (table : NamedTable) → table.shapes ≡ shapes_view shapes.now → (t : ℕ) → IsType table.shapes t → Refutes (says v.items t) (IsSettled table t)) }
{
    let unknown = any_unknown_in(alloc, composed, composed.len() as u32)?;
    let below = reached(alloc, Rule::AnyOf, unknown.as_slice(), composed)?;
    let unsettled = either(alloc, unknown.as_slice(), below.as_slice())?;
    Ok(unsettled)
}
