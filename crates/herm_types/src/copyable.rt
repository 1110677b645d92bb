//! Which types are copyable, for all types at once.
ghost use Rattle.std.specs.Prelude.{◌≡◌, IfOk, map, length};
ghost use Rattle.std.specs.List.{list_all};
ghost use Rattle.herm_model.specs.Lists.{all_pass};
ghost use Rattle.herm_model.specs.Types.{greatest_depth};
ghost use Rattle.herm_types.specs.View.{shape_view};
ghost use Rattle.herm_types.specs.Table.{says, copies, SayCopyable, shapes_view};

use crate::shape::{Part, Shape};
use herm_base::TypeNo;
use std::alloc::{AllocError, Global};

/// As many types may stand on the way from a type through those that it names.
const GREATEST_DEPTH: u32 = 32;

/// What the tests say of a type.
fn says(tests: &[bool], t: TypeNo) -> bool
    ensures { result ≡ says tests.now t.0 }
{
    match tests.get(t.0 as usize) {
        Some(test) => *test,
        None => false,
    }
}

fn all_parts(tests: &[bool], parts: &[Part]) -> bool
    ensures { result ≡ list_all (λ p. says tests.now p.of.0) parts.now }
{
    parts.iter().all(|part| says(tests, part.of))
}

/// Whether the tests say it of all types of these parts.
fn every_part(tests: &[bool], parts: &[Part]) -> bool
    ensures { result ≡ all_pass (says tests.now) (map (λ p. p.of.0) parts.now) }
{
    all_parts(tests, parts)
}

/// Whether a type of this shape is copyable where the tests say it of the types that it names.
fn copies(tests: &[bool], shape: &Shape) -> bool
    ensures { result ≡ copies tests.now (shape_view shape.now) }
{
    match shape {
        Shape::Boolean => true,
        Shape::Integer => true,
        Shape::Text => true,
        Shape::Names(_) => true,
        Shape::Outport { port: _ } => true,
        Shape::Fields(parts) => every_part(tests, parts.as_slice()),
        Shape::Cases(parts) => every_part(tests, parts.as_slice()),
        Shape::Rows { row, keys: _ } => says(tests, *row),
        Shape::Poly => false,
        Shape::Inport {
            message: _,
            facts: _,
        } => false,
        Shape::CallMessage {
            params: _,
            raises: _,
        } => false,
    }
}

/// The tests where one more type may stand on the way.
fn next_tests(alloc: Global, tests: &[bool], shapes: &[Shape]) -> Result<Vec<bool>, AllocError>
    ensures { IfOk result (λ v. v.items ≡ map (λ s. copies tests.now (shape_view s)) shapes.now) }
{
    let mut next = Vec::with_capacity(alloc, shapes.len())?;
    for shape in shapes {
        next.push(copies(tests, shape))?;
    }
    Ok(next)
}

/// Whether each type is copyable, by number.
pub fn copyable_of(alloc: Global, shapes: &[Shape]) -> Result<Vec<bool>, AllocError>
    ensures says { IfOk result (λ v. SayCopyable greatest_depth (shapes_view shapes.now) v.items) }
    ensures each { IfOk result (λ v. length v.items ≡ length shapes.now) }
{
    let mut tests = Vec::new(alloc);
    'rounds: for _ in 0..GREATEST_DEPTH {
        tests = next_tests(alloc, tests.as_slice(), shapes)?;
    }
    Ok(tests)
}
