//! Types with unknown names in their shapes.
ghost use Rattle.std.specs.Prelude.{◌≡◌, ◌<◌, ◌^◌, ◌||◌, not, nat_lt, IfOk, map, length};
ghost use Rattle.std.specs.List.{list_any};
ghost use Rattle.herm_model.specs.Types.{named_types};
ghost use Rattle.herm_types.specs.View.{shape_view};
ghost use Rattle.herm_types.specs.Table.{shapes_view};
ghost use Rattle.herm_types.specs.Chosen.{lists};
ghost use Rattle.herm_graph.specs.Links.{names_beyond, raises_beyond, has_unknown};

use herm_types::{RaiseDecl, Shape};
use std::alloc::{AllocError, Global};

fn any_unknown(next: &[u32], count: u32) -> bool
    ensures { result ≡ names_beyond count next.now }
{
    next.iter().any(|t| !(*t < count))
}

fn any_unraised(raises: &[RaiseDecl], exceptions: u32) -> bool
    ensures { result ≡ list_any (λ r. not (nat_lt r.exc.0 exceptions)) raises.now }
{
    raises.iter().any(|raise| !(raise.exc.0 < exceptions))
}

/// Whether a shape raises an unknown exception.
fn raises_unknown(shape: &Shape, exceptions: u32) -> bool
    ensures { result ≡ raises_beyond exceptions (shape_view shape.now) }
{
    match shape {
        Shape::CallMessage { params: _, raises } => any_unraised(raises.as_slice(), exceptions),
        _ => false,
    }
}

/// Whether a shape that names these types has an unknown name.
fn has_unknown(shape: &Shape, types: &[u32], count: u32, exceptions: u32) -> bool
    requires named { types.now ≡ named_types (shape_view shape.now) }
    ensures { result ≡ has_unknown count exceptions (shape_view shape.now) }
{
    any_unknown(types, count) || raises_unknown(shape, exceptions)
}

/// Which types have an unknown name in their shape.
pub fn unknown_in(
    alloc: Global,
    shapes: &[Shape],
    next: &[Vec<u32>],
    exceptions: u32,
) -> Result<Vec<bool>, AllocError>
    requires few { length next.now < 2 ^ 32 }
    requires named { lists next.now ≡ map named_types (shapes_view shapes.now) }
    ensures { IfOk result (λ v. v.items ≡ map (has_unknown (length next.now) exceptions) (shapes_view shapes.now)) }
{
    let count = next.len() as u32;
    let mut unknown = Vec::with_capacity(alloc, shapes.len())?;
    for (t, shape) in shapes.iter().enumerate() {
        unknown.push(has_unknown(shape, next[t].as_slice(), count, exceptions))?;
    }
    Ok(unknown)
}

/// Whether some type of these is unknown, for all types.
pub fn any_unknown_in(alloc: Global, next: &[Vec<u32>], count: u32) -> Result<Vec<bool>, AllocError>
    ensures { IfOk result (λ v. v.items ≡ map (names_beyond count) (lists next.now)) }
{
    let mut tests = Vec::with_capacity(alloc, next.len())?;
    for types in next {
        tests.push(any_unknown(types.as_slice(), count))?;
    }
    Ok(tests)
}
