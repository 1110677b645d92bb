//! The names of the parts of types.
ghost use Rattle.std.specs.Prelude.{◌≡◌, map, IfOk};
ghost use Rattle.herm_types.specs.View.{parts_view};
ghost use Rattle.herm_numbers.specs.View.{IsSized};

use crate::index::Names;
use crate::names::words;
use herm_base::{TypeNo, Word};
use herm_types::{Param, Part, Shape, TypeTable};
use std::alloc::{AllocError, Global};

fn words_of_parts(alloc: Global, parts: &[Part]) -> Result<Vec<Word>, AllocError>
    ensures words { IfOk result (λ v. v.items ≡ map (λ p. p.name) parts.now) }
{
    let mut found = Vec::with_capacity(alloc, parts.len())?;
    'parts: for part in parts {
        let word = part.name.clone()?;
        found.push(word)?;
    }
    Ok(found)
}

fn words_of_params(alloc: Global, params: &[Param]) -> Result<Vec<Word>, AllocError>
    ensures words { IfOk result (λ v. v.items ≡ map (λ p. p.name) params.now) }
{
    let mut found = Vec::with_capacity(alloc, params.len())?;
    'params: for param in params {
        let word = param.name.clone()?;
        found.push(word)?;
    }
    Ok(found)
}

/// The names of the parts of a shape.
fn part_words(alloc: Global, shape: &Shape) -> Result<Vec<Word>, AllocError>
    ensures words { IfOk result (λ v. v.items ≡ parts_view shape.now) }
{
    match shape {
        Shape::Names(values) => {
            let found = words(alloc, values.as_slice())?;
            Ok(found)
        }
        Shape::Fields(parts) => {
            let found = words_of_parts(alloc, parts.as_slice())?;
            Ok(found)
        }
        Shape::Cases(parts) => {
            let found = words_of_parts(alloc, parts.as_slice())?;
            Ok(found)
        }
        Shape::CallMessage { params, raises: _ } => {
            let found = words_of_params(alloc, params.as_slice())?;
            Ok(found)
        }
        _ => Ok(Vec::new(alloc)),
    }
}

/// The names of the parts of each type.
pub fn part_names(alloc: Global, types: &TypeTable) -> Result<Vec<Names>, AllocError>
    requires sized { IsSized types.now }
    ensures names { IfOk result (λ v. v.items ≡ types.now.parts) }
{
    let mut found = Vec::with_capacity(alloc, types.len())?;
    let mut t: u32 = 0;
    'types: while (t as usize) < types.len() {
        let words = part_words(alloc, types.shape(TypeNo(t)))?;
        let names = Names::of(alloc, words)?;
        found.push(names)?;
        t += 1;
    }
    Ok(found)
}
