//! Copies of shapes and facts.
ghost use Rattle.std.specs.Prelude.{◌≡◌, IfOk, map};
ghost use Rattle.herm_types.specs.View.{path_view, fact_view, raise_decl_view, shape_view, parts_view};

use crate::fact::{Fact, Path};
use crate::shape::{Param, Part, RaiseDecl, Shape};
use herm_base::Word;
use std::alloc::{AllocError, Global};

fn copy_path(alloc: Global, path: &Path) -> Result<Path, AllocError>
    ensures { IfOk result (λ p. path_view p ≡ path_view path.now) }
{
    let parts = Vec::from_slice(alloc, path.parts.as_slice())?;
    Ok(Path {
        var: path.var,
        parts,
    })
}

pub fn copy_fact(alloc: Global, fact: &Fact) -> Result<Fact, AllocError>
    ensures { IfOk result (λ f. fact_view f ≡ fact_view fact.now) }
{
    match fact {
        Fact::Init(path) => {
            let path = copy_path(alloc, path)?;
            Ok(Fact::Init(path))
        }
        Fact::Case(path, component) => {
            let path = copy_path(alloc, path)?;
            Ok(Fact::Case(path, *component))
        }
    }
}

fn copy_facts(alloc: Global, facts: &[Fact]) -> Result<Vec<Fact>, AllocError>
    ensures { IfOk result (λ v. map fact_view v.items ≡ map fact_view facts.now) }
{
    let mut copies = Vec::new(alloc);
    for fact in facts {
        let copy = copy_fact(alloc, fact)?;
        copies.push(copy)?;
    }
    Ok(copies)
}

pub fn copy_words(alloc: Global, words: &[Word]) -> Result<Vec<Word>, AllocError>
    ensures { IfOk result (λ v. v.items ≡ words.now) }
{
    let mut copies = Vec::new(alloc);
    for word in words {
        let copy = word.clone()?;
        copies.push(copy)?;
    }
    Ok(copies)
}

fn copy_parts(alloc: Global, parts: &[Part]) -> Result<Vec<Part>, AllocError>
    ensures { IfOk result (λ v. v.items ≡ parts.now) }
{
    let mut copies = Vec::new(alloc);
    for part in parts {
        let name = part.name.clone()?;
        let of = part.of;
        copies.push(Part { name, of })?;
    }
    Ok(copies)
}

fn copy_params(alloc: Global, params: &[Param]) -> Result<Vec<Param>, AllocError>
    ensures { IfOk result (λ v. v.items ≡ params.now) }
{
    let mut copies = Vec::new(alloc);
    for param in params {
        let name = param.name.clone()?;
        let mode = param.mode;
        let of = param.of;
        copies.push(Param { mode, name, of })?;
    }
    Ok(copies)
}

fn copy_raise(alloc: Global, raise: &RaiseDecl) -> Result<RaiseDecl, AllocError>
    ensures { IfOk result (λ r. raise_decl_view r ≡ raise_decl_view raise.now) }
{
    let keeps = Vec::from_slice(alloc, raise.keeps.as_slice())?;
    Ok(RaiseDecl {
        exc: raise.exc,
        keeps,
    })
}

fn copy_raises(alloc: Global, raises: &[RaiseDecl]) -> Result<Vec<RaiseDecl>, AllocError>
    ensures { IfOk result (λ v. map raise_decl_view v.items ≡ map raise_decl_view raises.now) }
{
    let mut copies = Vec::new(alloc);
    for raise in raises {
        let copy = copy_raise(alloc, raise)?;
        copies.push(copy)?;
    }
    Ok(copies)
}

fn copy_shape(alloc: Global, shape: &Shape) -> Result<Shape, AllocError>
    ensures shape { IfOk result (λ s. shape_view s ≡ shape_view shape.now) }
    ensures parts { IfOk result (λ s. parts_view s ≡ parts_view shape.now) }
{
    match shape {
        Shape::Boolean => Ok(Shape::Boolean),
        Shape::Integer => Ok(Shape::Integer),
        Shape::Text => Ok(Shape::Text),
        Shape::Poly => Ok(Shape::Poly),
        Shape::Names(values) => {
            let values = copy_words(alloc, values.as_slice())?;
            Ok(Shape::Names(values))
        }
        Shape::Fields(parts) => {
            let parts = copy_parts(alloc, parts.as_slice())?;
            Ok(Shape::Fields(parts))
        }
        Shape::Cases(parts) => {
            let parts = copy_parts(alloc, parts.as_slice())?;
            Ok(Shape::Cases(parts))
        }
        Shape::Rows { row, keys } => {
            let keys = Vec::from_slice(alloc, keys.as_slice())?;
            Ok(Shape::Rows { row: *row, keys })
        }
        Shape::Inport { message, facts } => {
            let facts = copy_facts(alloc, facts.as_slice())?;
            Ok(Shape::Inport {
                message: *message,
                facts,
            })
        }
        Shape::Outport { port } => Ok(Shape::Outport { port: *port }),
        Shape::CallMessage { params, raises } => {
            let params = copy_params(alloc, params.as_slice())?;
            let raises = copy_raises(alloc, raises.as_slice())?;
            Ok(Shape::CallMessage { params, raises })
        }
    }
}

pub fn copy_shapes(alloc: Global, shapes: &[Shape]) -> Result<Vec<Shape>, AllocError>
    ensures shapes { IfOk result (λ v. map shape_view v.items ≡ map shape_view shapes.now) }
    ensures parts { IfOk result (λ v. map parts_view v.items ≡ map parts_view shapes.now) }
{
    let mut copies = Vec::with_capacity(alloc, shapes.len())?;
    for shape in shapes {
        let copy = copy_shape(alloc, shape)?;
        copies.push(copy)?;
    }
    Ok(copies)
}
