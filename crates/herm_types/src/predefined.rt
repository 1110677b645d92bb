//! The predefined types and exceptions.
ghost use Rattle.std.specs.Prelude.{◌≡◌, [], ◌∷◌, codes, IfOk, map};
ghost use Rattle.herm_model.specs.Types.{fields, inport, predefined};
ghost use Rattle.herm_meaning.specs.Names.{predefined_names, predefined_parts, predefined_exception_names};
ghost use Rattle.herm_types.specs.View.{shape_view, parts_view};

use crate::shape::{Part, Shape};
use herm_base::{TypeNo, Word};
use std::alloc::{AllocError, Global};

const NAMES: [&[u8]; 8] = [
    b"boolean",
    b"integer",
    b"string",
    b"polymorph",
    b"console",
    b"console_out",
    b"main_message",
    b"main_start",
];

const EXCEPTIONS: [&[u8]; 7] = [
    b"Overflow",
    b"Depletion",
    b"CaseError",
    b"PolymorphMismatch",
    b"DuplicateKey",
    b"NotFound",
    b"Disconnected",
];

fn words(alloc: Global, texts: &[&[u8]]) -> Result<Vec<Word>, AllocError>
    ensures { IfOk result (λ v. v.items ≡ map (λ t. t.now) texts.now) }
{
    let mut words = Vec::new(alloc);
    for text in texts {
        let word = Word::of(alloc, *text)?;
        words.push(word)?;
    }
    Ok(words)
}

/// The names of the predefined types, by number.
pub fn predefined_names(alloc: Global) -> Result<Vec<Word>, AllocError>
    ensures { IfOk result (λ v. v.items ≡ predefined_names) }
{
    let names = words(alloc, &NAMES)?;
    Ok(names)
}

/// The names of the predefined exceptions, by number.
pub fn predefined_exceptions(alloc: Global) -> Result<Vec<Word>, AllocError>
    ensures { IfOk result (λ v. v.items ≡ predefined_exception_names) }
{
    let names = words(alloc, &EXCEPTIONS)?;
    Ok(names)
}

fn inport_of(alloc: Global, message: u32) -> Shape
    ensures shape { shape_view result ≡ inport message [] }
    ensures parts { parts_view result ≡ [] }
{
    Shape::Inport {
        message: TypeNo(message),
        facts: Vec::new(alloc),
    }
}

/// `arg: string, out: console_out`.
fn start_message(alloc: Global) -> Result<Shape, AllocError>
    ensures shape { IfOk result (λ s. shape_view s ≡ fields (2 ∷ 5 ∷ [])) }
    ensures parts { IfOk result (λ s. parts_view s ≡ codes "arg" ∷ codes "out" ∷ []) }
{
    let mut parts = Vec::new(alloc);
    let arg = Word::of(alloc, b"arg")?;
    parts.push(Part {
        name: arg,
        of: TypeNo(2),
    })?;
    let out = Word::of(alloc, b"out")?;
    parts.push(Part {
        name: out,
        of: TypeNo(5),
    })?;
    Ok(Shape::Fields(parts))
}

/// The shapes of the predefined types, by number.
pub fn predefined_shapes(alloc: Global) -> Result<Vec<Shape>, AllocError>
    ensures shapes { IfOk result (λ v. map shape_view v.items ≡ predefined) }
    ensures parts { IfOk result (λ v. map parts_view v.items ≡ predefined_parts) }
{
    let mut shapes = Vec::new(alloc);
    shapes.push(Shape::Boolean)?;
    shapes.push(Shape::Integer)?;
    shapes.push(Shape::Text)?;
    shapes.push(Shape::Poly)?;
    shapes.push(inport_of(alloc, 2))?;
    shapes.push(Shape::Outport { port: TypeNo(4) })?;
    let message = start_message(alloc)?;
    shapes.push(message)?;
    shapes.push(inport_of(alloc, 6))?;
    Ok(shapes)
}
