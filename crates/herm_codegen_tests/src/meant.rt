//! Source texts become images.
ghost use Rattle.std.specs.Prelude.{length, map, IfOk, IfSome};
ghost use Rattle.herm_model.specs.TypedPrograms.{IsTypedProgram};
ghost use Rattle.herm_typed.specs.View.{typed_process_view};
ghost use Rattle.herm_typed.specs.Beside.{KnowTypes};

use herm_accept::{AcceptFault, accept};
use herm_code::Image;
use herm_defs::{DefsFault, define};
use herm_images::image;
use herm_lexer::{LexFault, lex};
use herm_parser::{ParseFault, parse};
use herm_resolve::{Program, ResolveFault, resolve};
use herm_syntax::Module;
use herm_types::TypeTable;
use std::alloc::{AllocError, Global};

/// The types and the processes of a source text.
#[derive(Drop)]
pub struct Meant {
    pub types: TypeTable,
    pub program: Program,
}

fn modules_of(alloc: Global, source: &str) -> Result<Option<Vec<Module>>, AllocError> {
    let tokens = match lex(alloc, source.as_bytes()) {
        Ok(tokens) => tokens,
        Err(LexFault::Memory) => return Err(AllocError),
        Err(_) => return Ok(None),
    };
    match parse(alloc, tokens.as_slice()) {
        Ok(modules) => Ok(Some(modules)),
        Err(ParseFault::Memory) => Err(AllocError),
        Err(_) => Ok(None),
    }
}

fn types_of(alloc: Global, modules: &[Module]) -> Result<Option<TypeTable>, AllocError> {
    match define(alloc, modules) {
        Ok(types) => Ok(Some(types)),
        Err(DefsFault::Memory) => Err(AllocError),
        Err(DefsFault::Refused(_)) => Ok(None),
    }
}

/// What a source text means; none where it has a fault of an earlier phase.
pub fn meaning_of(alloc: Global, source: &str) -> Result<Option<Meant>, AllocError>
    ensures typed { IfOk result (λ found. IfSome found (λ m. IsTypedProgram (length m.types.exceptions) m.types.shapes (map typed_process_view m.program.processes.items) m.program.main)) }
    ensures known { IfOk result (λ found. IfSome found (λ m. KnowTypes m.types.shapes m.program.processes.items)) }
{
    let Some(modules) = modules_of(alloc, source)? else {
        return Ok(None);
    };
    let Some(types) = types_of(alloc, modules.as_slice())? else {
        return Ok(None);
    };
    match resolve(alloc, modules.as_slice(), &types) {
        Ok(program) => Ok(Some(Meant { types, program })),
        Err(ResolveFault::Memory) => Err(AllocError),
        Err(ResolveFault::Refused(_)) => Ok(None),
    }
}

/// The image of what a source text means; none where it is not accepted.
pub fn image_of(alloc: Global, meant: Meant) -> Result<Option<Image>, AllocError>
    requires typed { IsTypedProgram (length meant.types.exceptions) meant.types.shapes (map typed_process_view meant.program.processes.items) meant.program.main }
    requires known { KnowTypes meant.types.shapes meant.program.processes.items }
{
    match accept(alloc, &meant.types, meant.program.processes.as_slice()) {
        Ok(accepted) => {
            let made = image(alloc, meant.types, &meant.program, &accepted)?;
            Ok(Some(made))
        }
        Err(AcceptFault::Memory) => Err(AllocError),
        Err(AcceptFault::Missing(_)) => Ok(None),
    }
}
