//! Source texts become types and processes.
use herm_defs::{DefsFault, define};
use herm_lexer::{LexFault, lex};
use herm_parser::{ParseFault, parse};
use herm_resolve::{Program, ResolveFault, resolve};
use herm_syntax::Module;
use herm_types::TypeTable;
use std::alloc::{AllocError, Global};

/// The types and the processes of a source text.
#[derive(Drop)]
pub struct Meant {
    pub types: TypeTable,
    pub program: Program,
}

fn modules_of(alloc: Global, source: &str) -> Result<Option<Vec<Module>>, AllocError> {
    let tokens = match lex(alloc, source.as_bytes()) {
        Ok(tokens) => tokens,
        Err(LexFault::Memory) => return Err(AllocError),
        Err(_) => return Ok(None),
    };
    match parse(alloc, tokens.as_slice()) {
        Ok(modules) => Ok(Some(modules)),
        Err(ParseFault::Memory) => Err(AllocError),
        Err(_) => Ok(None),
    }
}

fn types_of(alloc: Global, modules: &[Module]) -> Result<Option<TypeTable>, AllocError> {
    match define(alloc, modules) {
        Ok(types) => Ok(Some(types)),
        Err(DefsFault::Memory) => Err(AllocError),
        Err(DefsFault::Refused(_)) => Ok(None),
    }
}

/// What a source text means; none where it has a fault.
pub fn read_program(alloc: Global, source: &str) -> Result<Option<Meant>, AllocError> {
    let Some(modules) = modules_of(alloc, source)? else {
        return Ok(None);
    };
    let Some(types) = types_of(alloc, modules.as_slice())? else {
        return Ok(None);
    };
    match resolve(alloc, modules.as_slice(), &types) {
        Ok(program) => Ok(Some(Meant { types, program })),
        Err(ResolveFault::Memory) => Err(AllocError),
        Err(ResolveFault::Refused(_)) => Ok(None),
    }
}
