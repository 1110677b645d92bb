//! Source texts become programs, and programs the line on accepted files.
use herm_defs::{DefsFault, define};
use herm_lexer::{LexFault, lex};
use herm_parser::{ParseFault, parse};
use herm_resolve::{ResolveFault, resolve};
use herm_sizes::accepted_line;
use herm_syntax::Module;
use std::alloc::{AllocError, Global};

/// The modules of a source text, none where it has no tree.
fn modules_of(alloc: Global, source: &str) -> Result<Vec<Module>, AllocError> {
    let tokens = match lex(alloc, source.as_bytes()) {
        Ok(tokens) => tokens,
        Err(LexFault::Memory) => return Err(AllocError),
        Err(_) => return Ok(Vec::new(alloc)),
    };
    match parse(alloc, tokens.as_slice()) {
        Ok(found) => Ok(found),
        Err(ParseFault::Memory) => Err(AllocError),
        Err(_) => Ok(Vec::new(alloc)),
    }
}

/// The line on a source text, empty where it means no program.
pub fn line_of(alloc: Global, source: &str) -> Result<Vec<u8>, AllocError> {
    let modules = modules_of(alloc, source)?;
    let types = match define(alloc, modules.as_slice()) {
        Ok(types) => types,
        Err(DefsFault::Memory) => return Err(AllocError),
        Err(DefsFault::Refused(_)) => return Ok(Vec::new(alloc)),
    };
    match resolve(alloc, modules.as_slice(), &types) {
        Ok(program) => {
            let line = accepted_line(alloc, program.processes.as_slice())?;
            Ok(line)
        }
        Err(ResolveFault::Refused(_)) => Ok(Vec::new(alloc)),
        Err(ResolveFault::Memory) => Err(AllocError),
    }
}
