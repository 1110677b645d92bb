//! Source texts become flows.
ghost use Rattle.herm_typed.specs.Beside.{KnowTypes};

use crate::examples::{BEFORE, BEHIND, DEFINITIONS};
use crate::text::{line_of, onward_line_of};
use herm_defs::{DefsFault, define};
use herm_flow::{flow_of, onward_flow_of};
use herm_lexer::{LexFault, lex};
use herm_parser::{ParseFault, parse};
use herm_resolve::{ResolveFault, resolve};
use herm_syntax::Module;
use herm_typed::TypedProcess;
use herm_types::TypeTable;
use std::alloc::{AllocError, Global};

/// The modules of a source text, none where it has no tree.
fn modules_of(alloc: Global, source: &str) -> Result<Vec<Module>, AllocError> {
    let tokens = match lex(alloc, source.as_bytes()) {
        Ok(tokens) => tokens,
        Err(LexFault::Memory) => return Err(AllocError),
        Err(_) => return Ok(Vec::new(alloc)),
    };
    match parse(alloc, tokens.as_slice()) {
        Ok(found) => Ok(found),
        Err(ParseFault::Memory) => Err(AllocError),
        Err(_) => Ok(Vec::new(alloc)),
    }
}

/// Which flow is asked for: the whole, or one of edges alone that lead on and cover the others.
#[derive(Clone, Copy)]
pub enum Asked {
    Whole,
    Onward,
}

/// The flow of the first process, as a line.
fn first_line(
    alloc: Global,
    types: &TypeTable,
    processes: &[TypedProcess],
    asked: Asked,
) -> Result<String, AllocError>
    requires known { KnowTypes types.now.shapes processes.now }
{
    if processes.is_empty() {
        return String::from_str(alloc, "no process");
    }
    let p = &processes[0];
    match asked {
        Asked::Whole => {
            let flow = flow_of(alloc, types, p)?;
            line_of(alloc, &flow)
        }
        Asked::Onward => {
            let flow = onward_flow_of(alloc, types, p)?;
            onward_line_of(alloc, &flow)
        }
    }
}

/// The flow of the first process of modules, as a line.
fn answer(alloc: Global, modules: &[Module], asked: Asked) -> Result<String, AllocError> {
    let types = match define(alloc, modules) {
        Ok(types) => types,
        Err(DefsFault::Memory) => return Err(AllocError),
        Err(DefsFault::Refused(_)) => return String::from_str(alloc, "no types"),
    };
    match resolve(alloc, modules, &types) {
        Ok(program) => {
            let line = first_line(alloc, &types, program.processes.as_slice(), asked)?;
            Ok(line)
        }
        Err(ResolveFault::Refused(_)) => String::from_str(alloc, "no program"),
        Err(ResolveFault::Memory) => Err(AllocError),
    }
}

/// The flow of a process with these statements, as a line.
pub fn line_for(alloc: Global, statements: &str, asked: Asked) -> Result<String, AllocError> {
    let mut text = String::new(alloc);
    text.push_str(DEFINITIONS)?;
    text.push_str(BEFORE)?;
    text.push_str(statements)?;
    text.push_str(BEHIND)?;
    let modules = modules_of(alloc, text.as_str())?;
    let line = answer(alloc, modules.as_slice(), asked)?;
    Ok(line)
}
