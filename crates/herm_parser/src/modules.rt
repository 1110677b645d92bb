//! Modules: definitions, and processes.
ghost use Rattle.std.specs.Prelude.{◌≡◌, map, None, Some, IfOk};
ghost use Rattle.herm_readers.specs.Reader.{ahead};
ghost use Rattle.herm_readers.specs.Combinators.{many, passes};
ghost use Rattle.herm_syntax.specs.ReadStatements.{inside};
ghost use Rattle.herm_syntax.specs.ReadModules.{read_item, anything};
ghost use Rattle.herm_syntax.specs.View.{def_item_view, module_view};
ghost use Rattle.herm_parser.specs.Along.{past_each};
ghost use Rattle.herm_parser.specs.AlongDefinitions.{past_item, past_module};
ghost use Rattle.herm_parser.specs.Modules.{definitions_at, process_at, module_at};
ghost use Rattle.herm_parser.specs.Gives.{kinds, Gives};

use crate::blocks::{body, inside_ahead};
use crate::definitions::{field, item, variables};
use crate::stop::Stop;
use crate::tokens::{key, key_ahead, name, sign};
use herm_alphabet::{Keyword, Mark, Token};
use herm_syntax::{DefItem, Module};
use std::alloc::Global;

/// Items up to the brace that closes their module.
fn items(alloc: Global, tokens: &[Token]) -> Result<(Vec<DefItem>, &[Token]), Stop>
    ensures read { Gives (λ x. map def_item_view x.0.items) (λ x. x.1.now) result (many inside read_item (kinds tokens.now)) }
    ensures along { IfOk result (λ x. past_each past_item x.0.items tokens.now ≡ Some x.1.now) }
{
    let mut found = Vec::new(alloc);
    let mut rest = tokens;
    'list: while inside_ahead(rest) {
        let (item, behind) = item(alloc, rest)?;
        found.push(item)?;
        rest = behind;
    }
    Ok((found, rest))
}

/// A definitions module.
#[tactic(auto, unfolding(crate::specs::Modules::definitions_at))]
fn definitions(alloc: Global, tokens: &[Token]) -> Result<(Module, &[Token]), Stop>
    ensures read { Gives (λ x. module_view x.0) (λ x. x.1.now) result (definitions_at (kinds tokens.now)) }
    ensures along { IfOk result (λ x. past_module x.0 tokens.now ≡ Some x.1.now) }
{
    let rest = key(tokens, Keyword::KwDefinitions)?;
    let (name, rest) = name(alloc, rest)?;
    let rest = sign(rest, Mark::BraceOpen)?;
    let (items, rest) = items(alloc, rest)?;
    let rest = sign(rest, Mark::BraceClose)?;
    Ok((Module::Definitions { name, items }, rest))
}

/// A process module.
#[tactic(auto, unfolding(crate::specs::Modules::process_at))]
fn process(alloc: Global, depth: usize, tokens: &[Token]) -> Result<(Module, &[Token]), Stop>
    ensures read { Gives (λ x. module_view x.0) (λ x. x.1.now) result (process_at depth (kinds tokens.now)) }
    ensures along { IfOk result (λ x. past_module x.0 tokens.now ≡ Some x.1.now) }
{
    let rest = key(tokens, Keyword::KwProcess)?;
    let (name, rest) = name(alloc, rest)?;
    let rest = sign(rest, Mark::ParenOpen)?;
    let (port, rest) = field(alloc, rest)?;
    let rest = sign(rest, Mark::ParenClose)?;
    let rest = sign(rest, Mark::BraceOpen)?;
    let (vars, rest) = variables(alloc, rest)?;
    let (body, _, rest) = body(alloc, depth, 1, rest)?;
    let rest = sign(rest, Mark::BraceClose)?;
    Ok((
        Module::Process {
            name,
            port,
            vars,
            body,
        },
        rest,
    ))
}

/// A module.
#[tactic(auto, unfolding(crate::specs::Modules::module_at))]
fn module(alloc: Global, depth: usize, tokens: &[Token]) -> Result<(Module, &[Token]), Stop>
    ensures read { Gives (λ x. module_view x.0) (λ x. x.1.now) result (module_at depth (kinds tokens.now)) }
    ensures along { IfOk result (λ x. past_module x.0 tokens.now ≡ Some x.1.now) }
{
    if key_ahead(tokens, Keyword::KwDefinitions) {
        let (module, rest) = definitions(alloc, tokens)?;
        return Ok((module, rest));
    }
    let (module, rest) = process(alloc, depth, tokens)?;
    Ok((module, rest))
}

/// Whether a module is ahead: any token.
fn any_ahead(tokens: &[Token]) -> bool
    ensures { result ≡ passes anything (ahead (kinds tokens.now) None) }
{
    match tokens {
        [_, ..] => true,
        [] => false,
    }
}

/// The modules of a file.
pub fn modules(
    alloc: Global,
    depth: usize,
    tokens: &[Token],
) -> Result<(Vec<Module>, &[Token]), Stop>
    ensures read { Gives (λ x. map module_view x.0.items) (λ x. x.1.now) result (many anything (module_at depth) (kinds tokens.now)) }
    ensures along { IfOk result (λ x. past_each past_module x.0.items tokens.now ≡ Some x.1.now) }
{
    let mut found = Vec::new(alloc);
    let mut rest = tokens;
    'list: while any_ahead(rest) {
        let (item, behind) = module(alloc, depth, rest)?;
        found.push(item)?;
        rest = behind;
    }
    Ok((found, rest))
}
