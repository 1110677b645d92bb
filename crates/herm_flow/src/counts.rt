//! How many statements stand within a part of the text, and how many of them are points.
ghost use Rattle.std.specs.Prelude.{◌≡◌, ◌+◌, IfOk, map};
ghost use Rattle.herm_model.specs.Statements.{numbers_of, numbers_of_block, numbers_of_blocks, numbers_of_handlers, nodes_of, nodes_of_block, nodes_of_blocks, nodes_of_handlers};
ghost use Rattle.herm_typed.specs.View.{typed_form_view, typed_stmts_view};
ghost use Rattle.herm_typed.specs.Blocks.{handlers_list};
ghost use Rattle.herm_flow.specs.Parts.{blocks_of};

use crate::parts::{Parts, parts_of};
use herm_base::ExcNo;
use herm_typed::{TypedForm, TypedStmt};
use std::alloc::{AllocError, Global};

/// How many numbers statements take, and how many points they are. A `try` has a number and is no point.
#[derive(Clone, Copy)]
pub struct Count {
    pub numbers: u32,
    pub nodes: u32,
}

const POINT: Count = Count {
    numbers: 1,
    nodes: 1,
};

const TRY: Count = Count {
    numbers: 1,
    nodes: 0,
};

/// A sum; no memory suffices for more statements than there are numbers.
pub fn sum(a: u32, b: u32) -> Result<u32, AllocError>
    ensures { IfOk result (λ n. n ≡ a + b) }
{
    match a.checked_add(b) {
        Some(n) => Ok(n),
        None => Err(AllocError),
    }
}

/// The sum of two counts.
pub fn both(a: Count, b: Count) -> Result<Count, AllocError>
    ensures numbers { IfOk result (λ c. c.numbers ≡ a.numbers + b.numbers) }
    ensures nodes { IfOk result (λ c. c.nodes ≡ a.nodes + b.nodes) }
{
    let numbers = sum(a.numbers, b.numbers)?;
    let nodes = sum(a.nodes, b.nodes)?;
    Ok(Count { numbers, nodes })
}

/// How many stand in blocks.
#[cycle(counting)]
fn count_blocks(alloc: Global, blocks: &[&[TypedStmt]]) -> Result<Count, AllocError>
    ensures numbers { IfOk result (λ c. c.numbers ≡ numbers_of_blocks (blocks_of (map (λ b. b.now) blocks.now))) }
    ensures nodes { IfOk result (λ c. c.nodes ≡ nodes_of_blocks (blocks_of (map (λ b. b.now) blocks.now))) }
{
    let mut count = Count {
        numbers: 0,
        nodes: 0,
    };
    'each: for block in blocks {
        let more = count_block(alloc, block)?;
        count = both(count, more)?;
    }
    Ok(count)
}

/// How many stand in the handlers of a `try`.
#[cycle(counting)]
fn count_handlers(alloc: Global, handled: &[(ExcNo, Vec<TypedStmt>)]) -> Result<Count, AllocError>
    ensures numbers { IfOk result (λ c. c.numbers ≡ numbers_of_handlers (handlers_list handled.now)) }
    ensures nodes { IfOk result (λ c. c.nodes ≡ nodes_of_handlers (handlers_list handled.now)) }
{
    let mut count = Count {
        numbers: 0,
        nodes: 0,
    };
    'handlers: for (_, body) in handled {
        let more = count_block(alloc, body.as_slice())?;
        count = both(count, more)?;
    }
    Ok(count)
}

/// How many a statement is, with those within it.
#[cycle(counting)]
pub fn count_form(alloc: Global, form: &TypedForm) -> Result<Count, AllocError>
    ensures numbers { IfOk result (λ c. c.numbers ≡ numbers_of (typed_form_view form.now)) }
    ensures nodes { IfOk result (λ c. c.nodes ≡ nodes_of (typed_form_view form.now)) }
{
    let parts = parts_of(alloc, form)?;
    match parts {
        Parts::Simple => Ok(POINT),
        Parts::Choosing(blocks) => {
            let within = count_blocks(alloc, blocks.as_slice())?;
            let count = both(POINT, within)?;
            Ok(count)
        }
        Parts::Repeating(body) => {
            let within = count_block(alloc, body)?;
            let count = both(POINT, within)?;
            Ok(count)
        }
        Parts::Leaving => Ok(POINT),
        Parts::Trying(body, handled) => {
            let within = count_block(alloc, body)?;
            let handlers = count_handlers(alloc, handled)?;
            let inner = both(within, handlers)?;
            let count = both(TRY, inner)?;
            Ok(count)
        }
    }
}

/// How many the statements of a block are.
#[cycle(counting)]
pub fn count_block(alloc: Global, list: &[TypedStmt]) -> Result<Count, AllocError>
    ensures numbers { IfOk result (λ c. c.numbers ≡ numbers_of_block (typed_stmts_view list.now)) }
    ensures nodes { IfOk result (λ c. c.nodes ≡ nodes_of_block (typed_stmts_view list.now)) }
{
    let mut count = Count {
        numbers: 0,
        nodes: 0,
    };
    'statements: for s in list {
        let more = count_form(alloc, &s.form)?;
        count = both(count, more)?;
    }
    Ok(count)
}
