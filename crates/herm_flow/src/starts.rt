//! Where control goes that goes to a block.
ghost use Rattle.std.specs.Prelude.{◌≡◌, ◌++◌, IfOk, map, drop};
ghost use Rattle.herm_model.specs.Nodes.{start_of_block, starts, catches_of};
ghost use Rattle.herm_typed.specs.View.{typed_form_view, typed_stmts_view};
ghost use Rattle.herm_typed.specs.Blocks.{handlers_list};
ghost use Rattle.herm_flow.specs.View.{target_view, catch_view};
ghost use Rattle.herm_flow.specs.Parts.{blocks_of};
ghost use Rattle.herm_flow.specs.Starts.{first_node, first_in_block};

use crate::counts::{count_block, count_form, sum};
use crate::flow::Target;
use crate::parts::{Parts, parts_of};
use herm_base::ExcNo;
use herm_typed::{TypedForm, TypedStmt};
use std::alloc::{AllocError, Global};

/// A handler within reach: its exception, and where its block begins.
#[derive(Clone, Copy)]
pub struct Catch {
    pub exception: ExcNo,
    pub target: Target,
}

/// The point at which control begins that goes to a statement, whose points stand from a place on; none where control goes
/// past it.
#[cycle(starting)]
fn first_of(alloc: Global, form: &TypedForm, from: u32) -> Result<Option<u32>, AllocError>
    ensures first { IfOk result (λ o. o ≡ first_node (typed_form_view form.now) from) }
{
    let parts = parts_of(alloc, form)?;
    match parts {
        Parts::Simple => Ok(Some(from)),
        Parts::Choosing(_) => Ok(Some(from)),
        Parts::Repeating(_) => Ok(Some(from)),
        Parts::Leaving => Ok(Some(from)),
        Parts::Trying(body, _) => {
            let place = first_in(alloc, body, 0, from)?;
            Ok(place)
        }
    }
}

/// That of a block without so many of its statements.
#[cycle(starting)]
#[tactic(auto, using(crate::proofs::Sizes::item_size))]
fn first_in(
    alloc: Global,
    list: &[TypedStmt],
    skip: usize,
    from: u32,
) -> Result<Option<u32>, AllocError>
    ensures first { IfOk result (λ o. o ≡ first_in_block (typed_stmts_view (drop skip list.now)) from) }
{
    let mut at = from;
    let mut i = skip;
    'statements: while i < list.len() {
        let s = &list[i];
        let place = first_of(alloc, &s.form, at)?;
        if let Some(place) = place {
            return Ok(Some(place));
        }
        let count = count_form(alloc, &s.form)?;
        at = sum(at, count.nodes)?;
        i += 1;
    }
    Ok(None)
}

/// Where control goes that goes to a block without so many of its statements, behind which it goes on there.
#[tactic(auto, using(crate::proofs::StartsAt::start_first))]
pub fn start_from(
    alloc: Global,
    list: &[TypedStmt],
    skip: usize,
    from: u32,
    behind: Target,
) -> Result<Target, AllocError>
    ensures start { IfOk result (λ t. target_view t ≡ start_of_block (typed_stmts_view (drop skip list.now)) from (target_view behind)) }
{
    let place = first_in(alloc, list, skip, from)?;
    match place {
        Some(place) => Ok(Target::Point(place)),
        None => Ok(behind),
    }
}

/// Where each of some blocks begins.
pub fn starts_of(
    alloc: Global,
    blocks: &[&[TypedStmt]],
    from: u32,
    behind: Target,
) -> Result<Vec<Target>, AllocError>
    ensures starts { IfOk result (λ v. map target_view v.items ≡ starts (blocks_of (map (λ b. b.now) blocks.now)) from (target_view behind)) }
{
    let mut found = Vec::new(alloc);
    let mut at = from;
    'each: for block in blocks {
        let start = start_from(alloc, block, 0, at, behind)?;
        found.push(start)?;
        let count = count_block(alloc, block)?;
        at = sum(at, count.nodes)?;
    }
    Ok(found)
}

/// The handlers of a `try`.
fn handlers_of(
    alloc: Global,
    handled: &[(ExcNo, Vec<TypedStmt>)],
    from: u32,
    behind: Target,
) -> Result<Vec<Catch>, AllocError>
    ensures catches { IfOk result (λ v. map catch_view v.items ≡ catches_of (handlers_list handled.now) from (target_view behind)) }
{
    let mut found = Vec::new(alloc);
    let mut at = from;
    'handlers: for (exception, body) in handled {
        let target = start_from(alloc, body.as_slice(), 0, at, behind)?;
        found.push(Catch {
            exception: *exception,
            target,
        })?;
        let count = count_block(alloc, body.as_slice())?;
        at = sum(at, count.nodes)?;
    }
    Ok(found)
}

/// The handlers of a `try`, and behind them those further out.
pub fn reach_of(
    alloc: Global,
    handled: &[(ExcNo, Vec<TypedStmt>)],
    from: u32,
    behind: Target,
    outer: &[Catch],
) -> Result<Vec<Catch>, AllocError>
    ensures catches { IfOk result (λ v. map catch_view v.items ≡ catches_of (handlers_list handled.now) from (target_view behind) ++ map catch_view outer.now) }
{
    let mut found = handlers_of(alloc, handled, from, behind)?;
    'outer: for c in outer {
        found.push(*c)?;
    }
    Ok(found)
}
