//! The nodes of a process: its statements other than `try`, in the order of the text, and its loops.
ghost use Rattle.std.specs.Prelude.{◌≡◌, ◌+◌, ◌≤◌, ◌++◌, ◌∷◌, [], OnOk, OnErr, IfOk, map};
ghost use Rattle.herm_typed.specs.View.{typed_form_view, typed_stmts_view};
ghost use Rattle.herm_typed.specs.declared.statements.TypedStmt.{out-TypedStmt};
ghost use Rattle.herm_typed.specs.Blocks.{case_blocks, select_blocks, else_block, handlers_list};
ghost use Rattle.herm_fronts.specs.Forms.{form_seen};
ghost use Rattle.herm_fronts.specs.Walked.{found_view, no_nodes, counted, with_form, with_loop, walk_statement, walk_block, walk_blocks, walk_handlers};

use crate::numbers::sum;
use herm_base::ExcNo;
use herm_typed::{TypedForm, TypedPath, TypedStmt};
use std::alloc::{AllocError, Global};

/// A loop, by its statement's number and how many statements it has, its own counted.
#[derive(Clone, Copy)]
pub struct Span {
    pub first: u32,
    pub length: u32,
}

/// The forms of nodes, the loops, each behind those within it, and the number of the next statement.
#[derive(Drop)]
pub struct Found<'a> {
    pub forms: Vec<&'a TypedForm>,
    pub loops: Vec<Span>,
    pub next: u32,
}

/// A statement takes a number; refused only where there is no further one.
fn count(found: &mut Found<'_>) -> Result<(), AllocError>
    ensures counted { OnOk result (found_view found.new ≡ counted (found_view found.old)) }
    ensures refused { OnErr result (4294967296 ≤ found.old.next + 1) }
{
    found.next = sum(found.next, 1)?;
    Ok(())
}

/// Appends a node.
fn push_form<'a>(form: &'a TypedForm, found: &mut Found<'a>) -> Result<(), AllocError>
    ensures { OnOk result (found_view found.new ≡ with_form (form_seen form.now) (found_view found.old)) }
{
    found.forms.push(form)?;
    count(found)?;
    Ok(())
}

/// Appends a loop that ends before the next statement.
fn push_loop(first: u32, found: &mut Found<'_>) -> Result<(), AllocError>
    ensures { OnOk result (found_view found.new ≡ with_loop first (found_view found.old)) }
{
    let length = found.next.saturating_sub(first);
    found.loops.push(Span { first, length })?;
    Ok(())
}

#[cycle(walking)]
#[tactic(auto, using(crate::proofs::Sizes::arm_size))]
fn walk_arms<'a>(arms: &'a [(u32, Vec<TypedStmt>)], found: &mut Found<'a>) -> Result<(), AllocError>
    ensures { OnOk result (found_view found.new ≡ walk_blocks (case_blocks arms.now) (found_view found.old)) }
{
    'arms: for (_, body) in arms {
        walk_all(body.as_slice(), found)?;
    }
    Ok(())
}

#[cycle(walking)]
#[tactic(auto, using(crate::proofs::Sizes::port_size))]
fn walk_port_arms<'a>(
    arms: &'a [(TypedPath, TypedPath, Vec<TypedStmt>)],
    found: &mut Found<'a>,
) -> Result<(), AllocError>
    ensures { OnOk result (found_view found.new ≡ walk_blocks (select_blocks arms.now) (found_view found.old)) }
{
    'arms: for (_, _, body) in arms {
        walk_all(body.as_slice(), found)?;
    }
    Ok(())
}

#[cycle(walking)]
#[tactic(auto, using(crate::proofs::Sizes::handler_size))]
fn walk_handled<'a>(
    handled: &'a [(ExcNo, Vec<TypedStmt>)],
    found: &mut Found<'a>,
) -> Result<(), AllocError>
    ensures { OnOk result (found_view found.new ≡ walk_handlers (handlers_list handled.now) (found_view found.old)) }
{
    'handlers: for (_, body) in handled {
        walk_all(body.as_slice(), found)?;
    }
    Ok(())
}

#[cycle(walking)]
fn walk_otherwise<'a>(
    other: &'a Option<Vec<TypedStmt>>,
    found: &mut Found<'a>,
) -> Result<(), AllocError>
    ensures { OnOk result (found_view found.new ≡ walk_block (else_block other.now) (found_view found.old)) }
{
    match other {
        Some(body) => {
            walk_all(body.as_slice(), found)?;
            Ok(())
        }
        None => Ok(()),
    }
}

/// A loop and what stands within it.
#[cycle(walking)]
fn walk_loop<'a>(
    form: &'a TypedForm,
    body: &'a [TypedStmt],
    found: &mut Found<'a>,
) -> Result<(), AllocError>
    ensures { OnOk result (found_view found.new ≡ with_loop (found_view found.old).next (walk_block (typed_stmts_view body.now) (with_form (form_seen form.now) (found_view found.old)))) }
{
    let first = found.next;
    push_form(form, found)?;
    walk_all(body, found)?;
    push_loop(first, found)?;
    Ok(())
}

/// Appends the nodes and loops of a statement.
#[cycle(walking)]
fn walk_form<'a>(form: &'a TypedForm, found: &mut Found<'a>) -> Result<(), AllocError>
    ensures { OnOk result (found_view found.new ≡ walk_statement (typed_form_view form.now) (found_view found.old)) }
{
    match form {
        TypedForm::Case(_, arms) => {
            push_form(form, found)?;
            walk_arms(arms.as_slice(), found)?;
            Ok(())
        }
        TypedForm::Select(arms) => {
            push_form(form, found)?;
            walk_port_arms(arms.as_slice(), found)?;
            Ok(())
        }
        TypedForm::If(_, body, other) => {
            push_form(form, found)?;
            walk_all(body.as_slice(), found)?;
            walk_otherwise(other, found)?;
            Ok(())
        }
        TypedForm::For(_, _, body) => {
            walk_loop(form, body.as_slice(), found)?;
            Ok(())
        }
        TypedForm::While(_, body) => {
            walk_loop(form, body.as_slice(), found)?;
            Ok(())
        }
        TypedForm::Try(body, handled) => {
            count(found)?;
            walk_all(body.as_slice(), found)?;
            walk_handled(handled.as_slice(), found)?;
            Ok(())
        }
        _ => {
            push_form(form, found)?;
            Ok(())
        }
    }
}

/// Appends the nodes and loops of a block.
#[cycle(walking)]
#[tactic(auto, using(crate::proofs::Sizes::item_size))]
fn walk_all<'a>(list: &'a [TypedStmt], found: &mut Found<'a>) -> Result<(), AllocError>
    ensures { OnOk result (found_view found.new ≡ walk_block (typed_stmts_view list.now) (found_view found.old)) }
{
    'statements: for s in list {
        walk_form(&s.form, found)?;
    }
    Ok(())
}

/// The nodes and loops of a body, whose first statement has the number 1.
pub fn nodes_in<'a>(alloc: Global, body: &'a [TypedStmt]) -> Result<Found<'a>, AllocError>
    ensures { IfOk result (λ f. found_view f ≡ walk_block (typed_stmts_view body.now) no_nodes) }
{
    let mut found = Found {
        forms: Vec::new(alloc),
        loops: Vec::new(alloc),
        next: 1,
    };
    walk_all(body, &mut found)?;
    Ok(found)
}
