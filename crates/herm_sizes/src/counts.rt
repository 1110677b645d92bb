//! How many statements stand within a part of the text.
ghost use Rattle.std.specs.Prelude.{◌≡◌, ◌+◌, IfOk, map};
ghost use Rattle.herm_model.specs.Statements.{numbers_of, numbers_of_block, numbers_of_blocks, numbers_of_handlers};
ghost use Rattle.herm_typed.specs.View.{typed_form_view, typed_stmts_view, typed_process_view};
ghost use Rattle.herm_typed.specs.Blocks.{case_blocks, select_blocks, else_block, handlers_list};
ghost use Rattle.herm_sizes.specs.AcceptedLines.{statements_in};

use herm_base::ExcNo;
use herm_typed::{TypedForm, TypedPath, TypedProcess, TypedStmt};
use std::alloc::AllocError;

/// A sum; no memory holds more statements than there are numbers of 64 bits.
fn sum(a: u64, b: u64) -> Result<u64, AllocError>
    ensures { IfOk result (λ n. n ≡ a + b) }
{
    match a.checked_add(b) {
        Some(n) => Ok(n),
        None => Err(AllocError),
    }
}

/// How many stand in the arms of a `case`.
#[cycle(counting)]
fn count_arms(arms: &[(u32, Vec<TypedStmt>)]) -> Result<u64, AllocError>
    ensures { IfOk result (λ n. n ≡ numbers_of_blocks (case_blocks arms.now)) }
{
    let mut count = 0;
    'arms: for (_, body) in arms {
        let more = count_block(body.as_slice())?;
        count = sum(count, more)?;
    }
    Ok(count)
}

/// How many stand in the arms of a `select`.
#[cycle(counting)]
fn count_ports(arms: &[(TypedPath, TypedPath, Vec<TypedStmt>)]) -> Result<u64, AllocError>
    ensures { IfOk result (λ n. n ≡ numbers_of_blocks (select_blocks arms.now)) }
{
    let mut count = 0;
    'arms: for (_, _, body) in arms {
        let more = count_block(body.as_slice())?;
        count = sum(count, more)?;
    }
    Ok(count)
}

/// How many stand behind `else`.
#[cycle(counting)]
fn count_else(other: &Option<Vec<TypedStmt>>) -> Result<u64, AllocError>
    ensures { IfOk result (λ n. n ≡ numbers_of_block (else_block other.now)) }
{
    match other {
        None => Ok(0),
        Some(body) => {
            let behind = count_block(body.as_slice())?;
            Ok(behind)
        }
    }
}

/// How many stand in the handlers of a `try`.
#[cycle(counting)]
fn count_handlers(handled: &[(ExcNo, Vec<TypedStmt>)]) -> Result<u64, AllocError>
    ensures { IfOk result (λ n. n ≡ numbers_of_handlers (handlers_list handled.now)) }
{
    let mut count = 0;
    'handlers: for (_, body) in handled {
        let more = count_block(body.as_slice())?;
        count = sum(count, more)?;
    }
    Ok(count)
}

/// How many a statement is, with those within it.
#[cycle(counting)]
fn count_form(form: &TypedForm) -> Result<u64, AllocError>
    ensures { IfOk result (λ n. n ≡ numbers_of (typed_form_view form.now)) }
{
    match form {
        TypedForm::Case(_, arms) => {
            let within = count_arms(arms.as_slice())?;
            let count = sum(1, within)?;
            Ok(count)
        }
        TypedForm::Select(arms) => {
            let within = count_ports(arms.as_slice())?;
            let count = sum(1, within)?;
            Ok(count)
        }
        TypedForm::If(_, body, other) => {
            let then = count_block(body.as_slice())?;
            let otherwise = count_else(other)?;
            let within = sum(then, otherwise)?;
            let count = sum(1, within)?;
            Ok(count)
        }
        TypedForm::For(_, _, body) => {
            let within = count_block(body.as_slice())?;
            let count = sum(1, within)?;
            Ok(count)
        }
        TypedForm::While(_, body) => {
            let within = count_block(body.as_slice())?;
            let count = sum(1, within)?;
            Ok(count)
        }
        TypedForm::Try(body, handled) => {
            let first = count_block(body.as_slice())?;
            let handlers = count_handlers(handled.as_slice())?;
            let inner = sum(first, handlers)?;
            let count = sum(1, inner)?;
            Ok(count)
        }
        _ => Ok(1),
    }
}

/// How many the statements of a block are.
#[cycle(counting)]
fn count_block(list: &[TypedStmt]) -> Result<u64, AllocError>
    ensures { IfOk result (λ n. n ≡ numbers_of_block (typed_stmts_view list.now)) }
{
    let mut count = 0;
    'statements: for s in list {
        let more = count_form(&s.form)?;
        count = sum(count, more)?;
    }
    Ok(count)
}

/// How many statements processes have, those inside statements too.
pub fn count_processes(processes: &[TypedProcess]) -> Result<u64, AllocError>
    ensures { IfOk result (λ n. n ≡ statements_in (map typed_process_view processes.now)) }
{
    let mut count = 0;
    'processes: for p in processes {
        let more = count_block(p.body.as_slice())?;
        count = sum(count, more)?;
    }
    Ok(count)
}
