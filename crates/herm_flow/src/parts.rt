//! The blocks within a statement.
ghost use Rattle.std.specs.Prelude.{◌≡◌, ◌∷◌, [], IfOk, map};
ghost use Rattle.herm_typed.specs.View.{typed_form_view};
ghost use Rattle.herm_typed.specs.Within.{statements_within};
ghost use Rattle.herm_flow.specs.Parts.{own_form, seen_as, GoesOn, within, else_list};

use herm_base::ExcNo;
use herm_typed::{TypedForm, TypedPath, TypedStmt};
use std::alloc::{AllocError, Global};

/// How control can go on at a statement: behind it, into one of blocks, into a loop's block, out of a loop, or, at a `try`,
/// into its block, whose exceptions lead to its handlers.
#[derive(Drop)]
pub enum Parts<'a> {
    Simple,
    Choosing(Vec<&'a [TypedStmt]>),
    Repeating(&'a [TypedStmt]),
    Leaving,
    Trying(&'a [TypedStmt], &'a [(ExcNo, Vec<TypedStmt>)]),
}

/// The blocks of the arms of a `case`.
fn arms<'a>(
    alloc: Global,
    arms: &'a [(u32, Vec<TypedStmt>)],
) -> Result<Vec<&'a [TypedStmt]>, AllocError>
    ensures { IfOk result (λ v. map (λ b. b.now) v.items ≡ map (λ a. a.1.items) arms.now) }
{
    let mut found = Vec::new(alloc);
    'arms: for (_, body) in arms {
        found.push(body.as_slice())?;
    }
    Ok(found)
}

/// The blocks of the arms of a `select`.
fn ports<'a>(
    alloc: Global,
    arms: &'a [(TypedPath, TypedPath, Vec<TypedStmt>)],
) -> Result<Vec<&'a [TypedStmt]>, AllocError>
    ensures { IfOk result (λ v. map (λ b. b.now) v.items ≡ map (λ a. a.2.items) arms.now) }
{
    let mut found = Vec::new(alloc);
    'arms: for (_, _, body) in arms {
        found.push(body.as_slice())?;
    }
    Ok(found)
}

/// The block of an `if`, and the one behind `else`, which is empty where there is none.
fn choices<'a>(
    alloc: Global,
    body: &'a [TypedStmt],
    other: &'a Option<Vec<TypedStmt>>,
) -> Result<Vec<&'a [TypedStmt]>, AllocError>
    ensures { IfOk result (λ v. map (λ b. b.now) v.items ≡ body.now ∷ else_list other.now ∷ []) }
{
    let mut found = Vec::new(alloc);
    found.push(body)?;
    match other {
        None => found.push(&[])?,
        Some(other) => found.push(other.as_slice())?,
    }
    Ok(found)
}

/// The blocks within a statement.
pub fn parts_of<'a>(alloc: Global, form: &'a TypedForm) -> Result<Parts<'a>, AllocError>
    ensures seen { IfOk result (λ p. typed_form_view form.now ≡ seen_as (own_form form.now) p) }
    ensures simple { IfOk result (λ p. GoesOn (own_form form.now) p) }
    ensures within { IfOk result (λ p. statements_within form.now ≡ within p) }
{
    match form {
        TypedForm::Assign(_, _) => Ok(Parts::Simple),
        TypedForm::Move(_, _) => Ok(Parts::Simple),
        TypedForm::New(_) => Ok(Parts::Simple),
        TypedForm::Discard(_) => Ok(Parts::Simple),
        TypedForm::Unite(_, _, _) => Ok(Parts::Simple),
        TypedForm::Dissolve(_, _, _) => Ok(Parts::Simple),
        TypedForm::Reveal(_, _) => Ok(Parts::Simple),
        TypedForm::Wrap(_, _) => Ok(Parts::Simple),
        TypedForm::Unwrap(_, _, _) => Ok(Parts::Simple),
        TypedForm::Insert(_, _) => Ok(Parts::Simple),
        TypedForm::Remove(_, _, _) => Ok(Parts::Simple),
        TypedForm::Get(_, _, _) => Ok(Parts::Simple),
        TypedForm::Connect(_, _) => Ok(Parts::Simple),
        TypedForm::Send(_, _) => Ok(Parts::Simple),
        TypedForm::Receive(_, _) => Ok(Parts::Simple),
        TypedForm::Call(_, _) => Ok(Parts::Simple),
        TypedForm::Return(_) => Ok(Parts::Simple),
        TypedForm::ReturnBy(_, _) => Ok(Parts::Simple),
        TypedForm::Create(_, _) => Ok(Parts::Simple),
        TypedForm::Raise(_) => Ok(Parts::Simple),
        TypedForm::Leave => Ok(Parts::Leaving),
        TypedForm::Case(_, list) => {
            let blocks = arms(alloc, list.as_slice())?;
            Ok(Parts::Choosing(blocks))
        }
        TypedForm::Select(list) => {
            let blocks = ports(alloc, list.as_slice())?;
            Ok(Parts::Choosing(blocks))
        }
        TypedForm::If(_, body, other) => {
            let blocks = choices(alloc, body.as_slice(), other)?;
            Ok(Parts::Choosing(blocks))
        }
        TypedForm::For(_, _, body) => Ok(Parts::Repeating(body.as_slice())),
        TypedForm::While(_, body) => Ok(Parts::Repeating(body.as_slice())),
        TypedForm::Try(body, handled) => Ok(Parts::Trying(body.as_slice(), handled.as_slice())),
    }
}
