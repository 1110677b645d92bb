//! Typed statements and processes.
use crate::expressions::{TypedAtom, TypedExpr, TypedPath};
use herm_base::{ExcNo, Name, Span, StmtNo, TypeNo};

/// A statement, its number and its place in the text.
#[derive(Drop)]
#[cycle(statements)]
pub struct TypedStmt {
    pub no: StmtNo,
    pub span: Span,
    pub form: TypedForm,
}

/// One variant for each form of statement, with its parts in the order written. A component of a variant stands by its
/// place behind the path of the variant, and each other name is a number.
#[derive(Drop)]
#[cycle(statements)]
pub enum TypedForm {
    Assign(TypedPath, TypedExpr),
    Move(TypedPath, TypedPath),
    New(TypedPath),
    Discard(TypedPath),
    Unite(TypedPath, u32, TypedPath),
    Dissolve(TypedPath, u32, TypedPath),
    Reveal(TypedPath, u32),
    Case(TypedPath, Vec<(u32, Vec<TypedStmt>)>),
    Wrap(TypedPath, TypedPath),
    Unwrap(TypedPath, TypeNo, TypedPath),
    Insert(TypedPath, TypedPath),
    Remove(TypedPath, TypedPath, Vec<TypedAtom>),
    Get(TypedPath, TypedPath, Vec<TypedAtom>),
    For(TypedPath, TypedPath, Vec<TypedStmt>),
    Connect(TypedPath, TypedPath),
    Send(TypedPath, TypedPath),
    Receive(TypedPath, TypedPath),
    Select(Vec<(TypedPath, TypedPath, Vec<TypedStmt>)>),
    Call(TypedPath, Vec<TypedAtom>),
    Return(TypedPath),
    ReturnBy(TypedPath, ExcNo),
    Create(TypedPath, u32),
    If(TypedExpr, Vec<TypedStmt>, Option<Vec<TypedStmt>>),
    While(TypedExpr, Vec<TypedStmt>),
    Raise(ExcNo),
    Leave,
    Try(Vec<TypedStmt>, Vec<(ExcNo, Vec<TypedStmt>)>),
}

/// A variable and its type.
#[derive(Drop)]
pub struct TypedVar {
    pub name: Name,
    pub of: TypeNo,
}

/// A process: its variables, of which the first is its port, and its body.
#[derive(Drop)]
pub struct TypedProcess {
    pub name: Name,
    pub vars: Vec<TypedVar>,
    pub body: Vec<TypedStmt>,
}
