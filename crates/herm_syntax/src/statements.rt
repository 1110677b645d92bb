//! Statements. Each has its number within the process, in the order of the text, a compound one
//! before its parts.
use crate::expressions::{Atom, Expr, PathForm};
use herm_base::{Name, Span, StmtNo};

/// A statement, its number and its place in the text.
#[derive(Drop)]
#[cycle(statements)]
pub struct Stmt {
    pub no: StmtNo,
    pub span: Span,
    pub form: StmtForm,
}

/// One variant for each form of statement, with its parts in the order written.
#[derive(Drop)]
#[cycle(statements)]
pub enum StmtForm {
    Assign(PathForm, Expr),
    Move(PathForm, PathForm),
    New(PathForm),
    Discard(PathForm),
    Unite(PathForm, PathForm),
    Dissolve(PathForm, PathForm),
    Reveal(PathForm),
    Case(PathForm, Vec<(Name, Vec<Stmt>)>),
    Wrap(PathForm, PathForm),
    Unwrap(PathForm, Name, PathForm),
    Insert(PathForm, PathForm),
    Remove(PathForm, PathForm, Vec<Atom>),
    Get(PathForm, PathForm, Vec<Atom>),
    For(PathForm, PathForm, Vec<Stmt>),
    Connect(PathForm, PathForm),
    Send(PathForm, PathForm),
    Receive(PathForm, PathForm),
    Select(Vec<(PathForm, PathForm, Vec<Stmt>)>),
    Call(PathForm, Vec<Atom>),
    Return(PathForm),
    ReturnBy(PathForm, Name),
    Create(PathForm, Name),
    If(Expr, Vec<Stmt>, Option<Vec<Stmt>>),
    While(Expr, Vec<Stmt>),
    Raise(Name),
    Leave,
    Try(Vec<Stmt>, Vec<(Name, Vec<Stmt>)>),
}
