//! Typed expressions, in the levels of the grammar.
use herm_base::{TypeNo, Word};
use herm_syntax::{CompOp, ProdOp, SumOp, UnaryOp};
use herm_types::Path;

/// A path, and the type of the value at it.
#[derive(Drop)]
pub struct TypedPath {
    pub path: Path,
    pub of: TypeNo,
}

/// An integer, a string, a boolean, or a value of an enumeration by the type and its place.
#[derive(Drop)]
pub enum TypedLiteral {
    Int(i64),
    Text(Word),
    Bool(bool),
    Tag(TypeNo, u32),
}

/// A key or an argument: a literal or a path.
#[derive(Drop)]
pub enum TypedAtom {
    Literal(TypedLiteral),
    Path(TypedPath),
}

/// Operands of `or`.
#[derive(Drop)]
#[cycle(expressions)]
pub struct TypedExpr {
    pub first: TypedConj,
    pub rest: Vec<TypedConj>,
}

/// Operands of `and`.
#[derive(Drop)]
#[cycle(expressions)]
pub struct TypedConj {
    pub first: TypedComp,
    pub rest: Vec<TypedComp>,
}

/// A sum, or two that are compared.
#[derive(Drop)]
#[cycle(expressions)]
pub struct TypedComp {
    pub left: TypedSum,
    pub right: Option<(CompOp, TypedSum)>,
}

/// Operands of `+`, `-` and `&`, each behind its operator.
#[derive(Drop)]
#[cycle(expressions)]
pub struct TypedSum {
    pub first: TypedProd,
    pub rest: Vec<(SumOp, TypedProd)>,
}

/// Operands of `*`, `div` and `mod`, each behind its operator.
#[derive(Drop)]
#[cycle(expressions)]
pub struct TypedProd {
    pub first: TypedUnary,
    pub rest: Vec<(ProdOp, TypedUnary)>,
}

/// An operand, with `-` or `not` before it where one is written.
#[derive(Drop)]
#[cycle(expressions)]
pub struct TypedUnary {
    pub op: Option<UnaryOp>,
    pub primary: TypedPrimary,
}

/// An operand: a literal, a path, an expression in parentheses, or a call of `size`, `text` or `length`.
#[derive(Drop)]
#[cycle(expressions)]
pub enum TypedPrimary {
    Literal(TypedLiteral),
    Path(TypedPath),
    Paren(Box<TypedExpr>),
    Size(TypedPath),
    Text(Box<TypedExpr>),
    Length(Box<TypedExpr>),
}
