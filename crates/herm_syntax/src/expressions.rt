//! Expressions, in seven levels, each a first operand and those behind the level's operators.
use herm_base::{Name, Word};

/// A path: a variable and the parts behind it.
#[derive(Drop)]
pub struct PathForm {
    pub parts: Vec<Name>,
}

/// An integer, a string by its content, a boolean, or a value of an enumeration by the type's name.
#[derive(Drop)]
pub enum Literal {
    Int(i64),
    Text(Word),
    Bool(bool),
    Tag(Name, Name),
}

/// A key or an argument: a literal or a path.
#[derive(Drop)]
pub enum Atom {
    Literal(Literal),
    Path(PathForm),
}

/// Operands of `or`.
#[derive(Drop)]
#[cycle(expressions)]
pub struct Expr {
    pub first: Conj,
    pub rest: Vec<Conj>,
}

/// Operands of `and`.
#[derive(Drop)]
#[cycle(expressions)]
pub struct Conj {
    pub first: Comp,
    pub rest: Vec<Comp>,
}

/// A sum, or two that are compared.
#[derive(Drop)]
#[cycle(expressions)]
pub struct Comp {
    pub left: Sum,
    pub right: Option<(CompOp, Box<Sum>)>,
}

/// Operands of `+`, `-` and `&`, each behind its operator.
#[derive(Drop)]
#[cycle(expressions)]
pub struct Sum {
    pub first: Prod,
    pub rest: Vec<(SumOp, Prod)>,
}

/// Operands of `*`, `div` and `mod`, each behind its operator.
#[derive(Drop)]
#[cycle(expressions)]
pub struct Prod {
    pub first: Unary,
    pub rest: Vec<(ProdOp, Unary)>,
}

/// An operand, with `-` or `not` before it where one is written.
#[derive(Drop)]
#[cycle(expressions)]
pub struct Unary {
    pub op: Option<UnaryOp>,
    pub primary: Primary,
}

/// An operand: a literal, a path, an expression in parentheses, or a call of `size`, `text` or `length`.
#[derive(Drop)]
#[cycle(expressions)]
pub enum Primary {
    Literal(Literal),
    Path(PathForm),
    Paren(Box<Expr>),
    Size(PathForm),
    Text(Box<Expr>),
    Length(Box<Expr>),
}

/// `=`, `<>`, `<`, `<=`, `>` and `>=`.
#[derive(Clone, Copy, Debug, PartialEq, Eq)]
pub enum CompOp {
    Eq,
    Ne,
    Lt,
    Le,
    Gt,
    Ge,
}

/// `+`, `-` and `&`.
#[derive(Clone, Copy, Debug, PartialEq, Eq)]
pub enum SumOp {
    Add,
    Sub,
    Cat,
}

/// `*`, `div` and `mod`.
#[derive(Clone, Copy, Debug, PartialEq, Eq)]
pub enum ProdOp {
    Mul,
    Div,
    Mod,
}

/// `-` and `not`.
#[derive(Clone, Copy, Debug, PartialEq, Eq)]
pub enum UnaryOp {
    Neg,
    Not,
}
