//! The trees of the language: modules, definitions of types, statements and expressions, each as the
//! grammar writes it. What a tree spells is in `specs/`, and so is the law that one list of symbols
//! has one tree.
#![tactic(auto)]

mod definitions;
mod expressions;
mod laws;
mod modules;
mod statements;

pub use definitions::{DFact, DefForm, DefItem, Field, ModeForm, ParamForm, RaiseForm, ShapeForm};
pub use expressions::{
    Atom, Comp, CompOp, Conj, Expr, Literal, PathForm, Primary, Prod, ProdOp, Sum, SumOp, Unary,
    UnaryOp,
};
pub use laws::{
    examples_are_spelled, expressions_are_read, faults_have_their_place, files_are_read,
    files_within_room_are_read, has_one_file, has_one_program, statements_are_read,
};
pub use modules::Module;
pub use statements::{Stmt, StmtForm};
