//! The typed trees of process modules: each name is a number, and each path has the type of its value.
#![tactic(auto)]

mod expressions;
mod outcome_list;
mod raises;
mod statements;

pub use expressions::{
    TypedAtom, TypedComp, TypedConj, TypedExpr, TypedLiteral, TypedPath, TypedPrimary, TypedProd,
    TypedSum, TypedUnary,
};
pub use outcome_list::{Outcome, outcomes};
pub use raises::{Raises, expression_raises};
pub use statements::{TypedForm, TypedProcess, TypedStmt, TypedVar};
