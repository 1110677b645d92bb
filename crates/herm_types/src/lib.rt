//! The types of a program by number, and the facts of their values.
#![tactic(auto)]

mod build;
mod copyable;
mod copying;
mod declared;
mod fact;
mod facts;
mod messages;
mod paths;
mod predefined;
mod shape;
mod table;

pub use fact::{DeclFact, Fact, Path};
pub use predefined::{predefined_exceptions, predefined_names, predefined_shapes};
pub use shape::{Mode, Param, Part, RaiseDecl, Shape};
pub use table::TypeTable;
