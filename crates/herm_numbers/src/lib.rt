//! Names of process modules by number, part by part: paths, expressions, statements without blocks and declarations, each with
//! its code.
#![tactic(auto)]

mod atoms;
mod counts;
mod declarations;
mod expressions;
mod fault;
mod forms;
mod index;
mod judge;
mod known;
mod names;
mod part_names;
mod paths;
mod scope;

pub use counts::has_many_paths;
pub use declarations::{add_fault, add_found, add_port, add_variables, is_declared};
pub use expressions::expression;
pub use fault::{Judged, NameCode, NameFault, ResolveFault};
pub use forms::{
    assign, call, component_of, connect, create, discard, dissolve, exception_number, get,
    give_back, insert, make, move_to, raise, receive, remove, return_by, reveal, send, two_paths,
    unite, unwrap, wrap,
};
pub use index::Names;
pub use judge::code_of;
pub use known::{Known, known_of, scope_of, variables_of};
pub use paths::path;
pub use scope::Scope;
