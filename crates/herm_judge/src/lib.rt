//! Tests of typed statements: which names are there, which types fit, what is copied.
#![tactic(auto)]

mod arms;
mod atoms;
mod copies;
mod fits;
mod frame;
mod literals;
mod paths;
mod shapes;
mod sight;
mod there;

pub use copies::{call_parameters, call_raises, is_statement_copied, may_be_refused};
pub use fits::is_statement_fit;
pub use frame::Frame;
pub use paths::{passes_component, type_of};
pub use shapes::{is_inport, is_known};
pub use there::is_statement_there;
