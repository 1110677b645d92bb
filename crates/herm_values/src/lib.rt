//! What processes hold: values of every type, and tables of rows found by their keys.
#![tactic(auto)]

mod copying;
mod count;
mod depth;
mod facts;
mod finalising;
mod keys;
mod places;
mod scalar;
mod table;
mod value;
mod work;

pub use copying::copy_of;
pub use count::{cells, cells_wait_or_end};
pub use depth::poly_depth;
pub use facts::meets;
pub use finalising::{finalise, pending};
pub use keys::key_of;
pub use scalar::{KeyRow, Scalar};
pub use value::{Table, Value};
pub use work::{Work, WorkItem};
