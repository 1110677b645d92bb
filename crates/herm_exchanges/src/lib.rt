//! What instructions want that are actions, and what the answers leave of a process.
#![tactic(auto)]

mod calling;
mod giving;
mod hearing;
mod making;
mod ports;
mod queues;
mod receiving;
mod sending;
mod wants;
mod working;

pub use calling::{compose, refused};
pub use giving::{finalise_call, given, take_all, take_given};
pub use hearing::{drop_left, heard};
pub use making::{create, new_inport};
pub use receiving::{receive, select};
pub use sending::{came_back, drop_all, take_message};
pub use wants::{PortList, Want, port_at, port_of_arm, want_of, work_want};
pub use working::{answered, closed};
