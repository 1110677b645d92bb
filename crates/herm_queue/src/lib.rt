//! Ports, reply cells and the book: what each holds, its clock and its history. Each action leaves one entry.
#![tactic(auto)]

mod answers;
mod book;
mod laws;
mod left;
mod log;
mod messages;
mod port_cell;
mod reply_cell;

pub use book::Book;
pub use herm_letters::{Parcel, Parcels, Reply};
pub use laws::{cells_are_places, cells_open_as_places};
pub use port_cell::{Left, PortCell, Put};
pub use reply_cell::ReplyCell;
