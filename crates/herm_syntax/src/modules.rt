//! Modules: definitions, or a process.
use crate::definitions::{DefItem, Field};
use crate::statements::Stmt;
use herm_base::Name;

/// A module of a file. A list that is not written is empty.
#[derive(Drop)]
pub enum Module {
    Definitions {
        name: Name,
        items: Vec<DefItem>,
    },
    Process {
        name: Name,
        port: Field,
        vars: Vec<Field>,
        body: Vec<Stmt>,
    },
}
