//! Values, and tables of them.
use crate::scalar::KeyRow;
use herm_base::{PortNo, Word};
use herm_parcels::{CallMsg, Poly};
use herm_rows::Rows;

/// What a variable, a part of a value or a message holds.
#[derive(Drop)]
#[cycle(value)]
pub enum Value {
    Bool(bool),
    Int(i64),
    /// A string's bytes.
    Text(Word),
    /// The place of an enumeration's name.
    Tag(u32),
    /// A record's fields in declared order, each with a value or empty.
    Fields(Vec<Option<Value>>),
    /// The place of a variant's component, and the component.
    Case(u32, Box<Value>),
    Table(Box<Table>),
    Poly(Poly<Value>),
    Call(CallMsg<Value>),
    Inport(PortNo),
    Outport(PortNo),
}

/// A table: the places of its key's fields, its keys in the order in which their rows were inserted, and its rows, each
/// at the place that its key names.
#[derive(Drop)]
#[cycle(value)]
pub struct Table {
    pub(crate) columns: Vec<u32>,
    pub(crate) keys: Rows<KeyRow>,
    pub(crate) rows: Vec<Option<Value>>,
}

const _: () = prove!(size_of::<Value>() <= 48);
