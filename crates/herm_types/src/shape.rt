//! The shapes of types.
use crate::fact::DeclFact;
use herm_base::{ExcNo, TypeNo, Word};

/// A field of a record or a component of a variant.
#[derive(Drop)]
pub struct Part {
    pub name: Word,
    pub of: TypeNo,
}

/// How a parameter goes: to the called process, both ways, or back from it.
#[derive(Clone, Copy, Debug, PartialEq, Eq)]
pub enum Mode {
    In,
    Inout,
    Out,
}

/// A parameter of a callmessage.
#[derive(Drop)]
pub struct Param {
    pub mode: Mode,
    pub name: Word,
    pub of: TypeNo,
}

/// An exception that a callmessage may raise, and the places of the parameters that it keeps, rising.
#[derive(Drop)]
pub struct RaiseDecl {
    pub exc: ExcNo,
    pub keeps: Vec<u32>,
}

/// What the values of a type are. A table's `keys` are places of fields of its row; an inport's list of facts is empty
/// where none is written.
#[derive(Drop)]
pub enum Shape {
    Boolean,
    Integer,
    Text,
    Names(Vec<Word>),
    Fields(Vec<Part>),
    Cases(Vec<Part>),
    Rows {
        row: TypeNo,
        keys: Vec<u32>,
    },
    Poly,
    Inport {
        message: TypeNo,
        facts: Vec<DeclFact>,
    },
    Outport {
        port: TypeNo,
    },
    CallMessage {
        params: Vec<Param>,
        raises: Vec<RaiseDecl>,
    },
}
