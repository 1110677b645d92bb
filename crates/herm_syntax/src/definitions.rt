//! Definitions of types and exceptions.
use herm_base::Name;

/// A part and its type: a field of a record, a component of a variant, a parameter or a variable.
#[derive(Drop)]
pub struct Field {
    pub name: Name,
    pub of: Name,
}

/// One item of a definitions module.
#[derive(Drop)]
pub struct DefItem {
    pub name: Name,
    pub form: DefForm,
}

/// What an item defines.
#[derive(Drop)]
pub enum DefForm {
    Shaped(ShapeForm),
    Exception,
}

/// The shape of a type. A list that is not written is empty.
#[derive(Drop)]
pub enum ShapeForm {
    Names(Vec<Name>),
    Fields(Vec<Field>),
    Cases(Vec<Field>),
    Rows {
        row: Name,
        keys: Vec<Name>,
    },
    Inport {
        message: Name,
        facts: Vec<DFact>,
    },
    Outport {
        port: Name,
    },
    CallMessage {
        params: Vec<ParamForm>,
        raises: Vec<RaiseForm>,
    },
}

/// A parameter of a callmessage.
#[derive(Drop)]
pub struct ParamForm {
    pub mode: ModeForm,
    pub field: Field,
}

/// How a parameter goes: to the called process, both ways, or back from it.
#[derive(Clone, Copy, Debug, PartialEq, Eq)]
pub enum ModeForm {
    In,
    Inout,
    Out,
}

/// An exception that a call may raise, and the parameters that it keeps, none where no list is written.
#[derive(Drop)]
pub struct RaiseForm {
    pub name: Name,
    pub keeps: Vec<Name>,
}

/// A declared fact of a message: the path's parts and, for a case, the component.
#[derive(Drop)]
pub enum DFact {
    Init(Vec<Name>),
    Full(Vec<Name>),
    Case(Vec<Name>, Name),
}
