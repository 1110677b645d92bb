//! Instructions.
use herm_base::{ExcNo, TypeNo};
use herm_types::{Path, RaiseDecl};

/// An argument of a call: `In`, whose value is on the stack, or the path of an `inout` or `out` parameter.
#[derive(Drop)]
pub enum Arg {
    In,
    Inout(Path),
    Out(Path),
}

/// An arm of `Select`: the port that a message is taken from, its target, and the index that the arm's code begins at.
#[derive(Drop)]
pub struct Arm {
    pub port: Path,
    pub target: Path,
    pub index: u32,
}

/// One instruction. Paths name places in variables; constants, types, components, exceptions and modules are numbers; a
/// target of a jump is an index into the module's code; a slot names the rows that a loop has yet to visit. Values that
/// an instruction takes are on the stack, the last pushed one on top.
#[derive(Drop)]
pub enum Instr {
    /// Begins a step of the source.
    Step,
    /// Push a constant, a copy of what is at the path, the number of rows of the table there.
    Const(u32),
    Load(Path),
    Size(Path),
    /// Replace the top: the minus of an integer, `not`, the decimal text of an integer, the length of a string.
    Neg,
    Not,
    Text,
    Length,
    /// Replace the top two. The right operand is on top.
    Add,
    Sub,
    Mul,
    Div,
    Mod,
    Cat,
    And,
    Or,
    Eq,
    Ne,
    Lt,
    Le,
    Gt,
    Ge,
    /// Place the top at the path, and finalise the old value there.
    Store(Path),
    /// Go to the index, always or where the top is false.
    Jump(u32),
    JumpFalse(u32),
    /// From the first path to the second.
    Move(Path, Path),
    /// A new value of the type at the path.
    New(Path, TypeNo),
    Discard(Path),
    /// The variant, its component, and the other path.
    Unite(Path, u32, Path),
    Dissolve(Path, u32, Path),
    Reveal(Path, u32),
    /// Go to an index by the component that the variant has, one for each in order.
    CaseOf(Path, Vec<u32>),
    /// From the first path to the second, with the type of the polymorph's content.
    Wrap(Path, TypeNo, Path),
    Unwrap(Path, TypeNo, Path),
    /// The row and the table, and the number of keys on the stack.
    Insert(Path, Path),
    Remove(Path, Path, u32),
    Get(Path, Path, u32),
    /// Copy the rows of the table into the slot.
    LoopStart(Path, u32),
    /// Move the next row of the slot to the path, or go to the index where none is left.
    LoopNext(Path, u32, u32),
    /// Finalise what is left in the slot.
    LoopDrop(u32),
    /// The outport and the inport.
    Connect(Path, Path),
    /// The message, the outport, and the paths that are finalised before the message goes.
    Send(Path, Path, Vec<Path>),
    /// The target and the inport.
    Receive(Path, Path),
    Select(Vec<Arm>),
    /// The outport, an argument for each parameter, and for each declared exception what it keeps.
    Call(Path, Vec<Arg>, Vec<RaiseDecl>),
    Return(Path),
    /// The callmessage, the exception, and the places of the parameters that are given back.
    ReturnBy(Path, ExcNo, Vec<u32>),
    /// The outport, and the number of the module.
    Create(Path, u32),
    Raise(ExcNo),
    /// Finalise what is at the path.
    Drop(Path),
    /// Finalise everything, and end, by an exception or not.
    End,
    EndBy(ExcNo),
}
