//! Constants, labels and code modules.
use crate::instr::Instr;
use herm_base::{ExcNo, TypeNo, Word};
use herm_types::Fact;

/// A constant: a truth value, an integer, a string, or a value of an enumeration by its type and its place there.
#[derive(Drop)]
pub enum Const {
    Bool(bool),
    Int(i64),
    Text(Word),
    Tag(TypeNo, u32),
}

/// What is there at an index: the types of the values on the stack, the top first; the facts of the variables; and the
/// slots of the loops around it, the innermost first, with the types of their rows.
#[derive(Drop)]
pub struct Label {
    pub stack: Vec<TypeNo>,
    pub facts: Vec<Fact>,
    pub slots: Vec<(u32, TypeNo)>,
}

/// The code of a process: its name, the types of its variables, of which the first is its port, its instructions by index,
/// for each the exceptions that it can raise and the index that each leads to, and by rising index the labels of the
/// targets of jumps and of landings.
#[derive(Drop)]
pub struct CodeModule {
    pub name: Word,
    pub vars: Vec<TypeNo>,
    pub code: Vec<Instr>,
    pub landings: Vec<Vec<(ExcNo, u32)>>,
    pub labels: Vec<(u32, Label)>,
}
