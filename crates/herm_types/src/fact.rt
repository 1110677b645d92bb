//! Paths, and facts about values at them.
use herm_base::VarNo;

/// Where a value is: a variable, then the parts to go down.
#[derive(Drop, PartialEq, Eq, Hash)]
pub struct Path {
    pub var: VarNo,
    pub parts: Vec<u32>,
}

/// What is known of a path: that it holds a value, or that its value has this component.
#[derive(Drop, PartialEq, Eq, Hash)]
pub enum Fact {
    Init(Path),
    Case(Path, u32),
}

/// A fact of a message, which is variable 0.
pub type DeclFact = Fact;
