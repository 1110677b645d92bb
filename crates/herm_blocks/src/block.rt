//! Blocks: what becomes of each node of a process, before its code has indices.
use herm_base::TypeNo;
use herm_fronts::departures::Departure;
use herm_typed::TypedForm;
use herm_types::Fact;

/// A node's part of the code: its statement's number and form, the facts and slots at its first step, whether control goes on from its front to
/// the next block, and otherwise its edges.
#[derive(Drop)]
pub struct Block<'a> {
    pub statement: u32,
    pub form: &'a TypedForm,
    pub facts: Vec<Fact>,
    pub slots: Vec<(u32, TypeNo)>,
    pub onward: bool,
    pub departures: Vec<Departure<'a>>,
}

/// The edge to where a process begins, and its blocks in order.
#[derive(Drop)]
pub struct Blocks<'a> {
    pub entry: Departure<'a>,
    pub blocks: Vec<Block<'a>>,
}
