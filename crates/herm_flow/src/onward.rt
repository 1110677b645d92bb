//! The flow that is checked: points whose edges lead on, and name lists of their point by numbers.

use herm_base::StmtNo;
use herm_typed::Outcome;
use herm_types::{Fact, Path};

/// The number of no list: of an edge that takes nothing away.
pub const NO_LIST: u32 = u32::MAX;

/// An edge: its outcome, the place of the point to which it leads, the numbers of the lists of its point whose facts it makes, and
/// that of the list whose paths it takes away, which is there if it takes any away.
#[derive(Drop)]
pub struct OnwardEdge {
    pub outcome: Outcome,
    pub to: u32,
    pub makes: Vec<u32>,
    pub kills: u32,
}

/// A statement by its number: the facts that it needs, lists of facts that edges make and of paths that edges take away, and its
/// edges in the order of its outcomes.
#[derive(Drop)]
pub struct OnwardPoint {
    pub stmt: StmtNo,
    pub needs: Vec<Fact>,
    pub made: Vec<Vec<Fact>>,
    pub gone: Vec<Vec<Path>>,
    pub edges: Vec<OnwardEdge>,
}

/// The statements of a process in the order of their numbers. It begins at the first one.
#[derive(Drop)]
pub struct OnwardFlow {
    pub points: Vec<OnwardPoint>,
}
