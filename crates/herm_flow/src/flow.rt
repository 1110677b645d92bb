//! The flow of a process: its points, and where each outcome leads.
ghost use Rattle.std.specs.Prelude.{◌≡◌};

use herm_base::{ExcNo, StmtNo};
use herm_typed::Outcome;
use herm_types::{Fact, Path};
use std::rc::Rc;

/// Where an outcome leads: to the point at a place, to the process's end, or to its end by an exception.
#[derive(Clone, Copy, Debug, PartialEq, Eq)]
pub enum Target {
    Point(u32),
    End,
    EndBy(ExcNo),
}

/// The facts that an outcome makes, and the paths that it takes away.
#[derive(Drop)]
pub struct Change {
    pub makes: Vec<Fact>,
    pub kills: Vec<Path>,
}

/// An outcome of a statement: what it makes and takes away, which outcomes of the statement share where it is the same, and where
/// it leads.
#[derive(Drop)]
pub struct Edge {
    pub outcome: Outcome,
    pub change: Rc<Change>,
    pub to: Target,
}

impl Edge {
    /// The facts that the outcome makes.
    pub fn makes(&self) -> &[Fact]
        ensures makes { result.now ≡ self.now.change.value.makes.items }
    {
        self.change.makes.as_slice()
    }

    /// The paths that the outcome takes away.
    pub fn kills(&self) -> &[Path]
        ensures kills { result.now ≡ self.now.change.value.kills.items }
    {
        self.change.kills.as_slice()
    }
}

/// A statement by its number: the facts that it needs, and its outcomes in their order.
#[derive(Drop)]
pub struct Point {
    pub stmt: StmtNo,
    pub needs: Vec<Fact>,
    pub edges: Vec<Edge>,
}

/// The statements of a process in the order of their numbers. It begins at the first one.
#[derive(Drop)]
pub struct Flow {
    pub points: Vec<Point>,
}
