//! Which edges the points of a walk have.
ghost use Rattle.std.specs.Prelude.{◌≡◌, []};

use crate::flow::Point;
use crate::onward::OnwardPoint;
use std::alloc::Global;

/// All edges, or those alone that lead on to points and are not covered by others.
#[derive(Clone, Copy)]
pub enum Kept {
    All,
    Onward,
}

/// The points that a walk adds: with all edges, or as points of the flow that is checked. One of the two lists stays empty.
#[derive(Drop)]
pub struct Points {
    pub whole: Vec<Point>,
    pub onward: Vec<OnwardPoint>,
}

impl Points {
    /// No points.
    pub fn none(alloc: Global) -> Points
        ensures whole { result.whole.items ≡ [] }
        ensures onward { result.onward.items ≡ [] }
    {
        Points {
            whole: Vec::new(alloc),
            onward: Vec::new(alloc),
        }
    }
}
