//! The rows that loops have yet to visit.
use herm_values::Value;
use std::collections::VecDeque;
use std::marker::Model;

/// The rows that a loop has yet to visit, under the number of its slot. Each is whole.
#[derive(Drop)]
pub struct Loop {
    pub(crate) slot: u32,
    pub(crate) rows: VecDeque<Option<Value>>,
}

impl Model for Loop {
    ghost use Rattle.std.specs.Coded.{codes};
    ghost use Rattle.herm_values.specs.Whole.{AllWhole};
    ghost use Rattle.herm_values.specs.contracts.value.Value as held;
    ghost use Rattle.herm_frames.specs.HeldFrames.{HeldLoop};

    ghost Value = { HeldLoop };

    ghost coded = { Prim.hlevel (codes, held.the_row.coded) };

    ghost view = { λ l. record { slot = l.slot; rows = l.rows.items } };

    ghost invariant = { λ l. AllWhole l.rows.items };
}
