//! How many cells a process holds.
ghost use Rattle.std.specs.Prelude.{◌≡◌, ⊤};
ghost use Rattle.herm_model.specs.CellNames.{count_in};
ghost use Rattle.herm_model.specs.Lists.{total};
ghost use Rattle.herm_forms.specs.Frames.{Frame as ModelFrame};
ghost use Rattle.herm_forms.specs.Weights.{weight_held};
ghost use Rattle.herm_places.specs.Held.{seen_places};
ghost use Rattle.herm_frames.specs.Counts.{cut};
ghost use Rattle.herm_frames.specs.Standing.{Stands};

use crate::counts::sum;
use crate::frame::Frame;
use crate::loops::Loop;
use herm_values::{Value, cells};
use std::collections::VecDeque;

/// How many cells are in the values at these places.
pub fn cells_at(places: &[Option<Value>]) -> u64
    ensures cells { result ≡ cut (count_in (seen_places places.now)) }
{
    let mut total = 0;
    'places: for held in places {
        if let Some(v) = held {
            total = sum(total, cells(v));
        }
    }
    total
}

/// How many cells are in the rows that a loop has yet to visit.
fn cells_of(rows: &VecDeque<Option<Value>>) -> u64
    ensures cells { result ≡ cut (count_in (seen_places rows.now.items)) }
{
    let (first, second) = rows.as_slices();
    sum(cells_at(first), cells_at(second))
}

/// How many cells are in the rows of loops.
fn cells_of_loops(loops: &[Loop]) -> u64
    ensures cells { result ≡ cut (total (λ l. count_in (seen_places l.rows)) loops.now) }
{
    let mut total = 0;
    'loops: for each in loops {
        total = sum(total, cells_of(&each.rows));
    }
    total
}

impl Frame {
    /// How many cells it holds: in variables, in the rows of loops and on the work list; 2^63 where there are more.
    pub fn cells(&self) -> u64
        ensures held { (s : ModelFrame ⊤) → Stands self.now s → result ≡ cut (weight_held (λ n. 1) s) }
    {
        let variables = cells_at(self.variables.places());
        let loops = cells_of_loops(self.loops.as_slice());
        let work = self.work.len() as u64;
        sum(sum(variables, loops), work)
    }
}
