//! To which blocks edges lead.
ghost use Rattle.std.specs.Prelude.{◌≡◌, ◌<◌, ◌||◌, ℕ, false, map, length, nat_eq, get_or, replicate, IfOk};
ghost use Rattle.herm_model.specs.Lists.{any_pass};
ghost use Rattle.herm_translated.specs.BlockLabels.{goes_to_first};
ghost use Rattle.herm_fronts.specs.Blocks.{arrival_view, departure_view, marked_view};
ghost use Rattle.herm_blocks.specs.Seen.{ways_view};
ghost use Rattle.herm_blocks.specs.Scopes.{led_by};

use crate::ways::Ways;
use herm_fronts::departures::{Arrival, Departure};
use std::alloc::{AllocError, Global};

/// Marks a place, where it is there.
#[tactic(auto, using(crate::proofs::Marks::mark_set, crate::proofs::Marks::mark_none))]
fn set(led: &mut Vec<bool>, place: usize)
    ensures many { length led.new.items ≡ length led.old.items }
    ensures marked { (i : ℕ) → i < length led.old.items → get_or led.new.items i false ≡ (get_or led.old.items i false || nat_eq place i) }
{
    if place < led.len() {
        led[place] = true;
        return;
    }
}

/// Marks the node at whose first step an edge arrives.
fn mark(led: &mut Vec<bool>, arrival: Arrival)
    ensures many { length led.new.items ≡ length led.old.items }
    ensures marked { (i : ℕ) → i < length led.old.items → get_or led.new.items i false ≡ (get_or led.old.items i false || goes_to_first i (arrival_view arrival)) }
{
    match arrival {
        Arrival::Block(node) => {
            set(led, node as usize);
            return;
        }
        Arrival::SecondStep(_) => return,
        Arrival::End => return,
        Arrival::EndBy(_) => return,
    }
}

/// Marks the nodes at whose first steps edges arrive.
fn mark_all(led: &mut Vec<bool>, edges: &[Departure<'_>])
    ensures many { length led.new.items ≡ length led.old.items }
    ensures marked { (i : ℕ) → i < length led.old.items → get_or led.new.items i false ≡ (get_or led.old.items i false || any_pass (λ d. goes_to_first i d.departure.arrival) (map marked_view edges.now)) }
{
    'edges: for edge in edges {
        mark(led, edge.arrival);
    }
}

/// Marks the nodes at whose first steps the edges of blocks arrive.
fn mark_each(led: &mut Vec<bool>, ways: &[Ways<'_>])
    ensures many { length led.new.items ≡ length led.old.items }
    ensures marked { (i : ℕ) → i < length led.old.items → get_or led.new.items i false ≡ (get_or led.old.items i false || any_pass (λ w. any_pass (λ d. goes_to_first i d.departure.arrival) w.departures) (map ways_view ways.now)) }
{
    'ways: for way in ways {
        mark_all(led, way.departures.as_slice());
    }
}

/// So many places that are not marked.
fn unmarked(alloc: Global, count: usize) -> Result<Vec<bool>, AllocError>
    ensures { IfOk result (λ v. v.items ≡ replicate count false) }
{
    Ok(vec![in alloc; false; count]?)
}

/// For each block whether an edge leads to its first step, that to where the process begins among them.
pub fn led_of(
    alloc: Global,
    entry: &Departure<'_>,
    ways: &[Ways<'_>],
) -> Result<Vec<bool>, AllocError>
    ensures led { IfOk result (λ v. (i : ℕ) → i < length ways.now → get_or v.items i false ≡ led_by (departure_view entry.now) (map ways_view ways.now) i) }
{
    let mut led = unmarked(alloc, ways.len())?;
    mark(&mut led, entry.arrival);
    mark_each(&mut led, ways);
    Ok(led)
}
