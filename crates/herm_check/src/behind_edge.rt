//! What is held behind an edge.
ghost use Rattle.std.specs.Prelude.{◌≡◌, ◌&&◌, ◌||◌, not, cond, false, map, IfOk, OnOk};
ghost use Rattle.herm_model.specs.Lists.{any_pass};
ghost use Rattle.herm_model.specs.Paths as model;
ghost use Rattle.herm_model.specs.Paths.{path_of, same_fact, is_at_or_below};
ghost use Rattle.herm_model.specs.ControlPaths.{held_after_edge};
ghost use Rattle.herm_types.specs.View.{path_view, fact_view};
ghost use Rattle.herm_typestate.specs.Facts.{has_fact};
ghost use Rattle.herm_flow.specs.View.{edge_view};

use herm_flow::Edge;
use herm_types::{Fact, Path};
use herm_typestate::State;
use std::alloc::{AllocError, Global};

/// Takes what is at these paths and below.
fn kill_all(state: &mut State, kills: &[Path])
    ensures { (f : model.Fact) → has_fact state.new f ≡ cond (any_pass (λ p. is_at_or_below p (path_of f)) (map path_view kills.now)) false (has_fact state.old f) }
{
    for path in kills {
        state.kill(path);
    }
}

/// Adds these facts.
pub fn make_all(alloc: Global, state: &mut State, makes: &[Fact]) -> Result<(), AllocError>
    ensures { OnOk result ((f : model.Fact) → has_fact state.new f ≡ (any_pass (same_fact f) (map fact_view makes.now) || has_fact state.old f)) }
{
    for fact in makes {
        state.make(alloc, fact)?;
    }
    Ok(())
}

/// The facts that are held behind the edge, where these are held before it.
pub fn behind(alloc: Global, state: &State, edge: &Edge) -> Result<State, AllocError>
    ensures { IfOk result (λ after. (f : model.Fact) → has_fact after f ≡ held_after_edge (edge_view edge.now) f (has_fact state.now f)) }
{
    let mut after = state.copy(alloc)?;
    kill_all(&mut after, edge.kills());
    make_all(alloc, &mut after, edge.makes())?;
    Ok(after)
}
