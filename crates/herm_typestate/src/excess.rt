//! The topmost paths at which one state has values and another has none.
ghost use Rattle.std.specs.Prelude.{◌≡◌, ◌<◌, ◌++◌, ◌∷◌, [], IfOk, OnOk, length, map};
ghost use Rattle.herm_model.specs.Paths.{init};
ghost use Rattle.herm_model.specs.laws.ExcessLaws.{IsExcess};
ghost use Rattle.herm_types.specs.View.{path_view};
ghost use Rattle.herm_typestate.specs.declared.tree.Mark.TheVariants.{Here as here};
ghost use Rattle.herm_typestate.specs.declared.tree.Tree.{out-Tree};
ghost use Rattle.herm_typestate.specs.Trees.{has_mark};
ghost use Rattle.herm_typestate.specs.Small.{AreSmall};
ghost use Rattle.herm_typestate.specs.Topmost.{AddTopmost, is_left, is_left_at};
ghost use Rattle.herm_typestate.specs.Facts.{has_fact};

use crate::state::State;
use crate::tree::{Tree, copy_numbers, is_here, parts_at};
use herm_base::VarNo;
use herm_types::Path;
use std::alloc::{AllocError, Global};

/// The path of these steps, of which the first is the variable's number.
fn path_of(alloc: Global, steps: &[u32]) -> Result<Path, AllocError>
    requires { 0 < length steps.now }
    ensures { IfOk result (λ p. path_view p ≡ steps.now) }
{
    let var = VarNo(steps[0]);
    let parts = copy_numbers(alloc, &steps[1..])?;
    Ok(Path { var, parts })
}

/// Appends the path of these steps.
fn push_path(alloc: Global, steps: &[u32], out: &mut Vec<Path>) -> Result<(), AllocError>
    requires { 0 < length steps.now }
    ensures { OnOk result (map path_view out.new.items ≡ map path_view out.old.items ++ steps.now ∷ []) }
{
    let path = path_of(alloc, steps)?;
    out.push(path)?;
    Ok(())
}

/// Whether there is a value in the tree and none in the low trees at its place.
fn is_gone(tree: &Tree, low: &[Tree], i: usize) -> bool
    ensures { result ≡ is_left_at tree.now low.now i [] }
{
    tree.here && !is_here(low, i)
}

/// Appends the topmost paths from these steps on that are left of the tree.
#[cycle(excess)]
fn excess_of(
    alloc: Global,
    tree: &Tree,
    low: &[Tree],
    i: usize,
    at: &mut Vec<u32>,
    out: &mut Vec<Path>,
) -> Result<(), AllocError>
    requires { 0 < length at.old.items }
    ensures at { OnOk result (at.new.items ≡ at.old.items) }
    ensures out { OnOk result (AreSmall (out-Tree tree.now).parts.items → AddTopmost (is_left_at tree.now low.now i) at.old.items (map path_view out.old.items) (map path_view out.new.items)) }
{
    if is_gone(tree, low, i) {
        push_path(alloc, at.as_slice(), out)?;
        return Ok(());
    }
    excess(alloc, tree.parts.as_slice(), parts_at(low, i), at, out)?;
    Ok(())
}

/// Appends the topmost paths from these steps on that are left of the trees.
#[cycle(excess)]
fn excess(
    alloc: Global,
    trees: &[Tree],
    low: &[Tree],
    at: &mut Vec<u32>,
    out: &mut Vec<Path>,
) -> Result<(), AllocError>
    ensures at { OnOk result (at.new.items ≡ at.old.items) }
    ensures out { OnOk result (AreSmall trees.now → AddTopmost (is_left trees.now low.now) at.old.items (map path_view out.old.items) (map path_view out.new.items)) }
{
    for (i, tree) in trees.iter().enumerate() {
        let Ok(step) = u32::try_from(i) else {
            return Ok(());
        };
        at.push(step)?;
        excess_of(alloc, tree, low, i, at, out)?;
        at.pop();
    }
    Ok(())
}

impl State {
    /// The topmost paths at which there is a value by this set and none by the low one, in order.
    pub fn excess(&self, alloc: Global, low: &State) -> Result<Vec<Path>, AllocError>
        ensures { IfOk result (λ paths. IsExcess (has_fact self.now) (has_fact low.now) (map path_view paths.items)) }
    {
        let mut at = Vec::new(alloc);
        let mut out = Vec::new(alloc);
        excess(
            alloc,
            self.vars.as_slice(),
            low.vars.as_slice(),
            &mut at,
            &mut out,
        )?;
        Ok(out)
    }
}
