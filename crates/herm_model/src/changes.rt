// Laws of a change at a path that may pass through components.

ghost use Rattle.std.specs.Prelude.{ℕ};
ghost use Rattle.herm_model.specs.Paths.{Path};
ghost use Rattle.herm_model.specs.Values.{Name, Cell, Parts};
ghost use Rattle.herm_model.specs.laws.ChangesThrough.{LeavesTheRest, ChangesInside};

/// A change through components leaves what is read and what stands at every path apart from its own, and every fact that
/// speaks of no path there or below. Above the path stands the cell that was there, with the change inside.
pub fn a_change_through_components_is_local()
    ensures rest { (j : ℕ) (p : Path) (f : Cell Name → Cell Name) (ps : Parts Name) → LeavesTheRest j p f ps }
    ensures above { ChangesInside }
{}
