//! What is known of one point while labels are looked for.
ghost use Rattle.std.specs.Prelude.{◌≡◌, ◌≤◌, ◌&&◌, ℕ, true, false, cond, List, Some};
ghost use Rattle.herm_model.specs.Lists.{IsIn};
ghost use Rattle.herm_model.specs.Paths.{Fact};
ghost use Rattle.herm_facts.specs.declared.fact_numbers.FactNumbers.{FactNumbers};
ghost use Rattle.herm_facts.specs.FactNumbers.{number_of};
ghost use Rattle.herm_facts.specs.NumberSets.{has_number};
ghost use Rattle.herm_check.specs.Numberings.{AreOfFacts};
ghost use Rattle.herm_check.specs.Weights.{label_weight};

use herm_facts::NumberSet;

/// Whether a control path to the point was found, whether the point is still to be left, and the numbers of the facts that are
/// held on every path that was followed so far.
#[derive(Drop)]
pub struct Label {
    pub reached: bool,
    pub pending: bool,
    pub held: NumberSet,
}

/// Adds a path to the point, behind which these facts are held.
pub fn join(label: &mut Label, after: NumberSet)
    ensures reached { label.new.reached ≡ true }
    ensures held { (n : ℕ) → has_number label.new.held n ≡ cond label.old.reached (has_number label.old.held n && has_number after n) (has_number after n) }
    ensures still { label.new.pending ≡ false → (label.old.reached ≡ true) × (label.old.pending ≡ false) × ((n : ℕ) → has_number label.new.held n ≡ has_number label.old.held n) }
    ensures less { (ns : FactNumbers) (all : List Fact) → AreOfFacts ns label.old.held → ((f : Fact) (n : ℕ) → number_of ns f ≡ Some n → IsIn f all) → label_weight ns all label.new ≤ label_weight ns all label.old }
{
    if !label.reached {
        label.reached = true;
        label.pending = true;
        label.held = after;
        return;
    }
    if label.held.is_below(&after) {
        return;
    }
    label.held.intersect(&after);
    label.pending = true;
}
