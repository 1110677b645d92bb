//! Facts by numbers.
ghost use Rattle.std.specs.Prelude.{map};
ghost use Rattle.herm_types.specs.View.{fact_view};
ghost use Rattle.herm_facts.specs.Numbers.{AreTreesOf};

use crate::numbered::Numbered;
use herm_types::Fact;

/// Facts by numbers: each has the number of facts that were added before it.
#[derive(Drop)]
pub struct FactNumbers {
    pub(crate) trees: Vec<Numbered>,
    pub(crate) facts: Vec<Fact>,
    ghost numbers: { AreTreesOf trees.items (map fact_view facts.items) },
}
