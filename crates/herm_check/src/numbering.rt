//! The facts of a flow by numbers.
ghost use Rattle.std.specs.Prelude.{◌≡◌, [], ◌∷◌, ◌++◌, map, flat_map, List, IfOk, OnOk};
ghost use Rattle.herm_model.specs.Paths as model;
ghost use Rattle.herm_model.specs.Paths.{init};
ghost use Rattle.herm_types.specs.View.{fact_view};
ghost use Rattle.herm_facts.specs.FactNumbers.{AreApart};
ghost use Rattle.herm_check.specs.Numberings.{HaveNumbers};
ghost use Rattle.herm_check.specs.Labelled.{facts_of, all_facts, IsNumberingOf};

use crate::lists::{ListsOf, lists_in};
use herm_base::VarNo;
use herm_facts::FactNumbers;
use herm_flow::OnwardFlow;
use herm_types::{Fact, Path};
use std::alloc::{AllocError, Global};

/// The facts of a flow by numbers, and the lists of its points by these.
#[derive(Drop)]
pub struct Numbering {
    pub facts: FactNumbers,
    pub lists: Vec<ListsOf>,
}

/// There is a value at the port.
pub fn start_fact(alloc: Global) -> Fact
    ensures { fact_view result ≡ init (0 ∷ []) }
{
    Fact::Init(Path {
        var: VarNo(0),
        parts: Vec::new(alloc),
    })
}

/// Gives these facts numbers.
fn add_facts(alloc: Global, numbers: &mut FactNumbers, facts: &[Fact]) -> Result<(), AllocError>
    ensures { OnOk result ((before : List model.Fact) → HaveNumbers before numbers.old → HaveNumbers (before ++ map fact_view facts.now) numbers.new) }
{
    for fact in facts {
        numbers.add(alloc, fact)?;
    }
    Ok(())
}

/// Gives the facts of these lists numbers.
fn add_lists(
    alloc: Global,
    numbers: &mut FactNumbers,
    lists: &[Vec<Fact>],
) -> Result<(), AllocError>
    ensures { OnOk result ((before : List model.Fact) → HaveNumbers before numbers.old → HaveNumbers (before ++ flat_map facts_of lists.now) numbers.new) }
{
    for facts in lists {
        add_facts(alloc, numbers, facts.as_slice())?;
    }
    Ok(())
}

/// The number of the fact of the start.
fn first_number(alloc: Global) -> Result<FactNumbers, AllocError>
    ensures { IfOk result (λ ns. HaveNumbers (init (0 ∷ []) ∷ []) ns) }
{
    let mut numbers = FactNumbers::none(alloc);
    let start = start_fact(alloc);
    numbers.add(alloc, &start)?;
    Ok(numbers)
}

/// Numbers for the fact of the start and for those of the lists that edges make.
fn numbers_in(alloc: Global, flow: &OnwardFlow) -> Result<FactNumbers, AllocError>
    ensures numbers { IfOk result (λ ns. HaveNumbers (all_facts flow.now) ns) }
    ensures apart { IfOk result AreApart }
{
    let mut numbers = first_number(alloc)?;
    for point in &flow.points {
        add_lists(alloc, &mut numbers, point.made.as_slice())?;
    }
    let _facts = numbers.facts();
    Ok(numbers)
}

/// The facts of the flow by numbers, and its lists by these.
pub fn numbering_of(alloc: Global, flow: &OnwardFlow) -> Result<Numbering, AllocError>
    ensures { IfOk result (IsNumberingOf flow.now) }
{
    let facts = numbers_in(alloc, flow)?;
    let lists = lists_in(alloc, flow, &facts)?;
    Ok(Numbering { facts, lists })
}
