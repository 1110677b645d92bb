//! Definitions of types: what they mean, and each wrong name.
#![tactic(auto)]

mod calls;
mod context;
mod definitions;
mod distinct;
mod facts;
mod fault;
mod few;
mod fields;
mod gather;
mod items;
mod judge;
mod keeps;
mod listed;
mod marks;
mod names;
mod outline;
mod read;
mod table;

ghost use Rattle.std.specs.Prelude.{IfOk, map};
ghost use Rattle.herm_meaning.specs.Items.{items_of};
ghost use Rattle.herm_meaning.specs.DefinitionFaults.{AreFaultsOf};
ghost use Rattle.herm_defs.specs.View.{def_fault_view};

pub use definitions::{DefsFault, define};
pub use fault::{DefCode, DefFault};
use few::{TOO_MANY, are_few};
use herm_syntax::Module;
use items::items_of;
use marks::faults_of;
use std::alloc::{AllocError, Global};

/// The faults of definitions modules, in the order of the text: at each name at most one, the first that holds there. Only
/// memory can be wanting; that is also the answer where there are 2^31 modules, items or parts of one list.
pub fn definition_faults(alloc: Global, modules: &[Module]) -> Result<Vec<DefFault>, AllocError>
    ensures faults { IfOk result (λ v. AreFaultsOf (items_of modules.now) (map def_fault_view v.items)) }
{
    if modules.len() >= TOO_MANY {
        return Err(AllocError);
    }
    let items = items_of(alloc, modules)?;
    if !are_few(items.as_slice()) {
        return Err(AllocError);
    }
    let faults = faults_of(alloc, items.as_slice())?;
    Ok(faults)
}
