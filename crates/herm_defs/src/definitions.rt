//! Definitions become a table, or are refused at each wrong name.
ghost use Rattle.std.specs.Prelude.{◌≡◌, ◌<◌, ◌^◌, [], IfOk, IfErr, map, length};
ghost use Rattle.herm_meaning.specs.Items.{items_of};
ghost use Rattle.herm_meaning.specs.Meaning.{meaning};
ghost use Rattle.herm_meaning.specs.DefinitionFaults.{AreFaultsOf};
ghost use Rattle.herm_defs.specs.Seen.{item_seen};
ghost use Rattle.herm_defs.specs.Few.{AreFew};
ghost use Rattle.herm_defs.specs.View.{def_fault_view};
ghost use Rattle.herm_defs.specs.Refused.{IfRefused, HasFaults};

use crate::fault::DefFault;
use crate::few::{TOO_MANY, are_few};
use crate::items::items_of;
use crate::marks::faults_of;
use crate::table::table_of;
use herm_syntax::{DefItem, Module};
use herm_types::TypeTable;
use std::alloc::{AllocError, Global};

/// Why definitions give no table.
#[derive(Drop)]
pub enum DefsFault {
    /// These names are wrong: one at least, in the order of the text.
    Refused(Vec<DefFault>),
    /// Memory is wanting.
    Memory,
}

impl From<AllocError> for DefsFault {
    ghost use Rattle.herm_defs.specs.declared.definitions.DefsFault.TheVariants.{Memory};
    ghost use Rattle.std.specs.Prelude.{◌≡◌};

    ghost from_gives = { λ _ fault. fault ≡ Memory };

    fn from(_: AllocError) -> DefsFault {
        DefsFault::Memory
    }
}

/// The table that definitions mean, or their faults.
fn table_or_faults(
    alloc: Global,
    items: &[(u32, &DefItem)],
    faults: Vec<DefFault>,
) -> Result<TypeTable, DefsFault>
    requires faults { AreFaultsOf (map item_seen items.now) (map def_fault_view faults.items) }
    requires few { AreFew (map item_seen items.now) }
    requires items { length items.now < 2 ^ 31 }
    ensures table { IfOk result (λ t. t ≡ meaning (map item_seen items.now)) }
    ensures faultless { IfOk result (λ t. AreFaultsOf (map item_seen items.now) []) }
    ensures refused { IfErr result (λ fault. IfRefused fault (HasFaults (map item_seen items.now))) }
{
    if faults.is_empty() {
        let table = table_of(alloc, items)?;
        return Ok(table);
    }
    Err(DefsFault::Refused(faults))
}

/// The table of types that definitions modules mean, where no name in them is wrong; and else each wrong name, in the order of the
/// text. Only memory can be wanting; that is also the answer where there are 2^31 modules, items or parts of one list.
pub fn define(alloc: Global, modules: &[Module]) -> Result<TypeTable, DefsFault>
    ensures table { IfOk result (λ t. t ≡ meaning (items_of modules.now)) }
    ensures faultless { IfOk result (λ t. AreFaultsOf (items_of modules.now) []) }
    ensures refused { IfErr result (λ fault. IfRefused fault (HasFaults (items_of modules.now))) }
{
    if modules.len() >= TOO_MANY {
        return Err(DefsFault::Memory);
    }
    let items = items_of(alloc, modules)?;
    if !are_few(items.as_slice()) {
        return Err(DefsFault::Memory);
    }
    let faults = faults_of(alloc, items.as_slice())?;
    let table = table_or_faults(alloc, items.as_slice(), faults)?;
    Ok(table)
}
