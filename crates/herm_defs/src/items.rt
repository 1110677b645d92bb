//! The items of all definitions modules.
ghost use Rattle.std.specs.Prelude.{◌≡◌, ◌<◌, ◌^◌, ◌++◌, IfOk, OnOk, map, length};
ghost use Rattle.herm_meaning.specs.Items.{items_of, module_items};
ghost use Rattle.herm_defs.specs.Seen.{item_seen};

use herm_syntax::{DefItem, Module};
use std::alloc::{AllocError, Global};

/// Appends the items of a module.
fn push_items<'a>(
    all: &mut Vec<(u32, &'a DefItem)>,
    number: u32,
    items: &'a [DefItem],
) -> Result<(), AllocError>
    ensures { OnOk result (map item_seen all.new.items ≡ map item_seen all.old.items ++ map (λ item. (number, item)) items.now) }
{
    for item in items {
        all.push((number, item))?;
    }
    Ok(())
}

/// Appends the items of a module, where it is one of definitions.
fn push_module<'a>(
    all: &mut Vec<(u32, &'a DefItem)>,
    number: u32,
    block: &'a Module,
) -> Result<(), AllocError>
    ensures { OnOk result (map item_seen all.new.items ≡ map item_seen all.old.items ++ module_items number block.now) }
{
    match block {
        Module::Definitions { name: _, items } => {
            push_items(all, number, items.as_slice())?;
            Ok(())
        }
        Module::Process {
            name: _,
            port: _,
            vars: _,
            body: _,
        } => Ok(()),
    }
}

/// The items in order, each with the number of its module.
pub fn items_of<'a>(
    alloc: Global,
    modules: &'a [Module],
) -> Result<Vec<(u32, &'a DefItem)>, AllocError>
    requires { length modules.now < 2 ^ 32 }
    ensures { IfOk result (λ v. map item_seen v.items ≡ items_of modules.now) }
{
    let mut all = Vec::new(alloc);
    for (number, block) in modules.iter().enumerate() {
        push_module(&mut all, number as u32, block)?;
    }
    Ok(all)
}
