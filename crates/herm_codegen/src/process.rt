//! The code of a process.
ghost use Rattle.std.specs.Prelude.{◌≡◌, map, IfOk};
ghost use Rattle.herm_translated.specs.Translated.{code_of};
ghost use Rattle.herm_code.specs.View.{module_view};
ghost use Rattle.herm_fronts.specs.Frames.{kinds};
ghost use Rattle.herm_fronts.specs.View.{key_view};
ghost use Rattle.herm_blocks.specs.CheckedProcesses.{checked_view, HasFlow};

use crate::modules::module_of;
use herm_base::TypeNo;
use herm_blocks::{CheckedProcess, blocks_of};
use herm_code::CodeModule;
use herm_fronts::constants::Key;
use herm_fronts::frame::Frame;
use herm_typed::TypedVar;
use herm_types::TypeTable;
use indexmap::IndexSet;
use std::alloc::{AllocError, Global};

/// The types of variables.
fn types_of(alloc: Global, vars: &[TypedVar]) -> Result<Vec<TypeNo>, AllocError>
    ensures { IfOk result (λ v. kinds v.items ≡ map (λ x. x.of.0) vars.now) }
{
    let mut found = Vec::with_capacity(alloc, vars.len())?;
    'vars: for x in vars {
        found.push(x.of)?;
    }
    Ok(found)
}

/// The code of a process, over these constants.
pub fn code_of(
    alloc: Global,
    types: &TypeTable,
    keys: &IndexSet<Key>,
    checked: &CheckedProcess<'_>,
) -> Result<CodeModule, AllocError>
    requires flow { HasFlow types.now.shapes checked.now }
    ensures code { IfOk result (λ m. module_view m ≡ code_of (map key_view keys.now.keys) (checked_view types.now.shapes checked.now)) }
    ensures name { IfOk result (λ m. m.name ≡ checked.now.process.now.name.text) }
{
    let of = types_of(alloc, checked.process.vars.as_slice())?;
    let frame = Frame {
        types,
        of: of.as_slice(),
    };
    let found = blocks_of(alloc, types, checked)?;
    let name = checked.process.name.text.clone()?;
    let blocks = found.blocks;
    let code = module_of(alloc, &frame, keys, name, &found.entry, blocks)?;
    Ok(code)
}
