//! The slots of loops around a node and at its edges.
ghost use Rattle.std.specs.Prelude.{◌≡◌, ◌++◌, map, IfOk, OnOk};
ghost use Rattle.herm_translated.specs.CodeBlocks.{own_slot, slots_within};
ghost use Rattle.herm_fronts.specs.Forms.{form_seen};
ghost use Rattle.herm_fronts.specs.Frames.{table_of, variables_of};
ghost use Rattle.herm_blocks.specs.Views.{slots_view};
ghost use Rattle.herm_blocks.specs.Scopes.{open_at};

use crate::lengths::is_within;
use herm_base::TypeNo;
use herm_fronts::frame::Frame;
use herm_fronts::shapes::shape_at;
use herm_typed::TypedForm;
use herm_types::Shape;
use std::alloc::{AllocError, Global};

/// Of these slots those of the loops that have the statement with a number.
pub fn open_slots(
    alloc: Global,
    lengths: &[u32],
    number: u32,
    slots: &[(u32, TypeNo)],
) -> Result<Vec<(u32, TypeNo)>, AllocError>
    ensures { IfOk result (λ v. slots_view v.items ≡ open_at lengths.now number (slots_view slots.now)) }
{
    let mut found = Vec::new(alloc);
    'slots: for slot in slots {
        if is_within(lengths, number, slot.0) {
            found.push(*slot)?;
        }
    }
    Ok(found)
}

/// Appends the slot of a `for`, which has its statement's number.
fn push_own_slot(
    frame: &Frame,
    number: u32,
    form: &TypedForm,
    out: &mut Vec<(u32, TypeNo)>,
) -> Result<(), AllocError>
    ensures { OnOk result (slots_view out.new.items ≡ slots_view out.old.items ++ own_slot (table_of frame.now) (variables_of frame.now) number (form_seen form.now)) }
{
    let table = match form {
        TypedForm::For(_, t, _) => t,
        TypedForm::Case(_, _) => return Ok(()),
        TypedForm::Select(_) => return Ok(()),
        TypedForm::If(_, _, _) => return Ok(()),
        TypedForm::While(_, _) => return Ok(()),
        TypedForm::Try(_, _) => return Ok(()),
        _ => return Ok(()),
    };
    match shape_at(frame, &table.path) {
        None => Ok(()),
        Some(shape) => match shape {
            Shape::Rows { row, keys: _ } => {
                out.push((number, *row))?;
                Ok(())
            }
            _ => Ok(()),
        },
    }
}

/// The slots of a form's edges, where there are these at its first step.
pub fn slots_within(
    alloc: Global,
    frame: &Frame,
    number: u32,
    form: &TypedForm,
    slots: &[(u32, TypeNo)],
) -> Result<Vec<(u32, TypeNo)>, AllocError>
    ensures { IfOk result (λ v. slots_view v.items ≡ slots_within (table_of frame.now) (variables_of frame.now) number (form_seen form.now) (slots_view slots.now)) }
{
    let mut within = Vec::new(alloc);
    push_own_slot(frame, number, form, &mut within)?;
    within.extend_from_slice(slots)?;
    Ok(within)
}
