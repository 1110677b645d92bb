//! Whether there are numbers for all items and parts.
ghost use Rattle.std.specs.Prelude.{◌≡◌, ◌<◌, ◌^◌, IsTrue, map, length};
ghost use Rattle.herm_defs.specs.Seen.{item_seen};
ghost use Rattle.herm_defs.specs.Few.{part_total, form_total, AreFew};

use herm_syntax::{DefForm, DefItem, ShapeForm};

/// So many items or parts of one list have no numbers.
pub const TOO_MANY: usize = 0x8000_0000;

/// How many parts a shape lists.
fn part_total(shape: &ShapeForm) -> usize
    ensures { result ≡ part_total shape.now }
{
    match shape {
        ShapeForm::Names(values) => values.len(),
        ShapeForm::Fields(fields) => fields.len(),
        ShapeForm::Cases(fields) => fields.len(),
        ShapeForm::Rows { row: _, keys } => keys.len(),
        ShapeForm::Inport { message: _, facts } => facts.len(),
        ShapeForm::Outport { port: _ } => 0,
        ShapeForm::CallMessage { params, raises: _ } => params.len(),
    }
}

fn form_total(form: &DefForm) -> usize
    ensures { result ≡ form_total form.now }
{
    match form {
        DefForm::Shaped(shape) => part_total(shape),
        DefForm::Exception => 0,
    }
}

/// Whether no list of parts is too long.
fn are_short(items: &[(u32, &DefItem)]) -> bool
    ensures { IsTrue result → AreFew (map item_seen items.now) }
{
    for item in items {
        if form_total(&item.1.form) >= TOO_MANY {
            return false;
        }
    }
    true
}

/// Whether there are few items, and no list of parts of them is too long.
pub fn are_few(items: &[(u32, &DefItem)]) -> bool
    ensures items { IsTrue result → length items.now < 2 ^ 31 }
    ensures parts { IsTrue result → AreFew (map item_seen items.now) }
{
    if items.len() >= TOO_MANY {
        return false;
    }
    are_short(items)
}
