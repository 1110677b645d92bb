//! Tables that are made anew with other fields as their key.
ghost use Rattle.std.specs.Prelude.{◌≡◌, IfOk, IfSome, IfNone, IsTrue, IsFalse, Ok, None};
ghost use Rattle.herm_model.specs.Values.{joined, no_parts, part, read_at};
ghost use Rattle.herm_types.specs.View.{path_view};
ghost use Rattle.herm_places.specs.Held.{keyed_places, seen_places};
ghost use Rattle.herm_values.specs.View.{value_view, table_parts};
ghost use Rattle.herm_values.specs.Whole.{IsWhole, IsWholeTable};
ghost use Rattle.herm_frames.specs.Keyings.{CanHaveKey, DiffersBy, IsKeying, IsWholeKeying};
ghost use Rattle.herm_frames.specs.KeyedTables.{IsTableOf};
ghost use Rattle.herm_frames.specs.Refusals.{refusal};
ghost use Rattle.herm_frames.specs.declared.rekeying.Keying.TheVariants as keying;

use crate::tables::table_in;
use herm_places::Variables;
use herm_rows::InsertFault;
use herm_types::Path;
use herm_values::{Table, Value, copy_of};
use std::alloc::{AllocError, Global};

/// Puts a row behind the others. False where the table refuses it.
fn add(table: &mut Table, row: Value) -> Result<bool, AllocError>
    requires whole { IsWholeTable table.old }
    requires row { IsWhole row }
    ensures rows { IfOk result (λ b. IsTrue b → table_parts table.new ≡ joined (table_parts table.old) (part (value_view row) no_parts)) }
    ensures refused { IfOk result (λ b. IsFalse b → refusal table.old.columns.items (value_view row) (table_parts table.old) ≡ None → ⊥) }
    ensures columns { table.new.columns ≡ table.old.columns }
    ensures whole { IsWholeTable table.new }
{
    match table.insert(row) {
        Ok(()) => Ok(true),
        Err(InsertFault::Duplicate(_)) => Ok(false),
        Err(InsertFault::Full(_)) => Ok(false),
        Err(InsertFault::Memory(_)) => Err(AllocError),
    }
}

/// A table of equal rows, with these fields as its key. None where its rows do not differ by them.
#[tactic(auto, using(crate::proofs::Rekeyed::rekeying))]
fn rekeyed(alloc: Global, table: &Table, columns: &[u32]) -> Result<Option<Table>, AllocError>
    requires whole { IsWholeTable table.now }
    ensures columns { IfOk result (λ o. IfSome o (λ t. t.columns.items ≡ columns.now)) }
    ensures rows { IfOk result (λ o. IfSome o (λ t. table_parts t ≡ table_parts table.now)) }
    ensures none { IfOk result (λ o. IfNone o (DiffersBy columns.now (table_parts table.now) → ⊥)) }
    ensures whole { IfOk result (λ o. IfSome o IsWholeTable) }
{
    let fields = Vec::from_slice(alloc, columns)?;
    let mut made = Table::new(alloc, fields);
    let mut next = table.first();
    'rows: while let Some(node) = next {
        next = table.after(node);
        let Some(held) = table.row(node) else {
            unreachable!()
        };
        let row = copy_of(alloc, held)?;
        if !add(&mut made, row)? {
            return Ok(None);
        }
    }
    Ok(Some(made))
}

/// What is to be done so that a table has fields as its key: nothing, since it has them or nothing is there; it is no table, or
/// its rows do not differ by them; or this table takes its place.
#[derive(Drop)]
pub enum Keying {
    Kept,
    Refused,
    Anew(Box<Table>),
}

/// What is to be done so that what is read at a path is a table with these fields as its key.
pub fn keying_at(
    alloc: Global,
    variables: &Variables,
    path: &Path,
    columns: &[u32],
) -> Result<Keying, AllocError>
    ensures keying { IfOk result (λ k. IsKeying k columns.now (read_at (path_view path.now) (keyed_places variables.now)) (read_at (path_view path.now) (seen_places variables.now))) }
    ensures kept { IsTableOf columns.now (read_at (path_view path.now) (keyed_places variables.now)) → result ≡ Ok keying.Kept }
    ensures whole { IfOk result IsWholeKeying }
{
    let Some(v) = variables.read(path) else {
        return Ok(Keying::Kept);
    };
    let Some(table) = table_in(v) else {
        return Ok(Keying::Refused);
    };
    if table.columns() == columns {
        return Ok(Keying::Kept);
    }
    let Some(made) = rekeyed(alloc, table, columns)? else {
        return Ok(Keying::Refused);
    };
    let table = Box::new(alloc, made)?;
    Ok(Keying::Anew(table))
}
