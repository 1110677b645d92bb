//! Each row comes to what it says.
ghost use Rattle.std.specs.Prelude.{IfOk};
ghost use Rattle.herm_values.specs.Whole.{IsWhole, IsWholeTable};

use crate::rows::{Arrival, Row, row_at, row_of};
use crate::{Sums, World};
use herm_base::Word;
use herm_code::Image;
use herm_compile::{CompileFault, compile};
use herm_values::{Table, Value};
use std::alloc::{AllocError, Global};
use std::test::Fail;

/// The image of a program; none where it is refused.
fn image_of(alloc: Global, source: &str) -> Result<Option<Image>, AllocError> {
    let name = Word::of(alloc, b"a.hm")?;
    let bytes = Vec::from_slice(alloc, source.as_bytes())?;
    let mut files = Vec::new(alloc);
    files.push((name, bytes))?;
    match compile(alloc, files.as_slice()) {
        Ok(compiled) => Ok(Some(compiled.image)),
        Err(CompileFault::Memory) => Err(AllocError),
        Err(_) => Ok(None),
    }
}

/// The number of the module with this name.
fn module_of(image: &Image, name: &[u8]) -> u32 {
    let mut number: u32 = 0;
    'modules: for module in image.modules() {
        if module.name.bytes() == name {
            return number;
        }
        number = number.wrapping_add(1);
    }
    number
}

fn push_shown(shown: &mut Vec<u8>, value: &Value) -> Result<(), AllocError> {
    if let Value::Text(word) = value {
        shown.extend_from_slice(word.bytes())?;
    }
    shown.push(b';')?;
    Ok(())
}

/// The strings that wait at the console's port, each followed by `;`.
fn shown(alloc: Global, world: &mut World) -> Result<Vec<u8>, AllocError> {
    let mut shown = Vec::new(alloc);
    'strings: for _ in 0..64 {
        let Some(value) = world.shown() else {
            return Ok(shown);
        };
        push_shown(&mut shown, &value)?;
    }
    Ok(shown)
}

fn are_so(world: &World, sums: &[Sums]) -> bool {
    let mut place: usize = 0;
    'processes: for expected in sums {
        if world.sums(place) != Some(*expected) {
            return false;
        }
        place = place.wrapping_add(1);
    }
    world.sums(place).is_none()
}

/// Runs a world, and tells whether it comes to what the row says.
fn is_run(alloc: Global, world: &mut World, row: &Row) -> Result<bool, AllocError> {
    world.run()?;
    let so = are_so(world, row.sums);
    let shown = shown(alloc, world)?;
    Ok(so && shown.as_slice() == row.shown.as_bytes())
}

fn is_so(alloc: Global, row: &Row) -> Result<bool, AllocError> {
    let Some(image) = image_of(alloc, row.source)? else {
        return Ok(false);
    };
    let main = module_of(&image, b"main");
    let Some(mut world) = World::begin(alloc, &image, main, row.most)? else {
        return Ok(false);
    };
    let so = is_run(alloc, &mut world, row)?;
    Ok(so)
}

/// Whether each row comes to what it says, with their count; or false, with the number of the first that does not.
fn all_so(alloc: Global) -> Result<(bool, usize), AllocError> {
    'rows: for number in 0..100 {
        let Some(row) = row_of(number) else {
            return Ok((true, number));
        };
        let so = is_so(alloc, &row)?;
        if !so {
            return Ok((false, number));
        }
    }
    Ok((false, 100))
}

#[test]
fn programs_come_to_their_ends(rt: HostRuntime) -> Result<(), Fail> {
    let so = all_so(rt.alloc())?;
    assert_eq!(rt; so, (true, 35));
    Ok(())
}

#[tactic(auto, using(herm_values::proofs::Wholes::records))]
fn row_value(alloc: Global) -> Result<Value, AllocError>
    ensures { IfOk result IsWhole }
{
    let word = Word::of(alloc, b"a")?;
    let mut fields = Vec::with_capacity(alloc, 2)?;
    fields.push(Some(Value::Int(1)))?;
    fields.push(Some(Value::Text(word)))?;
    Ok(Value::Fields(fields))
}

/// A table of one row, whose key is the second field.
fn table(alloc: Global) -> Result<Table, AllocError>
    ensures { IfOk result IsWholeTable }
{
    let columns = Vec::from_slice(alloc, &[1])?;
    let mut table = Table::new(alloc, columns);
    let row = row_value(alloc)?;
    match table.insert(row) {
        Ok(()) => Ok(table),
        Err(_) => Err(AllocError),
    }
}

fn boxed(alloc: Global, table: Table) -> Result<Value, AllocError>
    requires { IsWholeTable table }
    ensures { IfOk result IsWhole }
{
    let boxed = Box::new(alloc, table)?;
    Ok(Value::Table(boxed))
}

fn text(alloc: Global) -> Result<Value, AllocError>
    ensures { IfOk result IsWhole }
{
    let word = Word::of(alloc, b"a")?;
    Ok(Value::Text(word))
}

fn message(alloc: Global, arrival: Arrival) -> Result<Value, AllocError>
    ensures { IfOk result IsWhole }
{
    match arrival {
        Arrival::Table => {
            let table = table(alloc)?;
            let message = boxed(alloc, table)?;
            Ok(message)
        }
        Arrival::Text => {
            let message = text(alloc)?;
            Ok(message)
        }
    }
}

/// Whether the process to which a message comes becomes what its row says.
fn is_taken(alloc: Global, arrival: Arrival) -> Result<bool, AllocError> {
    let row = row_at(arrival);
    let Some(image) = image_of(alloc, row.source)? else {
        return Ok(false);
    };
    let message = message(alloc, arrival)?;
    let keeper = module_of(&image, b"keeper");
    let Some(mut world) = World::begin_with(alloc, &image, keeper, row.most, message)? else {
        return Ok(false);
    };
    let so = is_run(alloc, &mut world, &row)?;
    Ok(so)
}

#[test]
fn a_table_that_comes_in_gets_the_key_of_its_type(rt: HostRuntime) -> Result<(), Fail> {
    let so = is_taken(rt.alloc(), Arrival::Table)?;
    assert!(rt; so);
    Ok(())
}

#[test]
fn a_message_of_another_type_is_put_aside(rt: HostRuntime) -> Result<(), Fail> {
    let so = is_taken(rt.alloc(), Arrival::Text)?;
    assert!(rt; so);
    Ok(())
}
