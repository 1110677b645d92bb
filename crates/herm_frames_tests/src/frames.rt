//! Instructions on frames by hand, by tables.
ghost use Rattle.std.specs.Prelude.{◌≡◌, [], IfOk};
ghost use Rattle.herm_types.specs.Table.{defined_table};
ghost use Rattle.herm_values.specs.Whole.{IsWhole};

use herm_base::{ExcNo, PortNo, ProcNo, TypeNo, VarNo};
use herm_frames::{Frame, Outcome};
use herm_places::Variables;
use herm_types::{Path, TypeTable};
use herm_values::{Scalar, Table, Value};
use std::alloc::{AllocError, Global};
use std::test::Fail;

#[derive(Clone, Copy)]
enum Act {
    /// An integer is stored at a variable, or at a part of one.
    Store(u32, i64),
    Part(u32, u32, i64),
    /// A record of two empty fields is stored.
    Record(u32),
    Discard(u32),
    Drop(u32),
    Start(u32, u32),
    Next(u32, u32),
    Leave(u32),
    End,
}

/// What is done to variables with types and tables.
#[derive(Clone, Copy)]
enum Change {
    /// An empty value of a type.
    New(u32, u32),
    /// An integer at a part.
    Part(u32, u32, i64),
    /// An empty table whose key is the first field, and an inport.
    Table(u32),
    Inport(u32),
    Move(u32, u32),
    Unite(u32, u32, u32),
    Dissolve(u32, u32, u32),
    Reveal(u32, u32),
    Choose(u32),
    Wrap(u32, u32, u32),
    Unwrap(u32, u32, u32),
    Connect(u32, u32),
    Insert(u32, u32),
    Get(u32, u32, i64),
    Remove(u32, u32, i64),
    /// The table at a variable gets a field as its key, or cannot have it.
    Key(u32, u32),
    /// Whether something is read at a part, also behind a component, and whether something stands there.
    Read(u32, u32),
    At(u32, u32),
    End,
}

/// What is done, what it comes to, and how many cells have been made and finalised then. Type 6 is a record of two fields.
const CHANGES: [(Change, Outcome, u64, u64); 42] = [
    (Change::New(0, 6), Outcome::Next, 1, 0),
    (Change::New(0, 1), Outcome::Stuck, 1, 0),
    (Change::New(0, 60), Outcome::Stuck, 1, 0),
    (Change::Part(0, 0, 5), Outcome::Next, 2, 0),
    (Change::At(0, 0), Outcome::True, 2, 0),
    (Change::At(0, 1), Outcome::False, 2, 0),
    (Change::Table(1), Outcome::Next, 3, 0),
    (Change::Insert(0, 2), Outcome::Stuck, 3, 0),
    (Change::Insert(0, 1), Outcome::Next, 3, 0),
    (Change::Insert(0, 1), Outcome::Stuck, 3, 0),
    (Change::New(0, 6), Outcome::Next, 4, 0),
    (Change::Part(0, 0, 5), Outcome::Next, 5, 0),
    (Change::Insert(0, 1), Outcome::Raised(ExcNo(4)), 5, 0),
    (Change::At(0, 0), Outcome::True, 5, 0),
    (Change::Part(0, 0, 6), Outcome::Next, 6, 1),
    (Change::Insert(0, 1), Outcome::Next, 6, 1),
    (Change::Get(0, 1, 5), Outcome::Next, 8, 1),
    (Change::Get(0, 1, 7), Outcome::Raised(ExcNo(5)), 8, 1),
    (Change::Get(0, 1, 6), Outcome::Next, 10, 3),
    (Change::Remove(2, 1, 6), Outcome::Next, 10, 3),
    (Change::Remove(2, 1, 6), Outcome::Raised(ExcNo(5)), 10, 3),
    (Change::Remove(2, 1, 5), Outcome::Next, 10, 5),
    (Change::Remove(2, 3, 5), Outcome::Stuck, 10, 5),
    (Change::Move(2, 3), Outcome::Next, 10, 5),
    (Change::Move(2, 3), Outcome::Stuck, 10, 5),
    (Change::Unite(4, 1, 3), Outcome::Next, 11, 5),
    (Change::Read(4, 1), Outcome::True, 11, 5),
    (Change::Read(4, 0), Outcome::False, 11, 5),
    (Change::At(4, 1), Outcome::False, 11, 5),
    (Change::Reveal(4, 1), Outcome::Next, 11, 5),
    (Change::Reveal(4, 0), Outcome::Raised(ExcNo(2)), 11, 5),
    (Change::Choose(4), Outcome::Component(1), 11, 5),
    (Change::Choose(0), Outcome::Stuck, 11, 5),
    (Change::Dissolve(4, 1, 3), Outcome::Next, 11, 6),
    (Change::Wrap(3, 6, 4), Outcome::Next, 12, 6),
    (Change::Unwrap(4, 2, 3), Outcome::Raised(ExcNo(3)), 12, 6),
    (Change::Unwrap(4, 6, 3), Outcome::Next, 12, 7),
    (Change::Inport(5), Outcome::Next, 13, 7),
    (Change::Connect(4, 5), Outcome::Next, 14, 7),
    (Change::Connect(4, 3), Outcome::Stuck, 14, 7),
    (Change::Inport(5), Outcome::Next, 15, 7),
    (Change::End, Outcome::Next, 15, 13),
];

/// A table whose key is the first field gets the second one, and then the first, until two rows have the same.
const KEYS: [(Change, Outcome, u64, u64); 24] = [
    (Change::Key(1, 0), Outcome::True, 0, 0),
    (Change::Table(1), Outcome::Next, 1, 0),
    (Change::New(0, 6), Outcome::Next, 2, 0),
    (Change::Part(0, 0, 5), Outcome::Next, 3, 0),
    (Change::Part(0, 1, 8), Outcome::Next, 4, 0),
    (Change::Insert(0, 1), Outcome::Next, 4, 0),
    (Change::New(0, 6), Outcome::Next, 5, 0),
    (Change::Part(0, 0, 6), Outcome::Next, 6, 0),
    (Change::Part(0, 1, 7), Outcome::Next, 7, 0),
    (Change::Insert(0, 1), Outcome::Next, 7, 0),
    (Change::Key(1, 0), Outcome::True, 7, 0),
    (Change::Get(0, 1, 8), Outcome::Raised(ExcNo(5)), 7, 0),
    (Change::Key(1, 1), Outcome::True, 7, 0),
    (Change::Get(0, 1, 5), Outcome::Raised(ExcNo(5)), 7, 0),
    (Change::Get(0, 1, 8), Outcome::Next, 10, 0),
    (Change::Insert(0, 1), Outcome::Raised(ExcNo(4)), 10, 0),
    (Change::Part(0, 1, 9), Outcome::Next, 11, 1),
    (Change::Insert(0, 1), Outcome::Next, 11, 1),
    (Change::Remove(2, 1, 7), Outcome::Next, 11, 1),
    (Change::Key(2, 0), Outcome::False, 11, 1),
    (Change::Key(1, 0), Outcome::False, 11, 1),
    (Change::Get(0, 1, 9), Outcome::Next, 14, 1),
    (Change::Key(1, 1), Outcome::True, 14, 1),
    (Change::Key(1, 0), Outcome::False, 14, 1),
];

/// What is done, what it comes to, and how many cells have been made and finalised then.
const ROWS: [(Act, Outcome, u64, u64); 17] = [
    (Act::Store(1, 5), Outcome::Next, 1, 0),
    (Act::Store(1, 6), Outcome::Next, 2, 1),
    (Act::Discard(1), Outcome::Next, 2, 2),
    (Act::Discard(1), Outcome::Stuck, 2, 2),
    (Act::Drop(1), Outcome::Next, 2, 2),
    (Act::Record(1), Outcome::Next, 3, 2),
    (Act::Part(1, 0, 7), Outcome::Next, 4, 2),
    (Act::Part(1, 0, 8), Outcome::Next, 5, 3),
    (Act::Start(2, 9), Outcome::Stuck, 5, 3),
    (Act::Start(1, 9), Outcome::Next, 6, 3),
    (Act::Start(1, 8), Outcome::Next, 7, 3),
    (Act::Next(2, 9), Outcome::Turn, 7, 3),
    (Act::Next(2, 9), Outcome::Stuck, 7, 3),
    (Act::Next(2, 7), Outcome::Stuck, 7, 3),
    (Act::Leave(8), Outcome::Next, 7, 4),
    (Act::Start(1, 8), Outcome::Next, 8, 4),
    (Act::End, Outcome::Next, 8, 8),
];

fn variable(alloc: Global, i: u32) -> Path {
    Path {
        var: VarNo(i),
        parts: Vec::new(alloc),
    }
}

fn part(alloc: Global, i: u32, j: u32) -> Result<Path, AllocError> {
    let parts = Vec::from_slice(alloc, &[j])?;
    Ok(Path {
        var: VarNo(i),
        parts,
    })
}

/// A record of two empty fields.
#[tactic(auto, using(herm_values::proofs::Wholes::records))]
fn empty_record(alloc: Global) -> Result<Value, AllocError>
    ensures { IfOk result IsWhole }
{
    let fields = vec![in alloc; None, None]?;
    Ok(Value::Fields(fields))
}

/// A table of no rows, whose key is the first field.
fn empty_table(alloc: Global) -> Result<Value, AllocError>
    ensures { IfOk result IsWhole }
{
    let columns = Vec::from_slice(alloc, &[0])?;
    let table = Box::new(alloc, Table::new(alloc, columns))?;
    Ok(Value::Table(table))
}

fn done_by(frame: &mut Frame, alloc: Global, act: Act) -> Result<Outcome, AllocError> {
    match act {
        Act::Store(i, n) => frame.store(&variable(alloc, i), Value::Int(n)),
        Act::Part(i, j, n) => {
            let path = part(alloc, i, j)?;
            frame.store(&path, Value::Int(n))
        }
        Act::Record(i) => {
            let record = empty_record(alloc)?;
            frame.store(&variable(alloc, i), record)
        }
        Act::Discard(i) => frame.discard(&variable(alloc, i)),
        Act::Drop(i) => frame.drop_path(&variable(alloc, i)),
        Act::Start(i, slot) => frame.start_loop(alloc, &variable(alloc, i), slot),
        Act::Next(i, slot) => frame.next_turn(&variable(alloc, i), slot),
        Act::Leave(slot) => frame.drop_loop(slot),
        Act::End => {
            frame.end(alloc, &[TypeNo(0), TypeNo(0), TypeNo(0)])?;
            Ok(Outcome::Next)
        }
    }
}

/// Whether each row comes to what it says, one behind the other.
fn are_done(frame: &mut Frame, alloc: Global) -> Result<bool, AllocError> {
    for row in ROWS {
        let done = done_by(frame, alloc, row.0)?;
        if done != row.1 || frame.made() != row.2 || frame.finalised() != row.3 {
            return Ok(false);
        }
    }
    Ok(true)
}

#[test]
fn instructions_are_done_and_cells_counted(rt: HostRuntime) -> Result<(), Fail> {
    let places = vec![in rt.alloc(); None, None, None]?;
    let mut frame = Frame::new(rt.alloc(), ProcNo { number: 1 }, Variables::of(places));
    let done = are_done(&mut frame, rt.alloc())?;
    assert!(rt; done);
    assert!(rt; frame.read(&variable(rt.alloc(), 1)).is_none());
    Ok(())
}

/// The predefined types.
fn predefined(alloc: Global) -> Result<TypeTable, AllocError>
    ensures { IfOk result (λ t. t ≡ defined_table [] []) }
{
    let defined = Vec::new(alloc);
    let exceptions = Vec::new(alloc);
    let table = TypeTable::new(alloc, defined, exceptions)?;
    Ok(table)
}

fn key(alloc: Global, n: i64) -> Result<Vec<Scalar>, AllocError> {
    let mut key = Vec::new(alloc);
    key.push(Scalar::Int(n))?;
    Ok(key)
}

fn is_there(held: Option<&Value>) -> Outcome {
    match held {
        Some(_) => Outcome::True,
        None => Outcome::False,
    }
}

fn placed_by(frame: &mut Frame, alloc: Global, act: Change) -> Result<Outcome, AllocError> {
    match act {
        Change::Part(i, j, n) => {
            let path = part(alloc, i, j)?;
            frame.store(&path, Value::Int(n))
        }
        Change::Table(i) => {
            let table = empty_table(alloc)?;
            frame.store(&variable(alloc, i), table)
        }
        Change::Inport(i) => {
            frame.store(&variable(alloc, i), Value::Inport(PortNo { number: 3 }))
        }
        Change::Read(i, j) => {
            let path = part(alloc, i, j)?;
            Ok(is_there(frame.read(&path)))
        }
        Change::At(i, j) => {
            let path = part(alloc, i, j)?;
            Ok(is_there(frame.at(&path)))
        }
        Change::Get(i, j, n) => {
            let key = key(alloc, n)?;
            frame.get_row(alloc, &variable(alloc, i), &variable(alloc, j), &key)
        }
        Change::Remove(i, j, n) => {
            let key = key(alloc, n)?;
            frame.remove_row(&variable(alloc, i), &variable(alloc, j), &key)
        }
        Change::Key(i, j) => {
            let is_keyed = frame.key_table(alloc, &variable(alloc, i), &[j])?;
            if is_keyed {
                return Ok(Outcome::True);
            }
            Ok(Outcome::False)
        }
        _ => Ok(Outcome::Stuck),
    }
}

fn changed_by(
    frame: &mut Frame,
    alloc: Global,
    types: &TypeTable,
    of: &[TypeNo],
    act: Change,
) -> Result<Outcome, AllocError> {
    match act {
        Change::New(i, t) => frame.new_value(alloc, types, &variable(alloc, i), TypeNo(t)),
        Change::Move(i, j) => {
            frame.move_value(alloc, types, of, &variable(alloc, i), &variable(alloc, j))
        }
        Change::Unite(i, k, j) => {
            frame.unite(
                alloc,
                types,
                of,
                &variable(alloc, i),
                k,
                &variable(alloc, j),
            )
        }
        Change::Dissolve(i, k, j) => frame.dissolve(&variable(alloc, i), k, &variable(alloc, j)),
        Change::Reveal(i, k) => Ok(frame.reveal(&variable(alloc, i), k)),
        Change::Choose(i) => Ok(frame.choose(&variable(alloc, i))),
        Change::Wrap(i, t, j) => {
            frame.wrap(
                alloc,
                types,
                of,
                &variable(alloc, i),
                TypeNo(t),
                &variable(alloc, j),
            )
        }
        Change::Unwrap(i, t, j) => {
            frame.unwrap(&variable(alloc, i), TypeNo(t), &variable(alloc, j))
        }
        Change::Connect(i, j) => frame.connect(&variable(alloc, i), &variable(alloc, j)),
        Change::Insert(i, j) => {
            frame.insert(alloc, types, of, &variable(alloc, i), &variable(alloc, j))
        }
        Change::End => {
            frame.end(alloc, of)?;
            Ok(Outcome::Next)
        }
        _ => placed_by(frame, alloc, act),
    }
}

/// Whether each row comes to what it says, one behind the other.
fn are_changed(
    frame: &mut Frame,
    alloc: Global,
    types: &TypeTable,
    changes: &[(Change, Outcome, u64, u64)],
) -> Result<bool, AllocError> {
    let of = [
        TypeNo(6),
        TypeNo(1),
        TypeNo(6),
        TypeNo(6),
        TypeNo(3),
        TypeNo(1),
    ];
    for row in changes {
        let done = changed_by(frame, alloc, types, &of, row.0)?;
        if done != row.1 || frame.made() != row.2 || frame.finalised() != row.3 {
            return Ok(false);
        }
    }
    Ok(true)
}

#[test]
fn values_are_changed_and_cells_counted(rt: HostRuntime) -> Result<(), Fail> {
    let types = predefined(rt.alloc())?;
    let places = vec![in rt.alloc(); None, None, None, None, None, None]?;
    let mut frame = Frame::new(rt.alloc(), ProcNo { number: 1 }, Variables::of(places));
    let changed = are_changed(&mut frame, rt.alloc(), &types, &CHANGES)?;
    assert!(rt; changed);
    Ok(())
}

#[test]
fn tables_get_other_keys(rt: HostRuntime) -> Result<(), Fail> {
    let types = predefined(rt.alloc())?;
    let places = vec![in rt.alloc(); None, None, None, None, None, None]?;
    let mut frame = Frame::new(rt.alloc(), ProcNo { number: 1 }, Variables::of(places));
    let changed = are_changed(&mut frame, rt.alloc(), &types, &KEYS)?;
    assert!(rt; changed);
    Ok(())
}
