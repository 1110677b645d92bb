//! Short codes by hand, by tables.
ghost use Rattle.std.specs.Prelude.{◌≡◌, [], IfOk};
ghost use Rattle.herm_types.specs.Table.{defined_table};
ghost use Rattle.herm_values.specs.Whole.{IsWhole};

use herm_base::{ExcNo, PortNo, ProcNo, TypeNo, VarNo, Word};
use herm_code::{CodeModule, Const, Instr};
use herm_pieces::{Code, Position};
use herm_steps::{End, Running};
use herm_types::{Path, TypeTable};
use herm_values::{Table, Value};
use std::alloc::{AllocError, Global};
use std::test::Fail;

/// An instruction on whole variables, or on a part of one.
#[derive(Clone, Copy)]
enum Op {
    Step,
    Const(u32),
    Load(u32),
    Sub,
    Mul,
    Div,
    Mod,
    Neg,
    Text,
    Cat,
    Length,
    Add,
    Not,
    And,
    Or,
    Lt,
    Le,
    Gt,
    Ge,
    Ne,
    Store(u32),
    Part(u32, u32),
    New(u32),
    Unite(u32, u32, u32),
    Case(u32, u32, u32),
    Start(u32),
    Next(u32, u32),
    Leave,
    Insert(u32, u32),
    Remove(u32, u32, u32),
    Get(u32, u32, u32),
    Jump(u32),
    Test(u32),
    End,
    EndBy(u32),
}

/// Counts to 3 in variable 1.
const COUNTS: [Op; 15] = [
    Op::Step,
    Op::Const(0),
    Op::Store(1),
    Op::Step,
    Op::Load(1),
    Op::Const(1),
    Op::Lt,
    Op::Test(14),
    Op::Step,
    Op::Load(1),
    Op::Const(2),
    Op::Add,
    Op::Store(1),
    Op::Jump(3),
    Op::End,
];

/// The length of `text(-((7 - 2) * 3 div 2 mod 3)) + "ab"` is 4: above 3, at most 7, and so on.
const OPERATORS: [Op; 36] = [
    Op::Step,
    Op::Const(3),
    Op::Const(4),
    Op::Sub,
    Op::Const(1),
    Op::Mul,
    Op::Const(4),
    Op::Div,
    Op::Const(1),
    Op::Mod,
    Op::Neg,
    Op::Text,
    Op::Const(5),
    Op::Cat,
    Op::Length,
    Op::Store(1),
    Op::Step,
    Op::Load(1),
    Op::Const(1),
    Op::Gt,
    Op::Load(1),
    Op::Const(3),
    Op::Le,
    Op::And,
    Op::Const(0),
    Op::Const(2),
    Op::Ge,
    Op::Not,
    Op::And,
    Op::Const(0),
    Op::Const(0),
    Op::Ne,
    Op::Or,
    Op::Test(35),
    Op::End,
    Op::EndBy(1),
];

/// The second component of two.
const CHOOSES: [Op; 9] = [
    Op::Step,
    Op::Const(0),
    Op::Store(1),
    Op::Step,
    Op::Unite(2, 1, 1),
    Op::Step,
    Op::Case(2, 7, 8),
    Op::EndBy(1),
    Op::End,
];

/// Two parts of a record in turn.
const VISITS: [Op; 15] = [
    Op::Step,
    Op::New(1),
    Op::Step,
    Op::Const(0),
    Op::Part(1, 0),
    Op::Step,
    Op::Const(1),
    Op::Part(1, 1),
    Op::Step,
    Op::Start(1),
    Op::Step,
    Op::Next(2, 13),
    Op::Jump(10),
    Op::Leave,
    Op::End,
];

/// A sum beyond 64 bits, whose exception leads to an end.
const RAISES: [Op; 8] = [
    Op::Step,
    Op::Const(1),
    Op::Const(6),
    Op::Const(2),
    Op::Add,
    Op::Store(1),
    Op::End,
    Op::EndBy(0),
];

/// The same, where the exception leads to what takes a value from the stack.
const LOSES: [Op; 9] = [
    Op::Step,
    Op::Const(1),
    Op::Const(6),
    Op::Const(2),
    Op::Add,
    Op::Store(1),
    Op::End,
    Op::Store(1),
    Op::End,
];

/// No piece and no end.
const TURNS: [Op; 1] = [Op::Jump(0)];

/// A row into a table whose key has no fields, and another one.
const INSERTS: [Op; 8] = [
    Op::Step,
    Op::New(1),
    Op::Insert(1, 2),
    Op::New(1),
    Op::Insert(1, 2),
    Op::End,
    Op::End,
    Op::EndBy(4),
];

/// The row is taken out, and then it is not there.
const REMOVES: [Op; 8] = [
    Op::Step,
    Op::New(1),
    Op::Insert(1, 2),
    Op::Remove(1, 2, 0),
    Op::Remove(1, 2, 0),
    Op::End,
    Op::End,
    Op::EndBy(5),
];

/// The row is copied, and the copy is a second one.
const COPIES: [Op; 8] = [
    Op::Step,
    Op::New(1),
    Op::Insert(1, 2),
    Op::Get(1, 2, 0),
    Op::Insert(1, 2),
    Op::End,
    Op::End,
    Op::EndBy(4),
];

/// No row has a key of one value.
const MISSES: [Op; 8] = [
    Op::Step,
    Op::New(1),
    Op::Insert(1, 2),
    Op::Const(0),
    Op::Get(1, 2, 1),
    Op::End,
    Op::End,
    Op::EndBy(5),
];

/// The predefined types.
fn predefined(alloc: Global) -> Result<TypeTable, AllocError>
    ensures { IfOk result (λ t. t ≡ defined_table [] []) }
{
    let defined = Vec::new(alloc);
    let exceptions = Vec::new(alloc);
    let table = TypeTable::new(alloc, defined, exceptions)?;
    Ok(table)
}

/// How it ends, and how many steps it has made, and cells made and finalised, then. None where it comes to nothing.
type Ended = Option<(End, u64, u64, u64)>;

fn variable(alloc: Global, i: u32) -> Path {
    Path {
        var: VarNo(i),
        parts: Vec::new(alloc),
    }
}

fn part(alloc: Global, i: u32, j: u32) -> Result<Path, AllocError> {
    let parts = Vec::from_slice(alloc, &[j])?;
    Ok(Path {
        var: VarNo(i),
        parts,
    })
}

/// An operator of an expression, or a step.
fn operator(op: Op) -> Instr {
    match op {
        Op::Sub => Instr::Sub,
        Op::Mul => Instr::Mul,
        Op::Div => Instr::Div,
        Op::Mod => Instr::Mod,
        Op::Neg => Instr::Neg,
        Op::Text => Instr::Text,
        Op::Cat => Instr::Cat,
        Op::Length => Instr::Length,
        Op::Add => Instr::Add,
        Op::Not => Instr::Not,
        Op::And => Instr::And,
        Op::Or => Instr::Or,
        Op::Lt => Instr::Lt,
        Op::Le => Instr::Le,
        Op::Gt => Instr::Gt,
        Op::Ge => Instr::Ge,
        Op::Ne => Instr::Ne,
        Op::End => Instr::End,
        _ => Instr::Step,
    }
}

fn instruction(alloc: Global, op: Op) -> Result<Instr, AllocError> {
    match op {
        Op::Const(k) => Ok(Instr::Const(k)),
        Op::Load(i) => Ok(Instr::Load(variable(alloc, i))),
        Op::Store(i) => Ok(Instr::Store(variable(alloc, i))),
        Op::Part(i, j) => {
            let path = part(alloc, i, j)?;
            Ok(Instr::Store(path))
        }
        Op::New(i) => Ok(Instr::New(variable(alloc, i), TypeNo(6))),
        Op::Unite(v, k, y) => Ok(Instr::Unite(variable(alloc, v), k, variable(alloc, y))),
        Op::Case(v, first, second) => {
            let indices = Vec::from_slice(alloc, &[first, second])?;
            Ok(Instr::CaseOf(variable(alloc, v), indices))
        }
        Op::Start(t) => Ok(Instr::LoopStart(variable(alloc, t), 9)),
        Op::Next(r, index) => Ok(Instr::LoopNext(variable(alloc, r), 9, index)),
        Op::Leave => Ok(Instr::LoopDrop(9)),
        Op::Insert(r, t) => Ok(Instr::Insert(variable(alloc, r), variable(alloc, t))),
        Op::Remove(r, t, n) => Ok(Instr::Remove(variable(alloc, r), variable(alloc, t), n)),
        Op::Get(r, t, n) => Ok(Instr::Get(variable(alloc, r), variable(alloc, t), n)),
        Op::Jump(index) => Ok(Instr::Jump(index)),
        Op::Test(index) => Ok(Instr::JumpFalse(index)),
        Op::EndBy(e) => Ok(Instr::EndBy(ExcNo(e))),
        _ => Ok(operator(op)),
    }
}

fn instructions(alloc: Global, ops: &[Op]) -> Result<Vec<Instr>, AllocError> {
    let mut code = Vec::new(alloc);
    for op in ops {
        let instr = instruction(alloc, *op)?;
        code.push(instr)?;
    }
    Ok(code)
}

/// No landing at any of the first four instructions, and Overflow, DuplicateKey and NotFound at the one behind them lead to
/// index 7.
fn landings(alloc: Global) -> Result<Vec<Vec<(ExcNo, u32)>>, AllocError> {
    let mut landings = Vec::new(alloc);
    for _index in 0..4 {
        landings.push(Vec::new(alloc))?;
    }
    let raised = vec![in alloc; (ExcNo(0), 7), (ExcNo(4), 7), (ExcNo(5), 7)]?;
    landings.push(raised)?;
    Ok(landings)
}

fn module(alloc: Global, ops: &[Op]) -> Result<CodeModule, AllocError> {
    let name = Word::of(alloc, b"main")?;
    let vars = vec![in alloc; TypeNo(7), TypeNo(6), TypeNo(1)]?;
    let code = instructions(alloc, ops)?;
    let landings = landings(alloc)?;
    Ok(CodeModule {
        name,
        vars,
        code,
        landings,
        labels: Vec::new(alloc),
    })
}

fn constants(alloc: Global) -> Result<Vec<Const>, AllocError> {
    let mut constants = Vec::new(alloc);
    constants.push(Const::Int(0))?;
    constants.push(Const::Int(3))?;
    constants.push(Const::Int(1))?;
    constants.push(Const::Int(7))?;
    constants.push(Const::Int(2))?;
    let text = Word::of(alloc, b"ab")?;
    constants.push(Const::Text(text))?;
    constants.push(Const::Int(9_223_372_036_854_775_807))?;
    Ok(constants)
}

fn step(process: &mut Running, alloc: Global, code: &Code) -> Result<bool, AllocError> {
    if process.frame.steps() == u64::MAX {
        return Ok(false);
    }
    let made = process.local_step(alloc, code)?;
    Ok(made)
}

fn ended_at(process: &Running) -> Ended {
    let frame = &process.frame;
    match process.position {
        Position::At(_) => None,
        Position::End => Some((End::Normal, frame.steps(), frame.made(), frame.finalised())),
        Position::EndBy(e) => Some((End::By(e), frame.steps(), frame.made(), frame.finalised())),
    }
}

/// A table of no rows, whose key is the first field.
fn empty_table(alloc: Global) -> Result<Value, AllocError>
    ensures { IfOk result IsWhole }
{
    let columns = Vec::from_slice(alloc, &[0])?;
    let table = Box::new(alloc, Table::new(alloc, columns))?;
    Ok(Value::Table(table))
}

/// Puts such a table at variable 2. By its variable's type its key has no fields.
fn put_table(alloc: Global, process: &mut Running) -> Result<(), AllocError> {
    let table = empty_table(alloc)?;
    process.frame.store(&variable(alloc, 2), table)?;
    Ok(())
}

/// The end of a process that begins at this code, with a table or without, after at most 20 local steps.
fn end_of(alloc: Global, code: &Code, has_table: bool) -> Result<Ended, AllocError> {
    let begun = Running::begin(alloc, code, ProcNo { number: 1 }, PortNo { number: 1 })?;
    let Some(mut process) = begun else {
        return Ok(None);
    };
    if has_table {
        put_table(alloc, &mut process)?;
    }
    'steps: for _turn in 0..20 {
        if !step(&mut process, alloc, code)? {
            return Ok(ended_at(&process));
        }
    }
    Ok(None)
}

/// Whether code ends so.
fn ends(
    alloc: Global,
    types: &TypeTable,
    has_table: bool,
    ops: &[Op],
    end: Ended,
) -> Result<bool, AllocError> {
    let constants = constants(alloc)?;
    let module = module(alloc, ops)?;
    let code = Code {
        code: &module,
        constants: constants.as_slice(),
        types,
    };
    let ended = end_of(alloc, &code, has_table)?;
    Ok(ended == end)
}

/// A code above.
#[derive(Clone, Copy)]
enum Name {
    Counts,
    Operators,
    Chooses,
    Visits,
    Raises,
    Loses,
    Turns,
    Inserts,
    Removes,
    Copies,
    Misses,
}

fn ops_of(name: Name) -> &'static [Op] {
    match name {
        Name::Counts => &COUNTS,
        Name::Operators => &OPERATORS,
        Name::Chooses => &CHOOSES,
        Name::Visits => &VISITS,
        Name::Raises => &RAISES,
        Name::Loses => &LOSES,
        Name::Turns => &TURNS,
        Name::Inserts => &INSERTS,
        Name::Removes => &REMOVES,
        Name::Copies => &COPIES,
        Name::Misses => &MISSES,
    }
}

/// Whether each code ends so.
fn all_end(
    alloc: Global,
    types: &TypeTable,
    has_table: bool,
    rows: &[(Name, Ended)],
) -> Result<bool, AllocError> {
    'rows: for row in rows {
        let so = ends(alloc, types, has_table, ops_of(row.0), row.1)?;
        if !so {
            return Ok(false);
        }
    }
    Ok(true)
}

const ENDS: [(Name, Ended); 7] = [
    (Name::Counts, Some((End::Normal, 8, 4, 4))),
    (Name::Operators, Some((End::Normal, 2, 1, 1))),
    (Name::Chooses, Some((End::Normal, 3, 2, 2))),
    (Name::Visits, Some((End::Normal, 7, 5, 5))),
    (Name::Raises, Some((End::By(ExcNo(0)), 1, 0, 0))),
    (Name::Loses, None),
    (Name::Turns, None),
];

const ENDS_WITH_A_TABLE: [(Name, Ended); 4] = [
    (Name::Inserts, Some((End::By(ExcNo(4)), 1, 3, 3))),
    (Name::Removes, Some((End::By(ExcNo(5)), 1, 2, 2))),
    (Name::Copies, Some((End::By(ExcNo(4)), 1, 3, 3))),
    (Name::Misses, Some((End::By(ExcNo(5)), 1, 2, 2))),
];

#[test]
fn codes_end_as_they_say(rt: HostRuntime) -> Result<(), Fail> {
    let types = predefined(rt.alloc())?;
    let so = all_end(rt.alloc(), &types, false, &ENDS)?;
    assert!(rt; so);
    Ok(())
}

#[test]
fn rows_are_found_by_their_keys(rt: HostRuntime) -> Result<(), Fail> {
    let types = predefined(rt.alloc())?;
    let so = all_end(rt.alloc(), &types, true, &ENDS_WITH_A_TABLE)?;
    assert!(rt; so);
    Ok(())
}
