//! A call from its message to its answer, by hand.
ghost use Rattle.std.specs.Prelude.{IfOk, IfSome};
ghost use Rattle.herm_letters.specs.Letters.{IsWholeReply};
ghost use Rattle.herm_values.specs.Whole.{IsWhole};

use herm_answers::{take_message, take_reply, was_heard, was_placed, was_returned, was_sent_back};
use herm_base::{ExcNo, PortNo, ProcNo, TypeNo, VarNo, Word};
use herm_code::{Arg, CodeModule, Const, Instr};
use herm_frames::Frame;
use herm_letters::Reply;
use herm_pieces::{Code, Position};
use herm_places::Variables;
use herm_stack::Stack;
use herm_steps::{Next, Running};
use herm_types::{Path, RaiseDecl, TypeTable};
use herm_values::Value;
use std::alloc::{AllocError, Global};
use std::test::Fail;

/// What the callee does.
#[derive(Clone, Copy)]
enum Answer {
    /// It returns; by the types of its variables nothing comes back.
    Returns,
    /// It answers with exception 9, which keeps parameter 1.
    Raises,
}

fn variable(alloc: Global, i: u32) -> Path {
    Path {
        var: VarNo(i),
        parts: Vec::new(alloc),
    }
}

/// Code whose exceptions 6 and 9 lead on to index 4 from the action at index 2.
fn module(alloc: Global, code: Vec<Instr>) -> Result<CodeModule, AllocError> {
    let name = Word::of(alloc, b"main")?;
    let vars = vec![in alloc; TypeNo(7), TypeNo(1), TypeNo(1), TypeNo(1)]?;
    let mut landings = Vec::new(alloc);
    landings.push(Vec::new(alloc))?;
    landings.push(Vec::new(alloc))?;
    let raised = vec![in alloc; (ExcNo(6), 4), (ExcNo(9), 4)]?;
    landings.push(raised)?;
    Ok(CodeModule {
        name,
        vars,
        code,
        landings,
        labels: Vec::new(alloc),
    })
}

/// `call v1(0, inout v2, out v3)`, of which exception 9 keeps parameter 1.
fn calling(alloc: Global) -> Result<CodeModule, AllocError> {
    let mut arguments = Vec::new(alloc);
    arguments.push(Arg::In)?;
    arguments.push(Arg::Inout(variable(alloc, 2)))?;
    arguments.push(Arg::Out(variable(alloc, 3)))?;
    let mut raises = Vec::new(alloc);
    let keeps = Vec::from_slice(alloc, &[1])?;
    raises.push(RaiseDecl {
        exc: ExcNo(9),
        keeps,
    })?;
    let mut code = Vec::new(alloc);
    code.push(Instr::Step)?;
    code.push(Instr::Const(0))?;
    code.push(Instr::Call(variable(alloc, 1), arguments, raises))?;
    code.push(Instr::Step)?;
    code.push(Instr::Step)?;
    module(alloc, code)
}

/// The answer to the callmessage in variable 1, behind two steps.
fn answering(alloc: Global, answer: Answer) -> Result<CodeModule, AllocError> {
    let mut code = Vec::new(alloc);
    match answer {
        Answer::Returns => code.push(Instr::Return(variable(alloc, 1)))?,
        Answer::Raises => {
            let kept = Vec::from_slice(alloc, &[1])?;
            code.push(Instr::ReturnBy(variable(alloc, 1), ExcNo(9), kept))?;
        }
    }
    code.push(Instr::Step)?;
    module(alloc, code)
}

/// A process at its first instruction, with nothing in its variables.
fn process(alloc: Global, number: ProcNo) -> Result<Running, AllocError> {
    let places = vec![in alloc; None, None, None, None]?;
    let frame = Frame::new(alloc, number, Variables::of(places));
    Ok(Running::new(Position::At(0), Stack::new(alloc), frame))
}

/// The caller, whose outport leads to port 5, with 7 and 8 in its other variables.
fn caller(alloc: Global) -> Result<Running, AllocError> {
    let mut caller = process(alloc, ProcNo { number: 1 })?;
    let outport = Value::Outport(PortNo { number: 5 });
    caller.frame.store(&variable(alloc, 1), outport)?;
    caller.frame.store(&variable(alloc, 2), Value::Int(7))?;
    caller.frame.store(&variable(alloc, 3), Value::Int(8))?;
    Ok(caller)
}

fn message(process: &mut Running, alloc: Global, code: &Code) -> Result<Option<Value>, AllocError>
    ensures { IfOk result (λ r. IfSome r IsWhole) }
{
    if process.frame.steps() == u64::MAX {
        return Ok(None);
    }
    if process.frame.actions() == u64::MAX {
        return Ok(None);
    }
    match process.next(code) {
        Next::Action(piece, met) => {
            let message = take_message(process, alloc, code, piece, met)?;
            Ok(message)
        }
        _ => Ok(None),
    }
}

fn reply(process: &mut Running, alloc: Global, code: &Code) -> Result<Option<Reply>, AllocError>
    ensures { IfOk result (λ r. IfSome r IsWholeReply) }
{
    if process.frame.steps() == u64::MAX {
        return Ok(None);
    }
    if process.frame.actions() == u64::MAX {
        return Ok(None);
    }
    match process.next(code) {
        Next::Action(piece, met) => {
            let reply = take_reply(process, alloc, code, piece, met)?;
            Ok(reply)
        }
        _ => Ok(None),
    }
}

fn heard(
    process: &mut Running,
    alloc: Global,
    code: &Code,
    reply: Reply,
) -> Result<bool, AllocError>
    requires { IsWholeReply reply }
{
    if process.frame.actions() == u64::MAX {
        return Ok(false);
    }
    match process.next(code) {
        Next::Reply(met) => {
            let runs = was_heard(process, alloc, code, met, reply)?;
            Ok(runs)
        }
        _ => Ok(false),
    }
}

fn integer(held: Option<&Value>) -> Option<i64> {
    match held {
        Some(Value::Int(n)) => Some(*n),
        _ => None,
    }
}

/// The integer at a variable, if one is there.
fn at(process: &Running, alloc: Global, i: u32) -> Option<i64> {
    integer(process.frame.at(&variable(alloc, i)))
}

/// Whether the parameters of a callmessage are 3, 7 and none, of the first call of process 1.
fn is_message(message: &Value) -> bool {
    let Value::Call(call) = message else {
        return false;
    };
    let params = call.params();
    if call.caller().number != 1 || call.call() != 0 || params.len() != 3 {
        return false;
    }
    match (&params[0], &params[1], &params[2]) {
        (Some(Value::Int(first)), Some(Value::Int(second)), None) => *first == 3 && *second == 7,
        _ => false,
    }
}

/// How the caller goes on behind the answer: whether it is led to this index, and what its variables hold then.
#[derive(Drop)]
struct Behind {
    led: bool,
    inout: Option<i64>,
    out: Option<i64>,
}

/// The types and the constants of a code.
#[derive(Clone, Copy)]
struct Known<'k> {
    types: &'k TypeTable,
    constants: &'k [Const],
}

fn code_of<'k>(module: &'k CodeModule, known: Known<'k>) -> Code<'k> {
    Code {
        code: module,
        constants: known.constants,
        types: known.types,
    }
}

/// The callmessage of the caller's call, if it is as it should be and the argument that it took is gone.
fn sent(caller: &mut Running, alloc: Global, code: &Code) -> Result<Option<Value>, AllocError>
    ensures { IfOk result (λ r. IfSome r IsWhole) }
{
    let Some(message) = message(caller, alloc, code)? else {
        return Ok(None);
    };
    if !is_message(&message) || at(caller, alloc, 2).is_some() {
        return Ok(None);
    }
    Ok(Some(message))
}

fn now_of(caller: &Running, alloc: Global, led: bool) -> Behind {
    Behind {
        led: led && caller.position == Position::At(4),
        inout: at(caller, alloc, 2),
        out: at(caller, alloc, 3),
    }
}

/// The call is placed, answered and heard.
fn answered(alloc: Global, known: Known, answer: Answer) -> Result<Option<Behind>, AllocError> {
    let module = calling(alloc)?;
    let code = code_of(&module, known);
    let mut caller = caller(alloc)?;
    let Some(message) = sent(&mut caller, alloc, &code)? else {
        return Ok(None);
    };
    if !was_placed(&mut caller, alloc, &code)? {
        return Ok(None);
    }
    let Some(reply) = answer_to(alloc, known, message, answer)? else {
        return Ok(None);
    };
    let led = heard(&mut caller, alloc, &code, reply)?;
    Ok(Some(now_of(&caller, alloc, led)))
}

/// How many cells a callee has finalised behind its answer: all of the message but those that went back.
fn left_by(answer: Answer) -> u64 {
    match answer {
        Answer::Returns => 3,
        Answer::Raises => 2,
    }
}

/// What the callee answers, which then is behind its return.
fn answer_to(
    alloc: Global,
    known: Known,
    message: Value,
    answer: Answer,
) -> Result<Option<Reply>, AllocError>
    requires { IsWhole message }
    ensures { IfOk result (λ r. IfSome r IsWholeReply) }
{
    let module = answering(alloc, answer)?;
    let code = code_of(&module, known);
    let mut callee = process(alloc, ProcNo { number: 2 })?;
    callee.frame.store(&variable(alloc, 1), message)?;
    let Some(reply) = reply(&mut callee, alloc, &code)? else {
        return Ok(None);
    };
    if !was_returned(&mut callee, alloc, &code)? {
        return Ok(None);
    }
    if callee.frame.finalised() != left_by(answer) || callee.position != Position::At(1) {
        return Ok(None);
    }
    Ok(Some(reply))
}

/// The call comes back: its message is finalised, and then what the argument of mode out holds.
fn refused(alloc: Global, known: Known) -> Result<Option<Behind>, AllocError> {
    let module = calling(alloc)?;
    let code = code_of(&module, known);
    let mut caller = caller(alloc)?;
    let Some(message) = sent(&mut caller, alloc, &code)? else {
        return Ok(None);
    };
    let led = was_sent_back(&mut caller, alloc, &code, message)?;
    let all = caller.frame.finalised() == 4;
    Ok(Some(now_of(&caller, alloc, led && all)))
}

fn is_behind(behind: Option<Behind>, led: bool, inout: Option<i64>, out: Option<i64>) -> bool {
    match behind {
        Some(b) => b.led == led && b.inout == inout && b.out == out,
        None => false,
    }
}

/// What becomes of a call.
#[derive(Clone, Copy)]
enum Fate {
    Returned,
    Raised,
    Refused,
}

fn called(alloc: Global, known: Known, fate: Fate) -> Result<Option<Behind>, AllocError> {
    match fate {
        Fate::Returned => answered(alloc, known, Answer::Returns),
        Fate::Raised => answered(alloc, known, Answer::Raises),
        Fate::Refused => refused(alloc, known),
    }
}

/// Whether a call goes so: whether it leads on, and what its two arguments that come back hold then.
fn goes_so(
    alloc: Global,
    types: &TypeTable,
    row: &(Fate, bool, Option<i64>, Option<i64>),
) -> Result<bool, AllocError> {
    let constants = vec![in alloc; Const::Int(3)]?;
    let known = Known {
        types,
        constants: constants.as_slice(),
    };
    let behind = called(alloc, known, row.0)?;
    Ok(is_behind(behind, row.1, row.2, row.3))
}

/// A kept parameter comes back, and what the other argument held is finalised. Nothing comes back where two values are awaited.
const FATES: [(Fate, bool, Option<i64>, Option<i64>); 3] = [
    (Fate::Raised, true, Some(7), None),
    (Fate::Returned, false, None, Some(8)),
    (Fate::Refused, true, None, None),
];

/// The predefined types.
fn predefined(alloc: Global) -> Result<TypeTable, AllocError> {
    let defined = Vec::new(alloc);
    let exceptions = Vec::new(alloc);
    let table = TypeTable::new(alloc, defined, exceptions)?;
    Ok(table)
}

fn all_go(
    alloc: Global,
    types: &TypeTable,
    rows: &[(Fate, bool, Option<i64>, Option<i64>)],
) -> Result<bool, AllocError> {
    'rows: for row in rows {
        let so = goes_so(alloc, types, row)?;
        if !so {
            return Ok(false);
        }
    }
    Ok(true)
}

#[test]
fn calls_are_answered_and_refused(rt: HostRuntime) -> Result<(), Fail> {
    let types = predefined(rt.alloc())?;
    let so = all_go(rt.alloc(), &types, &FATES)?;
    assert!(rt; so);
    Ok(())
}
