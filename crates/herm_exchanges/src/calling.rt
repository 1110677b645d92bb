//! The callmessage of a call, and what the answer of its put leaves.
ghost use Rattle.std.specs.Prelude.{◌≡◌, ◌<◌, ◌+◌, ◌++◌, ◌∷◌, ℕ, Some, None, [], map, flat_map, option_map, option_and_then, IfOk, IfSome, OnOk, ⊤};
ghost use Rattle.std.specs.List.{All};
ghost use Rattle.herm_model.specs.CellNames.{count_in};
ghost use Rattle.herm_model.specs.Values as model;
ghost use Rattle.herm_journal.specs.Actions.{put};
ghost use Rattle.herm_journal.specs.Renaming.{forget_name};
ghost use Rattle.herm_forms.specs.Callmessages as callmessages;
ghost use Rattle.herm_forms.specs.Callmessages.{assemble};
ghost use Rattle.herm_forms.specs.Excess.{excess_over_full};
ghost use Rattle.herm_forms.specs.Frames as frames;
ghost use Rattle.herm_forms.specs.Frames.{take_all};
ghost use Rattle.herm_forms.specs.ReturnForms.{caller_of};
ghost use Rattle.herm_instructions.specs.Operands as operands;
ghost use Rattle.herm_types.specs.View.{path_view};
ghost use Rattle.herm_values.specs.Parts.{parts_from};
ghost use Rattle.herm_values.specs.View.{value_view, views_of};
ghost use Rattle.herm_values.specs.Whole.{AllWhole, IsWhole};
ghost use Rattle.herm_code.specs.View.{argument_view};
ghost use Rattle.herm_code_machine.specs.CodeActions.{called, inouts, mode_of, outs};
ghost use Rattle.herm_code_machine.specs.ReadyCode.{ReadyCode};
ghost use Rattle.herm_code_machine.specs.Stacks as stacks;
ghost use Rattle.herm_stack.specs.Answers.{on_stack};
ghost use Rattle.herm_frames.specs.Completed.{outcome_view, Completes};
ghost use Rattle.herm_frames.specs.Standing.{Stands};
ghost use Rattle.herm_exchanges.specs.Composed.{IsComposed, IsPushed};
ghost use Rattle.herm_exchanges.specs.Worked.{IsTaken};

use crate::giving::finalise_call;
use crate::hearing::drop_left;
use crate::queues::{none_left, pop_first};
use crate::sending::drop_all;
use herm_base::ExcNo;
use herm_code::Arg;
use herm_frames::{Frame, Outcome};
use herm_parcels::CallMsg;
use herm_stack::Stack;
use herm_types::Path;
use herm_values::Value;
use std::alloc::{AllocError, Global};
use std::collections::VecDeque;

/// The exception where a port is closed.
const DISCONNECTED: ExcNo = ExcNo(6);

/// Composes the callmessage of a call and opens the call: the values of its `in` parameters are taken from the stack, and
/// those of its `inout` ones out of their places, without what they hold beyond full values, which is at the paths `lost`.
/// None where something is not there.
pub fn compose(
    alloc: Global,
    frame: &mut Frame,
    stack: &mut Stack,
    arguments: &[Arg],
    lost: &[Path],
) -> Result<Option<Value>, AllocError>
    requires few { frame.old.calls < u64.MAX }
    ensures composed { IfOk result (λ r. (c : ReadyCode) (s : frames.Frame ⊤) → Stands frame.old s → map path_view lost.now ≡ flat_map (λ p. excess_over_full c.scope p s) (inouts (map argument_view arguments.now)) → IsComposed r frame.new (called forget_name c (map argument_view arguments.now) (on_stack stack.old) s)) }
    ensures rest { IfOk result (λ r. IfSome r (λ v. option_map (λ (p : stacks.Popped). p.rest) (stacks.pop (operands.count_inputs (map argument_view arguments.now)) (on_stack stack.old)) ≡ Some (on_stack stack.new))) }
    ensures whole { IfOk result (λ r. IfSome r IsWhole) }
{
    let Some(inputs) = stack.take(count_inputs(arguments))? else {
        return Ok(None);
    };
    let message = composed(alloc, frame, arguments, inputs, lost)?;
    Ok(message)
}

/// The callmessage of these inputs. None where something is not there.
fn composed(
    alloc: Global,
    frame: &mut Frame,
    arguments: &[Arg],
    inputs: Vec<Value>,
    lost: &[Path],
) -> Result<Option<Value>, AllocError>
    requires few { frame.old.calls < u64.MAX }
    requires inputs { All IsWhole inputs.items }
    ensures composed { IfOk result (λ r. (s : frames.Frame ⊤) → Stands frame.old s → IsComposed r frame.new (callmessages.compose forget_name (map mode_of (map argument_view arguments.now)) (stacks.parts_from (map value_view inputs.items)) (map path_view lost.now) (inouts (map argument_view arguments.now)) s)) }
    ensures whole { IfOk result (λ r. IfSome r IsWhole) }
{
    make_inputs(frame, inputs.as_slice());
    drop_all(frame, lost)?;
    let Some(moved) = take_inouts(alloc, frame, arguments)? else {
        return Ok(None);
    };
    let Some(params) = assembled(alloc, arguments, inputs, moved)? else {
        return Ok(None);
    };
    Ok(Some(opened(frame, params)))
}

/// The callmessage of these parameters, with which the call is open.
#[tactic(auto, using(herm_values::proofs::Wholes::records))]
fn opened(frame: &mut Frame, params: Vec<Option<Value>>) -> Value
    requires few { frame.old.calls < u64.MAX }
    ensures opened { (s : frames.Frame ⊤) → Stands frame.old s → IsComposed (Some result) frame.new (Some (callmessages.with_message forget_name s (parts_from (views_of params.items)))) }
    ensures whole { AllWhole params.items → IsWhole result }
{
    frame.make_cell();
    let number = frame.number();
    let call = frame.calls();
    frame.open_call();
    Value::Call(CallMsg::new(number, call, params))
}

/// The callmessage of a call came back where it was composed, and the port is closed: it is finalised without an answer, and
/// then what the arguments of mode out hold.
pub fn refused(frame: &mut Frame, arguments: &[Arg], message: Value) -> Result<Outcome, AllocError>
    ensures settles { IfOk result (λ r. (b : frames.Frame ⊤) (k : ℕ) (who : ℕ × ℕ) → Stands frame.old (record b { call = Some k }) → b.call ≡ None → caller_of (value_view message) ≡ Some who → Completes (outcome_view r) frame.new (callmessages.call (Some (record { message = value_view message; call = k; frame = b })) (outs (map argument_view arguments.now)) (put None (value_view message)))) }
{
    frame.close_call();
    finalise_call(frame, message)?;
    drop_left(frame, arguments, &[])?;
    Ok(Outcome::Raised(DISCONNECTED))
}

/// How many values a call takes from the stack.
fn count_inputs(arguments: &[Arg]) -> usize
    ensures count { result ≡ operands.count_inputs (map argument_view arguments.now) }
{
    let mut count = 0;
    'arguments: for a in arguments {
        if let Arg::In = a {
            count += 1;
        }
    }
    count
}

/// The cells of values are made.
fn make_inputs(frame: &mut Frame, inputs: &[Value])
    ensures stands { (s : frames.Frame ⊤) → Stands frame.old s → Stands frame.new (record s { serial = s.serial + count_in (stacks.parts_from (map value_view inputs.now)) }) }
    ensures calls { frame.new.calls ≡ frame.old.calls }
{
    'inputs: for v in inputs {
        frame.make_cells(v);
    }
}

/// Takes out what stands at the arguments of mode inout, in order. None where nothing is at one of them.
fn take_inouts(
    alloc: Global,
    frame: &mut Frame,
    arguments: &[Arg],
) -> Result<Option<Vec<Value>>, AllocError>
    ensures taken { IfOk result (λ r. (s : frames.Frame ⊤) → Stands frame.old s → IsTaken (option_map (λ vs. vs.items) r) frame.new (take_all (inouts (map argument_view arguments.now)) s)) }
    ensures whole { IfOk result (λ r. IfSome r (λ vs. All IsWhole vs.items)) }
    ensures calls { IfOk result (λ r. frame.new.calls ≡ frame.old.calls) }
{
    let mut taken = Vec::new(alloc);
    'arguments: for a in arguments {
        let Arg::Inout(path) = a else {
            continue;
        };
        let Some(v) = frame.take(path) else {
            return Ok(None);
        };
        taken.push(v)?;
    }
    Ok(Some(taken))
}

/// The parameters of a callmessage by the modes of its arguments: those of mode in from the stack, those of mode inout out of
/// their places, and those of mode out without a value. None where there are too few or too many.
fn assembled(
    alloc: Global,
    arguments: &[Arg],
    inputs: Vec<Value>,
    moved: Vec<Value>,
) -> Result<Option<Vec<Option<Value>>>, AllocError>
    requires inputs { All IsWhole inputs.items }
    requires moved { All IsWhole moved.items }
    ensures assembled { IfOk result (λ r. option_map (λ ps. parts_from (views_of ps.items)) r ≡ assemble (map mode_of (map argument_view arguments.now)) (stacks.parts_from (map value_view inputs.items)) (map value_view moved.items)) }
    ensures whole { IfOk result (λ r. IfSome r (λ ps. AllWhole ps.items)) }
{
    let mut inputs_left = VecDeque::from(inputs);
    let mut moved_left = VecDeque::from(moved);
    let mut params = Vec::with_capacity(alloc, arguments.len())?;
    'arguments: for a in arguments {
        if !push_parameter(&mut params, a, &mut inputs_left, &mut moved_left)? {
            return Ok(None);
        }
    }
    if !none_left(&inputs_left) {
        return Ok(None);
    }
    if !none_left(&moved_left) {
        return Ok(None);
    }
    Ok(Some(params))
}

/// Appends the parameter of an argument. False where there is no value for it.
fn push_parameter(
    params: &mut Vec<Option<Value>>,
    a: &Arg,
    inputs: &mut VecDeque<Value>,
    moved: &mut VecDeque<Value>,
) -> Result<bool, AllocError>
    requires inputs { All IsWhole inputs.old.items }
    requires moved { All IsWhole moved.old.items }
    requires params { AllWhole params.old.items }
    ensures pushed { IfOk result (λ t. IsPushed t (mode_of (argument_view a.now)) (views_of params.old.items) (views_of params.new.items) (map value_view inputs.old.items) (map value_view moved.old.items) (map value_view inputs.new.items) (map value_view moved.new.items)) }
    ensures inputs { All IsWhole inputs.new.items }
    ensures moved { All IsWhole moved.new.items }
    ensures params { AllWhole params.new.items }
{
    match a {
        Arg::In => {
            let Some(v) = pop_first(inputs) else {
                return Ok(false);
            };
            push_held(params, Some(v))?;
            Ok(true)
        }
        Arg::Inout(_) => {
            let Some(v) = pop_first(moved) else {
                return Ok(false);
            };
            push_held(params, Some(v))?;
            Ok(true)
        }
        Arg::Out(_) => {
            push_held(params, None)?;
            Ok(true)
        }
    }
}

/// Appends a place, with a value or without.
fn push_held(params: &mut Vec<Option<Value>>, held: Option<Value>) -> Result<(), AllocError>
    requires whole { IfSome held IsWhole }
    requires params { AllWhole params.old.items }
    ensures pushed { OnOk result (views_of params.new.items ≡ views_of params.old.items ++ option_map value_view held ∷ []) }
    ensures params { AllWhole params.new.items }
{
    params.push(held)?;
    Ok(())
}
