//! Instructions of expressions.
ghost use Rattle.std.specs.Prelude.{◌≡◌, IfOk, IfSome, IfNone, false, ⊤};
ghost use Rattle.herm_journal.specs.Renaming.{forget_name};
ghost use Rattle.herm_forms.specs.Frames as frames;
ghost use Rattle.herm_code.specs.View.{instr_view};
ghost use Rattle.herm_code_machine.specs.Effects.{effect};
ghost use Rattle.herm_code_machine.specs.ReadyCode.{ReadyCode};
ghost use Rattle.herm_frames.specs.Standing.{Stands};
ghost use Rattle.herm_instructions.specs.Instructions as instructions;
ghost use Rattle.herm_pieces.specs.View.{ready_view};
ghost use Rattle.herm_stack.specs.Answers.{effect_of, on_stack};
ghost use Rattle.herm_types.specs.View.{path_view};
ghost use Rattle.herm_steps.specs.Kinds.{is_pushing, is_sizing};

use herm_code::Instr;
use herm_frames::Frame;
use herm_pieces::Code;
use herm_stack::{Completion, Stack};
use std::alloc::{AllocError, Global};

/// Pushes a constant or a copy. None where the instruction is of another kind.
#[inline(always)]
pub fn push_value(
    alloc: Global,
    code: &Code,
    frame: &Frame,
    stack: &mut Stack,
    instruction: &Instr,
) -> Result<Option<Completion>, AllocError>
    ensures effect { IfOk result (λ r. IfSome r (λ d. (s : frames.Frame ⊤) → Stands frame.now s → effect forget_name (ready_view code.now) (instr_view instruction.now) (on_stack stack.old) s ≡ effect_of d (on_stack stack.new) s)) }
    ensures other { IfOk result (λ r. IfNone r (is_pushing (instr_view instruction.now) ≡ false)) }
{
    match instruction {
        Instr::Const(number) => {
            let done = push_numbered(code, *number, stack)?;
            Ok(Some(done))
        }
        Instr::Load(path) => {
            let done = stack.load(alloc, frame.read(path))?;
            Ok(Some(done))
        }
        _ => Ok(None),
    }
}

/// Pushes the number of rows of a table. None where the instruction is of another kind.
pub fn push_size(
    code: &Code,
    frame: &Frame,
    stack: &mut Stack,
    instruction: &Instr,
) -> Result<Option<Completion>, AllocError>
    ensures effect { IfOk result (λ r. IfSome r (λ d. (s : frames.Frame ⊤) → Stands frame.now s → effect forget_name (ready_view code.now) (instr_view instruction.now) (on_stack stack.old) s ≡ effect_of d (on_stack stack.new) s)) }
    ensures other { IfOk result (λ r. IfNone r (is_sizing (instr_view instruction.now) ≡ false)) }
{
    match instruction {
        Instr::Size(path) => {
            let done = stack.size(frame.read(path))?;
            Ok(Some(done))
        }
        _ => Ok(None),
    }
}

/// Pushes the constant with this number.
#[inline(always)]
fn push_numbered(code: &Code, number: u32, stack: &mut Stack) -> Result<Completion, AllocError>
    ensures effect { IfOk result (λ r. (s : frames.Frame ⊤) → effect forget_name (ready_view code.now) (instructions.Const number) (on_stack stack.old) s ≡ effect_of r (on_stack stack.new) s) }
{
    match code.constant(number) {
        Some(constant) => {
            stack.constant(constant)?;
            Ok(Completion::Next)
        }
        None => Ok(Completion::Stuck),
    }
}
