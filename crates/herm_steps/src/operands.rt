//! The operands of an action, which are pushed before it.
ghost use Rattle.std.specs.Prelude.{◌≡◌, Some, None, cond, drop, map, IfOk, ⊤};
ghost use Rattle.herm_code.specs.View.{instr_view};
ghost use Rattle.herm_code_machine.specs.Pieces as pieces;
ghost use Rattle.herm_code_machine.specs.ReadyCode.{ReadyCode};
ghost use Rattle.herm_instructions.specs.Instructions as instructions;
ghost use Rattle.herm_types.specs.View.{path_view};
ghost use Rattle.herm_forms.specs.Frames as frames;
ghost use Rattle.herm_frames.specs.Standing.{Stands};
ghost use Rattle.herm_pieces.specs.View.{piece_view, ready_view};
ghost use Rattle.herm_stack.specs.Answers.{on_stack};

use herm_code::Instr;
use herm_frames::Frame;
use herm_pieces::{Code, Piece, is_operand};
use herm_stack::{Completion, Stack};
use herm_types::Path;
use std::alloc::{AllocError, Global};

/// Pushes the operands of the action of a piece. False where one of them has no value.
pub fn push_operands(
    alloc: Global,
    code: &Code,
    frame: &Frame,
    piece: Piece,
    stack: &mut Stack,
) -> Result<bool, AllocError>
    ensures pushed { IfOk result (λ t. (s : frames.Frame ⊤) → Stands frame.now s → pieces.stack_before_action (ready_view code.now) (piece_view piece) s.variables (on_stack stack.old) ≡ cond t (Some (on_stack stack.new)) None) }
{
    let instructions = code.code.code.as_slice();
    'indices: for index in piece.first..instructions.len() {
        let instruction = &instructions[index];
        if !is_operand(instruction) {
            return Ok(true);
        }
        if !push_operand(alloc, code, frame, instruction, stack)? {
            return Ok(false);
        }
    }
    Ok(true)
}

/// Pushes the value of an operand. False where it has none.
pub fn push_operand(
    alloc: Global,
    code: &Code,
    frame: &Frame,
    instruction: &Instr,
    stack: &mut Stack,
) -> Result<bool, AllocError>
    ensures pushed { IfOk result (λ t. (s : frames.Frame ⊤) → Stands frame.now s → pieces.pushed (pieces.operand (ready_view code.now) (instr_view instruction.now) s.variables) (on_stack stack.old) ≡ cond t (Some (on_stack stack.new)) None) }
{
    match instruction {
        Instr::Const(number) => {
            let pushed = push_constant(code, *number, stack)?;
            Ok(pushed)
        }
        Instr::Load(path) => {
            let pushed = push_copy(alloc, frame, path, stack)?;
            Ok(pushed)
        }
        _ => Ok(false),
    }
}

/// Pushes the constant with this number. False where there is none.
fn push_constant(code: &Code, number: u32, stack: &mut Stack) -> Result<bool, AllocError>
    ensures pushed { IfOk result (λ t. (s : frames.Frame ⊤) → pieces.pushed (pieces.operand (ready_view code.now) (instructions.Const number) s.variables) (on_stack stack.old) ≡ cond t (Some (on_stack stack.new)) None) }
{
    match code.constant(number) {
        Some(constant) => {
            stack.constant(constant)?;
            Ok(true)
        }
        None => Ok(false),
    }
}

/// Pushes a copy of what is read at a path. False where nothing is.
fn push_copy(
    alloc: Global,
    frame: &Frame,
    path: &Path,
    stack: &mut Stack,
) -> Result<bool, AllocError>
    ensures pushed { IfOk result (λ t. (c : ReadyCode) (s : frames.Frame ⊤) → Stands frame.now s → pieces.pushed (pieces.operand c (instructions.Load (path_view path.now)) s.variables) (on_stack stack.old) ≡ cond t (Some (on_stack stack.new)) None) }
{
    match stack.load(alloc, frame.read(path))? {
        Completion::Next => Ok(true),
        Completion::Raised(_) => Ok(false),
        Completion::Stuck => Ok(false),
    }
}
