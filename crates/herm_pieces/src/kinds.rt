//! Which instructions begin a step, which are actions, and which are operands of an action.
ghost use Rattle.std.specs.Prelude.{◌≡◌, slice_get, false};
ghost use Rattle.herm_model.specs.Lists.{map_or};
ghost use Rattle.herm_instructions.specs.Actions as actions;
ghost use Rattle.herm_instructions.specs.Pieces as operands;
ghost use Rattle.herm_code.specs.View.{instr_view};
ghost use Rattle.herm_code_machine.specs.CodeStates as states;
ghost use Rattle.herm_pieces.specs.View.{ready_view};

use crate::code::Code;
use herm_base::TypeNo;
use herm_code::Instr;
use herm_types::{Shape, TypeTable};

/// Whether the instruction begins a step.
pub fn is_step(instruction: &Instr) -> bool
    ensures step { result ≡ actions.is_step (instr_view instruction.now) }
{
    match instruction {
        Instr::Step => true,
        _ => false,
    }
}

/// Whether the instruction is an operand of an action.
pub fn is_operand(instruction: &Instr) -> bool
    ensures operand { result ≡ operands.is_operand (instr_view instruction.now) }
{
    match instruction {
        Instr::Const(_) => true,
        Instr::Load(_) => true,
        _ => false,
    }
}

/// Whether the instruction is an action: it wants something of a place outside the process.
pub fn is_action(types: &TypeTable, instruction: &Instr) -> bool
    ensures action { result ≡ actions.is_action types.now.shapes (instr_view instruction.now) }
{
    match instruction {
        Instr::New(_, t) => is_inport(types, *t),
        Instr::Send(_, _, _) => true,
        Instr::Receive(_, _) => true,
        Instr::Select(_) => true,
        Instr::Call(_, _, _) => true,
        Instr::Return(_) => true,
        Instr::ReturnBy(_, _, _) => true,
        Instr::Create(_, _) => true,
        _ => false,
    }
}

/// Whether a type is one of inports.
fn is_inport(types: &TypeTable, t: TypeNo) -> bool
    ensures inport { result ≡ map_or false actions.is_inport_shape (slice_get types.now.shapes t.0) }
{
    if t.0 as usize >= types.len() {
        return false;
    }
    match types.shape(t) {
        Shape::Inport {
            message: _,
            facts: _,
        } => true,
        _ => false,
    }
}

/// Whether a piece begins here where none has begun since the last end of one.
pub fn begins_piece(code: &Code, instruction: &Instr) -> bool
    ensures begins { result ≡ states.begins_piece (ready_view code.now) (instr_view instruction.now) }
{
    is_step(instruction) || is_action(code.types, instruction)
}
