//! The kinds of instructions that are neither steps nor actions.
ghost use Rattle.herm_code.specs.View.{instr_view};
ghost use Rattle.std.specs.Prelude.{◌≡◌};
ghost use Rattle.herm_code_machine.specs.CodeStates as states;
ghost use Rattle.herm_pieces.specs.View.{ready_view};
ghost use Rattle.herm_steps.specs.KindsOfCode.{IsKind};

use crate::running::End;
use herm_code::Instr;
use herm_pieces::{Code, begins_piece};
use herm_stack::{Binary, Unary};

/// What an instruction does: it pushes a constant or a copy, combines the top two of the stack without memory, stores the top,
/// leads elsewhere, or ends the process; or it is of one of the rarer kinds.
#[derive(Clone, Copy)]
pub enum Kind {
    Pushing,
    Combining(Binary),
    Storing,
    Leading,
    Ending(End),
    Rare(Rare),
}

/// What a rarer instruction works on: the stack alone, by pushing a number of rows, by an operator on the top without memory, by the
/// decimal text of the top, or by the one string on top behind the other; values at paths; what variants and polymorphs hold; rows of
/// tables; or the rows of loops. The others have no effect.
#[derive(Clone, Copy)]
pub enum Rare {
    Sizing,
    Applying(Unary),
    Telling,
    Joining,
    Placing,
    Holding,
    Tabular,
    Looping,
    Other,
}

/// The kind of an instruction.
#[inline(always)]
pub fn kind_of(instruction: &Instr) -> Kind
    ensures kind { IsKind result (instr_view instruction.now) }
{
    match instruction {
        Instr::Const(_) | Instr::Load(_) => Kind::Pushing,
        Instr::Size(_) => Kind::Rare(Rare::Sizing),
        Instr::Neg => Kind::Rare(Rare::Applying(Unary::Negative)),
        Instr::Not => Kind::Rare(Rare::Applying(Unary::Complement)),
        Instr::Length => Kind::Rare(Rare::Applying(Unary::TextLength)),
        Instr::Text => Kind::Rare(Rare::Telling),
        Instr::Add => Kind::Combining(Binary::Plus),
        Instr::Sub => Kind::Combining(Binary::Minus),
        Instr::Mul => Kind::Combining(Binary::Times),
        Instr::Div => Kind::Combining(Binary::Divided),
        Instr::Mod => Kind::Combining(Binary::Modulo),
        Instr::Cat => Kind::Rare(Rare::Joining),
        Instr::And => Kind::Combining(Binary::And),
        Instr::Or => Kind::Combining(Binary::Or),
        Instr::Eq => Kind::Combining(Binary::Equal),
        Instr::Ne => Kind::Combining(Binary::Unequal),
        Instr::Lt => Kind::Combining(Binary::Less),
        Instr::Le => Kind::Combining(Binary::AtMost),
        Instr::Gt => Kind::Combining(Binary::Greater),
        Instr::Ge => Kind::Combining(Binary::AtLeast),
        Instr::Store(_) => Kind::Storing,
        Instr::Jump(_) | Instr::JumpFalse(_) | Instr::Raise(_) => Kind::Leading,
        Instr::End => Kind::Ending(End::Normal),
        Instr::EndBy(e) => Kind::Ending(End::By(*e)),
        Instr::Move(_, _) | Instr::New(_, _) => Kind::Rare(Rare::Placing),
        Instr::Discard(_) | Instr::Connect(_, _) | Instr::Drop(_) => Kind::Rare(Rare::Placing),
        Instr::Unite(_, _, _) | Instr::Dissolve(_, _, _) => Kind::Rare(Rare::Holding),
        Instr::Reveal(_, _) | Instr::CaseOf(_, _) => Kind::Rare(Rare::Holding),
        Instr::Wrap(_, _, _) | Instr::Unwrap(_, _, _) => Kind::Rare(Rare::Holding),
        Instr::Insert(_, _) | Instr::Remove(_, _, _) => Kind::Rare(Rare::Tabular),
        Instr::Get(_, _, _) => Kind::Rare(Rare::Tabular),
        Instr::LoopStart(_, _) | Instr::LoopNext(_, _, _) => Kind::Rare(Rare::Looping),
        Instr::LoopDrop(_) => Kind::Rare(Rare::Looping),
        _ => Kind::Rare(Rare::Other),
    }
}

/// Whether a piece begins at an instruction of this kind where none has begun since the last end of one: only one of a rarer kind is a
/// step or an action.
#[inline(always)]
#[tactic(auto, using(crate::proofs::Common::common))]
pub fn begins_here(code: &Code, instruction: &Instr, kind: Kind) -> bool
    requires kind { IsKind kind (instr_view instruction.now) }
    ensures begins { result ≡ states.begins_piece (ready_view code.now) (instr_view instruction.now) }
{
    match kind {
        Kind::Pushing => false,
        Kind::Combining(_) => false,
        Kind::Storing => false,
        Kind::Leading => false,
        Kind::Ending(_) => false,
        Kind::Rare(_) => begins_piece(code, instruction),
    }
}
