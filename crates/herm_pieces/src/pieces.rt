//! Pieces of code: a step with what follows it, or an action; and the action of a piece.
ghost use Rattle.std.specs.Prelude.{◌≡◌, drop, map, option_map};
ghost use Rattle.herm_code.specs.View.{instr_view};
ghost use Rattle.herm_code_machine.specs.Pieces as pieces;
ghost use Rattle.herm_pieces.specs.View.{met_if, met_view, piece_view, position_view, ready_view};

use crate::code::Code;
use crate::kinds::{is_action, is_operand, is_step};
use herm_base::ExcNo;
use herm_code::Instr;
use herm_types::TypeTable;

/// Where a process of code is: at an index, or at an end, by an exception or not.
#[derive(Clone, Copy, Debug, PartialEq, Eq)]
pub enum Position {
    At(usize),
    End,
    EndBy(ExcNo),
}

/// A piece: whether it begins with a step, and the first index behind the step; or the index of an action that begins it.
#[derive(Clone, Copy, Debug, PartialEq, Eq)]
pub struct Piece {
    pub has_step: bool,
    pub first: usize,
}

/// An action instruction with its index.
#[derive(Clone, Copy)]
pub struct Met<'i> {
    pub index: usize,
    pub instruction: &'i Instr,
}

impl<'i> Code<'i> {
    /// The piece that begins at a position, if one does.
    pub fn piece_at(&self, position: Position) -> Option<Piece>
        ensures piece { option_map piece_view result ≡ pieces.piece_at (ready_view self.now) (position_view position) }
    {
        match position {
            Position::At(index) => self.piece_from(index),
            Position::End => None,
            Position::EndBy(_) => None,
        }
    }

    /// The piece that begins at an index, if one does.
    fn piece_from(&self, index: usize) -> Option<Piece>
        ensures piece { option_map piece_view result ≡ pieces.piece_at (ready_view self.now) (position_view (Position.At index)) }
    {
        let Some(instruction) = self.instruction_at(index) else {
            return None;
        };
        if is_step(instruction) {
            let first = self.behind(index);
            return Some(Piece {
                has_step: true,
                first,
            });
        }
        if is_action(self.types, instruction) {
            return Some(Piece {
                has_step: false,
                first: index,
            });
        }
        None
    }

    /// The action of a piece, if it has one: it has only operands between its step and its action.
    #[tactic(auto, using(crate::proofs::Images::dropped))]
    pub fn action_of(&self, piece: Piece) -> Option<Met<'i>>
        ensures action { option_map met_view result ≡ pieces.action_of (ready_view self.now) (piece_view piece) }
    {
        action_from(self.types, self.code.code.as_slice(), piece.first)
    }
}

/// The first instruction from an index on that is no operand, where it is an action.
fn action_from<'i>(types: &TypeTable, code: &'i [Instr], first: usize) -> Option<Met<'i>>
    ensures action { option_map met_view result ≡ pieces.action_from types.now.shapes (map instr_view (drop first code.now)) first }
{
    'indices: for index in first..code.len() {
        let instruction = &code[index];
        if !is_operand(instruction) {
            return met_at(types, index, instruction);
        }
    }
    None
}

/// This instruction with its index, where it is an action.
fn met_at<'i>(types: &TypeTable, index: usize, instruction: &'i Instr) -> Option<Met<'i>>
    ensures met { option_map met_view result ≡ met_if types.now.shapes index (instr_view instruction.now) }
{
    if is_action(types, instruction) {
        Some(Met { index, instruction })
    } else {
        None
    }
}
