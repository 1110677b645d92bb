//! What comes next.
ghost use Rattle.std.specs.Prelude.{◌≡◌, ℕ};
ghost use Rattle.herm_code_machine.specs.CodeSteps as steps;
ghost use Rattle.herm_code_machine.specs.Pieces as pieces;
ghost use Rattle.herm_pieces.specs.View.{piece_view, position_view, ready_view};
ghost use Rattle.herm_steps.specs.Coming.{coming, next_view};

use herm_pieces::{Code, Met, Piece, Position};

/// What comes next: the front of the work list; the answer of the open call, at its instruction; a piece with an action, or
/// one without; or nothing, at an end.
#[derive(Clone, Copy)]
pub enum Next<'i> {
    Item,
    Reply(Met<'i>),
    Action(Piece, Met<'i>),
    Local(Piece),
    Nothing,
}

/// What comes next while a call is open.
pub fn reply_at<'i>(code: &Code<'i>, position: Position) -> Next<'i>
    ensures next { (call : ℕ) → next_view result ≡ coming (steps.by_met call (steps.met_at (ready_view code.now) (position_view position))) }
{
    match position {
        Position::At(index) => match code.instruction_at(index) {
            Some(instruction) => Next::Reply(Met { index, instruction }),
            None => Next::Nothing,
        },
        Position::End => Next::Nothing,
        Position::EndBy(_) => Next::Nothing,
    }
}

/// What comes next while no call is open.
pub fn piece_at<'i>(code: &Code<'i>, position: Position) -> Next<'i>
    ensures next { next_view result ≡ coming (steps.by_piece (ready_view code.now) (pieces.piece_at (ready_view code.now) (position_view position))) }
{
    match code.piece_at(position) {
        Some(piece) => with_action(code, piece),
        None => Next::Nothing,
    }
}

/// A piece, with its action if it has one.
fn with_action<'i>(code: &Code<'i>, piece: Piece) -> Next<'i>
    ensures next { next_view result ≡ coming (steps.by_action (piece_view piece) (pieces.action_of (ready_view code.now) (piece_view piece))) }
{
    match code.action_of(piece) {
        Some(met) => Next::Action(piece, met),
        None => Next::Local(piece),
    }
}
