//! The answer to an action that gave nothing away.
ghost use Rattle.std.specs.Prelude.{◌≡◌, ◌<◌, ℕ, Some, option_map, IfOk, ⊤};
ghost use Rattle.herm_journal.specs.Messages.{CellAction};
ghost use Rattle.herm_journal.specs.Renaming.{forget_name};
ghost use Rattle.herm_code_machine.specs.CodeStates.{CodeState};
ghost use Rattle.herm_code_machine.specs.CodeSteps.{an_action, code_answered, code_next};
ghost use Rattle.herm_code_machine.specs.Pieces as pieces;
ghost use Rattle.herm_pieces.specs.View.{met_view, piece_view, position_view, ready_view};
ghost use Rattle.herm_steps.specs.Behind.{IsBehind};
ghost use Rattle.herm_steps.specs.Coming.{coming, coming_action};
ghost use Rattle.herm_steps.specs.StandingAt.{StandsAt};
ghost use Rattle.herm_answers.specs.Incomings.{IsWholeIncoming, TellsIncoming};

use crate::going::go_on;
use crate::incoming::{Incoming, take_in};
use herm_pieces::{Code, Met, Piece, Position};
use herm_steps::{Running, count_piece, push_operands};
use std::alloc::{AllocError, Global};

/// What comes in with the answer to the action of a piece goes where the action says: its operands are pushed, and its step and
/// action are counted. False where something is not there.
pub fn came_in(
    process: &mut Running,
    alloc: Global,
    code: &Code,
    piece: Piece,
    met: Met,
    incoming: Incoming,
) -> Result<bool, AllocError>
    requires steps { process.old.frame.steps < u64.MAX }
    requires actions { process.old.frame.actions < u64.MAX }
    requires whole { IsWholeIncoming incoming }
    ensures answered { IfOk result (λ r. (s : CodeState ⊤) (at : ℕ) (action : CellAction ⊤) → StandsAt process.old s → coming_action (piece_view piece) (met_view met.entry) ≡ coming (code_next (ready_view code.now) s) → TellsIncoming incoming at action → IsBehind r process.new s (code_answered forget_name (ready_view code.now) s at action)) }
{
    if !push_operands(alloc, code, &process.frame, piece, &mut process.stack)? {
        return Ok(false);
    }
    count_piece(&mut process.frame, piece);
    let outcome = take_in(&mut process.frame, met.instruction, incoming)?;
    let runs = go_on(process, alloc, code, met.index, met.instruction, outcome)?;
    Ok(runs)
}

/// The action of the piece at a position.
pub fn action_at<'i>(code: &Code<'i>, position: Position) -> Option<Met<'i>>
    ensures action { (s : CodeState ⊤) (p : pieces.Piece) (m : pieces.Met) → s.position ≡ position_view position → code_next (ready_view code.now) s ≡ an_action p m → option_map met_view result ≡ Some m }
{
    let Some(piece) = code.piece_at(position) else {
        return None;
    };
    code.action_of(piece)
}
