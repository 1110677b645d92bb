//! A process of compiled code.
ghost use Rattle.std.specs.Prelude.{◌≡◌, Some, None, option_map, ⊤};
ghost use Rattle.herm_code_machine.specs.CodeSteps.{code_next};
ghost use Rattle.herm_code_machine.specs.CodeStates.{CodeState};
ghost use Rattle.herm_pieces.specs.View.{position_view, ready_view};
ghost use Rattle.herm_steps.specs.Coming.{coming, end_at, end_view, next_view};
ghost use Rattle.herm_steps.specs.StandingAt.{StandsAt};

use crate::next::{Next, piece_at, reply_at};
use herm_base::ExcNo;
use herm_frames::Frame;
use herm_pieces::{Code, Position};
use herm_stack::Stack;
use std::marker::Model;

/// How a process ended: by itself, or by an exception.
#[derive(Clone, Copy, Debug, PartialEq, Eq)]
pub enum End {
    Normal,
    By(ExcNo),
}

/// Where a process of compiled code is, the values of its expression, and what else it holds.
#[derive(Drop)]
pub struct Running {
    pub position: Position,
    pub stack: Stack,
    pub frame: Frame,
}

impl Model for Running {
    ghost use Rattle.std.specs.Coded.{codes};
    ghost use Rattle.herm_values.specs.contracts.value.Value as held;
    ghost use Rattle.herm_values.specs.contracts.work.WorkItem as item;
    ghost use Rattle.herm_pieces.specs.View.{position_view};
    ghost use Rattle.herm_steps.specs.HeldStates.{HeldState};

    ghost Value = { HeldState };

    ghost coded = { Prim.hlevel (codes, held.the_row.coded, item.the_row.coded) };

    ghost view = { λ p. record { position = position_view p.position; stack = p.stack; frame = p.frame } };
}

impl Running {
    /// The process at this position.
    pub fn new(position: Position, stack: Stack, frame: Frame) -> Running
        ensures process { result ≡ record { position = position_view position; stack = stack; frame = frame } }
    {
        Running {
            position,
            stack,
            frame,
        }
    }

    /// What comes next.
    #[inline(always)]
    pub fn next<'i>(&self, code: &Code<'i>) -> Next<'i>
        ensures next { (s : CodeState ⊤) → StandsAt self.now s → next_view result ≡ coming (code_next (ready_view code.now) s) }
    {
        if self.frame.front().is_some() {
            return Next::Item;
        }
        match self.frame.call() {
            Some(_) => reply_at(code, self.position),
            None => piece_at(code, self.position),
        }
    }

    /// The end that it is at, if it is at one.
    pub(crate) fn end(&self) -> Option<End>
        ensures end { option_map end_view result ≡ end_at self.now.position }
    {
        match self.position {
            Position::At(_) => None,
            Position::End => Some(End::Normal),
            Position::EndBy(e) => Some(End::By(e)),
        }
    }
}
