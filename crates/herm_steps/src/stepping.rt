//! Local steps, and the beginning of a process.
ghost use Rattle.std.specs.Prelude.{◌≡◌, ◌<◌, ◌∷◌, ℕ, IfOk, IfSome, IfNone, None, Some, length, pred, true, ⊤};
ghost use Rattle.herm_journal.specs.Renaming.{forget_name};
ghost use Rattle.herm_model.specs.Values.{an_inport};
ghost use Rattle.herm_code_machine.specs.CodeStates.{CodeState, code_begin, to_next_piece};
ghost use Rattle.herm_code_machine.specs.CodeSteps.{code_local_step, code_next};
ghost use Rattle.herm_code_machine.specs.Pieces as pieces;
ghost use Rattle.herm_frames.specs.EmptyPlaces.{nothings};
ghost use Rattle.herm_pieces.specs.View.{piece_view, ready_view};
ghost use Rattle.herm_values.specs.View.{leaf};
ghost use Rattle.herm_values.specs.declared.value.Value.TheVariants as Value;
ghost use Rattle.herm_values.specs.Whole.{AllWhole};
ghost use Rattle.herm_steps.specs.Behind.{IsBehind};
ghost use Rattle.herm_steps.specs.Coming.{coming, coming_piece};
ghost use Rattle.herm_steps.specs.StandingAt.{StandsAt};
ghost use Rattle.herm_steps.specs.Stepped.{at_piece, begun};

use crate::messages::count_step;
use crate::next::Next;
use crate::running::Running;
use herm_base::{PortNo, ProcNo};
use herm_frames::Frame;
use herm_pieces::{Code, Piece, Position};
use herm_places::Variables;
use herm_stack::Stack;
use herm_values::Value;
use std::alloc::{AllocError, Global};

impl Running {
    /// Makes a local step: the next piece, which has no action. False where no such piece comes next, or an instruction is stuck.
    pub fn local_step(&mut self, alloc: Global, code: &Code) -> Result<bool, AllocError>
        requires steps { self.old.frame.steps < u64.MAX }
        ensures step { IfOk result (λ r. (s : CodeState ⊤) → StandsAt self.old s → IsBehind r self.new s (code_local_step forget_name (ready_view code.now) s)) }
    {
        match self.next(code) {
            Next::Item => Ok(false),
            Next::Reply(_) => Ok(false),
            Next::Action(_, _) => Ok(false),
            Next::Local(piece) => {
                let made = self.make_step(alloc, code, piece)?;
                Ok(made)
            }
            Next::Nothing => Ok(false),
        }
    }

    /// Makes the local step that is known to come next: without a look for an action behind its step. False only where an instruction is
    /// stuck.
    pub fn known_step(&mut self, alloc: Global, code: &Code) -> Result<bool, AllocError>
        requires steps { self.old.frame.steps < u64.MAX }
        requires known { (s : CodeState ⊤) → StandsAt self.old s → (p : pieces.Piece) × (coming (code_next (ready_view code.now) s) ≡ coming_piece p) }
        ensures step { IfOk result (λ r. (s : CodeState ⊤) → StandsAt self.old s → IsBehind r self.new s (code_local_step forget_name (ready_view code.now) s)) }
    {
        let Some(piece) = code.piece_at(self.position) else {
            return Ok(false);
        };
        let made = self.make_step(alloc, code, piece)?;
        Ok(made)
    }

    /// Does a piece that has no action: its step is counted, and then its instructions are done.
    fn make_step(&mut self, alloc: Global, code: &Code, piece: Piece) -> Result<bool, AllocError>
        requires steps { self.old.frame.steps < u64.MAX }
        ensures step { IfOk result (λ r. (s : CodeState ⊤) → StandsAt self.old s → IsBehind r self.new s (to_next_piece forget_name (ready_view code.now) (at_piece (piece_view piece) s))) }
    {
        self.begin_piece(piece);
        let made = self.run_on(alloc, code)?;
        Ok(made)
    }

    /// Goes to the first instruction of a piece behind its step, which is counted.
    fn begin_piece(&mut self, piece: Piece)
        requires steps { self.old.frame.steps < u64.MAX }
        ensures stands { (s : CodeState ⊤) → StandsAt self.old s → StandsAt self.new (at_piece (piece_view piece) s) }
    {
        count_step(&mut self.frame, piece.has_step);
        self.position = Position::At(piece.first);
    }

    /// A process of this number begins: its port is in variable 0, and the instructions before its first piece are done. None
    /// where one of them is stuck.
    pub fn begin(
        alloc: Global,
        code: &Code,
        number: ProcNo,
        port: PortNo,
    ) -> Result<Option<Running>, AllocError>
        ensures begins { IfOk result (λ r. IfSome r (λ p. (module_number : ℕ) → IsBehind true p (begun (ready_view code.now) module_number number.number (leaf (an_inport port.number))) (code_begin forget_name (ready_view code.now) module_number number.number (leaf (an_inport port.number))))) }
        ensures stuck { IfOk result (λ r. IfNone r ((module_number : ℕ) → code_begin forget_name (ready_view code.now) module_number number.number (leaf (an_inport port.number)) ≡ None)) }
    {
        let mut process = Running::at_begin(alloc, code, number, port)?;
        if process.run_on(alloc, code)? {
            return Ok(Some(process));
        }
        Ok(None)
    }

    /// A process before its first instruction.
    fn at_begin(
        alloc: Global,
        code: &Code,
        number: ProcNo,
        port: PortNo,
    ) -> Result<Running, AllocError>
        ensures stands { IfOk result (λ p. (module_number : ℕ) → StandsAt p (begun (ready_view code.now) module_number number.number (leaf (an_inport port.number)))) }
    {
        let places = first_places(alloc, variables_of(code), port)?;
        let frame = Frame::new(alloc, number, Variables::of(places));
        Ok(Running::new(Position::At(0), Stack::new(alloc), frame))
    }
}

/// How many variables the code has.
fn variables_of(code: &Code) -> usize
    ensures count { result ≡ length (ready_view code.now).scope.variables }
{
    code.code.vars.len()
}

/// A port in the first of so many variables, and nothing in the others.
fn first_places(alloc: Global, n: usize, port: PortNo) -> Result<Vec<Option<Value>>, AllocError>
    ensures places { IfOk result (λ places. places.items ≡ Some (Value.Inport port) ∷ nothings (pred n)) }
    ensures whole { IfOk result (λ places. AllWhole places.items) }
{
    let others = count_of_others(n);
    let mut places = Vec::with_capacity(alloc, n)?;
    places.push(Some(Value::Inport(port)))?;
    'others: for _place in 0..others {
        places.push(None)?;
    }
    Ok(places)
}

/// How many of so many variables are not the first.
fn count_of_others(n: usize) -> usize
    ensures others { result ≡ pred n }
{
    if n == 0 {
        return 0;
    }
    n - 1
}
