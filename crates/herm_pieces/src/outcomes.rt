//! Where the outcomes of instructions lead.
ghost use Rattle.std.specs.Prelude.{◌≡◌, ◌<◌, Some, length, suc};
ghost use Rattle.herm_model.specs.Outcomes.{ok};
ghost use Rattle.herm_code.specs.View.{instr_view};
ghost use Rattle.herm_code_machine.specs.CodeStates as states;
ghost use Rattle.herm_pieces.specs.View.{outcome_view, ready_view};

use crate::code::Code;
use herm_base::ExcNo;
use herm_code::Instr;

/// How an instruction can go on. An arm of `Select` is its place from 0 on.
#[derive(Clone, Copy, Debug, PartialEq, Eq)]
pub enum Outcome {
    Ok,
    True,
    False,
    Turn,
    Done,
    Component(u32),
    Arm(usize),
    Raised(ExcNo),
}

impl<'i> Code<'i> {
    /// The index that an outcome of the instruction at an index leads to.
    #[inline(always)]
    pub fn leads(&self, index: usize, instruction: &Instr, outcome: Outcome) -> Option<usize>
        requires within { index < length self.now.code.now.code.items }
        ensures leads { result ≡ states.leads (ready_view self.now) index (instr_view instruction.now) (outcome_view outcome) }
    {
        match outcome {
            Outcome::Ok => Some(self.goes_to(index, instruction)),
            Outcome::True => Some(self.behind(index)),
            Outcome::False => index_of_false(instruction),
            Outcome::Turn => Some(self.behind(index)),
            Outcome::Done => index_of_done(instruction),
            Outcome::Component(k) => index_of_component(instruction, k),
            Outcome::Arm(n) => index_of_arm(instruction, n),
            Outcome::Raised(e) => self.landing_of(index, e),
        }
    }

    /// The index at which the instruction at an index goes on without an exception: the one that it jumps to, or the one behind.
    pub fn goes_to(&self, index: usize, instruction: &Instr) -> usize
        requires within { index < length self.now.code.now.code.items }
        ensures goes { Some result ≡ states.leads (ready_view self.now) index (instr_view instruction.now) ok }
    {
        jumped(instruction, self.behind(index))
    }

    /// The index behind one.
    pub fn behind(&self, index: usize) -> usize
        requires within { index < length self.now.code.now.code.items }
        ensures behind { result ≡ suc index }
    {
        index + 1
    }
}

/// The index that a jump goes to, or the one behind.
fn jumped(instruction: &Instr, behind: usize) -> usize
    ensures jumped { result ≡ states.jumped (instr_view instruction.now) behind }
{
    match instruction {
        Instr::Jump(index) => *index as usize,
        _ => behind,
    }
}

/// The index of a test that is false.
fn index_of_false(instruction: &Instr) -> Option<usize>
    ensures index { result ≡ states.index_of_false (instr_view instruction.now) }
{
    match instruction {
        Instr::JumpFalse(index) => Some(*index as usize),
        _ => None,
    }
}

/// The index of a loop that has no more rows.
fn index_of_done(instruction: &Instr) -> Option<usize>
    ensures index { result ≡ states.index_of_done (instr_view instruction.now) }
{
    match instruction {
        Instr::LoopNext(_, _, index) => Some(*index as usize),
        _ => None,
    }
}

/// The index of a component.
fn index_of_component(instruction: &Instr, component: u32) -> Option<usize>
    ensures index { result ≡ states.index_of_component (instr_view instruction.now) component }
{
    match instruction {
        Instr::CaseOf(_, indices) => match indices.get(component as usize) {
            Some(index) => Some(*index as usize),
            None => None,
        },
        _ => None,
    }
}

/// The index of an arm.
fn index_of_arm(instruction: &Instr, arm: usize) -> Option<usize>
    ensures index { result ≡ states.index_of_arm (instr_view instruction.now) arm }
{
    match instruction {
        Instr::Select(arms) => match arms.get(arm) {
            Some(a) => Some(a.index as usize),
            None => None,
        },
        _ => None,
    }
}
