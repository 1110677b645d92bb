//! The instructions of a form behind its operands.
ghost use Rattle.std.specs.Prelude.{◌≡◌, ◌∷◌, [], map, IfOk};
ghost use Rattle.herm_model.specs.Outcomes.{is_false};
ghost use Rattle.herm_instructions.specs.Instructions as model;
ghost use Rattle.herm_types.specs.View.{fact_view};
ghost use Rattle.herm_fronts.specs.Frames.{table_of, variables_of};
ghost use Rattle.herm_code.specs.View.{instr_view};
ghost use Rattle.herm_fronts.specs.Blocks.{exits_view};
ghost use Rattle.herm_fronts.specs.Forms.{form_seen, behind_operands};

use crate::calls::{answer, answer_by, call};
use crate::departures::{Exits, exit_at};
use crate::frame::Frame;
use crate::one::one;
use crate::ports::{connect, create, receive, select, send};
use crate::tables::{get, insert, loop_over, remove};
use crate::values::{discard, moved, new, store, unwrap, wrap};
use crate::variants::{case, dissolve, reveal, unite};
use herm_code::Instr;
use herm_typed::{Outcome, TypedForm};
use herm_types::Fact;
use std::alloc::{AllocError, Global};

/// Where a form's instructions stand: the facts before its statement, the statement's number, the index at which they begin,
/// and the edges behind them.
#[derive(Clone, Copy)]
pub struct Site<'a> {
    pub facts: &'a [Fact],
    pub number: u32,
    pub here: u32,
    pub exits: Exits<'a>,
}

/// A test leads elsewhere where it is false.
fn test(alloc: Global, exits: &Exits<'_>) -> Result<Vec<Instr>, AllocError>
    ensures { IfOk result (λ v. map instr_view v.items ≡ model.JumpFalse (exits_view exits.now is_false) ∷ []) }
{
    let at = exit_at(exits, Outcome::False)?;
    one(alloc, Instr::JumpFalse(at))
}

/// The instructions of a form behind its operands.
pub fn behind_operands(
    alloc: Global,
    frame: &Frame,
    site: &Site<'_>,
    form: &TypedForm,
) -> Result<Vec<Instr>, AllocError>
    ensures { IfOk result (λ v. map instr_view v.items ≡ behind_operands (table_of frame.now) (variables_of frame.now) (map fact_view site.now.facts.now) site.now.number site.now.here (exits_view site.now.exits) (form_seen form.now)) }
{
    let exits = &site.exits;
    match form {
        TypedForm::Assign(x, _) => store(alloc, x),
        TypedForm::Move(y, x) => moved(alloc, y, x),
        TypedForm::New(x) => new(alloc, frame, x),
        TypedForm::Discard(x) => discard(alloc, x),
        TypedForm::Unite(v, c, y) => unite(alloc, v, *c, y),
        TypedForm::Dissolve(v, c, y) => dissolve(alloc, v, *c, y),
        TypedForm::Reveal(v, c) => reveal(alloc, v, *c),
        TypedForm::Case(v, _) => case(alloc, frame, exits, v),
        TypedForm::Wrap(y, p) => wrap(alloc, frame, y, p),
        TypedForm::Unwrap(p, t, y) => unwrap(alloc, p, *t, y),
        TypedForm::Insert(r, t) => insert(alloc, r, t),
        TypedForm::Remove(r, t, keys) => remove(alloc, r, t, keys.as_slice()),
        TypedForm::Get(r, t, keys) => get(alloc, r, t, keys.as_slice()),
        TypedForm::For(r, t, _) => loop_over(alloc, site.number, site.here, exits, r, t),
        TypedForm::Connect(o, i) => connect(alloc, o, i),
        TypedForm::Send(x, o) => send(alloc, frame, site.facts, x, o),
        TypedForm::Receive(x, i) => receive(alloc, x, i),
        TypedForm::Select(arms) => select(alloc, exits, arms.as_slice()),
        TypedForm::Call(o, atoms) => call(alloc, frame, o, atoms.as_slice()),
        TypedForm::Return(m) => answer(alloc, m),
        TypedForm::ReturnBy(m, e) => answer_by(alloc, frame, m, *e),
        TypedForm::Create(o, n) => create(alloc, o, *n),
        TypedForm::If(_, _, _) => test(alloc, exits),
        TypedForm::While(_, _) => test(alloc, exits),
        TypedForm::Raise(e) => one(alloc, Instr::Raise(*e)),
        TypedForm::Leave => Ok(Vec::new(alloc)),
        TypedForm::Try(_, _) => Ok(Vec::new(alloc)),
    }
}
