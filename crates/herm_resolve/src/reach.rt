//! The statements to which control leads, in one pass over the text.
ghost use Rattle.std.specs.Prelude.{◌≡◌, ◌++◌, ◌∷◌, ◌||◌, [], map, get_or, set, not, true, false, IfOk};
ghost use Rattle.herm_model.specs.Outcomes.{disconnected, listed_if, raised_by, raised_by_new};
ghost use Rattle.herm_model.specs.Calls.{call_raises, shape_at};
ghost use Rattle.herm_model.specs.Statements.{IsWellFormedBlock, trying};
ghost use Rattle.herm_naming.specs.UnreachedStatements.{MarksUnreached};
ghost use Rattle.herm_typed.specs.View.{typed_path_view, typed_expr_view, typed_form_view, typed_stmts_view};
ghost use Rattle.herm_typed.specs.Blocks.{case_blocks, select_blocks, else_block, handlers_list};
ghost use Rattle.herm_judge.specs.View.{table_of, variables_of};
ghost use Rattle.herm_resolve.specs.ControlInOnePass.{raise_one, raise_all, members, control, control_of_block, control_of_blocks, control_of_handlers, form_raises, raises_here, two_blocks};

use herm_base::ExcNo;
use herm_judge::{Frame, call_raises, may_be_refused};
use herm_numbers::Scope;
use herm_typed::{TypedExpr, TypedForm, TypedPath, TypedStmt, expression_raises};
use std::alloc::{AllocError, Global};

/// Whether control goes on behind a part of the text, and whether it leaves the loop around it.
#[derive(Clone, Copy)]
struct Goes {
    on: bool,
    out: bool,
}

const OVERFLOW: usize = 0;

const DEPLETION: usize = 1;

const CASE_ERROR: usize = 2;

const POLYMORPH_MISMATCH: usize = 3;

const DUPLICATE_KEY: usize = 4;

const NOT_FOUND: usize = 5;

const DISCONNECTED: usize = 6;

/// One exception more in a table by their numbers.
#[tactic(auto, using(crate::proofs::ReachCode::one_grown, crate::proofs::ReachCode::one_set))]
fn raise(raised: &mut Vec<bool>, place: usize) -> Result<(), AllocError>
    ensures raised { IfOk result (λ u. raised.new.items ≡ raise_one raised.old.items place) }
{
    'places: while raised.len() <= place {
        raised.push(false)?;
    }
    raised[place] = true;
    Ok(())
}

fn raise_if(raised: &mut Vec<bool>, test: bool, place: usize) -> Result<(), AllocError>
    ensures raised { IfOk result (λ u. raised.new.items ≡ raise_all raised.old.items (listed_if test place)) }
{
    if test {
        raise(raised, place)?;
    }
    Ok(())
}

#[tactic(auto, using(crate::proofs::ReachCode::all_joined))]
fn raise_by(raised: &mut Vec<bool>, e: &TypedExpr) -> Result<(), AllocError>
    ensures raised { IfOk result (λ u. raised.new.items ≡ raise_all raised.old.items (raised_by (typed_expr_view e.now))) }
{
    let found = expression_raises(e);
    raise_if(raised, found.overflow, OVERFLOW)?;
    raise_if(raised, found.depletion, DEPLETION)?;
    Ok(())
}

#[tactic(auto, using(crate::proofs::ReachCode::refused_raises))]
fn raise_new(frame: &Frame, x: &TypedPath, raised: &mut Vec<bool>) -> Result<(), AllocError>
    ensures raised { IfOk result (λ u. raised.new.items ≡ raise_all raised.old.items (raised_by_new (shape_at (table_of frame.now) (variables_of frame.now) (typed_path_view x.now)))) }
{
    raise_if(raised, may_be_refused(frame, x), DEPLETION)?;
    Ok(())
}

fn raise_call(frame: &Frame, o: &TypedPath, raised: &mut Vec<bool>) -> Result<(), AllocError>
    ensures raised { IfOk result (λ u. raised.new.items ≡ raise_all raised.old.items (disconnected ∷ map (λ r. r.exception) (call_raises (table_of frame.now) (variables_of frame.now) (typed_path_view o.now)))) }
{
    raise(raised, DISCONNECTED)?;
    let raises = call_raises(frame, o);
    'raises: for r in raises {
        raise(raised, r.exc.0 as usize)?;
    }
    Ok(())
}

fn raise_two(raised: &mut Vec<bool>, d: usize, e: usize) -> Result<(), AllocError>
    ensures raised { IfOk result (λ u. raised.new.items ≡ raise_all raised.old.items (d ∷ e ∷ [])) }
{
    raise(raised, d)?;
    raise(raised, e)?;
    Ok(())
}

/// The exceptions that a statement can raise by itself.
fn raise_all(frame: &Frame, form: &TypedForm, raised: &mut Vec<bool>) -> Result<(), AllocError>
    ensures raised { IfOk result (λ u. raised.new.items ≡ raise_all raised.old.items (form_raises (table_of frame.now) (variables_of frame.now) form.now)) }
{
    match form {
        TypedForm::Assign(_, e) => raise_by(raised, e),
        TypedForm::Move(_, _) => Ok(()),
        TypedForm::New(x) => raise_new(frame, x, raised),
        TypedForm::Discard(_) => Ok(()),
        TypedForm::Unite(_, _, _) => Ok(()),
        TypedForm::Dissolve(_, _, _) => Ok(()),
        TypedForm::Reveal(_, _) => raise(raised, CASE_ERROR),
        TypedForm::Case(_, _) => Ok(()),
        TypedForm::Wrap(_, _) => raise(raised, DEPLETION),
        TypedForm::Unwrap(_, _, _) => raise(raised, POLYMORPH_MISMATCH),
        TypedForm::Insert(_, _) => raise_two(raised, DEPLETION, DUPLICATE_KEY),
        TypedForm::Remove(_, _, _) => raise(raised, NOT_FOUND),
        TypedForm::Get(_, _, _) => raise(raised, NOT_FOUND),
        TypedForm::For(_, _, _) => Ok(()),
        TypedForm::Connect(_, _) => Ok(()),
        TypedForm::Send(_, _) => raise(raised, DISCONNECTED),
        TypedForm::Receive(_, _) => Ok(()),
        TypedForm::Select(_) => Ok(()),
        TypedForm::Call(o, _) => raise_call(frame, o, raised),
        TypedForm::Return(_) => Ok(()),
        TypedForm::ReturnBy(_, _) => Ok(()),
        TypedForm::Create(_, _) => raise(raised, DEPLETION),
        TypedForm::If(e, _, _) => raise_by(raised, e),
        TypedForm::While(e, _) => raise_by(raised, e),
        TypedForm::Raise(e) => raise(raised, e.0 as usize),
        TypedForm::Leave => Ok(()),
        TypedForm::Try(_, _) => Ok(()),
    }
}

/// The mark of a statement, and what it raises by itself.
fn mark(
    frame: &Frame,
    form: &TypedForm,
    here: bool,
    marks: &mut Vec<bool>,
    raised: &mut Vec<bool>,
) -> Result<(), AllocError>
    ensures marks { IfOk result (λ u. marks.new.items ≡ marks.old.items ++ (not here ∷ [])) }
    ensures raised { IfOk result (λ u. raised.new.items ≡ raise_all raised.old.items (raises_here (table_of frame.now) (variables_of frame.now) form.now here)) }
{
    marks.push(!here)?;
    if here {
        raise_all(frame, form, raised)?;
    }
    Ok(())
}

/// Whether an exception is in a table.
fn is_raised(raised: &[bool], e: ExcNo) -> bool
    ensures raised { result ≡ get_or raised.now e.0 false }
{
    let place = e.0 as usize;
    if place < raised.len() {
        return raised[place];
    }
    false
}

/// An exception is taken out of a table.
fn clear(raised: &mut Vec<bool>, e: ExcNo)
    ensures raised { raised.new.items ≡ set raised.old.items e.0 false }
{
    let place = e.0 as usize;
    if place < raised.len() {
        raised[place] = false;
    }
}

/// The exceptions of another table.
#[tactic(auto, using(crate::proofs::ReachCode::members_joined))]
fn raise_each(raised: &mut Vec<bool>, inner: &[bool]) -> Result<(), AllocError>
    ensures raised { IfOk result (λ u. raised.new.items ≡ raise_all raised.old.items (members 0 inner.now)) }
{
    'inner: for (place, r) in inner.iter().enumerate() {
        raise_if(raised, *r, place)?;
    }
    Ok(())
}

/// Control at a form without blocks that goes on behind it.
fn pass(
    frame: &Frame,
    form: &TypedForm,
    here: bool,
    marks: &mut Vec<bool>,
    raised: &mut Vec<bool>,
) -> Result<Goes, AllocError>
    ensures on { IfOk result (λ g. g.on ≡ here) }
    ensures out { IfOk result (λ g. g.out ≡ false) }
    ensures raised { IfOk result (λ g. raised.new.items ≡ raise_all raised.old.items (raises_here (table_of frame.now) (variables_of frame.now) form.now here)) }
    ensures marks { IfOk result (λ g. marks.new.items ≡ marks.old.items ++ (not here ∷ [])) }
{
    mark(frame, form, here, marks, raised)?;
    Ok(Goes {
        on: here,
        out: false,
    })
}

/// Control at a `raise`.
fn stop(
    frame: &Frame,
    form: &TypedForm,
    here: bool,
    marks: &mut Vec<bool>,
    raised: &mut Vec<bool>,
) -> Result<Goes, AllocError>
    ensures on { IfOk result (λ g. g.on ≡ false) }
    ensures out { IfOk result (λ g. g.out ≡ false) }
    ensures raised { IfOk result (λ g. raised.new.items ≡ raise_all raised.old.items (raises_here (table_of frame.now) (variables_of frame.now) form.now here)) }
    ensures marks { IfOk result (λ g. marks.new.items ≡ marks.old.items ++ (not here ∷ [])) }
{
    mark(frame, form, here, marks, raised)?;
    Ok(Goes {
        on: false,
        out: false,
    })
}

/// Control at a `leave`.
fn leave(here: bool, marks: &mut Vec<bool>) -> Result<Goes, AllocError>
    ensures on { IfOk result (λ g. g.on ≡ false) }
    ensures out { IfOk result (λ g. g.out ≡ here) }
    ensures marks { IfOk result (λ g. marks.new.items ≡ marks.old.items ++ (not here ∷ [])) }
{
    marks.push(!here)?;
    Ok(Goes {
        on: false,
        out: here,
    })
}

/// Control behind two parts that stand beside one another.
fn either(a: Goes, b: Goes) -> Goes
    ensures on { result.on ≡ (a.on || b.on) }
    ensures out { result.out ≡ (a.out || b.out) }
{
    Goes {
        on: a.on || b.on,
        out: a.out || b.out,
    }
}

/// Control behind two parts of which the second stands behind the first.
fn behind(a: Goes, b: Goes) -> Goes
    ensures on { result.on ≡ b.on }
    ensures out { result.out ≡ (a.out || b.out) }
{
    Goes {
        on: b.on,
        out: a.out || b.out,
    }
}

/// Nothing goes on or leaves.
fn nowhere() -> Goes
    ensures on { result.on ≡ false }
    ensures out { result.out ≡ false }
{
    Goes {
        on: false,
        out: false,
    }
}

/// Control through the blocks of the arms of a `case`.
#[cycle(reaching)]
#[tactic(auto, using(crate::proofs::ReachSizes::arm_size))]
fn reach_blocks(
    alloc: Global,
    frame: &Frame,
    arms: &[(u32, Vec<TypedStmt>)],
    here: bool,
    marks: &mut Vec<bool>,
    raised: &mut Vec<bool>,
) -> Result<Goes, AllocError>
    ensures on { IfOk result (λ g. g.on ≡ (control_of_blocks (table_of frame.now) (variables_of frame.now) (case_blocks arms.now) here).on) }
    ensures out { IfOk result (λ g. g.out ≡ (control_of_blocks (table_of frame.now) (variables_of frame.now) (case_blocks arms.now) here).out) }
    ensures raised { IfOk result (λ g. raised.new.items ≡ raise_all raised.old.items (control_of_blocks (table_of frame.now) (variables_of frame.now) (case_blocks arms.now) here).raised) }
    ensures marks { IfOk result (λ g. marks.new.items ≡ marks.old.items ++ (control_of_blocks (table_of frame.now) (variables_of frame.now) (case_blocks arms.now) here).marks) }
{
    let mut goes = nowhere();
    'arms: for (_, body) in arms {
        let then = reach_block(alloc, frame, body.as_slice(), here, marks, raised)?;
        goes = either(goes, then);
    }
    Ok(goes)
}

/// Control through the blocks of the arms of a `select`.
#[cycle(reaching)]
#[tactic(auto, using(crate::proofs::ReachSizes::port_size))]
fn reach_ports(
    alloc: Global,
    frame: &Frame,
    arms: &[(TypedPath, TypedPath, Vec<TypedStmt>)],
    here: bool,
    marks: &mut Vec<bool>,
    raised: &mut Vec<bool>,
) -> Result<Goes, AllocError>
    ensures on { IfOk result (λ g. g.on ≡ (control_of_blocks (table_of frame.now) (variables_of frame.now) (select_blocks arms.now) here).on) }
    ensures out { IfOk result (λ g. g.out ≡ (control_of_blocks (table_of frame.now) (variables_of frame.now) (select_blocks arms.now) here).out) }
    ensures raised { IfOk result (λ g. raised.new.items ≡ raise_all raised.old.items (control_of_blocks (table_of frame.now) (variables_of frame.now) (select_blocks arms.now) here).raised) }
    ensures marks { IfOk result (λ g. marks.new.items ≡ marks.old.items ++ (control_of_blocks (table_of frame.now) (variables_of frame.now) (select_blocks arms.now) here).marks) }
{
    let mut goes = nowhere();
    'arms: for (_, _, body) in arms {
        let then = reach_block(alloc, frame, body.as_slice(), here, marks, raised)?;
        goes = either(goes, then);
    }
    Ok(goes)
}

/// Control through the block behind `else`, or past it where there is none.
#[cycle(reaching)]
fn reach_else(
    alloc: Global,
    frame: &Frame,
    other: &Option<Vec<TypedStmt>>,
    here: bool,
    marks: &mut Vec<bool>,
    raised: &mut Vec<bool>,
) -> Result<Goes, AllocError>
    ensures on { IfOk result (λ g. g.on ≡ (control_of_block (table_of frame.now) (variables_of frame.now) (else_block other.now) here).on) }
    ensures out { IfOk result (λ g. g.out ≡ (control_of_block (table_of frame.now) (variables_of frame.now) (else_block other.now) here).out) }
    ensures raised { IfOk result (λ g. raised.new.items ≡ raise_all raised.old.items (control_of_block (table_of frame.now) (variables_of frame.now) (else_block other.now) here).raised) }
    ensures marks { IfOk result (λ g. marks.new.items ≡ marks.old.items ++ (control_of_block (table_of frame.now) (variables_of frame.now) (else_block other.now) here).marks) }
{
    match other {
        None => Ok(Goes {
            on: here,
            out: false,
        }),
        Some(body) => {
            let goes = reach_block(alloc, frame, body.as_slice(), here, marks, raised)?;
            Ok(goes)
        }
    }
}

/// Control through the handlers of a `try`, in whose block these exceptions are raised. Those that no handler takes go further out.
#[cycle(reaching)]
#[tactic(auto, using(crate::proofs::ReachSizes::handler_size))]
fn reach_handlers(
    alloc: Global,
    frame: &Frame,
    handled: &[(ExcNo, Vec<TypedStmt>)],
    inner: Vec<bool>,
    marks: &mut Vec<bool>,
    raised: &mut Vec<bool>,
) -> Result<Goes, AllocError>
    ensures on { IfOk result (λ g. g.on ≡ (control_of_handlers (table_of frame.now) (variables_of frame.now) (handlers_list handled.now) inner.items).on) }
    ensures out { IfOk result (λ g. g.out ≡ (control_of_handlers (table_of frame.now) (variables_of frame.now) (handlers_list handled.now) inner.items).out) }
    ensures raised { IfOk result (λ g. raised.new.items ≡ raise_all raised.old.items (control_of_handlers (table_of frame.now) (variables_of frame.now) (handlers_list handled.now) inner.items).raised) }
    ensures marks { IfOk result (λ g. marks.new.items ≡ marks.old.items ++ (control_of_handlers (table_of frame.now) (variables_of frame.now) (handlers_list handled.now) inner.items).marks) }
{
    let mut left = inner;
    let mut goes = nowhere();
    'handlers: for (e, body) in handled {
        let here = is_raised(left.as_slice(), *e);
        let then = reach_block(alloc, frame, body.as_slice(), here, marks, raised)?;
        clear(&mut left, *e);
        goes = either(goes, then);
    }
    raise_each(raised, left.as_slice())?;
    Ok(goes)
}

#[cycle(reaching)]
#[tactic(auto, using(crate::proofs::ReachCode::all_joined))]
fn reach_case(
    alloc: Global,
    frame: &Frame,
    form: &TypedForm,
    arms: &[(u32, Vec<TypedStmt>)],
    here: bool,
    marks: &mut Vec<bool>,
    raised: &mut Vec<bool>,
) -> Result<Goes, AllocError>
    ensures on { IfOk result (λ g. g.on ≡ (control_of_blocks (table_of frame.now) (variables_of frame.now) (case_blocks arms.now) here).on) }
    ensures out { IfOk result (λ g. g.out ≡ (control_of_blocks (table_of frame.now) (variables_of frame.now) (case_blocks arms.now) here).out) }
    ensures raised { IfOk result (λ g. raised.new.items ≡ raise_all raised.old.items (raises_here (table_of frame.now) (variables_of frame.now) form.now here ++ (control_of_blocks (table_of frame.now) (variables_of frame.now) (case_blocks arms.now) here).raised)) }
    ensures marks { IfOk result (λ g. marks.new.items ≡ marks.old.items ++ (not here ∷ (control_of_blocks (table_of frame.now) (variables_of frame.now) (case_blocks arms.now) here).marks)) }
{
    mark(frame, form, here, marks, raised)?;
    let goes = reach_blocks(alloc, frame, arms, here, marks, raised)?;
    Ok(goes)
}

#[cycle(reaching)]
#[tactic(auto, using(crate::proofs::ReachCode::all_joined))]
fn reach_select(
    alloc: Global,
    frame: &Frame,
    form: &TypedForm,
    arms: &[(TypedPath, TypedPath, Vec<TypedStmt>)],
    here: bool,
    marks: &mut Vec<bool>,
    raised: &mut Vec<bool>,
) -> Result<Goes, AllocError>
    ensures on { IfOk result (λ g. g.on ≡ (control_of_blocks (table_of frame.now) (variables_of frame.now) (select_blocks arms.now) here).on) }
    ensures out { IfOk result (λ g. g.out ≡ (control_of_blocks (table_of frame.now) (variables_of frame.now) (select_blocks arms.now) here).out) }
    ensures raised { IfOk result (λ g. raised.new.items ≡ raise_all raised.old.items (raises_here (table_of frame.now) (variables_of frame.now) form.now here ++ (control_of_blocks (table_of frame.now) (variables_of frame.now) (select_blocks arms.now) here).raised)) }
    ensures marks { IfOk result (λ g. marks.new.items ≡ marks.old.items ++ (not here ∷ (control_of_blocks (table_of frame.now) (variables_of frame.now) (select_blocks arms.now) here).marks)) }
{
    mark(frame, form, here, marks, raised)?;
    let goes = reach_ports(alloc, frame, arms, here, marks, raised)?;
    Ok(goes)
}

#[cycle(reaching)]
#[tactic(auto, using(crate::proofs::ReachCode::all_joined))]
fn reach_if(
    alloc: Global,
    frame: &Frame,
    form: &TypedForm,
    body: &[TypedStmt],
    other: &Option<Vec<TypedStmt>>,
    here: bool,
    marks: &mut Vec<bool>,
    raised: &mut Vec<bool>,
) -> Result<Goes, AllocError>
    ensures on { IfOk result (λ g. g.on ≡ (control_of_blocks (table_of frame.now) (variables_of frame.now) (two_blocks (typed_stmts_view body.now) (else_block other.now)) here).on) }
    ensures out { IfOk result (λ g. g.out ≡ (control_of_blocks (table_of frame.now) (variables_of frame.now) (two_blocks (typed_stmts_view body.now) (else_block other.now)) here).out) }
    ensures raised { IfOk result (λ g. raised.new.items ≡ raise_all raised.old.items (raises_here (table_of frame.now) (variables_of frame.now) form.now here ++ (control_of_blocks (table_of frame.now) (variables_of frame.now) (two_blocks (typed_stmts_view body.now) (else_block other.now)) here).raised)) }
    ensures marks { IfOk result (λ g. marks.new.items ≡ marks.old.items ++ (not here ∷ (control_of_blocks (table_of frame.now) (variables_of frame.now) (two_blocks (typed_stmts_view body.now) (else_block other.now)) here).marks)) }
{
    mark(frame, form, here, marks, raised)?;
    let first = reach_block(alloc, frame, body, here, marks, raised)?;
    let then = reach_else(alloc, frame, other, here, marks, raised)?;
    Ok(either(first, then))
}

/// Control through a loop, to which its block leads back.
#[cycle(reaching)]
#[tactic(auto, using(crate::proofs::ReachCode::all_joined))]
fn reach_loop(
    alloc: Global,
    frame: &Frame,
    form: &TypedForm,
    body: &[TypedStmt],
    here: bool,
    marks: &mut Vec<bool>,
    raised: &mut Vec<bool>,
) -> Result<Goes, AllocError>
    ensures on { IfOk result (λ g. g.on ≡ here) }
    ensures out { IfOk result (λ g. g.out ≡ false) }
    ensures raised { IfOk result (λ g. raised.new.items ≡ raise_all raised.old.items (raises_here (table_of frame.now) (variables_of frame.now) form.now here ++ (control_of_block (table_of frame.now) (variables_of frame.now) (typed_stmts_view body.now) here).raised)) }
    ensures marks { IfOk result (λ g. marks.new.items ≡ marks.old.items ++ (not here ∷ (control_of_block (table_of frame.now) (variables_of frame.now) (typed_stmts_view body.now) here).marks)) }
{
    mark(frame, form, here, marks, raised)?;
    let _goes = reach_block(alloc, frame, body, here, marks, raised)?;
    Ok(Goes {
        on: here,
        out: false,
    })
}

#[cycle(reaching)]
#[tactic(auto, using(crate::proofs::ReachCode::all_joined))]
fn reach_try(
    alloc: Global,
    frame: &Frame,
    body: &[TypedStmt],
    handled: &[(ExcNo, Vec<TypedStmt>)],
    here: bool,
    marks: &mut Vec<bool>,
    raised: &mut Vec<bool>,
) -> Result<Goes, AllocError>
    ensures on { IfOk result (λ g. g.on ≡ (control (table_of frame.now) (variables_of frame.now) (trying (typed_stmts_view body.now) (handlers_list handled.now)) here).on) }
    ensures out { IfOk result (λ g. g.out ≡ (control (table_of frame.now) (variables_of frame.now) (trying (typed_stmts_view body.now) (handlers_list handled.now)) here).out) }
    ensures raised { IfOk result (λ g. raised.new.items ≡ raise_all raised.old.items (control (table_of frame.now) (variables_of frame.now) (trying (typed_stmts_view body.now) (handlers_list handled.now)) here).raised) }
    ensures marks { IfOk result (λ g. marks.new.items ≡ marks.old.items ++ (control (table_of frame.now) (variables_of frame.now) (trying (typed_stmts_view body.now) (handlers_list handled.now)) here).marks) }
{
    marks.push(false)?;
    let mut inner = Vec::new(alloc);
    let first = reach_block(alloc, frame, body, here, marks, &mut inner)?;
    let then = reach_handlers(alloc, frame, handled, inner, marks, raised)?;
    Ok(either(first, then))
}

/// Control from a statement on, where it leads there or not.
#[cycle(reaching)]
fn reach_form(
    alloc: Global,
    frame: &Frame,
    form: &TypedForm,
    here: bool,
    marks: &mut Vec<bool>,
    raised: &mut Vec<bool>,
) -> Result<Goes, AllocError>
    ensures on { IfOk result (λ g. g.on ≡ (control (table_of frame.now) (variables_of frame.now) (typed_form_view form.now) here).on) }
    ensures out { IfOk result (λ g. g.out ≡ (control (table_of frame.now) (variables_of frame.now) (typed_form_view form.now) here).out) }
    ensures raised { IfOk result (λ g. raised.new.items ≡ raise_all raised.old.items (control (table_of frame.now) (variables_of frame.now) (typed_form_view form.now) here).raised) }
    ensures marks { IfOk result (λ g. marks.new.items ≡ marks.old.items ++ (control (table_of frame.now) (variables_of frame.now) (typed_form_view form.now) here).marks) }
{
    match form {
        TypedForm::Assign(_, _) => {
            let g = pass(frame, form, here, marks, raised)?;
            Ok(g)
        }
        TypedForm::Move(_, _) => {
            let g = pass(frame, form, here, marks, raised)?;
            Ok(g)
        }
        TypedForm::New(_) => {
            let g = pass(frame, form, here, marks, raised)?;
            Ok(g)
        }
        TypedForm::Discard(_) => {
            let g = pass(frame, form, here, marks, raised)?;
            Ok(g)
        }
        TypedForm::Unite(_, _, _) => {
            let g = pass(frame, form, here, marks, raised)?;
            Ok(g)
        }
        TypedForm::Dissolve(_, _, _) => {
            let g = pass(frame, form, here, marks, raised)?;
            Ok(g)
        }
        TypedForm::Reveal(_, _) => {
            let g = pass(frame, form, here, marks, raised)?;
            Ok(g)
        }
        TypedForm::Wrap(_, _) => {
            let g = pass(frame, form, here, marks, raised)?;
            Ok(g)
        }
        TypedForm::Unwrap(_, _, _) => {
            let g = pass(frame, form, here, marks, raised)?;
            Ok(g)
        }
        TypedForm::Insert(_, _) => {
            let g = pass(frame, form, here, marks, raised)?;
            Ok(g)
        }
        TypedForm::Remove(_, _, _) => {
            let g = pass(frame, form, here, marks, raised)?;
            Ok(g)
        }
        TypedForm::Get(_, _, _) => {
            let g = pass(frame, form, here, marks, raised)?;
            Ok(g)
        }
        TypedForm::Connect(_, _) => {
            let g = pass(frame, form, here, marks, raised)?;
            Ok(g)
        }
        TypedForm::Send(_, _) => {
            let g = pass(frame, form, here, marks, raised)?;
            Ok(g)
        }
        TypedForm::Receive(_, _) => {
            let g = pass(frame, form, here, marks, raised)?;
            Ok(g)
        }
        TypedForm::Call(_, _) => {
            let g = pass(frame, form, here, marks, raised)?;
            Ok(g)
        }
        TypedForm::Return(_) => {
            let g = pass(frame, form, here, marks, raised)?;
            Ok(g)
        }
        TypedForm::ReturnBy(_, _) => {
            let g = pass(frame, form, here, marks, raised)?;
            Ok(g)
        }
        TypedForm::Create(_, _) => {
            let g = pass(frame, form, here, marks, raised)?;
            Ok(g)
        }
        TypedForm::Case(_, arms) => {
            let case_list = arms.as_slice();
            let g = reach_case(alloc, frame, form, case_list, here, marks, raised)?;
            Ok(g)
        }
        TypedForm::Select(arms) => {
            let ports = arms.as_slice();
            let g = reach_select(alloc, frame, form, ports, here, marks, raised)?;
            Ok(g)
        }
        TypedForm::If(_, body, other) => {
            let if_list = body.as_slice();
            let g = reach_if(alloc, frame, form, if_list, other, here, marks, raised)?;
            Ok(g)
        }
        TypedForm::For(_, _, body) => {
            let for_list = body.as_slice();
            let g = reach_loop(alloc, frame, form, for_list, here, marks, raised)?;
            Ok(g)
        }
        TypedForm::While(_, body) => {
            let while_list = body.as_slice();
            let g = reach_loop(alloc, frame, form, while_list, here, marks, raised)?;
            Ok(g)
        }
        TypedForm::Try(body, handled) => {
            let try_list = body.as_slice();
            let handlers_list = handled.as_slice();
            let g = reach_try(alloc, frame, try_list, handlers_list, here, marks, raised)?;
            Ok(g)
        }
        TypedForm::Leave => {
            let g = leave(here, marks)?;
            Ok(g)
        }
        TypedForm::Raise(_) => {
            let g = stop(frame, form, here, marks, raised)?;
            Ok(g)
        }
    }
}

/// Control along the statements of a block.
#[cycle(reaching)]
#[tactic(auto, using(crate::proofs::ReachSizes::item_size))]
fn reach_block(
    alloc: Global,
    frame: &Frame,
    list: &[TypedStmt],
    here: bool,
    marks: &mut Vec<bool>,
    raised: &mut Vec<bool>,
) -> Result<Goes, AllocError>
    ensures on { IfOk result (λ g. g.on ≡ (control_of_block (table_of frame.now) (variables_of frame.now) (typed_stmts_view list.now) here).on) }
    ensures out { IfOk result (λ g. g.out ≡ (control_of_block (table_of frame.now) (variables_of frame.now) (typed_stmts_view list.now) here).out) }
    ensures raised { IfOk result (λ g. raised.new.items ≡ raise_all raised.old.items (control_of_block (table_of frame.now) (variables_of frame.now) (typed_stmts_view list.now) here).raised) }
    ensures marks { IfOk result (λ g. marks.new.items ≡ marks.old.items ++ (control_of_block (table_of frame.now) (variables_of frame.now) (typed_stmts_view list.now) here).marks) }
{
    let mut goes = Goes {
        on: here,
        out: false,
    };
    'statements: for s in list {
        let then = reach_form(alloc, frame, &s.form, goes.on, marks, raised)?;
        goes = behind(goes, then);
    }
    Ok(goes)
}

/// One mark for each statement of a body: whether no control path leads to it, and it is no `try`. Language reference,
/// "Control paths".
///
/// # Errors
///
/// Where memory is wanting.
pub fn unreached(alloc: Global, scope: &Scope, body: &[TypedStmt]) -> Result<Vec<bool>, AllocError>
    requires formed { IsWellFormedBlock (typed_stmts_view body.now) }
    ensures marks { IfOk result (λ v. MarksUnreached scope.now.types.now.shapes (record { variables = map (λ t. t.0) scope.now.of.items; body = typed_stmts_view body.now }) v.items) }
{
    let frame = Frame {
        types: scope.types,
        of: scope.of.as_slice(),
        ports: scope.ports,
    };
    let mut marks = Vec::new(alloc);
    let mut raised = Vec::new(alloc);
    let _goes = reach_block(alloc, &frame, body, true, &mut marks, &mut raised)?;
    Ok(marks)
}
