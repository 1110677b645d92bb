//! The points of a process, in one walk over its text.
ghost use Rattle.std.specs.Prelude.{◌≡◌, ◌+◌, ◌∷◌, [], ◌++◌, IfOk, map, flat_map};
ghost use Rattle.herm_model.specs.Nodes.{nodes, nodes_in, nodes_of_choices, nodes_of_catches, starts, start_of_block};
ghost use Rattle.herm_model.specs.Statements.{trying};
ghost use Rattle.herm_model.specs.Targets.{node};
ghost use Rattle.herm_typed.specs.declared.statements.TypedStmt.{out-TypedStmt};
ghost use Rattle.herm_typed.specs.View.{typed_form_view, typed_stmts_view};
ghost use Rattle.herm_typed.specs.Within.{statements_within, all_statements};
ghost use Rattle.herm_typed.specs.Blocks.{handlers_list};
ghost use Rattle.herm_judge.specs.View.{table_of, variables_of};
ghost use Rattle.herm_flow.specs.View.{target_view, catch_view};
ghost use Rattle.herm_flow.specs.Parts.{blocks_of};
ghost use Rattle.herm_flow.specs.Edges.{point_at};
ghost use Rattle.herm_flow.specs.Around.{around_view, in_loop};
ghost use Rattle.herm_flow.specs.KnownOutcomes.{AllKnow};
ghost use Rattle.herm_flow.specs.Kept.{points_view, Adds};
ghost use Rattle.herm_model.specs.ControlPaths.{point};

use crate::calls::Notes;
use crate::counts::{Count, count_block, count_form, sum};
use crate::flow::Target;
use crate::kept::{Kept, Points};
use crate::parts::{Parts, parts_of};
use crate::points::push_point;
use crate::starts::{Catch, reach_of, start_from, starts_of};
use herm_base::ExcNo;
use herm_judge::Frame;
use herm_typed::TypedStmt;
use std::alloc::{AllocError, Global};

/// What the text around a statement decides: where control goes behind the statement, and behind the nearest loop, and the
/// handlers within reach, the nearest first; and which edges are kept.
#[derive(Clone, Copy)]
pub struct Around<'a> {
    pub behind: Target,
    pub exit: Target,
    pub catches: &'a [Catch],
    pub kept: Kept,
}

/// The number of a statement, and the place at which its points begin.
#[derive(Clone, Copy)]
pub struct Place {
    pub number: u32,
    pub from: u32,
}

/// The place behind so many statements.
fn behind(at: Place, count: Count) -> Result<Place, AllocError>
    ensures number { IfOk result (λ p. p.number ≡ at.number + count.numbers) }
    ensures from { IfOk result (λ p. p.from ≡ at.from + count.nodes) }
{
    let number = sum(at.number, count.numbers)?;
    let from = sum(at.from, count.nodes)?;
    Ok(Place { number, from })
}

/// The place behind a point.
fn next(at: Place) -> Result<Place, AllocError>
    ensures number { IfOk result (λ p. p.number ≡ at.number + 1) }
    ensures from { IfOk result (λ p. p.from ≡ at.from + 1) }
{
    let number = sum(at.number, 1)?;
    let from = sum(at.from, 1)?;
    Ok(Place { number, from })
}

/// The points of blocks that stand one behind the other.
#[cycle(walking)]
fn walk_blocks(
    alloc: Global,
    frame: &Frame,
    blocks: &[&[TypedStmt]],
    first: Place,
    around: &Around<'_>,
    notes: &mut Notes,
    points: &mut Points,
) -> Result<(), AllocError>
    requires known { AllKnow (table_of frame.now) (variables_of frame.now) (flat_map all_statements (map (λ b. b.now) blocks.now)) }
    ensures points { IfOk result (λ u. Adds around.now.kept (points_view around.now.kept points.old) (points_view around.now.kept points.new) (map (point (table_of frame.now) (variables_of frame.now)) (nodes_of_choices (blocks_of (map (λ b. b.now) blocks.now)) first.number first.from (around_view around.now)))) }
{
    let mut at = first;
    'each: for block in blocks {
        walk_block(alloc, frame, block, at, around, notes, points)?;
        let count = count_block(alloc, block)?;
        at = behind(at, count)?;
    }
    Ok(())
}

/// The points of the handlers of a `try`.
#[cycle(walking)]
fn walk_handlers(
    alloc: Global,
    frame: &Frame,
    handled: &[(ExcNo, Vec<TypedStmt>)],
    first: Place,
    around: &Around<'_>,
    notes: &mut Notes,
    points: &mut Points,
) -> Result<(), AllocError>
    requires known { AllKnow (table_of frame.now) (variables_of frame.now) (flat_map (λ h. all_statements h.1.items) handled.now) }
    ensures points { IfOk result (λ u. Adds around.now.kept (points_view around.now.kept points.old) (points_view around.now.kept points.new) (map (point (table_of frame.now) (variables_of frame.now)) (nodes_of_catches (handlers_list handled.now) first.number first.from (around_view around.now)))) }
{
    let mut at = first;
    'each: for (_, body) in handled {
        walk_block(alloc, frame, body.as_slice(), at, around, notes, points)?;
        let count = count_block(alloc, body.as_slice())?;
        at = behind(at, count)?;
    }
    Ok(())
}

/// The points of a statement that chooses one of these blocks.
#[cycle(walking)]
fn walk_choosing(
    alloc: Global,
    frame: &Frame,
    s: &TypedStmt,
    blocks: &[&[TypedStmt]],
    at: Place,
    around: &Around<'_>,
    notes: &mut Notes,
    points: &mut Points,
) -> Result<(), AllocError>
    requires known { AllKnow (table_of frame.now) (variables_of frame.now) (s.now ∷ flat_map all_statements (map (λ b. b.now) blocks.now)) }
    ensures points { IfOk result (λ u. Adds around.now.kept (points_view around.now.kept points.old) (points_view around.now.kept points.new) (point_at (table_of frame.now) (variables_of frame.now) (out-TypedStmt s.now).form at.number (starts (blocks_of (map (λ b. b.now) blocks.now)) (at.from + 1) (target_view around.now.behind)) (map catch_view around.now.catches.now) ∷ map (point (table_of frame.now) (variables_of frame.now)) (nodes_of_choices (blocks_of (map (λ b. b.now) blocks.now)) (at.number + 1) (at.from + 1) (around_view around.now)))) }
{
    let within = next(at)?;
    let leads = starts_of(alloc, blocks, within.from, around.behind)?;
    push_point(
        alloc,
        frame,
        s,
        at.number,
        leads.as_slice(),
        around.catches,
        around.kept,
        notes,
        points,
    )?;
    walk_blocks(alloc, frame, blocks, within, around, notes, points)?;
    Ok(())
}

/// The points of a loop, to which its block leads back.
#[cycle(walking)]
fn walk_repeating(
    alloc: Global,
    frame: &Frame,
    s: &TypedStmt,
    body: &[TypedStmt],
    at: Place,
    around: &Around<'_>,
    notes: &mut Notes,
    points: &mut Points,
) -> Result<(), AllocError>
    requires known { AllKnow (table_of frame.now) (variables_of frame.now) (s.now ∷ all_statements body.now) }
    ensures points { IfOk result (λ u. Adds around.now.kept (points_view around.now.kept points.old) (points_view around.now.kept points.new) (point_at (table_of frame.now) (variables_of frame.now) (out-TypedStmt s.now).form at.number (start_of_block (typed_stmts_view body.now) (at.from + 1) (node at.from) ∷ target_view around.now.behind ∷ []) (map catch_view around.now.catches.now) ∷ map (point (table_of frame.now) (variables_of frame.now)) (nodes_in (typed_stmts_view body.now) (at.number + 1) (at.from + 1) (in_loop at.from (around_view around.now))))) }
{
    let within = next(at)?;
    let back = Target::Point(at.from);
    let first = start_from(alloc, body, 0, within.from, back)?;
    let leads = [first, around.behind];
    push_point(
        alloc,
        frame,
        s,
        at.number,
        &leads,
        around.catches,
        around.kept,
        notes,
        points,
    )?;
    let inner = Around {
        behind: back,
        exit: around.behind,
        catches: around.catches,
        kept: around.kept,
    };
    walk_block(alloc, frame, body, within, &inner, notes, points)?;
    Ok(())
}

/// The points of a `try`, which is none itself. Its handlers are within reach of its block alone.
#[cycle(walking)]
fn walk_trying(
    alloc: Global,
    frame: &Frame,
    body: &[TypedStmt],
    handled: &[(ExcNo, Vec<TypedStmt>)],
    at: Place,
    around: &Around<'_>,
    notes: &mut Notes,
    points: &mut Points,
) -> Result<(), AllocError>
    requires known { AllKnow (table_of frame.now) (variables_of frame.now) (all_statements body.now ++ flat_map (λ h. all_statements h.1.items) handled.now) }
    ensures points { IfOk result (λ u. Adds around.now.kept (points_view around.now.kept points.old) (points_view around.now.kept points.new) (map (point (table_of frame.now) (variables_of frame.now)) (nodes (trying (typed_stmts_view body.now) (handlers_list handled.now)) at.number at.from (around_view around.now)))) }
{
    let number = sum(at.number, 1)?;
    let first = Place {
        number,
        from: at.from,
    };
    let count = count_block(alloc, body)?;
    let second = behind(first, count)?;
    let catches = reach_of(alloc, handled, second.from, around.behind, around.catches)?;
    let inner = Around {
        behind: around.behind,
        exit: around.exit,
        catches: catches.as_slice(),
        kept: around.kept,
    };
    walk_block(alloc, frame, body, first, &inner, notes, points)?;
    walk_handlers(alloc, frame, handled, second, around, notes, points)?;
    Ok(())
}

/// The points of a statement.
#[cycle(walking)]
fn walk_form(
    alloc: Global,
    frame: &Frame,
    s: &TypedStmt,
    at: Place,
    around: &Around<'_>,
    notes: &mut Notes,
    points: &mut Points,
) -> Result<(), AllocError>
    requires known { AllKnow (table_of frame.now) (variables_of frame.now) (s.now ∷ statements_within (out-TypedStmt s.now).form) }
    ensures points { IfOk result (λ u. Adds around.now.kept (points_view around.now.kept points.old) (points_view around.now.kept points.new) (map (point (table_of frame.now) (variables_of frame.now)) (nodes (typed_form_view (out-TypedStmt s.now).form) at.number at.from (around_view around.now)))) }
{
    let parts = parts_of(alloc, &s.form)?;
    match parts {
        Parts::Simple => {
            let leads = [around.behind];
            push_point(
                alloc,
                frame,
                s,
                at.number,
                &leads,
                around.catches,
                around.kept,
                notes,
                points,
            )?;
            Ok(())
        }
        Parts::Choosing(blocks) => {
            walk_choosing(
                alloc,
                frame,
                s,
                blocks.as_slice(),
                at,
                around,
                notes,
                points,
            )?;
            Ok(())
        }
        Parts::Repeating(body) => {
            walk_repeating(alloc, frame, s, body, at, around, notes, points)?;
            Ok(())
        }
        Parts::Leaving => {
            let leads = [around.exit];
            push_point(
                alloc,
                frame,
                s,
                at.number,
                &leads,
                around.catches,
                around.kept,
                notes,
                points,
            )?;
            Ok(())
        }
        Parts::Trying(body, handled) => {
            walk_trying(alloc, frame, body, handled, at, around, notes, points)?;
            Ok(())
        }
    }
}

/// The points of the statements of a block. Behind each of them control goes to what comes next.
#[cycle(walking)]
pub fn walk_block(
    alloc: Global,
    frame: &Frame,
    list: &[TypedStmt],
    first: Place,
    around: &Around<'_>,
    notes: &mut Notes,
    points: &mut Points,
) -> Result<(), AllocError>
    requires known { AllKnow (table_of frame.now) (variables_of frame.now) (all_statements list.now) }
    ensures points { IfOk result (λ u. Adds around.now.kept (points_view around.now.kept points.old) (points_view around.now.kept points.new) (map (point (table_of frame.now) (variables_of frame.now)) (nodes_in (typed_stmts_view list.now) first.number first.from (around_view around.now)))) }
{
    let mut at = first;
    'statements: for i in 0..list.len() {
        let s = &list[i];
        let count = count_form(alloc, &s.form)?;
        let then = behind(at, count)?;
        let to = start_from(alloc, list, i + 1, then.from, around.behind)?;
        let inner = Around {
            behind: to,
            exit: around.exit,
            catches: around.catches,
            kept: around.kept,
        };
        walk_form(alloc, frame, s, at, &inner, notes, points)?;
        at = then;
    }
    Ok(())
}
