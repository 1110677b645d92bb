//! The flow of a process.
ghost use Rattle.std.specs.Prelude.{◌≡◌, ◌<◌, ℕ, map, length, IfOk};
ghost use Rattle.herm_model.specs.Statements.{IsWellFormedBlock};
ghost use Rattle.herm_model.specs.ControlPaths.{flow_of};
ghost use Rattle.herm_typed.specs.View.{typed_process_view};
ghost use Rattle.herm_typed.specs.Beside.{KnowsTypes};
ghost use Rattle.herm_flow.specs.View.{point_view, flow_view};
ghost use Rattle.herm_flow.specs.Ready.{IsAllReached, IsReady};
ghost use Rattle.herm_flow.specs.Onward.{AreOnward, IsOnwardFlow};
ghost use Rattle.herm_flow.specs.OnwardView.{onward_point_view, onward_flow_view};
ghost use Rattle.herm_flow.specs.Kept.{AreKept, points_view};

use crate::calls::Notes;
use crate::flow::{Flow, Target};
use crate::kept::{Kept, Points};
use crate::onward::OnwardFlow;
use crate::walk::{Around, Place, walk_block};
use herm_base::TypeNo;
use herm_judge::Frame;
use herm_typed::{TypedProcess, TypedVar};
use herm_types::TypeTable;
use std::alloc::{AllocError, Global};

/// The types of variables.
fn types_of(alloc: Global, vars: &[TypedVar]) -> Result<Vec<TypeNo>, AllocError>
    ensures types { IfOk result (λ v. map (λ t. t.0) v.items ≡ map (λ x. x.of.0) vars.now) }
{
    let mut found = Vec::new(alloc);
    'vars: for x in vars {
        found.push(x.of)?;
    }
    Ok(found)
}

/// The points of a process, with the edges that are kept.
fn points_of(
    alloc: Global,
    types: &TypeTable,
    p: &TypedProcess,
    kept: Kept,
) -> Result<Points, AllocError>
    requires known { KnowsTypes types.now.shapes p.now }
    ensures points { IfOk result (λ v. AreKept kept (flow_of types.now.shapes (typed_process_view p.now)).points (points_view kept v)) }
{
    let of = types_of(alloc, p.vars.as_slice())?;
    let frame = Frame {
        types,
        of: of.as_slice(),
        ports: &[],
    };
    let around = Around {
        behind: Target::End,
        exit: Target::End,
        catches: &[],
        kept,
    };
    let first = Place { number: 1, from: 0 };
    let mut notes = Notes::none(alloc);
    let mut points = Points::none(alloc);
    walk_block(
        alloc,
        &frame,
        p.body.as_slice(),
        first,
        &around,
        &mut notes,
        &mut points,
    )?;
    Ok(points)
}

/// The flow of a process: a point for each statement but `try`, by its number, with the facts that it needs and its outcomes in
/// their order, each with the facts that it makes, the paths that it takes away and where it leads. The types beside the paths
/// of the process are those of the values at them. Language reference, "Control".
///
/// Where control reaches each statement, the flow begins at its first point. Where each form has the blocks that belong to it
/// too, it is ready for the check.
///
/// # Errors
///
/// Where memory is wanting.
pub fn flow_of(alloc: Global, types: &TypeTable, p: &TypedProcess) -> Result<Flow, AllocError>
    requires known { KnowsTypes types.now.shapes p.now }
    ensures points { IfOk result (λ f. map point_view f.points.items ≡ (flow_of types.now.shapes (typed_process_view p.now)).points) }
    ensures flow { IfOk result (λ f. IsAllReached (flow_of types.now.shapes (typed_process_view p.now)) → flow_view f ≡ flow_of types.now.shapes (typed_process_view p.now)) }
    ensures ready { IfOk result (λ f. IsWellFormedBlock (typed_process_view p.now).body → IsAllReached (flow_of types.now.shapes (typed_process_view p.now)) → IsReady types.now.shapes (typed_process_view p.now) f) }
{
    let points = points_of(alloc, types, p, Kept::All)?;
    Ok(Flow {
        points: points.whole,
    })
}

/// The flow of a process without its edges to ends, which no control path to a statement takes, and without edges that others of
/// their point cover: in place of such an edge a path may take one that leads to the same statement and holds no more behind it, so
/// what is held at points, what is missing there and how long the paths are that show it are the same. Which of the edges that are
/// covered are left out is not said. Exceptions that no handler catches cost nothing, however many a callmessage declares. The types
/// beside the paths of the process are those of the values at them.
///
/// Where control reaches each statement, the flow begins at its first point.
///
/// # Errors
///
/// Where memory is wanting.
pub fn onward_flow_of(
    alloc: Global,
    types: &TypeTable,
    p: &TypedProcess,
) -> Result<OnwardFlow, AllocError>
    requires known { KnowsTypes types.now.shapes p.now }
    ensures points { IfOk result (λ f. AreOnward (flow_of types.now.shapes (typed_process_view p.now)).points (map onward_point_view f.points.items)) }
    ensures flow { IfOk result (λ f. IsAllReached (flow_of types.now.shapes (typed_process_view p.now)) → IsOnwardFlow (flow_of types.now.shapes (typed_process_view p.now)) (onward_flow_view f)) }
{
    let points = points_of(alloc, types, p, Kept::Onward)?;
    Ok(OnwardFlow {
        points: points.onward,
    })
}
